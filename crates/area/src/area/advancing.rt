// The step of an area: it shows the current row, and row, envelope and state move by what the street answers.
ghost use Rattle.std.specs.Prelude.{◌≡◌, length, slice_index_or};
ghost use Rattle.plan.specs.Limits.{first_broken};
ghost use Rattle.lives.specs.Area.{rows_on, row_after, cover_after};
ghost use Rattle.lives.specs.Calls.{advance, street};
ghost use Rattle.area.specs.Code.{Called, outcome, book_of, limits_of};
ghost use Rattle.area.specs.Steps.{standing, covered_after, position_after};

use crate::area::{Area, Book, Duty, Position};
use lives::fault::AreaFault;
use lives::state::{Loss, State};
use model::Answer;
use plan::limits::first_broken;
use street::{Showing, Street};

impl Book {
    // The current row of the plan on line; the dark row where there is none.
    fn current_row(&self, dark: [u8; 32]) -> [u8; 32]
        ensures { result ≡ slice_index_or (rows_on (book_of self.now)) self.now.position.row dark }
    {
        // a `map_or` would need a clause at its closure, since that would hold an array
        match self.plan_on() {
            Some(plan) => plan.row_or(self.position.row, dark),
            None => dark,
        }
    }

    // The row after the current one, from the last to row 0; a dark step stays.
    fn next_row(&self, answer: Showing) -> usize
        ensures { result ≡ row_after answer self.now.position.row (length (rows_on (book_of self.now))) }
    {
        let row = self.position.row;
        let count = self.plan_on().map_or(0, |plan| plan.length());
        match answer {
            Showing::Shown => row.checked_add(1).filter(|next| *next < count).unwrap_or(0),
            Showing::Dark => row,
        }
    }

    // Whether cover is kept after the current row: held comes before limit.
    fn judged(&self, answer: Answer, next: &[u32; 64]) -> State
        ensures { result ≡ cover_after self.now.position.row answer (first_broken self.now.limits.items next.now) }
    {
        let row = self.position.row;
        match answer {
            Answer::Held(place, _) => State::Lost(Loss::PlaceHeld(row, place)),
            Answer::Clear => first_broken(self.limits.as_slice(), next).map_or(
                State::Covered,
                |limit| State::Lost(Loss::LimitBroken(row, limit)),
            ),
        }
    }
}

impl<S: Street> Area<S> {
    // In a state and at a row; without cover the envelope is the tops.
    fn standing(&self, state: State, row: usize, next: [u32; 64]) -> Position
        ensures { result ≡ standing (S.Model.meaning self.now.street) state row next }
    {
        let envelope = match state {
            State::Covered => next,
            State::OffLine | State::Lost(_) => self.street.tops(),
        };
        Position {
            state,
            row,
            envelope,
        }
    }

    // Where a covered area stands after a step under these lamps.
    fn from_covered(&self, lamps: [u8; 32], row: usize) -> Position
        ensures { result ≡ covered_after (S.Model.meaning self.now.street) (limits_of self.now) lamps self.now.book.position row }
    {
        let loads = self.street.loads();
        let step = self.street.step(lamps, self.book.position.envelope, loads);
        let state = self.book.judged(step.answer, &step.next);
        self.standing(state, row, step.next)
    }

    // Where an area stands after a step with this row, by its state together with the street's answer.
    fn moved(&self, row: [u8; 32], answer: Showing) -> Position
        ensures { result ≡ position_after (S.Model.meaning self.now.street) (limits_of self.now) row (length (rows_on (book_of self.now.book))) answer self.now.book.position }
    {
        let next = self.book.next_row(answer);
        let lamps = match answer {
            Showing::Shown => row,
            Showing::Dark => self.street.dark(),
        };
        match self.book.position.state {
            State::Covered => self.from_covered(lamps, next),
            state => self.standing(state, next, self.book.position.envelope),
        }
    }

    // One step: shows the current row, and answers as the street did.
    pub fn advance(&mut self, held: &Duty) -> Result<Showing, AreaFault>
        ensures { Called S.Model.meaning S.Street.seen self.old (advance held.now.area) (outcome street result) self.new }
    {
        self.on_duty(held)?;
        let row = self.book.current_row(self.street.dark());
        let answer = self.street.show(row);
        let position = self.moved(row, answer);
        self.book.position = position;
        Ok(answer)
    }
}
