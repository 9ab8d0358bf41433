// A linear model is a model.
ghost use Rattle.std.specs.Prelude.{◌≡◌};
ghost use Rattle.model.specs.Model.{stepped};
ghost use Rattle.linear.specs.Code.{lines};
ghost use Rattle.linear.specs.Lines.{linear, cut_off, ClearWhereFits};
ghost use Rattle.linear.specs.Laws;
ghost use Rattle.linear.specs.Ranges.{sound};

use super::Linear;
use model::states::{capped_by, fits_modes, lowest_place_above};
use model::{Answer, Cause, Model as QueueModel, Step};

// One signal has all the modes.
const SIGNALS: usize = 1;

// What a step says of the lowest place that its top cuts off.
fn verdict(lowest: Option<usize>) -> Answer
    ensures { result ≡ cut_off lowest }
{
    lowest.map_or(Answer::Clear, |place| Answer::Held(place, Cause::Overflow))
}

impl QueueModel for Linear {
    ghost meaning = { λ m. linear (lines m) };

    ghost lawful = { λ m. Laws.lawful (lines m) (sound m) };

    fn places(&self) -> usize {
        self.places.len()
    }

    fn signals(&self) -> usize {
        SIGNALS
    }

    fn top(&self, place: usize) -> u32 {
        self.place(place).map_or(0, |found| found.top)
    }

    fn load(&self, place: usize) -> u32 {
        self.place(place).map_or(0, |found| found.load)
    }

    fn legal(&self, row: [u8; 32]) -> bool {
        fits_modes(&[self.modes], &row)
    }

    // Over the places that there are: the trait's own `tops` and `loads` ask for each of 64, which costs a model of a few places more than its step.
    fn tops(&self) -> [u32; 64] {
        let mut tops = [0; 64];
        for (k, place) in self.places.iter().enumerate() {
            tops[k] = place.top;
        }
        tops
    }

    fn loads(&self) -> [u32; 64] {
        let mut loads = [0; 64];
        for (k, place) in self.places.iter().enumerate() {
            loads[k] = place.load;
        }
        loads
    }

    #[tactic(auto, unfolding(model::specs::Model::dark_row))]
    fn dark(&self) -> [u8; 32] {
        [0; 32]
    }

    // Both models cap, move and cap again; what moves and what is held is each one's own, and so is the promise.
    // Clear exactly where no top cuts a value off.
    fn step(&self, row: [u8; 32], state: [u32; 64], arrivals: [u32; 64]) -> Step
        ensures is { result ≡ stepped (linear (lines self.now)) row state arrivals }
        ensures clear_where_fits { ClearWhereFits (lines self.now) row state arrivals result.answer }
    {
        let tops = self.tops();
        let values = capped_by(&tops, &state);
        let coming = capped_by(&self.loads(), &arrivals);
        let lamps = self.lamps(row);
        let amounts = self.amounts(lamps[0], &values, &coming);
        let next = capped_by(&tops, &amounts);
        let answer = verdict(lowest_place_above(&amounts, &tops));
        Step { next, answer }
    }
}
