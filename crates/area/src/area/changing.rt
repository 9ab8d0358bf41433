// Taking a plan on line, changing it for another, and giving the area back.
ghost use Rattle.std.specs.Prelude.{◌≡◌};
ghost use Rattle.lives.specs.Calls.{take, change, give_back, duty, done};
ghost use Rattle.area.specs.Code.{Called, outcome, given, HandedBack};

use crate::area::{Area, Duty, Position, Unspent};
use lives::fault::AreaFault;
use lives::state::State;
use street::Street;

impl<S: Street> Area<S> {
    // Puts the plan under a shelf number on line at its row 0, and hands out the duty to give the area back.
    pub fn take(&mut self, number: usize) -> Result<Duty, AreaFault>
        ensures { Called S.Model.meaning S.Street.seen self.old (take number) (outcome (λ d. duty d.area) result) self.new }
    {
        self.book.off_line()?;
        let plan = self.book.plan_at(number)?;
        self.queues_fit(&plan)?;
        self.book.on = Some(number);
        self.book.position = Position {
            state: State::Covered,
            row: 0,
            envelope: plan.start,
        };
        Ok(Duty { area: self.number })
    }

    // Puts another plan on line at its row 0, and keeps the envelope.
    pub fn change(&mut self, held: &Duty, number: usize) -> Result<(), AreaFault>
        ensures { Called S.Model.meaning S.Street.seen self.old (change held.now.area number) (outcome (λ _. done) result) self.new }
    {
        self.on_duty(held)?;
        self.book.covered()?;
        let plan = self.book.plan_at(number)?;
        self.book.envelope_fits(&plan)?;
        self.book.on = Some(number);
        self.book.position.row = 0;
        Ok(())
    }

    // Goes off line and spends the duty; a refusal hands it back.
    pub fn give_back(&mut self, held: Duty) -> Result<(), Unspent>
        ensures does { Called S.Model.meaning S.Street.seen self.old (give_back held.area) (given result) self.new }
        ensures back { HandedBack held result }
    {
        // a match, since in `map_err` the closure would hold a duty that it cannot let go
        match self.on_duty(&held) {
            Err(fault) => Err(Unspent { duty: held, fault }),
            Ok(()) => {
                let Duty { area: _ } = held;
                self.book.on = None;
                self.book.position = Position::off_line(&self.street);
                Ok(())
            }
        }
    }
}
