// Putting plans on the shelf, and finding them there.
ghost use Rattle.std.specs.Prelude.{◌≡◌, ◌+◌, ◌<◌, IfOk};
ghost use Rattle.lives.specs.Area.{slot};
ghost use Rattle.lives.specs.Calls.{shelve, rows, else_ask, ask_number, ask_empty};
ghost use Rattle.plan_sheet.specs.Accepts.{accepted_timing};
ghost use Rattle.area.specs.Code.{Called, outcome, asked, shelf_of, number_on, timing_in, timing_told};

use crate::area::{Area, Book};
use lives::fault::AreaFault;
use plan::plan::Plan;
use plan_sheet::check::accepted_plan;
use street::Street;

impl Book {
    // The plan under a shelf number.
    #[tactic(auto, using(crate::proofs::Shelf::slot_in))]
    pub(crate) fn plan_under(&self, number: usize) -> Option<Plan>
        ensures { timing_in result ≡ slot (shelf_of self.now.shelf) number }
    {
        *self.shelf.get(number.checked_sub(1)?)?
    }

    // The plan on line.
    pub(crate) fn plan_on(&self) -> Option<Plan>
        ensures { timing_in result ≡ slot (shelf_of self.now.shelf) (number_on self.now.on) }
    {
        self.plan_under(self.on?)
    }

    // Is there such a shelf number, and is nothing under it? Then its place on the shelf, counted from 0.
    fn vacant(&self, number: usize) -> Result<usize, AreaFault>
        ensures asked { asked result ≡ else_ask (ask_number number) (ask_empty (shelf_of self.now.shelf) number) }
        ensures place { IfOk result (λ place. (place < 8) × (number ≡ place + 1)) }
    {
        let place = number.checked_sub(1).ok_or(AreaFault::NoShelf)?;
        match self.shelf.get(place) {
            None => Err(AreaFault::NoShelf),
            Some(Some(_)) => Err(AreaFault::NotEmpty(number)),
            Some(None) => Ok(place),
        }
    }
}

impl<S: Street> Area<S> {
    // The plan of a sheet, if the check accepts it.
    fn plan_for(&self, sheet: &[u8]) -> Result<Plan, AreaFault>
        ensures { timing_told result ≡ accepted_timing (S.Model.meaning self.now.street) self.now.book.limits.items sheet.now }
    {
        let limits = self.book.limits.as_slice();
        Ok(accepted_plan(&self.street, limits, sheet)?)
    }

    // Puts the plan of a sheet under a shelf number, if the check accepts it, and tells how many rows it has.
    pub fn shelve(&mut self, number: usize, sheet: &[u8]) -> Result<usize, AreaFault>
        ensures { Called S.Model.meaning S.Street.seen self.old (shelve number sheet.now) (outcome rows result) self.new }
    {
        let place = self.book.vacant(number)?;
        let plan = self.plan_for(sheet)?;
        let count = plan.length();
        self.book.shelf[place] = Some(plan);
        Ok(count)
    }
}
