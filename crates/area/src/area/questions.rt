// The questions that the calls ask before they do anything.
ghost use Rattle.std.specs.Prelude.{◌≡◌};
ghost use Rattle.model.specs.State.{lowest_above};
ghost use Rattle.lives.specs.Area.{slot};
ghost use Rattle.lives.specs.Calls.{ask, ask_below, ask_covered, ask_duty, ask_off};
ghost use Rattle.lives.specs.Faults.{area_refusal};
ghost use Rattle.area.specs.Code.{asked, found, shelf_of, timing_told};

use crate::area::{Area, Book, Duty};
use lives::fault::AreaFault;
use lives::state::State;
use model::states::lowest_place_above;
use plan::plan::Plan;
use street::Street;
use street::queues::queues_of;

// A question, with the fault of a no.
pub(crate) fn ask(yes: bool, fault: AreaFault) -> Result<(), AreaFault>
    ensures { asked result ≡ ask yes (area_refusal fault) }
{
    if yes { Ok(()) } else { Err(fault) }
}

impl Book {
    // Is the area off line?
    pub(crate) fn off_line(&self) -> Result<(), AreaFault>
        ensures { asked result ≡ ask_off self.now.position.state }
    {
        ask(
            matches!(self.position.state, State::OffLine),
            AreaFault::OnLine,
        )
    }

    // Is the area covered?
    pub(crate) fn covered(&self) -> Result<(), AreaFault>
        ensures { asked result ≡ ask_covered self.now.position.state }
    {
        ask(
            matches!(self.position.state, State::Covered),
            AreaFault::NotCovered,
        )
    }

    // Is there a plan under that number?
    pub(crate) fn plan_at(&self, number: usize) -> Result<Plan, AreaFault>
        ensures { timing_told result ≡ found (slot (shelf_of self.now.shelf) number) }
    {
        self.plan_under(number).ok_or(AreaFault::NoPlan)
    }

    // Is the envelope at or below the plan's start? The queues are asked likewise, with a fault of their own.
    pub(crate) fn envelope_fits(&self, plan: &Plan) -> Result<(), AreaFault>
        ensures { asked result ≡ ask_below 22 (lowest_above self.now.position.envelope plan.now.start) }
    {
        lowest_place_above(&self.position.envelope, &plan.start).map_or(
            Ok(()),
            |place| Err(AreaFault::EnvelopeAbove(place)),
        )
    }
}

impl<S: Street> Area<S> {
    // Is the area on line, and the duty its own?
    pub(crate) fn on_duty(&self, duty: &Duty) -> Result<(), AreaFault>
        ensures { asked result ≡ ask_duty self.now.book.position.state self.now.number duty.now.area }
    {
        ask(
            !matches!(self.book.position.state, State::OffLine) && duty.area == self.number,
            AreaFault::NoDuty,
        )
    }

    // Is every queue at or below the plan's start?
    pub(crate) fn queues_fit(&self, plan: &Plan) -> Result<(), AreaFault>
        ensures { asked result ≡ ask_below 19 (lowest_above (S.Street.seen self.now.street).queues plan.now.start) }
    {
        lowest_place_above(&queues_of(&self.street), &plan.start).map_or(
            Ok(()),
            |place| Err(AreaFault::QueueAbove(place)),
        )
    }
}
