// Why a call of an area is refused.
ghost use Rattle.std.specs.Prelude.{◌≡◌};
ghost use Rattle.lives.specs.Faults.{area_refusal};
ghost use Rattle.lives.specs.declared.fault.AreaFault.TheVariants.{Plan};

use plan_sheet::fault::PlanFault;
use refusal::Refusal;

#[derive(Clone, Copy, PartialEq, Eq, Debug)]
pub enum AreaFault {
    // there is no such shelf number
    NoShelf,
    // a plan stands under this shelf number
    NotEmpty(usize),
    // the plan is refused: its own refusal, unchanged
    Plan(PlanFault),
    // a plan is on line
    OnLine,
    // no plan stands under that number
    NoPlan,
    // the queue at this place is above the plan's start
    QueueAbove(usize),
    // the area is off line, or the duty is another area's
    NoDuty,
    // cover is lost
    NotCovered,
    // the envelope at this place is above the plan's start
    EnvelopeAbove(usize),
}

impl From<PlanFault> for AreaFault {
    ghost from_gives = { λ e r. r ≡ Plan e };

    fn from(e: PlanFault) -> AreaFault {
        AreaFault::Plan(e)
    }
}

impl From<AreaFault> for Refusal {
    ghost from_gives = { λ e r. r ≡ area_refusal e };

    fn from(e: AreaFault) -> Refusal {
        let (number, a) = match e {
            AreaFault::NoShelf => (11, 0),
            AreaFault::NotEmpty(number) => (12, number),
            AreaFault::Plan(fault) => return fault.into(),
            AreaFault::OnLine => (17, 0),
            AreaFault::NoPlan => (18, 0),
            AreaFault::QueueAbove(place) => (19, place),
            AreaFault::NoDuty => (20, 0),
            AreaFault::NotCovered => (21, 0),
            AreaFault::EnvelopeAbove(place) => (22, place),
        };
        Refusal { number, a, b: 0 }
    }
}
