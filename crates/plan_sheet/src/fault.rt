// Why a plan sheet is refused.
ghost use Rattle.std.specs.Prelude.{◌≡◌};
ghost use Rattle.plan_sheet.specs.Faults.{plan_refusal};
ghost use Rattle.plan_sheet.specs.declared.fault.PlanFault.TheVariants.{Sheet, Check};

use plan::fault::CheckFault;
use refusal::Refusal;
use words::fault::SheetFault;

#[derive(Clone, Copy, PartialEq, Eq, Debug)]
pub enum PlanFault {
    // its words do not say a plan: the sheet's refusal, unchanged
    Sheet(SheetFault),
    // the check turns its plan down
    Check(CheckFault),
}

impl From<SheetFault> for PlanFault {
    ghost from_gives = { λ e r. r ≡ Sheet e };

    fn from(e: SheetFault) -> PlanFault {
        PlanFault::Sheet(e)
    }
}

impl From<CheckFault> for PlanFault {
    ghost from_gives = { λ e r. r ≡ Check e };

    fn from(e: CheckFault) -> PlanFault {
        PlanFault::Check(e)
    }
}

// The refusal of the sheet or of the check, unchanged.
impl From<PlanFault> for Refusal {
    ghost from_gives = { λ e r. r ≡ plan_refusal e };

    fn from(fault: PlanFault) -> Refusal {
        match fault {
            PlanFault::Sheet(f) => f.into(),
            PlanFault::Check(f) => f.into(),
        }
    }
}
