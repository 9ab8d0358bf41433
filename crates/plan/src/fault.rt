// Why the check turns a plan down.
ghost use Rattle.std.specs.Prelude.{◌≡◌};
ghost use Rattle.plan.specs.Faults.{check_refusal};

use refusal::Refusal;

#[derive(Clone, Copy, PartialEq, Eq, Debug)]
pub enum CheckFault {
    // before this row the state breaks this limit
    LimitBroken(usize, usize),
    // at this row this place is blocked
    Blocked(usize, usize),
    // at this row the top of this place cuts its queue off
    Overflow(usize, usize),
    // after this many rows this place is above the start
    EndAbove(usize, usize),
}

// The number of the question that was answered no, and its two places.
impl From<CheckFault> for Refusal {
    ghost from_gives = { λ e r. r ≡ check_refusal e };

    fn from(fault: CheckFault) -> Refusal {
        let (number, a, b) = match fault {
            CheckFault::LimitBroken(row, limit) => (13, row, limit),
            CheckFault::Blocked(row, place) => (14, row, place),
            CheckFault::Overflow(row, place) => (15, row, place),
            CheckFault::EndAbove(rows, place) => (16, rows, place),
        };
        Refusal { number, a, b }
    }
}
