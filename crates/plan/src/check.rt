// The check of a plan: its heaviest run, one round from the start under the greatest arrivals.
// It is one text for every model.
ghost use Rattle.std.specs.Prelude.{◌≡◌};
ghost use Rattle.refusal.specs.Questions.{told_by};
ghost use Rattle.model.specs.State.{lowest_above};
ghost use Rattle.plan.specs.Faults.{check_refusal};
ghost use Rattle.plan.specs.Check.{rows_of, check_row, ask_end};
ghost use Rattle.plan.specs.Accepts.{Checked};

use crate::fault::CheckFault;
use crate::limits::{Limit, first_broken};
use crate::plan::Plan;
use model::states::lowest_place_above;
use model::{Answer, Cause, Model};

// The state after row n, or why that row is turned down.
fn pass_row<M: Model>(
    model: &M,
    limits: &[Limit],
    n: usize,
    row: [u8; 32],
    state: [u32; 64],
    loads: [u32; 64],
) -> Result<[u32; 64], CheckFault>
    requires { loads ≡ (M.Model.meaning model.now).loads }
    ensures { told_by check_refusal result ≡ check_row (M.Model.meaning model.now) limits.now n row state }
{
    if let Some(limit) = first_broken(limits, &state) {
        return Err(CheckFault::LimitBroken(n, limit));
    }
    let step = model.step(row, state, loads);
    match step.answer {
        Answer::Clear => Ok(step.next),
        Answer::Held(place, Cause::Blocked) => Err(CheckFault::Blocked(n, place)),
        Answer::Held(place, Cause::Overflow) => Err(CheckFault::Overflow(n, place)),
    }
}

// The count of the rows, unless the state after the last of them is above the start.
fn pass_end(count: usize, state: &[u32; 64], start: &[u32; 64]) -> Result<usize, CheckFault>
    ensures { told_by check_refusal result ≡ ask_end count (lowest_above state.now start.now) }
{
    match lowest_place_above(state, start) {
        Some(place) => Err(CheckFault::EndAbove(count, place)),
        None => Ok(count),
    }
}

// The count of the plan's rows, or the first no along its heaviest run.
// The model and the limits come apart, since an area holds its limits beside its street and would make a pair of them for each check.
pub fn check<M: Model>(model: &M, limits: &[Limit], plan: &Plan) -> Result<usize, CheckFault>
    ensures { Checked (M.Model.meaning model.now) limits.now plan.now.start (rows_of plan.now) result }
{
    let rows = plan.rows();
    let loads = model.loads();
    let mut state = plan.start;
    // the number of the row is told where it is turned down
    for (n, row) in rows.iter().enumerate() {
        state = pass_row(model, limits, n, *row, state, loads)?;
    }
    pass_end(rows.len(), &state, &plan.start)
}
