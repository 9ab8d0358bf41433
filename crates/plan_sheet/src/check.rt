// The check of the plan that a sheet says.
ghost use Rattle.std.specs.Prelude.{◌≡◌, is_ok};
ghost use Rattle.plan.specs.Check.{checked, rows_of};
ghost use Rattle.refusal.specs.Questions.{told_by};
ghost use Rattle.plan_sheet.specs.Faults.{plan_refusal};
ghost use Rattle.plan_sheet.specs.Views.{timing_told};
ghost use Rattle.plan_sheet.specs.Accepts.{accepted_timing, checked_sheet, Accepts};

use crate::fault::PlanFault;
use crate::read::read_plan;
use model::Model;
use plan::check::check;
use plan::limits::Limit;
use plan::plan::Plan;

// The check, with its refusal as a plan's.
fn check_plan<M: Model>(model: &M, limits: &[Limit], plan: &Plan) -> Result<usize, PlanFault>
    ensures { told_by plan_refusal result ≡ checked (M.Model.meaning model.now) limits.now plan.now.start (rows_of plan.now) }
{
    Ok(check(model, limits, plan)?)
}

// How many rows the plan of an accepted sheet has.
pub fn check_sheet<M: Model>(model: &M, limits: &[Limit], bytes: &[u8]) -> Result<usize, PlanFault>
    ensures is { told_by plan_refusal result ≡ checked_sheet (M.Model.meaning model.now) limits.now bytes.now }
    ensures accepts { Accepts (M.Model.meaning model.now) limits.now bytes.now (is_ok result) }
{
    Ok(accepted_plan(model, limits, bytes)?.length())
}

// The plan that a sheet says, if the check accepts it.
pub fn accepted_plan<M: Model>(model: &M, limits: &[Limit], bytes: &[u8]) -> Result<Plan, PlanFault>
    ensures is { timing_told result ≡ accepted_timing (M.Model.meaning model.now) limits.now bytes.now }
    ensures accepts { Accepts (M.Model.meaning model.now) limits.now bytes.now (is_ok result) }
{
    let read = read_plan(model, bytes)?;
    check_plan(model, limits, &read.item)?;
    Ok(read.item)
}
