// From the bytes of an input to its verdict.
ghost use Rattle.std.specs.Prelude.{◌≡◌, IfOk};
ghost use Rattle.plan_sheet.specs.Accepts.{checked_sheet};
ghost use Rattle.verdict.specs.Judged.{verdict_of, verdict_after, Faulted, verdict_on, ModelSaid, Right};

use crate::verdict::Verdict;
use linear_sheet::read::{LinearSheet, is_linear};
use model::Model;
use model_sheet::ModelSheet;
use network_sheet::read::NetworkSheet;
use plan::limits::Limit;
use plan_sheet::check::check_sheet;
use records::fault::ModelFault;
use std::alloc::{AllocError, Global};
use words::word::rest_of;

// The verdict on a plan sheet for the model.
fn judge_plan<M: Model>(model: &M, limits: &[Limit], sheet: &[u8]) -> Verdict
    ensures { result ≡ verdict_of (checked_sheet (M.Model.meaning model.now) limits.now sheet.now) }
{
    match check_sheet(model, limits, sheet) {
        Ok(rows) => Verdict::Shelved(rows),
        Err(fault) => Verdict::Refused(fault.into()),
    }
}

// The verdict where no model was read: its sheet's refusal, or the error that came.
// A day makes a text of the same fault: one function for both would take a closure for all that this one says.
fn judge_fault(why: ModelFault) -> Result<Verdict, AllocError>
    ensures { Faulted why result }
{
    match why {
        ModelFault::Sheet(fault) => Ok(Verdict::Refused(fault.into())),
        ModelFault::Memory(error) => Err(error),
    }
}

// The verdict on an input that holds a model sheet of this kind and a plan sheet.
fn judge_model<S: ModelSheet>(heap: Global, input: &[u8]) -> Result<Verdict, AllocError>
    ensures is { IfOk result (λ v. v ≡ verdict_after (S.sheet input.now) input.now) }
    ensures right { IfOk result (Right (S.says input.now) input.now) }
{
    match S::read(heap, input) {
        Ok(read) => Ok(judge_plan(
            &read.model,
            read.limits.as_slice(),
            rest_of(input, read.end),
        )),
        Err(why) => judge_fault(why),
    }
}

// The verdict on an input: a model sheet, whose first word tells the model, and then, counted from its end, a plan sheet.
// There are two kinds of model, so an `if` names both.
// An error is want of memory.
pub fn judge(heap: Global, input: &[u8]) -> Result<Verdict, AllocError>
    ensures is { IfOk result (λ v. v ≡ verdict_on input.now) }
    ensures right { IfOk result (Right (ModelSaid input.now) input.now) }
{
    if is_linear(input) {
        judge_model::<LinearSheet>(heap, input)
    } else {
        judge_model::<NetworkSheet>(heap, input)
    }
}
