// A whole day of an area: the lines of its calls, or the refusal of a sheet.
ghost use Rattle.std.specs.Prelude.{◌≡◌, IfOk, None, is_ok, string_bytes};
ghost use Rattle.area.specs.Code.{area_of, limits_of};
ghost use Rattle.day.specs.Running.{held, InHand};
ghost use Rattle.day.specs.Whole.{LineRun, Lines, Faulted, DayLines, DayOn, Printed};

use crate::call::DayCall;
use crate::lines::write_line;
use crate::read::read_day;
use crate::run::{Ran, close, run_call};
use area::area::{Area, Duty};
use linear_sheet::read::{LinearSheet, is_linear};
use model::Model;
use model_sheet::{ModelRead, ModelSheet};
use network_sheet::read::NetworkSheet;
use plan::limits::Limit;
use records::fault::ModelFault;
use refusal::Refusal;
use std::alloc::{AllocError, Global};
use street::Street;
use street::counted::CountedStreet;
use words::word::rest_of;

// The duty in hand, and the error of the first line that there was no memory for.
struct Shift {
    hand: Option<Duty>,
    written: Result<(), AllocError>,
}

// The area, its lines and the sheet stay apart: the area outlives the lines, and the sheet outlives both.
// One call more, and its line.
fn next_line<S: Street>(
    area: &mut Area<S>,
    shift: Shift,
    call: DayCall,
    sheet: &[u8],
    places: usize,
    out: &mut String,
) -> Shift
    requires { InHand (area_of S.Street.seen area.old) (held shift.hand) }
    ensures { LineRun S.Model.meaning S.Street.seen sheet.now places call area.old (held shift.hand) (string_bytes out.old) (is_ok shift.written) area.new (held result.hand) (string_bytes out.new) (is_ok result.written) }
{
    let Shift { hand, written } = shift;
    let Ran { done, hand } = run_call(area, hand, call, sheet);
    let line = write_line(out, area, places, call, done);
    Shift {
        hand,
        written: written.and(line),
    }
}

// The lines of these calls; a duty still in hand at the end is given back.
fn run_calls<S: Street>(
    heap: Global,
    area: &mut Area<S>,
    places: usize,
    calls: &[DayCall],
    sheet: &[u8],
) -> Result<String, AllocError>
    ensures { IfOk result (λ s. Lines (S.Model.meaning area.old.street) (limits_of area.old) sheet.now places calls.now (area_of S.Street.seen area.old) None (string_bytes s)) }
{
    let mut out = String::new(heap);
    let mut shift = Shift {
        hand: None,
        written: Ok(()),
    };
    for call in calls {
        shift = next_line(area, shift, *call, sheet, places, &mut out);
    }
    let Shift { hand, written } = shift;
    close(area, hand);
    written?;
    Ok(out)
}

// The line of a sheet that was refused; an error is want of memory.
// A verdict is made of the same fault: one function for both would take a closure for all that this one says.
fn fault_line(heap: Global, why: ModelFault) -> Result<String, AllocError>
    ensures { Faulted string_bytes why result }
{
    match why {
        ModelFault::Sheet(fault) => {
            let refusal = Refusal::from(fault);
            format!(in heap; "refused {refusal}\n")
        }
        ModelFault::Memory(error) => Err(error),
    }
}

// The day of a sheet: an area over a counted street of the model.
fn run_sheet<M: Model + Drop>(
    heap: Global,
    model: M,
    limits: Vec<Limit>,
    sheet: &[u8],
) -> Result<String, AllocError>
    ensures { IfOk result (λ s. DayLines (M.Model.meaning model) limits.items sheet.now (string_bytes s)) }
{
    match read_day(heap, &model, sheet) {
        Ok(day) => {
            let places = model.places();
            let street = CountedStreet::new(model, day.queues, day.groups.as_slice());
            let mut area = Area::new(street, limits, day.number);
            run_calls(heap, &mut area, places, day.calls.as_slice(), sheet)
        }
        Err(why) => fault_line(heap, why),
    }
}

// The day on an input that holds a model sheet of this kind and a day sheet.
fn day_of<S: ModelSheet>(heap: Global, input: &[u8]) -> Result<String, AllocError>
    ensures { IfOk result (λ s. DayOn (S.sheet input.now) input.now (string_bytes s)) }
{
    match S::read(heap, input) {
        Ok(ModelRead { model, limits, end }) => run_sheet(heap, model, limits, rest_of(input, end)),
        Err(why) => fault_line(heap, why),
    }
}

// What is printed of an input: a model sheet, whose first word tells the model, and then, counted from its end, a day sheet.
// There are two kinds of model, so an `if` names both.
// An error is want of memory.
pub fn run_day(heap: Global, input: &[u8]) -> Result<String, AllocError>
    ensures { IfOk result (λ s. Printed input.now (string_bytes s)) }
{
    if is_linear(input) {
        day_of::<LinearSheet>(heap, input)
    } else {
        day_of::<NetworkSheet>(heap, input)
    }
}
