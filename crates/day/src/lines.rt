// The line of a call: its word, what it came to, and how the area then stands.
ghost use Rattle.std.specs.Prelude.{◌≡◌, ◌++◌, Some, string_bytes, OnOk};
ghost use Rattle.area.specs.Code.{area_of};
ghost use Rattle.day.specs.Text.{call_text, done_text, head_text, line_text};

use crate::call::DayCall;
use crate::run::Done;
use area::area::Area;
use std::alloc::AllocError;
use std::fmt;
use street::Street;

impl fmt::Display for DayCall {
    ghost output = { λ c. Some (call_text c) };

    fn fmt<W: fmt::Write>(&self, f: &mut fmt::Formatter<W>) -> fmt::Result {
        match self {
            DayCall::Shelve(_, _) => write!(f, "shelve"),
            DayCall::Take(_) => write!(f, "take"),
            DayCall::Advance => write!(f, "advance"),
            DayCall::Change(_) => write!(f, "change"),
            DayCall::Give => write!(f, "give"),
        }
    }
}

impl fmt::Display for Done {
    ghost output = { λ d. Some (done_text d) };

    fn fmt<W: fmt::Write>(&self, f: &mut fmt::Formatter<W>) -> fmt::Result {
        match self {
            Done::Shelved(rows) => write!(f, "shelved {rows}"),
            Done::Duty(number) => write!(f, "duty {number}"),
            Done::Shown => write!(f, "shown"),
            Done::Dark => write!(f, "dark"),
            Done::Changed => write!(f, "changed"),
            Done::Given => write!(f, "given"),
            Done::Refused(refusal) => write!(f, "refused {refusal}"),
            Done::NoDuty => write!(f, "no duty"),
        }
    }
}

// The line up to the numbers of the envelope.
fn write_head<S: Street>(
    out: &mut String,
    area: &Area<S>,
    call: DayCall,
    done: Done,
) -> Result<(), AllocError>
    ensures { OnOk result (string_bytes out.new ≡ string_bytes out.old ++ head_text call done (area_of S.Street.seen area.now).book.state (area_of S.Street.seen area.now).book.row) }
{
    let state = area.state();
    let row = area.row();
    write!(out, "{call} {done} {state} row {row} envelope")
}

// The whole line of a call, after which the area stands as it does.
pub(crate) fn write_line<S: Street>(
    out: &mut String,
    area: &Area<S>,
    places: usize,
    call: DayCall,
    done: Done,
) -> Result<(), AllocError>
    ensures { OnOk result (string_bytes out.new ≡ string_bytes out.old ++ line_text call done (area_of S.Street.seen area.now).book places) }
{
    write_head(out, area, call, done)?;
    // an area tells its envelope place by place, so there is no list to go over
    for k in 0..places {
        let number = area.envelope(k + 1);
        write!(out, " {number}")?;
    }
    writeln!(out)
}
