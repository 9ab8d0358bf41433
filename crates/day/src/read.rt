// Reading a day sheet: the sections `area`, `queues`, `groups` and `calls`.
ghost use Rattle.std.specs.Prelude.{◌≡◌};
ghost use Rattle.words.specs.Faults.{told};
ghost use Rattle.records.specs.Sections.{ToldAs};
ghost use Rattle.day.specs.Day.{area_section, queues_section, sections, day_sheet, day_of};

use crate::call::{CallRecord, DayCall};
use crate::group::GroupRecord;
use crate::table::read_numbers;
use model::Model;
use records::fault::ModelFault;
use records::read_section;
use std::alloc::Global;
use street::groups::Group;
use words::fault::SheetFault;
use words::number::{number, section};
use words::reading::Reading;
use words::recorded::Recorded;
use words::word::short_enough;

// The area's number, the queues and groups of its street, and the calls.
#[derive(Drop)]
pub struct Day {
    pub number: u32,
    pub queues: [u32; 64],
    pub groups: Vec<Group>,
    pub calls: Vec<DayCall>,
}

// The area's number: a section with no records.
fn area_section(bytes: &[u8], at: usize) -> Result<Reading<u32>, SheetFault>
    ensures { told result ≡ area_section bytes.now at }
{
    let named = section(bytes, at, b"area")?;
    number(bytes, named, 0, 999_999_999)
}

// A queue for each place: exactly the model's places. With the start of a plan it shares the reading of the table alone,
// since its queues have no tops.
fn queues_section<M: Model>(
    model: &M,
    bytes: &[u8],
    at: usize,
) -> Result<Recorded<[u32; 64]>, SheetFault>
    ensures { told result ≡ queues_section (M.Model.meaning model.now) bytes.now at }
{
    // the cast loses nothing, since a model has at most 64 places: `try_from` would name an error that never comes
    let places = model.places() as u32;
    let named = section(bytes, at, b"queues")?;
    let count = number(bytes, named, places, places)?;
    read_numbers(model, bytes, count.end)
}

// The four sections, one after the other: at most 64 groups, and at most 1000 calls.
fn read_sections<M: Model>(heap: Global, model: &M, bytes: &[u8]) -> Result<Day, ModelFault>
    ensures { ToldAs day_of result (sections (M.Model.meaning model.now) bytes.now) }
{
    let area = area_section(bytes, 0)?;
    let queues = queues_section(model, bytes, area.end)?;
    let groups = read_section(
        heap,
        &GroupRecord { model },
        bytes,
        queues.end,
        b"groups",
        0,
        64,
    )?;
    let calls = read_section(
        heap,
        &CallRecord { model },
        bytes,
        groups.end,
        b"calls",
        0,
        1000,
    )?;
    let Recorded { item, end: _ } = queues;
    Ok(Day {
        number: area.value,
        queues: item,
        groups: groups.items,
        calls: calls.items,
    })
}

// The day that a sheet says for the model.
pub fn read_day<M: Model>(heap: Global, model: &M, bytes: &[u8]) -> Result<Day, ModelFault>
    ensures { ToldAs day_of result (day_sheet (M.Model.meaning model.now) bytes.now) }
{
    short_enough(bytes)?;
    read_sections(heap, model, bytes)
}
