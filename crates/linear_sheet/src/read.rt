// Reading a linear model sheet: the sections `modes`, `places`, `entries` and `limits`.
ghost use Rattle.std.specs.Prelude.{◌≡◌, ◌≤◌, IfOk};
ghost use Rattle.words.specs.Faults.{told};
ghost use Rattle.records.specs.Sections.{ToldAs, ListedAs, Exactly};
ghost use Rattle.linear.specs.Lines.{linear};
ghost use Rattle.model_sheet.specs.Content.{told_meant, Means};
ghost use Rattle.linear_sheet.specs.Linear.{begins_linear, modes_section, places_section, entries_section, sections, linear_sheet, content};
ghost use Rattle.linear_sheet.specs.Says.{Says};

use crate::place::{EntryRecord, PlaceRecord};
use limit_sheet::read_limits;
use linear::linear::Linear;
use linear::place::Place;
use model_sheet::{ModelRead, ModelSheet};
use records::fault::ModelFault;
use records::{Listed, read_section};
use std::alloc::Global;
use words::fault::SheetFault;
use words::number::{number, section};
use words::reading::Reading;
use words::word::short_enough;

// Is the first word the one that begins a linear sheet?
pub fn is_linear(bytes: &[u8]) -> bool
    ensures { result ≡ begins_linear bytes.now }
{
    section(bytes, 0, b"modes").is_ok()
}

// 1 to 8 modes: a section with no records.
fn modes_section(bytes: &[u8], at: usize) -> Result<Reading<u32>, SheetFault>
    ensures is { told result ≡ modes_section bytes.now at }
    ensures within { IfOk result (λ n. (1 ≤ n.value) × (n.value ≤ 8)) }
{
    let named = section(bytes, at, b"modes")?;
    number(bytes, named, 1, 8)
}

// A function for each section, since each has a promise of its own that the promise of the whole is made of.
// 1 to 16 places.
fn places_section(heap: Global, bytes: &[u8], at: usize) -> Result<Listed<Place>, ModelFault>
    ensures { ListedAs result (places_section bytes.now at) }
{
    read_section(heap, &PlaceRecord, bytes, at, b"places", 1, 16)
}

// In each mode a line for each place, and in each line an entry for each place.
fn entries_section(
    heap: Global,
    bytes: &[u8],
    at: usize,
    modes: u32,
    places: u32,
) -> Result<Listed<u32>, ModelFault>
    requires { (modes ≤ 8) × (places ≤ 16) }
    ensures { ListedAs result (entries_section bytes.now modes places at) }
{
    let count = modes * places * places;
    read_section(heap, &EntryRecord, bytes, at, b"entries", count, count)
}

// The four sections, one after the other.
fn read_sections(heap: Global, bytes: &[u8]) -> Result<ModelRead<Linear>, ModelFault>
    ensures { ToldAs content result (sections bytes.now) }
{
    // both casts lose nothing, since the number is in its range: `try_from` would name an error that never comes
    let modes = modes_section(bytes, 0)?;
    let places = places_section(heap, bytes, modes.end)?;
    let count = places.items.len() as u32;
    let entries = entries_section(heap, bytes, places.end, modes.value, count)?;
    let limits = read_limits(heap, bytes, entries.end, count)?;
    let model = Linear {
        modes: modes.value as u8,
        places: places.items,
        entries: entries.items,
    };
    Ok(ModelRead {
        model,
        limits: limits.items,
        end: limits.end,
    })
}

// The linear model and the limits that a sheet says.
pub fn read_linear(heap: Global, bytes: &[u8]) -> Result<ModelRead<Linear>, ModelFault>
    ensures is { ToldAs content result (linear_sheet bytes.now) }
    ensures exact { Exactly content (Says bytes.now) result }
{
    short_enough(bytes)?;
    read_sections(heap, bytes)
}

// The kind of model sheet that says a linear model.
pub struct LinearSheet;

impl ModelSheet for LinearSheet {
    type Made = Linear;

    ghost sheet = { λ bs. told_meant linear (linear_sheet bs) };

    ghost says = { λ bs. Means linear (Says bs) };

    #[tactic(auto, using(crate::proofs::Whole::read_meant))]
    fn read(heap: Global, bytes: &[u8]) -> Result<ModelRead<Linear>, ModelFault> {
        read_linear(heap, bytes)
    }
}
