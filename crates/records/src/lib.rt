// Sections of a model sheet: a section word, a count, and as many records.
#![tactic(auto)]

ghost use Rattle.std.specs.Prelude.{◌≡◌, ℕ, List};
ghost use Rattle.refusal.specs.Questions.{Told};
ghost use Rattle.words.specs.Faults.{told};
ghost use Rattle.words.specs.declared.recorded.Recorded.{Recorded};
ghost use Rattle.records.specs.Sections.{records_at, table_at, section_of, ListedAs};

use std::alloc::Global;
use words::fault::SheetFault;
use words::number::{number, section};
use words::recorded::Recorded;

pub mod fault;
pub mod number;

use fault::ModelFault;

// What the records of a section say, and where the last of them ended. A vector is dropped and not copied, so this is no `Recorded`.
#[derive(Drop)]
pub struct Listed<T> {
    pub items: Vec<T>,
    pub end: usize,
}

// A kind of record. One is read beside those before it in its section.
pub trait Record {
    type Item: Copy;

    ghost reads: { Self → List ℕ → ℕ → List Self.Item → Told (Recorded Self.Item) };

    fn read(
        &self,
        bytes: &[u8],
        at: usize,
        before: &[Self::Item],
    ) -> Result<Recorded<Self::Item>, SheetFault>
        ensures { told result ≡ reads self.now bytes.now at before.now };
}

// So many records, one after the other.
fn read_records<R: Record>(
    heap: Global,
    kind: &R,
    bytes: &[u8],
    at: usize,
    count: usize,
) -> Result<Listed<R::Item>, ModelFault>
    ensures { ListedAs result (records_at (R.Record.reads kind.now bytes.now) at count) }
{
    let mut items = Vec::new(heap);
    let mut end = at;
    // a count and no list: what is gone over is still to be read
    for _ in 0..count {
        let read = kind.read(bytes, end, &items)?;
        items.push(read.item)?;
        end = read.end;
    }
    Ok(Listed { items, end })
}

// So many records, but at most N, as a table; beyond the last of them it holds `rest`.
// A loop over places: each record is read beside those before it, and from where the last of them ended.
pub fn read_table<R: Record, const N: usize>(
    kind: &R,
    bytes: &[u8],
    at: usize,
    count: usize,
    rest: R::Item,
) -> Result<Recorded<[R::Item; N]>, SheetFault>
    ensures { told result ≡ table_at (R.Record.reads kind.now bytes.now) N rest at count }
{
    let mut table = [rest; N];
    let mut end = at;
    for k in 0..count.min(N) {
        let read = kind.read(bytes, end, &table[..k])?;
        table[k] = read.item;
        end = read.end;
    }
    Ok(Recorded { item: table, end })
}

// A whole section: its word, its count from `low` to `high`, and its records.
pub fn read_section<R: Record>(
    heap: Global,
    kind: &R,
    bytes: &[u8],
    at: usize,
    word: &[u8],
    low: u32,
    high: u32,
) -> Result<Listed<R::Item>, ModelFault>
    ensures { ListedAs result (section_of (R.Record.reads kind.now bytes.now) bytes.now at word.now low high) }
{
    let named = section(bytes, at, word)?;
    let count = number(bytes, named, low, high)?;
    // the cast loses nothing, since the number is in its range: `try_from` would name an error that never comes
    read_records(heap, kind, bytes, count.end, count.value as usize)
}
