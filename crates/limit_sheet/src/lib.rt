// The limits of a model sheet: each a bound, a count of terms, and a place and a weight for each term.
#![tactic(auto)]

ghost use Rattle.std.specs.Prelude.{◌≡◌};
ghost use Rattle.limit_sheet.specs.Limits.{named_in, repeated, term_at, limit_at, limits_section};
ghost use Rattle.records.specs.Sections.{ListedAs};

use plan::limits::{Limit, Term};
use records::fault::ModelFault;
use records::{Listed, Record, read_section, read_table};
use std::alloc::Global;
use words::fault::SheetFault;
use words::number::number;
use words::recorded::Recorded;

// Is this place one of the terms'?
fn names(terms: &[Term], place: usize) -> bool
    ensures { result ≡ named_in place terms.now }
{
    terms.iter().any(|t| t.place == place)
}

// Is a place named more than once?
fn repeats(terms: &[Term]) -> bool
    ensures { result ≡ repeated terms.now }
{
    terms
        .iter()
        .enumerate()
        .any(|(k, t)| names(&terms[k + 1..], t.place))
}

// A term of a limit over a model with so many places.
#[derive(Clone, Copy)]
struct TermRecord {
    places: u32,
}

impl Record for TermRecord {
    type Item = Term;

    ghost reads = { λ s bs. term_at bs s.places };

    fn read(&self, bytes: &[u8], at: usize, before: &[Term]) -> Result<Recorded<Term>, SheetFault> {
        // the cast loses nothing, since the number is in its range: `try_from` would name an error that never comes
        let place = number(bytes, at, 1, self.places)?;
        let weight = number(bytes, place.end, 1, 1000)?;
        let item = Term {
            place: place.value as usize,
            weight: weight.value,
        };
        Ok(Recorded {
            item,
            end: weight.end,
        })
    }
}

// A limit over a model with so many places.
#[derive(Clone, Copy)]
struct LimitRecord {
    places: u32,
}

impl Record for LimitRecord {
    type Item = Limit;

    ghost reads = { λ s bs. limit_at bs s.places };

    fn read(
        &self,
        bytes: &[u8],
        at: usize,
        before: &[Limit],
    ) -> Result<Recorded<Limit>, SheetFault> {
        let bound = number(bytes, at, 0, 999_999_999)?;
        let count = number(bytes, bound.end, 1, 8)?;
        // the cast loses nothing, since the number is in its range: `try_from` would name an error that never comes
        let used = count.value as usize;
        let no_term = Term {
            place: 0,
            weight: 0,
        };
        let kind = TermRecord {
            places: self.places,
        };
        let terms = read_table(&kind, bytes, count.end, used, no_term)?;
        let table = terms.item;
        if repeats(&table[..used]) {
            return Err(SheetFault::RepeatedPlace(bound.place));
        }
        let item = Limit {
            bound: bound.value,
            count: used,
            terms: table,
        };
        Ok(Recorded {
            item,
            end: terms.end,
        })
    }
}

// The section `limits`: at most 32 limits on so many places.
pub fn read_limits(
    heap: Global,
    bytes: &[u8],
    at: usize,
    places: u32,
) -> Result<Listed<Limit>, ModelFault>
    ensures { ListedAs result (limits_section bytes.now places at) }
{
    let kind = LimitRecord { places };
    read_section(heap, &kind, bytes, at, b"limits", 0, 32)
}
