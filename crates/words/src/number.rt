// Numbers within a range, and section words.
ghost use Rattle.std.specs.Prelude.{◌≡◌, ◌≤◌, true, IfOk};
ghost use Rattle.std.specs.Str.Parse.{digits_value};
ghost use Rattle.words.specs.Faults.{told};
ghost use Rattle.words.specs.Words.{numeral};
ghost use Rattle.words.specs.Numbers.{number_at, section_at};

use crate::fault::SheetFault;
use crate::reading::Reading;
use crate::word::{Word, next_word};

// A loop: that the total fits goes by the digits before, which the closure of a fold does not see.
fn value_of(text: &[u8]) -> u32
    requires { numeral text.now ≡ true }
    ensures { result ≡ digits_value 10 text.now }
{
    let mut n = 0;
    for b in text {
        n = n * 10 + u32::from(*b - b'0');
    }
    n
}

// The next word as a number from `low` to `high`, with the hint of `next_word`.
#[inline(always)]
pub fn number(bytes: &[u8], at: usize, low: u32, high: u32) -> Result<Reading<u32>, SheetFault>
    ensures is { told result ≡ number_at bytes.now at low high }
    ensures within { IfOk result (λ n. (low ≤ n.value) × (n.value ≤ high)) }
{
    match next_word(bytes, at)? {
        Word::Number(text, place) => {
            let value = value_of(text);
            if !(low..=high).contains(&value) {
                return Err(SheetFault::OutOfRange(place));
            }
            Ok(Reading {
                value,
                place,
                end: place + text.len(),
            })
        }
        Word::Name(_, place) => Err(SheetFault::NoNumber(place)),
    }
}

// The next word as the section word `name`; answers where it ended.
pub fn section(bytes: &[u8], at: usize, name: &[u8]) -> Result<usize, SheetFault>
    ensures { told result ≡ section_at bytes.now at name.now }
{
    match next_word(bytes, at)? {
        Word::Name(text, place) if text == name => Ok(place + text.len()),
        Word::Name(_, place) | Word::Number(_, place) => Err(SheetFault::WrongSection(place)),
    }
}
