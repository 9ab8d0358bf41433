// Names of at most 8 bytes.
ghost use Rattle.std.specs.Prelude.{◌≡◌, ◌≤◌, length};
ghost use Rattle.words.specs.Faults.{told};
ghost use Rattle.words.specs.Numbers.{name_at};
ghost use Rattle.words.specs.Tables.{tabled};

use crate::fault::SheetFault;
use crate::reading::Reading;
use crate::word::{Word, next_word};

fn letters_of(text: &[u8]) -> [u8; 8]
    requires { length text.now ≤ 8 }
    ensures { result ≡ tabled 8 text.now }
{
    let mut letters = [0; 8];
    letters[..text.len()].copy_from_slice(text);
    letters
}

// The next word as a name, with zeros beyond its last letter.
pub fn name(bytes: &[u8], at: usize) -> Result<Reading<[u8; 8]>, SheetFault>
    ensures { told result ≡ name_at bytes.now at }
{
    let (Word::Number(text, place) | Word::Name(text, place)) = next_word(bytes, at)?;
    if text.len() > 8 {
        return Err(SheetFault::OutOfRange(place));
    }
    let letters = letters_of(text);
    Ok(Reading {
        value: letters,
        place,
        end: place + text.len(),
    })
}
