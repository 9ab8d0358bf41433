// The words of a sheet: runs of bytes between separators.
// A reader takes the bytes and a place, and answers where it ended: a cursor that it moved would have to be put back wherever it refuses.
ghost use Rattle.std.specs.Prelude.{◌≡◌, drop};
ghost use Rattle.words.specs.Faults.{told};
ghost use Rattle.words.specs.Words.{short_sheet, separator, printable, skipped, ended, digit, digits, numeral, shown, word_at, Sound};

use crate::fault::SheetFault;

// A word, by its bytes and the place of the first of them. What may be made of it goes by its kind, so each kind is a case.
#[derive(Clone, Copy)]
pub enum Word<'a> {
    // 1 to 9 digits with no needless zero in front
    Number(&'a [u8], usize),
    // any other word
    Name(&'a [u8], usize),
}

// A sheet has at most 65,535 bytes.
pub fn short_enough(bytes: &[u8]) -> Result<(), SheetFault>
    ensures { told result ≡ short_sheet bytes.now }
{
    if bytes.len() > 65535 {
        return Err(SheetFault::TooLong);
    }
    Ok(())
}

// The bytes from a place on; none beyond the last.
pub fn rest_of(bytes: &[u8], at: usize) -> &[u8]
    ensures { result.now ≡ drop at bytes.now }
{
    bytes.get(at..).unwrap_or(&[])
}

fn separates(b: u8) -> bool
    ensures { result ≡ separator b }
{
    matches!(b, b' ' | b'\n')
}

fn prints(b: u8) -> bool
    ensures { result ≡ printable b }
{
    matches!(b, b' '..=b'~')
}

// The first byte from `at` on that is no separator.
// A loop: by a search in a slice, where a word ends is known later, and a short word takes half as much time again.
fn first_byte(bytes: &[u8], at: usize) -> usize
    ensures { result ≡ skipped (drop at bytes.now) at }
{
    let mut place = at;
    while place < bytes.len() && separates(bytes[place]) {
        place += 1;
    }
    place
}

// Where the word that begins at `place` ends. A loop, as in `first_byte`.
fn word_end(bytes: &[u8], place: usize) -> Result<usize, SheetFault>
    ensures { told result ≡ ended (drop place bytes.now) place }
{
    let mut end = place;
    while end < bytes.len() && !separates(bytes[end]) {
        if !prints(bytes[end]) {
            return Err(SheetFault::BadByte(end));
        }
        end += 1;
    }
    Ok(end)
}

fn all_digits(text: &[u8]) -> bool
    ensures { result ≡ digits text.now }
{
    text.iter().all(u8::is_ascii_digit)
}

// 1 to 9 digits with no needless zero in front. By the length, since most numbers are short: of one digit, no loop is needed.
fn is_numeral(text: &[u8]) -> bool
    ensures { result ≡ numeral text.now }
{
    match text.len() {
        0 => false,
        1 => text[0].is_ascii_digit(),
        2..=9 => matches!(text[0], b'1'..=b'9') && all_digits(&text[1..]),
        _ => false,
    }
}

// The next word from `at` on. The hint, since words are short and read by the thousand.
#[inline(always)]
pub fn next_word<'a>(bytes: &'a [u8], at: usize) -> Result<Word<'a>, SheetFault>
    ensures is { shown result ≡ word_at bytes.now at }
    ensures within { Sound bytes.now result }
{
    let place = first_byte(bytes, at);
    let end = word_end(bytes, place)?;
    if end == place {
        return Err(SheetFault::NoWord(bytes.len()));
    }
    let text = &bytes[place..end];
    if is_numeral(text) {
        Ok(Word::Number(text, place))
    } else {
        Ok(Word::Name(text, place))
    }
}
