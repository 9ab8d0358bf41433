// What a program reads of its input.
#![tactic(auto)]

ghost use Rattle.std.specs.Prelude.{◌≡◌, IfOk, IfSome, OnOk, take};
ghost use Rattle.std.specs.Io.KnownBytes.{IsAtEnd};

use std::alloc::Global;
use std::io;
use std::io::Read;

// A sheet has at most 65,535 bytes, so more than one further byte tells nothing more.
const ENOUGH: u64 = 65_536;

// Reads an input to its end, so that whoever writes it is not cut off, and gives its first 65,536 bytes.
pub fn read_input<R: Read>(heap: Global, reader: &mut R) -> io::Result<Vec<u8>>
    ensures kept { IfOk result (λ bytes. IfSome (R.remaining reader.old) (λ xs. bytes.items ≡ take 65536 xs)) }
    ensures whole { OnOk result (IsAtEnd (R.remaining reader.new)) }
{
    let mut bytes = Vec::new(heap);
    (&mut *reader).take(ENOUGH).read_to_end(&mut bytes)?;
    io::copy(reader, &mut io::sink())?;
    Ok(bytes)
}

#[cfg(test)]
mod tests;
