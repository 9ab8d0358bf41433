// Numbers as records.
ghost use Rattle.records.specs.Sections.{up_to};

use crate::Record;
use words::fault::SheetFault;
use words::number::number;
use words::recorded::Recorded;

// A number up to `high`.
#[derive(Clone, Copy)]
pub struct NumberRecord {
    pub high: u32,
}

impl Record for NumberRecord {
    type Item = u32;

    ghost reads = { λ s bs. up_to bs s.high };

    fn read(&self, bytes: &[u8], at: usize, before: &[u32]) -> Result<Recorded<u32>, SheetFault> {
        Ok(number(bytes, at, 0, self.high)?.into())
    }
}
