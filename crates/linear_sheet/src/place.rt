// The records of the sections `places` and `entries`.
ghost use Rattle.linear_sheet.specs.Places.{place_at, entry_at};

use linear::place::Place;
use records::Record;
use words::fault::SheetFault;
use words::number::number;
use words::recorded::Recorded;

// A place: its top and its load.
#[derive(Clone, Copy)]
pub struct PlaceRecord;

impl Record for PlaceRecord {
    type Item = Place;

    ghost reads = { λ _ bs. place_at bs };

    fn read(
        &self,
        bytes: &[u8],
        at: usize,
        before: &[Place],
    ) -> Result<Recorded<Place>, SheetFault> {
        let top = number(bytes, at, 1, 100_000)?;
        let load = number(bytes, top.end, 0, top.value)?;
        let place = Place {
            top: top.value,
            load: load.value,
        };
        Ok(Recorded {
            item: place,
            end: load.end,
        })
    }
}

// An entry, in hundredths. A kind of its own beside a number of any range, since its range is the sheet's and no one else's to set.
#[derive(Clone, Copy)]
pub struct EntryRecord;

impl Record for EntryRecord {
    type Item = u32;

    ghost reads = { λ _ bs. entry_at bs };

    fn read(&self, bytes: &[u8], at: usize, before: &[u32]) -> Result<Recorded<u32>, SheetFault> {
        let entry = number(bytes, at, 0, 10_000)?;
        Ok(Recorded {
            item: entry.value,
            end: entry.end,
        })
    }
}
