// The records of the sections `signals` and `links`.
ghost use Rattle.std.specs.Prelude.{◌≡◌, ◌-◌, ◌^◌, nat_lt, slice_index};
ghost use Rattle.network_sheet.specs.Links.{signal_at, link_at};

use network::links::Link;
use records::Record;
use words::fault::SheetFault;
use words::name::name;
use words::number::number;
use words::recorded::Recorded;

// A junction: its phases.
#[derive(Clone, Copy)]
pub struct SignalRecord;

impl Record for SignalRecord {
    type Item = u8;

    ghost reads = { λ _ bs. signal_at bs };

    fn read(&self, bytes: &[u8], at: usize, before: &[u8]) -> Result<Recorded<u8>, SheetFault> {
        // the cast loses nothing, since the number is in its range: `try_from` would ask for a case that never comes
        let phases = number(bytes, at, 1, 8)?;
        Ok(Recorded {
            item: phases.value as u8,
            end: phases.end,
        })
    }
}

// The phases of a junction, counted from 1; 0 out of range.
fn phases_of(phases: &[u8], junction: usize) -> u8
    ensures { result ≡ slice_index phases.now (junction - 1) }
{
    phases.get(junction.saturating_sub(1)).copied().unwrap_or(0)
}

// Has the mask no bit beyond these phases?
fn only_phases(mask: u8, phases: u8) -> bool
    ensures { result ≡ nat_lt mask (2 ^ phases) }
{
    mask.checked_shr(u32::from(phases)).unwrap_or(0) == 0
}

// A link between so many signals with these phases: the count is the greatest number that a sheet may name,
// and goes into a number of a sheet, as the length of a slice need not.
#[derive(Clone, Copy)]
pub struct LinkRecord<'a> {
    pub phases: &'a [u8],
    pub signals: u32,
}

impl<'a> Record for LinkRecord<'a> {
    type Item = Link;

    ghost reads = { λ s bs. link_at bs s.phases.now s.signals };

    fn read(&self, bytes: &[u8], at: usize, before: &[Link]) -> Result<Recorded<Link>, SheetFault> {
        let name = name(bytes, at)?;
        let tail = number(bytes, name.end, 0, self.signals)?;
        let head = number(bytes, tail.end, 1, self.signals)?;
        let top = number(bytes, head.end, 1, 100_000)?;
        let flow = number(bytes, top.end, 0, 100_000)?;
        let load = number(bytes, flow.end, 0, top.value)?;
        let mask = number(bytes, load.end, 0, 255)?;
        let letters = name.value;
        // the casts lose nothing, since the numbers are in their range: `try_from` would name an error that never comes
        let link = Link {
            name: letters,
            tail: tail.value as usize,
            head: head.value as usize,
            top: top.value,
            flow: flow.value,
            load: load.value,
            mask: mask.value as u8,
        };
        let phases = phases_of(self.phases, link.head);
        if link.tail == link.head || !only_phases(link.mask, phases) {
            return Err(SheetFault::BadLink(name.place));
        }
        Ok(Recorded {
            item: link,
            end: mask.end,
        })
    }
}
