// Running the calls of a day, one at a time, with the duty in hand.
ghost use Rattle.std.specs.Prelude.{◌≡◌, Some, None};
ghost use Rattle.lives.specs.Calls.{take, advance, change, give_back};
ghost use Rattle.lives.specs.Faults.{area_refusal};
ghost use Rattle.area.specs.Code.{area_of};
ghost use Rattle.day.specs.declared.call.DayCall.TheVariants.{Shelve, Take, Advance, Change, Give};
ghost use Rattle.day.specs.declared.run.Done.TheVariants.{Refused};
ghost use Rattle.day.specs.Running.{held, InHand, area_call, answered, RanAs};

use crate::call::DayCall;
use area::area::{Area, Duty, Unspent};
use lives::fault::AreaFault;
use refusal::Refusal;
use street::{Showing, Street};
use words::word::rest_of;

// What a call came to. One enum for what was done and what was not, since each case is a line that is printed.
#[derive(Clone, Copy)]
pub enum Done {
    // a plan of so many rows stands on the shelf
    Shelved(usize),
    // the area of this number is on line
    Duty(u32),
    // the street showed the row, or was dark
    Shown,
    Dark,
    Changed,
    Given,
    Refused(Refusal),
    // nothing was done, since there was no duty in hand
    NoDuty,
}

// What a call came to, and the duty that is then in hand.
// Area and duty are held apart, since giving back takes the duty by value: so each function says that they fit one another.
pub struct Ran {
    pub done: Done,
    pub hand: Option<Duty>,
}

// What the street answered.
impl From<Showing> for Done {
    ghost from_gives = { λ s r. r ≡ answered s };

    fn from(answer: Showing) -> Done {
        match answer {
            Showing::Shown => Done::Shown,
            Showing::Dark => Done::Dark,
        }
    }
}

impl From<AreaFault> for Done {
    ghost from_gives = { λ e r. r ≡ Refused (area_refusal e) };

    fn from(fault: AreaFault) -> Done {
        Done::Refused(fault.into())
    }
}

fn run_shelve<S: Street>(
    area: &mut Area<S>,
    hand: Option<Duty>,
    number: usize,
    place: usize,
    sheet: &[u8],
) -> Ran
    ensures { RanAs S.Model.meaning S.Street.seen (area_call sheet.now (Shelve number place) (held hand)) (Shelve number place) area.old (held hand) result.done area.new (held result.hand) }
{
    let answer = area.shelve(number, rest_of(sheet, place));
    let done = answer.map_or_else(|fault| fault.into(), |rows| Done::Shelved(rows));
    Ran { done, hand }
}

fn run_take<S: Street>(area: &mut Area<S>, hand: Option<Duty>, number: usize) -> Ran
    requires { InHand (area_of S.Street.seen area.old) (held hand) }
    ensures { RanAs S.Model.meaning S.Street.seen (Some (take number)) (Take number) area.old (held hand) result.done area.new (held result.hand) }
{
    match area.take(number) {
        Ok(duty) => match hand {
            None => Ran {
                done: Done::Duty(duty.area()),
                hand: Some(duty),
            },
            Some(_held) => unreachable(),
        },
        Err(fault) => Ran {
            done: fault.into(),
            hand,
        },
    }
}

fn run_advance<S: Street>(area: &mut Area<S>, duty: Duty) -> Ran
    ensures { RanAs S.Model.meaning S.Street.seen (Some (advance duty.area)) Advance area.old (Some duty.area) result.done area.new (held result.hand) }
{
    let answer = area.advance(&duty);
    let done = answer.map_or_else(|fault| fault.into(), |showing| showing.into());
    Ran {
        done,
        hand: Some(duty),
    }
}

fn run_change<S: Street>(area: &mut Area<S>, duty: Duty, number: usize) -> Ran
    ensures { RanAs S.Model.meaning S.Street.seen (Some (change duty.area number)) (Change number) area.old (Some duty.area) result.done area.new (held result.hand) }
{
    let answer = area.change(&duty, number);
    let done = answer.map_or_else(|fault| fault.into(), |()| Done::Changed);
    Ran {
        done,
        hand: Some(duty),
    }
}

fn run_give<S: Street>(area: &mut Area<S>, duty: Duty) -> Ran
    ensures { RanAs S.Model.meaning S.Street.seen (Some (give_back duty.area)) Give area.old (Some duty.area) result.done area.new (held result.hand) }
{
    match area.give_back(duty) {
        Ok(()) => Ran {
            done: Done::Given,
            hand: None,
        },
        Err(Unspent { duty, fault }) => Ran {
            done: fault.into(),
            hand: Some(duty),
        },
    }
}

// One call of the day; `sheet` is the whole day sheet.
// A match, since which call comes is read from the sheet, and whether there is a duty for it is known only then.
pub(crate) fn run_call<S: Street>(
    area: &mut Area<S>,
    hand: Option<Duty>,
    call: DayCall,
    sheet: &[u8],
) -> Ran
    requires { InHand (area_of S.Street.seen area.old) (held hand) }
    ensures does { RanAs S.Model.meaning S.Street.seen (area_call sheet.now call (held hand)) call area.old (held hand) result.done area.new (held result.hand) }
    ensures safe { InHand (area_of S.Street.seen area.new) (held result.hand) }
{
    match (call, hand) {
        (DayCall::Shelve(number, place), hand) => run_shelve(area, hand, number, place, sheet),
        (DayCall::Take(number), hand) => run_take(area, hand, number),
        (DayCall::Advance, Some(duty)) => run_advance(area, duty),
        (DayCall::Change(number), Some(duty)) => run_change(area, duty, number),
        (DayCall::Give, Some(duty)) => run_give(area, duty),
        (DayCall::Advance | DayCall::Change(_) | DayCall::Give, None) => Ran {
            done: Done::NoDuty,
            hand: None,
        },
    }
}

// Gives a duty in hand back, at the end of the day.
pub(crate) fn close<S: Street>(area: &mut Area<S>, hand: Option<Duty>)
    requires { InHand (area_of S.Street.seen area.old) (held hand) }
{
    match hand {
        None => (),
        Some(duty) => match area.give_back(duty) {
            Ok(()) => (),
            Err(_unspent) => unreachable(),
        },
    }
}
