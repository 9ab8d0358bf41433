// Duties: whose they are, and that a refused give back hands them back.
ghost use Rattle.std.specs.Prelude.{◌≡◌, ◌≢◌};
ghost use Rattle.area_trials.specs.Duty.{OnDuty};

use crate::tests::making::counted_area;
use crate::tests::spell::{close, taken};
use crate::tests::tables::PLAN;
use crate::tests::{Stands, check_stands, told};
use area::area::{Area, Duty, Unspent};
use lives::state::State;
use network::network::Network;
use refusal::Refusal;
use std::alloc::Global;
use std::process::Abort;
use std::test::Fail;
use street::Street;
use street::counted::CountedStreet;

const OFF_LINE: Stands = (State::OffLine, 0, &[200, 100, 200], &[4, 2, 1]);

// the area is off line, or the duty is another area's
const NO_DUTY: Refusal = Refusal {
    number: 20,
    a: 0,
    b: 0,
};

const COVERED: Stands = (State::Covered, 0, &[40, 25, 10], &[4, 2, 1]);

// An area with this number and the corridor's plan under number 1.
fn numbered(
    rt: &impl Abort,
    heap: Global,
    number: u32,
) -> Result<Area<CountedStreet<Network>>, Fail> {
    let mut area = counted_area(heap, 80, &[4, 2, 1], &[], number)?;
    assert_eq!(rt; told(area.shelve(1, PLAN.as_bytes())), Ok(2));
    Ok(area)
}

// Steps and changes that are refused, and leave the area as it stands.
fn try_refused<S: Street>(
    rt: &impl Abort,
    area: &mut Area<S>,
    held: &Duty,
    stands: &Stands,
) -> Result<(), Fail> {
    assert_eq!(rt; told(area.advance(held)), Err(NO_DUTY));
    assert_eq!(rt; told(area.change(held, 1)), Err(NO_DUTY));
    assert_eq!(rt; told(area.change(held, 9)), Err(NO_DUTY));
    check_stands(rt, area, stands)
}

// Gives a duty to an area that is off line, and then to its own.
fn hand_round<S: Street>(off: &mut Area<S>, own: &mut Area<S>, duty: Duty) -> Result<(), Refusal>
    requires { OnDuty S.Street.seen own.old duty }
{
    match off.give_back(duty) {
        Ok(()) => Ok(()),
        Err(Unspent { duty, fault }) => {
            close(own, duty);
            Err(fault.into())
        }
    }
}

fn try_round<S: Street>(
    rt: &impl Abort,
    off: &mut Area<S>,
    own: &mut Area<S>,
    duty: Duty,
) -> Result<(), Fail>
    requires { OnDuty S.Street.seen own.old duty }
{
    let done = try_refused(rt, off, &duty, &OFF_LINE);
    let told = hand_round(off, own, duty);
    done?;
    assert_eq!(rt; told, Err(NO_DUTY));
    check_stands(rt, off, &OFF_LINE)?;
    check_stands(rt, own, &OFF_LINE)
}

fn try_off_line<S: Street + Drop>(
    rt: &impl Abort,
    mut off: Area<S>,
    mut own: Area<S>,
) -> Result<(), Fail> {
    let duty = taken(&mut own, 1)?;
    try_round(rt, &mut off, &mut own, duty)
}

// The two areas have one number, but only one of them is on line.
#[test]
fn off_line(rt: HostRuntime) -> Result<(), Fail> {
    try_off_line(
        &rt,
        numbered(&rt, rt.alloc(), 7)?,
        numbered(&rt, rt.alloc(), 7)?,
    )
}

// Steps and changes with another area's duty, which leave the area's own duty good.
fn try_other<S: Street>(
    rt: &impl Abort,
    area: &mut Area<S>,
    mine: &Duty,
    yours: &Duty,
) -> Result<(), Fail>
    requires { OnDuty S.Street.seen area.old mine.now }
    ensures { OnDuty S.Street.seen area.new mine.now }
{
    check_stands(rt, area, &COVERED)?;
    let step = area.advance(yours);
    let change = area.change(yours, 1);
    assert_eq!(rt; told(step), Err(NO_DUTY));
    assert_eq!(rt; told(change), Err(NO_DUTY));
    check_stands(rt, area, &COVERED)
}

// Gives a duty to another area, which never takes it, and then to its own.
fn exchange<S: Street>(area: &mut Area<S>, mine: &Duty, other: &mut Area<S>, yours: Duty) -> Refusal
    requires mine { OnDuty S.Street.seen area.old mine.now }
    requires yours { OnDuty S.Street.seen other.old yours }
    requires differ { yours.area ≢ mine.now.area }
    ensures { OnDuty S.Street.seen area.new mine.now }
{
    match area.give_back(yours) {
        Ok(()) => unreachable(),
        Err(Unspent { duty, fault }) => {
            close(other, duty);
            fault.into()
        }
    }
}

fn try_two<S: Street>(
    rt: &impl Abort,
    area: &mut Area<S>,
    mine: &Duty,
    other: &mut Area<S>,
    yours: Duty,
) -> Result<(), Fail>
    requires mine { OnDuty S.Street.seen area.old mine.now }
    requires yours { OnDuty S.Street.seen other.old yours }
    ensures { OnDuty S.Street.seen area.new mine.now }
{
    if yours.area() == mine.area() {
        close(other, yours);
        return Err(Fail::new("two areas have one number"));
    }
    let done = try_other(rt, area, mine, &yours);
    let told = exchange(area, mine, other, yours);
    done?;
    assert_eq!(rt; told, NO_DUTY);
    check_stands(rt, area, &COVERED)
}

fn take_other<S: Street>(
    rt: &impl Abort,
    area: &mut Area<S>,
    mine: &Duty,
    other: &mut Area<S>,
) -> Result<(), Fail>
    requires { OnDuty S.Street.seen area.old mine.now }
    ensures { OnDuty S.Street.seen area.new mine.now }
{
    let yours = taken(other, 1)?;
    try_two(rt, area, mine, other, yours)
}

fn try_another<S: Street + Drop>(
    rt: &impl Abort,
    mut area: Area<S>,
    mut other: Area<S>,
) -> Result<(), Fail> {
    let mine = taken(&mut area, 1)?;
    let done = take_other(rt, &mut area, &mine, &mut other);
    close(&mut area, mine);
    done?;
    check_stands(rt, &area, &OFF_LINE)?;
    check_stands(rt, &other, &OFF_LINE)
}

// Both areas are on line, and each takes back its own duty only.
#[test]
fn another_area(rt: HostRuntime) -> Result<(), Fail> {
    try_another(
        &rt,
        numbered(&rt, rt.alloc(), 7)?,
        numbered(&rt, rt.alloc(), 8)?,
    )
}

fn try_number<S: Street + Drop>(
    rt: &impl Abort,
    mut area: Area<S>,
    number: u32,
) -> Result<(), Fail> {
    let duty = taken(&mut area, 1)?;
    let told = duty.area();
    close(&mut area, duty);
    assert_eq!(rt; told, number);
    Ok(())
}

// A duty has the number of its area.
#[test]
fn number(rt: HostRuntime) -> Result<(), Fail> {
    try_number(&rt, numbered(&rt, rt.alloc(), 0)?, 0)?;
    try_number(
        &rt,
        numbered(&rt, rt.alloc(), 4_000_000_000)?,
        4_000_000_000,
    )
}
