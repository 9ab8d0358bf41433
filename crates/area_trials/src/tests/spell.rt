// A spell from a take to its give back. A duty cannot be let go, so each function here keeps it good, and the last one spends it.
ghost use Rattle.std.specs.Prelude.{IfOk};
ghost use Rattle.area_trials.specs.Duty.{OnDuty};

use crate::tests::{Stands, check_stands, told};
use area::area::{Area, Duty};
use refusal::Refusal;
use std::process::Abort;
use std::test::Fail;
use street::{Showing, Street};

// A call in a spell, and what it tells: one step, a plan to change to, a plan to shelve, or a plan to take.
#[derive(Clone, Copy)]
pub enum Call {
    Step(Result<Showing, Refusal>),
    Change(usize, Result<(), Refusal>),
    Shelve(usize, &'static str, Result<usize, Refusal>),
    // a second take is never accepted
    Take(usize, Refusal),
}

// A call, and how the area stands after it.
pub type Called = (Call, Stands);

// Area and duty are held apart, since giving back takes the duty by value: so each function that has both says that they fit.
fn step<S: Street>(rt: &impl Abort, area: &mut Area<S>, duty: &Duty, due: Result<Showing, Refusal>)
    requires { OnDuty S.Street.seen area.old duty.now }
    ensures { OnDuty S.Street.seen area.new duty.now }
{
    assert_eq!(rt; told(area.advance(duty)), due);
}

fn change_to<S: Street>(
    rt: &impl Abort,
    area: &mut Area<S>,
    duty: &Duty,
    number: usize,
    due: Result<(), Refusal>,
)
    requires { OnDuty S.Street.seen area.old duty.now }
    ensures { OnDuty S.Street.seen area.new duty.now }
{
    assert_eq!(rt; told(area.change(duty, number)), due);
}

fn shelve_too<S: Street>(
    rt: &impl Abort,
    area: &mut Area<S>,
    duty: &Duty,
    number: usize,
    sheet: &str,
    due: Result<usize, Refusal>,
)
    requires { OnDuty S.Street.seen area.old duty.now }
    ensures { OnDuty S.Street.seen area.new duty.now }
{
    assert_eq!(rt; told(area.shelve(number, sheet.as_bytes())), due);
}

fn take_again<S: Street>(
    rt: &impl Abort,
    area: &mut Area<S>,
    duty: &Duty,
    number: usize,
    due: Refusal,
)
    requires { OnDuty S.Street.seen area.old duty.now }
    ensures { OnDuty S.Street.seen area.new duty.now }
{
    match area.take(number) {
        Ok(_second) => unreachable(),
        Err(fault) => assert_eq!(rt; Refusal::from(fault), due),
    }
}

fn try_call<S: Street>(
    rt: &impl Abort,
    area: &mut Area<S>,
    duty: &Duty,
    called: &Called,
) -> Result<(), Fail>
    requires { OnDuty S.Street.seen area.old duty.now }
    ensures { OnDuty S.Street.seen area.new duty.now }
{
    let (call, stands) = *called;
    match call {
        Call::Step(due) => step(rt, area, duty, due),
        Call::Change(number, due) => change_to(rt, area, duty, number, due),
        Call::Shelve(number, sheet, due) => shelve_too(rt, area, duty, number, sheet, due),
        Call::Take(number, due) => take_again(rt, area, duty, number, due),
    }
    check_stands(rt, area, &stands)
}

pub(crate) fn try_calls<S: Street>(
    rt: &impl Abort,
    area: &mut Area<S>,
    duty: &Duty,
    calls: &[Called],
) -> Result<(), Fail>
    requires { OnDuty S.Street.seen area.old duty.now }
    ensures { OnDuty S.Street.seen area.new duty.now }
{
    for called in calls {
        try_call(rt, area, duty, called)?;
    }
    Ok(())
}

// The same calls over and over.
fn try_rounds<S: Street>(
    rt: &impl Abort,
    area: &mut Area<S>,
    duty: &Duty,
    times: usize,
    calls: &[Called],
) -> Result<(), Fail>
    requires { OnDuty S.Street.seen area.old duty.now }
    ensures { OnDuty S.Street.seen area.new duty.now }
{
    for _ in 0..times {
        try_calls(rt, area, duty, calls)?;
    }
    Ok(())
}

// Spends a duty that is good, which is never refused.
pub(crate) fn close<S: Street>(area: &mut Area<S>, duty: Duty)
    requires { OnDuty S.Street.seen area.old duty }
{
    match area.give_back(duty) {
        Ok(()) => {}
        Err(_unspent) => unreachable(),
    }
}

// The duty of an area that takes the plan under a number.
pub(crate) fn taken<S: Street>(area: &mut Area<S>, number: usize) -> Result<Duty, Fail>
    ensures { IfOk result (OnDuty S.Street.seen area.new) }
{
    area.take(number)
        .map_err(|_| Fail::new("the plan is not taken"))
}

// Takes the plan under a number, makes the calls so many times, and gives the area back.
pub(crate) fn try_spell<S: Street>(
    rt: &impl Abort,
    area: &mut Area<S>,
    number: usize,
    times: usize,
    calls: &[Called],
) -> Result<(), Fail> {
    let duty = taken(area, number)?;
    let done = try_rounds(rt, area, &duty, times, calls);
    close(area, duty);
    done
}

// A take of an area that may be off line; if it is accepted, the area is given back at once.
pub(crate) fn told_take<S: Street>(area: &mut Area<S>, number: usize) -> Result<(), Refusal> {
    let duty = area.take(number)?;
    close(area, duty);
    Ok(())
}
