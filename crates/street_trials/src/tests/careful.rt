// Showing with care: a row is shown only where neither it nor the dark row can be held, and else nothing moves.
use crate::tests::groups::{Given, groups_of};
use crate::tests::sheets::{corridor, two_modes};
use crate::tests::{check_stands, filled};
use std::process::Abort;
use std::test::Fail;
use street::Showing::{self, Dark, Shown};
use street::Street;
use street::careful::show_if_clear;
use street::counted::CountedStreet;
use street::heavy::HeavyStreet;

// A row, the answer to it, and then the queues, the lamps and the arrivals.
type Tried = (
    &'static [u8],
    Option<Showing>,
    &'static [u32],
    &'static [u8],
    &'static [u32],
);

// From 60 80 10: link 2 has no room for link 1 until junction 2 shows it green.
const BLOCKED: [Tried; 5] = [
    (&[1, 2], None, &[60, 80, 10], &[0, 0], &[0, 0, 0]),
    (&[1, 1], None, &[60, 80, 10], &[0, 0], &[0, 0, 0]),
    (&[0, 1], Some(Shown), &[80, 30, 20], &[0, 1], &[20, 0, 10]),
    (&[1, 2], Some(Shown), &[40, 60, 30], &[1, 2], &[20, 0, 10]),
    (&[3, 0], Some(Dark), &[60, 60, 40], &[0, 0], &[20, 0, 10]),
];

// From 160 0 190: link 1 fills up, and then no row is shown, since the dark row would be held.
const FULL: [Tried; 4] = [
    (&[2, 1], Some(Shown), &[180, 10, 160], &[2, 1], &[20, 0, 10]),
    (&[0, 1], Some(Shown), &[200, 0, 170], &[0, 1], &[20, 0, 10]),
    (&[1, 1], None, &[200, 0, 170], &[0, 1], &[20, 0, 10]),
    (&[0, 0], None, &[200, 0, 170], &[0, 1], &[20, 0, 10]),
];

// From 40 25 10, with a marked step first, and past the last group.
const MARKED: [Tried; 4] = [
    (&[1, 1], Some(Dark), &[60, 25, 20], &[0, 0], &[20, 0, 10]),
    (&[1, 1], Some(Shown), &[3, 30, 24], &[1, 1], &[3, 0, 4]),
    (&[1, 3], Some(Dark), &[8, 30, 30], &[0, 0], &[5, 0, 6]),
    (&[2, 2], Some(Shown), &[8, 37, 0], &[2, 2], &[0, 0, 0]),
];

// From 60000 60000: mode 1 would cut place 1 off.
const LINEAR: [Tried; 4] = [
    (&[1], Some(Shown), &[96200, 42100], &[1], &[200, 100]),
    (&[2], Some(Shown), &[71750, 56030], &[2], &[200, 100]),
    (&[1], None, &[71750, 56030], &[2], &[200, 100]),
    (&[2], Some(Shown), &[56028, 68908], &[2], &[200, 100]),
];

const MARKED_GROUPS: [Given; 3] = [
    (&[20, 0, 10], true),
    (&[3, 0, 4], false),
    (&[5, 0, 6], false),
];

fn try_careful<S: Street>(rt: &impl Abort, street: &mut S, tried: &[Tried]) {
    // the number of the step is told where one fails
    for (before, one) in tried.iter().enumerate() {
        let number = before.saturating_add(1);
        let (row, answer, queues, lamps, arrivals) = *one;
        assert_eq!(rt; show_if_clear(street, filled(row)), answer, "step {number}");
        check_stands(rt, street, number, queues, lamps, arrivals);
    }
}

#[test]
fn blocked(rt: HostRuntime) -> Result<(), Fail> {
    let mut street = HeavyStreet::new(corridor(rt.alloc())?, filled(&[60, 80, 10]));
    try_careful(&rt, &mut street, &BLOCKED);
    Ok(())
}

#[test]
fn full(rt: HostRuntime) -> Result<(), Fail> {
    let mut street = HeavyStreet::new(corridor(rt.alloc())?, filled(&[160, 0, 190]));
    try_careful(&rt, &mut street, &FULL);
    Ok(())
}

#[test]
fn linear(rt: HostRuntime) -> Result<(), Fail> {
    let mut street = HeavyStreet::new(two_modes(rt.alloc())?, filled(&[60000, 60000]));
    try_careful(&rt, &mut street, &LINEAR);
    Ok(())
}

#[test]
fn marked(rt: HostRuntime) -> Result<(), Fail> {
    let groups = groups_of(rt.alloc(), &MARKED_GROUPS)?;
    let queues = filled(&[40, 25, 10]);
    let mut street = CountedStreet::new(corridor(rt.alloc())?, queues, groups.as_slice());
    try_careful(&rt, &mut street, &MARKED);
    Ok(())
}

// A row that is not shown uses up no group.
#[test]
fn held_keeps_groups(rt: HostRuntime) -> Result<(), Fail> {
    let groups = groups_of(rt.alloc(), &MARKED_GROUPS)?;
    let queues = filled(&[190, 25, 10]);
    let mut street = CountedStreet::new(corridor(rt.alloc())?, queues, groups.as_slice());
    assert_eq!(rt; show_if_clear(&mut street, filled(&[1, 1])), None);
    assert_eq!(rt; street.groups_left(), 3);
    check_stands(&rt, &street, 0, &[190, 25, 10], &[], &[]);
    Ok(())
}
