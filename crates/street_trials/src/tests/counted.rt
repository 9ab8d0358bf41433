// The counted street over both models: groups with and without dark marks, numbers that are cut, illegal rows.
use crate::tests::groups::{Given, groups_of};
use crate::tests::sheets::{corridor, two_modes};
use crate::tests::{Step, check_stands, filled, try_step};
use model::Model;
use std::process::Abort;
use std::test::Fail;
use street::Showing::{Dark, Shown};
use street::counted::CountedStreet;

// Arrivals at, below and above the loads 20 0 10; two marked steps; two groups for illegal rows.
const NETWORK_GROUPS: [Given; 7] = [
    (&[5, 0, 3], false),
    (&[20, 0, 10], true),
    (&[21, 7, 4000, 5], false),
    (&[], false),
    (&[1, 2, 3], true),
    (&[6, 0, 9], false),
    (&[19, 0, 1], false),
];

// From 300 25 10, and past the last group.
const NETWORK_STEPS: [Step; 9] = [
    (&[1, 1], Shown, &[145, 30, 13], &[1, 1], &[5, 0, 3]),
    (&[1, 1], Dark, &[165, 30, 23], &[0, 0], &[20, 0, 10]),
    (&[1, 1], Shown, &[125, 30, 33], &[1, 1], &[20, 0, 10]),
    (&[2, 2], Shown, &[125, 38, 0], &[2, 2], &[0, 0, 0]),
    (&[2, 2], Dark, &[126, 38, 3], &[0, 0], &[1, 0, 3]),
    (&[3, 0], Dark, &[132, 38, 12], &[0, 0], &[6, 0, 9]),
    (&[1, 0, 1], Dark, &[151, 38, 13], &[0, 0], &[19, 0, 1]),
    (&[1, 1], Shown, &[91, 30, 13], &[1, 1], &[0, 0, 0]),
    (&[2, 2], Shown, &[91, 33, 0], &[2, 2], &[0, 0, 0]),
];

// Arrivals at, below and above the loads 200 100; two marked steps; two groups for illegal rows.
const LINEAR_GROUPS: [Given; 6] = [
    (&[200, 100], false),
    (&[50, 60], true),
    (&[201, 5000, 1], false),
    (&[0, 7], false),
    (&[1, 1], true),
    (&[11, 13], false),
];

// From 15000 100001, and past the last group.
const LINEAR_STEPS: [Step; 8] = [
    (&[1], Shown, &[32700, 53100], &[1], &[200, 100]),
    (&[2], Dark, &[32750, 53160], &[0], &[50, 60]),
    (&[2], Shown, &[28441, 61851], &[2], &[200, 100]),
    (&[3], Dark, &[28441, 61858], &[0], &[0, 7]),
    (&[1], Dark, &[28442, 61859], &[0], &[1, 1]),
    (&[1, 2], Dark, &[28453, 61872], &[0], &[11, 13]),
    (&[2], Shown, &[26105, 70905], &[2], &[0, 0]),
    (&[0], Shown, &[26105, 70905], &[0], &[0, 0]),
];

// Each step uses up one group, whatever is answered, and with none left there are none.
fn try_counted<M: Model>(rt: &impl Abort, street: &mut CountedStreet<M>, steps: &[Step]) {
    // the number of the step is told where one fails
    for (before, step) in steps.iter().enumerate() {
        let number = before.saturating_add(1);
        let left = street.groups_left().saturating_sub(1);
        try_step(rt, street, number, step);
        assert_eq!(rt; street.groups_left(), left, "step {number}, groups left");
    }
}

#[test]
fn network_groups(rt: HostRuntime) -> Result<(), Fail> {
    let groups = groups_of(rt.alloc(), &NETWORK_GROUPS)?;
    let queues = filled(&[300, 25, 10, 1]);
    let mut street = CountedStreet::new(corridor(rt.alloc())?, queues, groups.as_slice());
    check_stands(&rt, &street, 0, &[200, 25, 10], &[], &[]);
    assert_eq!(rt; street.groups_left(), 7);
    try_counted(&rt, &mut street, &NETWORK_STEPS);
    Ok(())
}

#[test]
fn linear_groups(rt: HostRuntime) -> Result<(), Fail> {
    let groups = groups_of(rt.alloc(), &LINEAR_GROUPS)?;
    let queues = filled(&[15000, 100001, 1]);
    let mut street = CountedStreet::new(two_modes(rt.alloc())?, queues, groups.as_slice());
    check_stands(&rt, &street, 0, &[15000, 100000], &[], &[]);
    assert_eq!(rt; street.groups_left(), 6);
    try_counted(&rt, &mut street, &LINEAR_STEPS);
    Ok(())
}
