// The heavy street over both models: every step brings the greatest arrivals.
use crate::tests::sheets::{corridor, two_modes};
use crate::tests::{Step, check_stands, filled, try_steps};
use model::Model;
use std::process::Abort;
use std::test::Fail;
use street::Showing::{Dark, Shown};
use street::heavy::HeavyStreet;

// From 40 25 10: each round ends where it began.
const ROUNDS: [Step; 6] = [
    (&[1, 1], Shown, &[20, 20, 20], &[1, 1], &[20, 0, 10]),
    (&[2, 2], Shown, &[40, 25, 10], &[2, 2], &[20, 0, 10]),
    (&[1, 1], Shown, &[20, 20, 20], &[1, 1], &[20, 0, 10]),
    (&[2, 2], Shown, &[40, 25, 10], &[2, 2], &[20, 0, 10]),
    (&[1, 1], Shown, &[20, 20, 20], &[1, 1], &[20, 0, 10]),
    (&[2, 2], Shown, &[40, 25, 10], &[2, 2], &[20, 0, 10]),
];

// From 0 0 0.
const FROM_NOTHING: [Step; 4] = [
    (&[1, 1], Shown, &[20, 0, 10], &[1, 1], &[20, 0, 10]),
    (&[2, 2], Shown, &[40, 2, 10], &[2, 2], &[20, 0, 10]),
    (&[1, 1], Shown, &[20, 20, 20], &[1, 1], &[20, 0, 10]),
    (&[2, 2], Shown, &[40, 25, 10], &[2, 2], &[20, 0, 10]),
];

// From above the tops: blocked turns, tops that cut off, illegal rows, rows with a red junction.
const CROWDED: [Step; 9] = [
    (&[1, 2], Shown, &[200, 100, 200], &[1, 2], &[20, 0, 10]),
    (&[1, 1], Shown, &[200, 50, 200], &[1, 1], &[20, 0, 10]),
    (&[3, 1], Dark, &[200, 50, 200], &[0, 0], &[20, 0, 10]),
    (&[1, 1, 1], Dark, &[200, 50, 200], &[0, 0], &[20, 0, 10]),
    (&[0, 1], Shown, &[200, 0, 200], &[0, 1], &[20, 0, 10]),
    (&[2, 0], Shown, &[200, 10, 170], &[2, 0], &[20, 0, 10]),
    (&[1, 1], Shown, &[160, 30, 180], &[1, 1], &[20, 0, 10]),
    (&[0, 0], Shown, &[180, 30, 190], &[0, 0], &[20, 0, 10]),
    (&[2, 1], Shown, &[200, 10, 160], &[2, 1], &[20, 0, 10]),
];

// The modes of examples/two-mode.sheet, twice.
const MODES: [Step; 14] = [
    (&[1], Shown, &[25760, 18400], &[1], &[200, 100]),
    (&[2], Shown, &[20072, 22916], &[2], &[200, 100]),
    (&[2], Shown, &[16542, 27315], &[2], &[200, 100]),
    (&[1], Shown, &[27745, 17066], &[1], &[200, 100]),
    (&[2], Shown, &[21329, 21648], &[2], &[200, 100]),
    (&[2], Shown, &[17296, 26046], &[2], &[200, 100]),
    (&[2], Shown, &[14912, 30481], &[2], &[200, 100]),
    (&[1], Shown, &[25617, 18323], &[1], &[200, 100]),
    (&[2], Shown, &[19965, 22817], &[2], &[200, 100]),
    (&[2], Shown, &[16458, 27196], &[2], &[200, 100]),
    (&[1], Shown, &[27607, 16990], &[1], &[200, 100]),
    (&[2], Shown, &[21224, 21550], &[2], &[200, 100]),
    (&[2], Shown, &[17212, 25928], &[2], &[200, 100]),
    (&[2], Shown, &[14842, 30342], &[2], &[200, 100]),
];

// From above a top: tops that cut off, mode 0, illegal rows.
const AT_THE_TOPS: [Step; 6] = [
    (&[0], Shown, &[100000, 100000], &[0], &[200, 100]),
    (&[3], Dark, &[100000, 100000], &[0], &[200, 100]),
    (&[2], Shown, &[80200, 100000], &[2], &[200, 100]),
    (&[1, 1], Dark, &[80400, 100000], &[0], &[200, 100]),
    (&[1], Shown, &[100000, 66180], &[1], &[200, 100]),
    (&[2], Shown, &[76818, 82898], &[2], &[200, 100]),
];

// A fresh street is dark with nothing arrived, and then goes through the steps.
fn try_heavy<M: Model + Drop>(
    rt: &impl Abort,
    model: M,
    given: &[u32],
    fresh: &[u32],
    steps: &[Step],
) {
    let mut street = HeavyStreet::new(model, filled(given));
    check_stands(rt, &street, 0, fresh, &[], &[]);
    try_steps(rt, &mut street, steps);
}

#[test]
fn network_rounds(rt: HostRuntime) -> Result<(), Fail> {
    let start = [40, 25, 10];
    try_heavy(&rt, corridor(rt.alloc())?, &start, &start, &ROUNDS);
    Ok(())
}

#[test]
fn network_from_nothing(rt: HostRuntime) -> Result<(), Fail> {
    try_heavy(&rt, corridor(rt.alloc())?, &[], &[], &FROM_NOTHING);
    Ok(())
}

// Queues above the tops count as those, and a number beyond the last place as 0.
#[test]
fn network_crowded(rt: HostRuntime) -> Result<(), Fail> {
    let given = [201, 100000, 999, 5];
    try_heavy(
        &rt,
        corridor(rt.alloc())?,
        &given,
        &[200, 100, 200],
        &CROWDED,
    );
    Ok(())
}

#[test]
fn linear_modes(rt: HostRuntime) -> Result<(), Fail> {
    let start = [15000, 30600];
    try_heavy(&rt, two_modes(rt.alloc())?, &start, &start, &MODES);
    Ok(())
}

#[test]
fn linear_at_the_tops(rt: HostRuntime) -> Result<(), Fail> {
    let given = [200000, 99999, 5];
    try_heavy(
        &rt,
        two_modes(rt.alloc())?,
        &given,
        &[100000, 99999],
        &AT_THE_TOPS,
    );
    Ok(())
}
