// The model's questions asked of a street: it answers as its model does.
use crate::tests::sheets::{corridor, two_modes};
use crate::tests::{filled, told};
use model::{Answer, Cause, Model};
use std::process::Abort;
use std::test::Fail;
use street::counted::CountedStreet;
use street::heavy::HeavyStreet;

// A row, a state and arrivals, and then the next state and the answer.
type Stepped = (
    &'static [u8],
    &'static [u32],
    &'static [u32],
    &'static [u32],
    Answer,
);

// Clear with arrivals below the loads, blocked, cut off at a top, and dark for an illegal row.
const NETWORK: [Stepped; 4] = [
    (
        &[1, 1],
        &[40, 25, 10],
        &[1, 5, 2],
        &[1, 20, 12],
        Answer::Clear,
    ),
    (
        &[1, 0],
        &[40, 90, 10],
        &[20, 0, 10],
        &[40, 100, 20],
        Answer::Held(1, Cause::Blocked),
    ),
    (
        &[2, 1],
        &[40, 25, 195],
        &[20, 0, 99],
        &[60, 10, 165],
        Answer::Clear,
    ),
    (
        &[1, 3],
        &[40, 25, 195],
        &[20, 0, 99],
        &[60, 25, 200],
        Answer::Held(3, Cause::Overflow),
    ),
];

const LINEAR: [Stepped; 3] = [
    (
        &[1],
        &[15001, 30601],
        &[1, 1],
        &[25563, 18302],
        Answer::Clear,
    ),
    (
        &[2],
        &[1, 99999],
        &[300, 300],
        &[10201, 100000],
        Answer::Held(2, Cause::Overflow),
    ),
    (
        &[3],
        &[15001, 30601],
        &[1, 2],
        &[15002, 30603],
        Answer::Clear,
    ),
];

// The tops and the loads, in and out of range.
fn check_numbers<M: Model>(rt: &impl Abort, model: &M, tops: &[u32], loads: &[u32]) {
    for place in 0..70 {
        assert_eq!(rt; model.top(place), told(tops, place), "top of {place}");
        assert_eq!(rt; model.load(place), told(loads, place), "load of {place}");
    }
}

fn check_steps<M: Model>(rt: &impl Abort, model: &M, steps: &[Stepped]) {
    // the number of the step is told where one fails
    for (k, step) in steps.iter().enumerate() {
        let (row, state, arrivals, next, answer) = *step;
        let made = model.step(filled(row), filled(state), filled(arrivals));
        assert_eq!(rt; made.next, filled(next), "step {k}");
        assert_eq!(rt; made.answer, answer, "step {k}");
    }
}

fn check_corridor<M: Model>(rt: &impl Abort, model: &M) {
    assert_eq!(rt; model.places(), 3);
    assert_eq!(rt; model.signals(), 2);
    check_numbers(rt, model, &[200, 100, 200], &[20, 0, 10]);
    assert!(rt; model.legal(filled(&[2, 2])));
    assert!(rt; !model.legal(filled(&[2, 3])));
    assert!(rt; !model.legal(filled(&[1, 1, 1])));
    assert!(rt; model.dark() == filled(&[]));
    check_steps(rt, model, &NETWORK);
}

fn check_two_modes<M: Model>(rt: &impl Abort, model: &M) {
    assert_eq!(rt; model.places(), 2);
    assert_eq!(rt; model.signals(), 1);
    check_numbers(rt, model, &[100000, 100000], &[200, 100]);
    assert!(rt; model.legal(filled(&[2])));
    assert!(rt; !model.legal(filled(&[3])));
    assert!(rt; !model.legal(filled(&[0, 1])));
    assert!(rt; model.dark() == filled(&[]));
    check_steps(rt, model, &LINEAR);
}

#[test]
fn heavy_questions(rt: HostRuntime) -> Result<(), Fail> {
    check_corridor(&rt, &HeavyStreet::new(corridor(rt.alloc())?, filled(&[])));
    check_two_modes(&rt, &HeavyStreet::new(two_modes(rt.alloc())?, filled(&[])));
    Ok(())
}

#[test]
fn counted_questions(rt: HostRuntime) -> Result<(), Fail> {
    check_corridor(
        &rt,
        &CountedStreet::new(corridor(rt.alloc())?, filled(&[]), &[]),
    );
    check_two_modes(
        &rt,
        &CountedStreet::new(two_modes(rt.alloc())?, filled(&[]), &[]),
    );
    Ok(())
}
