// How a street is tried: its steps against a table, and its questions in and out of range.
mod careful;
mod counted;
mod example;
mod groups;
mod heavy;
mod questions;
mod sheets;

use std::array;
use std::process::Abort;
use street::{Showing, Street};

// One step: the modes that are given, what is answered, and then the queues, the lamps and the arrivals.
// All numbers beyond those are 0. A tuple, so that a step is one line of a table.
pub type Step = (
    &'static [u8],
    Showing,
    &'static [u32],
    &'static [u8],
    &'static [u32],
);

// A row that begins with these modes, or a state that begins with these numbers.
pub(crate) fn filled<T: Copy + Default, const N: usize>(numbers: &[T]) -> [T; N] {
    array::from_fn(|k| numbers.get(k).copied().unwrap_or_default())
}

// The number of a place or the mode of a signal, counted from 1, or 0.
pub(crate) fn told<T: Copy + Default>(numbers: &[T], place: usize) -> T {
    let number = numbers.get(place.wrapping_sub(1));
    number.copied().unwrap_or_default()
}

fn check_places<S: Street>(
    rt: &impl Abort,
    street: &S,
    step: usize,
    queues: &[u32],
    arrivals: &[u32],
) {
    // places in and out of range, so there is no list to go over
    for place in 0..70 {
        let queue = told(queues, place);
        assert_eq!(rt; street.queue(place), queue, "step {step}, queue at {place}");
        let arrival = told(arrivals, place);
        assert_eq!(rt;
            street.arrival(place),
            arrival,
            "step {step}, arrival at {place}"
        );
    }
}

fn check_lamps<S: Street>(rt: &impl Abort, street: &S, step: usize, lamps: &[u8]) {
    // signals in and out of range
    for signal in 0..40 {
        let mode = told(lamps, signal);
        assert_eq!(rt; street.lamp(signal), mode, "step {step}, lamp of {signal}");
    }
}

// Asks everywhere after a step, counted from 1, or before the first, 0.
// It asks out of range too: places 0 and 65 to 69, signals 0 and 33 to 39.
pub(crate) fn check_stands<S: Street>(
    rt: &impl Abort,
    street: &S,
    step: usize,
    queues: &[u32],
    lamps: &[u8],
    arrivals: &[u32],
) {
    check_places(rt, street, step, queues, arrivals);
    check_lamps(rt, street, step, lamps);
}

// The step of this number, counted from 1.
pub(crate) fn try_step<S: Street>(rt: &impl Abort, street: &mut S, number: usize, step: &Step) {
    let (row, answer, queues, lamps, arrivals) = *step;
    assert_eq!(rt; street.show(filled(row)), answer, "step {number}");
    check_stands(rt, street, number, queues, lamps, arrivals);
}

// Runs a table of rows on any street.
pub(crate) fn try_steps<S: Street>(rt: &impl Abort, street: &mut S, steps: &[Step]) {
    // the number of the step is told where one fails
    for (before, step) in steps.iter().enumerate() {
        try_step(rt, street, before.saturating_add(1), step);
    }
}
