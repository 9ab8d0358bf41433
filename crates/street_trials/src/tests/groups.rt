// Groups for a counted street, and what becomes of the sixty-fifth.
use crate::tests::filled;
use crate::tests::sheets::{corridor, two_modes};
use model::Model;
use std::alloc::{AllocError, Global};
use std::process::Abort;
use std::test::Fail;
use street::counted::CountedStreet;
use street::groups::Group;
use street::{Showing, Street};

// What arrives in a step, and whether the step is marked dark.
pub type Given = (&'static [u32], bool);

pub(crate) fn groups_of(heap: Global, given: &[Given]) -> Result<Vec<Group>, AllocError> {
    let groups = given.iter().map(|(numbers, dark)| Group {
        arrivals: filled(numbers),
        dark: *dark,
    });
    groups.collect(heap)
}

// What group k, counted from 0, brings to place 1.
fn brought(k: u32) -> u32 {
    if k < 64 { k % 4 } else { 3 }
}

// So many groups; those past the first sixty-four are marked dark.
fn many_groups(heap: Global, count: u32) -> Result<Vec<Group>, AllocError> {
    let groups = (0..count).map(|k| Group {
        arrivals: filled(&[brought(k)]),
        dark: k >= 64,
    });
    groups.collect(heap)
}

// One step in which nothing is let out.
fn try_red<S: Street>(rt: &impl Abort, street: &mut S, arrival: u32, queue: u32) {
    assert_eq!(rt; street.show(filled(&[])), Showing::Shown);
    assert_eq!(rt; street.arrival(1), arrival);
    assert_eq!(rt; street.queue(1), queue);
}

// Sixteen rounds of four groups, which bring 0, 1, 2 and 3. A round is told by its number: what is left and what came follow from it.
fn try_rounds<M: Model>(rt: &impl Abort, street: &mut CountedStreet<M>) {
    for round in 0..16u8 {
        let before = u32::from(round) * 6;
        assert_eq!(rt; street.groups_left(), 64 - 4 * usize::from(round));
        try_red(rt, street, 0, before);
        try_red(rt, street, 1, before + 1);
        try_red(rt, street, 2, before + 3);
        try_red(rt, street, 3, before + 6);
    }
}

// Of sixty-five groups the last is not kept: the step after the sixty-fourth is shown, and nothing arrives.
fn try_many<M: Model + Drop>(rt: &impl Abort, heap: Global, model: M) -> Result<(), Fail> {
    let groups = many_groups(heap, 65)?;
    assert_eq!(rt; groups.len(), 65);
    let mut street = CountedStreet::new(model, filled(&[]), groups.as_slice());
    try_rounds(rt, &mut street);
    assert_eq!(rt; street.groups_left(), 0);
    try_red(rt, &mut street, 0, 96);
    assert_eq!(rt; street.groups_left(), 0);
    Ok(())
}

#[test]
fn network_sixty_five(rt: HostRuntime) -> Result<(), Fail> {
    try_many(&rt, rt.alloc(), corridor(rt.alloc())?)
}

#[test]
fn linear_sixty_five(rt: HostRuntime) -> Result<(), Fail> {
    try_many(&rt, rt.alloc(), two_modes(rt.alloc())?)
}

// Of sixty-four groups none is lost, and of none none is there.
#[test]
fn kept_groups(rt: HostRuntime) -> Result<(), Fail> {
    let all = many_groups(rt.alloc(), 64)?;
    let full = CountedStreet::new(corridor(rt.alloc())?, filled(&[]), all.as_slice());
    assert_eq!(rt; full.groups_left(), 64);
    let bare = CountedStreet::new(corridor(rt.alloc())?, filled(&[]), &[]);
    assert_eq!(rt; bare.groups_left(), 0);
    Ok(())
}
