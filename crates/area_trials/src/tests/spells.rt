// Spells over both streets: cover that is kept, lost and had again.
use crate::tests::making::{Given, counted_area, heavy_area, linear_area};
use crate::tests::spell::{Called, try_spell};
use crate::tests::tables::{
    COVERED_AGAIN, DARK_FIRST, LIGHTER, LIMIT_LOST, LINEAR_ROUND, MODES, PLACE_HELD, PLAN, ROUND,
};
use crate::tests::{check_stands, told};
use area::area::Area;
use lives::state::State;
use std::process::Abort;
use std::test::Fail;
use street::Street;

const DARK_GROUPS: [Given; 6] = [
    (&[20, 0, 10], true),
    (&[20, 0, 10], false),
    (&[20, 0, 10], false),
    (&[3, 0, 2], false),
    (&[], true),
    (&[9, 9, 9], false),
];

const LIMIT_GROUPS: [Given; 4] = [
    (&[20, 0, 10], true),
    (&[20, 0, 10], false),
    (&[5, 0, 5], true),
    (&[1, 0, 1], false),
];

const HELD_GROUPS: [Given; 12] = [
    (&[1, 0, 1], false),
    (&[1, 0, 1], true),
    (&[1, 0, 1], true),
    (&[1, 0, 1], true),
    (&[1, 0, 1], true),
    (&[1, 0, 1], true),
    (&[1, 0, 1], true),
    (&[1, 0, 1], true),
    (&[1, 0, 1], true),
    (&[1, 0, 1], true),
    (&[1, 0, 1], true),
    (&[1, 0, 1], false),
];

// Shelves the corridor's plan, goes through one spell of it, and is off line with these queues.
fn try_plan<S: Street>(
    rt: &impl Abort,
    area: &mut Area<S>,
    times: usize,
    calls: &[Called],
    queues: &'static [u32],
) -> Result<(), Fail> {
    assert_eq!(rt; told(area.shelve(1, PLAN.as_bytes())), Ok(2));
    try_spell(rt, area, 1, times, calls)?;
    check_stands(rt, area, &(State::OffLine, 0, &[200, 100, 200], queues))
}

// The lamps and the latest arrivals, which stay as they are when the area is given back.
fn check_lights<S: Street>(rt: &impl Abort, area: &Area<S>, lamps: (u8, u8), arrivals: (u32, u32)) {
    assert_eq!(rt; (area.lamp(1), area.lamp(2)), lamps);
    assert_eq!(rt; (area.arrival(1), area.arrival(3)), arrivals);
    assert_eq!(rt; (area.lamp(0), area.lamp(3), area.lamp(33)), (0, 0, 0));
    assert_eq!(rt;
        (area.arrival(0), area.arrival(4), area.arrival(65)),
        (0, 0, 0)
    );
}

fn try_dark_first<S: Street + Drop>(rt: &impl Abort, mut area: Area<S>) -> Result<(), Fail> {
    try_plan(rt, &mut area, 1, &DARK_FIRST, &[0, 4, 0])?;
    check_lights(rt, &area, (2, 2), (0, 0));
    Ok(())
}

#[test]
fn dark_first(rt: HostRuntime) -> Result<(), Fail> {
    try_dark_first(
        &rt,
        counted_area(rt.alloc(), 80, &[40, 25, 10], &DARK_GROUPS, 7)?,
    )
}

fn try_limit_lost<S: Street + Drop>(rt: &impl Abort, mut area: Area<S>) -> Result<(), Fail> {
    try_plan(rt, &mut area, 1, &LIMIT_LOST, &[0, 13, 1])?;
    try_spell(rt, &mut area, 1, 1, &COVERED_AGAIN)?;
    check_lights(rt, &area, (2, 2), (0, 0));
    Ok(())
}

#[test]
fn limit_lost(rt: HostRuntime) -> Result<(), Fail> {
    try_limit_lost(
        &rt,
        counted_area(rt.alloc(), 79, &[40, 25, 10], &LIMIT_GROUPS, 7)?,
    )
}

fn try_place_held<S: Street + Drop>(rt: &impl Abort, mut area: Area<S>) -> Result<(), Fail> {
    try_plan(rt, &mut area, 1, &PLACE_HELD, &[0, 6, 1])
}

#[test]
fn place_held(rt: HostRuntime) -> Result<(), Fail> {
    try_place_held(&rt, counted_area(rt.alloc(), 399, &[], &HELD_GROUPS, 7)?)
}

// Two hundred steps of the greatest arrivals, and cover is never lost.
fn try_day<S: Street + Drop>(rt: &impl Abort, mut area: Area<S>) -> Result<(), Fail> {
    try_plan(rt, &mut area, 100, &ROUND, &[40, 25, 10])?;
    check_lights(rt, &area, (2, 2), (20, 10));
    Ok(())
}

#[test]
fn heavy_day(rt: HostRuntime) -> Result<(), Fail> {
    try_day(&rt, heavy_area(rt.alloc(), 50, &[40, 25, 10])?)
}

fn try_lighter<S: Street + Drop>(rt: &impl Abort, mut area: Area<S>) -> Result<(), Fail> {
    try_plan(rt, &mut area, 1, &LIGHTER, &[40, 25, 10])
}

#[test]
fn lighter_start(rt: HostRuntime) -> Result<(), Fail> {
    try_lighter(&rt, heavy_area(rt.alloc(), 50, &[30, 5, 10])?)
}

fn try_linear<S: Street + Drop>(rt: &impl Abort, mut area: Area<S>) -> Result<(), Fail> {
    assert_eq!(rt; told(area.shelve(8, MODES.as_bytes())), Ok(7));
    try_spell(rt, &mut area, 8, 1, &LINEAR_ROUND)?;
    check_stands(
        rt,
        &area,
        &(State::OffLine, 0, &[100000, 100000], &[19965, 22817]),
    )
}

#[test]
fn linear_round(rt: HostRuntime) -> Result<(), Fail> {
    try_linear(&rt, linear_area(rt.alloc(), &[15000, 30600])?)
}
