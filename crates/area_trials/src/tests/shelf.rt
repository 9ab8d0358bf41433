// Calls of an area that is off line: what the shelf takes and refuses, and which plans can be taken.
use crate::tests::making::{corridor, counted_area, heavy_area};
use crate::tests::spell::told_take;
use crate::tests::tables::{PLAN, WIDE};
use crate::tests::{Stands, check_stands, told};
use area::area::Area;
use area::area::first::shelve_first;
use lives::state::State;
use model_sheet::ModelRead;
use refusal::Refusal;
use std::process::Abort;
use std::test::Fail;
use street::Street;

// A shelf number, a sheet, and what is told; the bound is 399.
const SHELVED: [(usize, &str, Result<usize, Refusal>); 22] = [
    (
        0,
        PLAN,
        Err(Refusal {
            number: 11,
            a: 0,
            b: 0,
        }),
    ),
    (
        9,
        PLAN,
        Err(Refusal {
            number: 11,
            a: 0,
            b: 0,
        }),
    ),
    (
        1,
        "start 3 40 2\x075 10 rows 2 1 1 2 2",
        Err(Refusal {
            number: 2,
            a: 12,
            b: 0,
        }),
    ),
    (
        1,
        "",
        Err(Refusal {
            number: 3,
            a: 0,
            b: 0,
        }),
    ),
    (
        1,
        "start 3 40 25 10 rows 2 1 1 2",
        Err(Refusal {
            number: 3,
            a: 29,
            b: 0,
        }),
    ),
    (
        1,
        "start 3 40 25 10 row 2 1 1 2 2",
        Err(Refusal {
            number: 4,
            a: 17,
            b: 0,
        }),
    ),
    (
        1,
        "start 3 40 x 10 rows 2 1 1 2 2",
        Err(Refusal {
            number: 5,
            a: 11,
            b: 0,
        }),
    ),
    (
        1,
        "start 2 40 25 rows 2 1 1 2 2",
        Err(Refusal {
            number: 6,
            a: 6,
            b: 0,
        }),
    ),
    (
        1,
        "start 3 40 25 10 rows 2 1 1 2 3",
        Err(Refusal {
            number: 6,
            a: 30,
            b: 0,
        }),
    ),
    (
        1,
        "start 3 200 0 200 rows 2 1 1 2 2",
        Err(Refusal {
            number: 13,
            a: 0,
            b: 1,
        }),
    ),
    (
        1,
        "start 3 50 90 0 rows 1 1 2",
        Err(Refusal {
            number: 14,
            a: 0,
            b: 1,
        }),
    ),
    (
        1,
        "start 3 190 0 0 rows 1 0 0",
        Err(Refusal {
            number: 15,
            a: 0,
            b: 1,
        }),
    ),
    (
        1,
        "start 3 0 0 185 rows 2 0 0 0 0",
        Err(Refusal {
            number: 15,
            a: 1,
            b: 3,
        }),
    ),
    (
        1,
        "start 3 39 25 10 rows 2 1 1 2 2",
        Err(Refusal {
            number: 16,
            a: 2,
            b: 1,
        }),
    ),
    (
        1,
        "start 3 40 24 10 rows 2 1 1 2 2",
        Err(Refusal {
            number: 16,
            a: 2,
            b: 2,
        }),
    ),
    (8, PLAN, Ok(2)),
    (
        8,
        PLAN,
        Err(Refusal {
            number: 12,
            a: 8,
            b: 0,
        }),
    ),
    (
        8,
        "",
        Err(Refusal {
            number: 12,
            a: 8,
            b: 0,
        }),
    ),
    (1, WIDE, Ok(2)),
    (
        1,
        PLAN,
        Err(Refusal {
            number: 12,
            a: 1,
            b: 0,
        }),
    ),
    (
        0,
        "",
        Err(Refusal {
            number: 11,
            a: 0,
            b: 0,
        }),
    ),
    (2, PLAN, Ok(2)),
];

// A shelf number, and what a take tells; link 1 has 41, and the starts 60, 40 and 40.
const TAKEN: [(usize, Result<(), Refusal>); 6] = [
    (
        0,
        Err(Refusal {
            number: 18,
            a: 0,
            b: 0,
        }),
    ),
    (
        9,
        Err(Refusal {
            number: 18,
            a: 0,
            b: 0,
        }),
    ),
    (
        3,
        Err(Refusal {
            number: 18,
            a: 0,
            b: 0,
        }),
    ),
    (
        8,
        Err(Refusal {
            number: 19,
            a: 1,
            b: 0,
        }),
    ),
    (
        2,
        Err(Refusal {
            number: 19,
            a: 1,
            b: 0,
        }),
    ),
    (1, Ok(())),
];

const OFF_LINE: Stands = (State::OffLine, 0, &[200, 100, 200], &[41, 25, 10]);

fn try_shelf<S: Street>(rt: &impl Abort, area: &mut Area<S>) -> Result<(), Fail> {
    for (number, sheet, due) in &SHELVED {
        let answer = area.shelve(*number, sheet.as_bytes());
        assert_eq!(rt; told(answer), *due, "{}", sheet);
        check_stands(rt, area, &OFF_LINE)?;
    }
    Ok(())
}

fn try_takes<S: Street>(rt: &impl Abort, area: &mut Area<S>) -> Result<(), Fail> {
    for (number, due) in &TAKEN {
        assert_eq!(rt; told_take(area, *number), *due, "{}", number);
        check_stands(rt, area, &OFF_LINE)?;
    }
    Ok(())
}

fn try_off_line<S: Street + Drop>(rt: &impl Abort, mut area: Area<S>) -> Result<(), Fail> {
    check_stands(rt, &area, &OFF_LINE)?;
    try_shelf(rt, &mut area)?;
    try_takes(rt, &mut area)
}

#[test]
fn heavy_shelf(rt: HostRuntime) -> Result<(), Fail> {
    try_off_line(&rt, heavy_area(rt.alloc(), 399, &[41, 25, 10])?)
}

#[test]
fn counted_shelf(rt: HostRuntime) -> Result<(), Fail> {
    try_off_line(&rt, counted_area(rt.alloc(), 399, &[41, 25, 10], &[], 7)?)
}

// The lowest place whose queue is above the start is told.
fn try_above<S: Street + Drop>(rt: &impl Abort, mut area: Area<S>, place: usize) {
    assert_eq!(rt; told(area.shelve(1, PLAN.as_bytes())), Ok(2));
    assert_eq!(rt;
        told_take(&mut area, 1),
        Err(Refusal {
            number: 19,
            a: place,
            b: 0
        })
    );
}

#[test]
fn queue_above(rt: HostRuntime) -> Result<(), Fail> {
    try_above(&rt, heavy_area(rt.alloc(), 399, &[40, 26, 11])?, 2);
    try_above(&rt, heavy_area(rt.alloc(), 399, &[0, 0, 11])?, 3);
    Ok(())
}

// The bound of the corridor, and what its first shelf number tells: with 49 the start breaks the limit.
const FIRST: [(u32, Result<usize, Refusal>); 2] = [
    (50, Ok(2)),
    (
        49,
        Err(Refusal {
            number: 13,
            a: 0,
            b: 1,
        }),
    ),
];

#[test]
fn first_shelf(rt: HostRuntime) -> Result<(), Fail> {
    for (bound, due) in &FIRST {
        let ModelRead {
            model,
            limits,
            end: _,
        } = corridor(rt.alloc(), *bound)?;
        assert_eq!(rt; told(shelve_first(model, limits, PLAN.as_bytes())), *due);
    }
    Ok(())
}
