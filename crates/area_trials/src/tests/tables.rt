// What each call of a spell tells, and how the area stands after it.
use crate::tests::spell::{Call, Called};
use lives::state::{Loss, State};
use refusal::Refusal;
use street::Showing;

pub const PLAN: &str = "start 3 40 25 10 rows 2 1 1 2 2";

// A plan with a higher start.
pub const WIDE: &str = "start 3 60 40 20 rows 2 1 1 2 2";

pub const MODES: &str = "start 2 15000 30600 rows 7 1 2 2 1 2 2 2";

// What a step tells.
const SHOWN: Result<Showing, Refusal> = Ok(Showing::Shown);

const DARK: Result<Showing, Refusal> = Ok(Showing::Dark);

// A plan stands under shelf number 1.
const FIRST_NOT_EMPTY: Refusal = Refusal {
    number: 12,
    a: 1,
    b: 0,
};

// A plan is on line.
const ON_LINE: Refusal = Refusal {
    number: 17,
    a: 0,
    b: 0,
};

// No plan stands under that number.
const NO_PLAN: Refusal = Refusal {
    number: 18,
    a: 0,
    b: 0,
};

// Cover is lost.
const NOT_COVERED: Refusal = Refusal {
    number: 21,
    a: 0,
    b: 0,
};

// The envelope at place 1 is above the start.
const FIRST_ABOVE: Refusal = Refusal {
    number: 22,
    a: 1,
    b: 0,
};

// The envelope at place 3 is above the start.
const THIRD_ABOVE: Refusal = Refusal {
    number: 22,
    a: 3,
    b: 0,
};

// At row 0 limit 1 was broken.
const OVER: State = State::Lost(Loss::LimitBroken(0, 1));

// At row 1 place 1 was held.
const CUT: State = State::Lost(Loss::PlaceHeld(1, 1));

// Bound 80, and the first step is dark. The envelope of the marked step keeps the bound exactly.
pub const DARK_FIRST: [Called; 20] = [
    (
        Call::Step(DARK),
        (State::Covered, 0, &[60, 25, 20], &[60, 25, 20]),
    ),
    (
        Call::Change(1, Err(FIRST_ABOVE)),
        (State::Covered, 0, &[60, 25, 20], &[60, 25, 20]),
    ),
    (
        Call::Take(1, ON_LINE),
        (State::Covered, 0, &[60, 25, 20], &[60, 25, 20]),
    ),
    (
        Call::Change(5, Err(NO_PLAN)),
        (State::Covered, 0, &[60, 25, 20], &[60, 25, 20]),
    ),
    (
        Call::Change(0, Err(NO_PLAN)),
        (State::Covered, 0, &[60, 25, 20], &[60, 25, 20]),
    ),
    (
        Call::Change(9, Err(NO_PLAN)),
        (State::Covered, 0, &[60, 25, 20], &[60, 25, 20]),
    ),
    (
        Call::Shelve(1, PLAN, Err(FIRST_NOT_EMPTY)),
        (State::Covered, 0, &[60, 25, 20], &[60, 25, 20]),
    ),
    (
        Call::Shelve(2, WIDE, Ok(2)),
        (State::Covered, 0, &[60, 25, 20], &[60, 25, 20]),
    ),
    (
        Call::Change(2, Ok(())),
        (State::Covered, 0, &[60, 25, 20], &[60, 25, 20]),
    ),
    (
        Call::Step(SHOWN),
        (State::Covered, 1, &[20, 30, 30], &[20, 30, 30]),
    ),
    (
        Call::Change(2, Err(THIRD_ABOVE)),
        (State::Covered, 1, &[20, 30, 30], &[20, 30, 30]),
    ),
    (
        Call::Step(SHOWN),
        (State::Covered, 0, &[40, 37, 10], &[40, 37, 10]),
    ),
    (
        Call::Step(SHOWN),
        (State::Covered, 1, &[20, 20, 20], &[3, 20, 12]),
    ),
    (
        Call::Change(2, Ok(())),
        (State::Covered, 0, &[20, 20, 20], &[3, 20, 12]),
    ),
    (
        Call::Step(DARK),
        (State::Covered, 0, &[40, 20, 30], &[3, 20, 12]),
    ),
    (
        Call::Step(SHOWN),
        (State::Covered, 1, &[20, 20, 40], &[9, 1, 21]),
    ),
    (
        Call::Step(SHOWN),
        (State::Covered, 0, &[40, 30, 10], &[9, 6, 0]),
    ),
    (
        Call::Step(SHOWN),
        (State::Covered, 1, &[20, 20, 20], &[0, 4, 0]),
    ),
    (
        Call::Change(1, Err(THIRD_ABOVE)),
        (State::Covered, 1, &[20, 20, 20], &[0, 4, 0]),
    ),
    (
        Call::Step(SHOWN),
        (State::Covered, 0, &[40, 25, 10], &[0, 4, 0]),
    ),
];

// Bound 79, and the first step is dark: without cover the row moves on when shown and stays when dark.
pub const LIMIT_LOST: [Called; 9] = [
    (Call::Step(DARK), (OVER, 0, &[200, 100, 200], &[60, 25, 20])),
    (
        Call::Change(1, Err(NOT_COVERED)),
        (OVER, 0, &[200, 100, 200], &[60, 25, 20]),
    ),
    (
        Call::Change(5, Err(NOT_COVERED)),
        (OVER, 0, &[200, 100, 200], &[60, 25, 20]),
    ),
    (
        Call::Take(1, ON_LINE),
        (OVER, 0, &[200, 100, 200], &[60, 25, 20]),
    ),
    (
        Call::Shelve(1, PLAN, Err(FIRST_NOT_EMPTY)),
        (OVER, 0, &[200, 100, 200], &[60, 25, 20]),
    ),
    (
        Call::Step(SHOWN),
        (OVER, 1, &[200, 100, 200], &[20, 30, 30]),
    ),
    (Call::Step(DARK), (OVER, 1, &[200, 100, 200], &[25, 30, 35])),
    (Call::Step(SHOWN), (OVER, 0, &[200, 100, 200], &[26, 38, 1])),
    (Call::Step(SHOWN), (OVER, 1, &[200, 100, 200], &[0, 13, 1])),
];

// The same area, taken once more: it is covered again.
pub const COVERED_AGAIN: [Called; 2] = [
    (
        Call::Step(SHOWN),
        (State::Covered, 1, &[20, 20, 20], &[0, 0, 1]),
    ),
    (
        Call::Step(SHOWN),
        (State::Covered, 0, &[40, 25, 10], &[0, 0, 0]),
    ),
];

// Bound 399: one row is shown, and then it stays dark until a top cuts the envelope off.
pub const PLACE_HELD: [Called; 13] = [
    (
        Call::Step(SHOWN),
        (State::Covered, 1, &[20, 20, 20], &[1, 0, 1]),
    ),
    (
        Call::Step(DARK),
        (State::Covered, 1, &[40, 20, 30], &[2, 0, 2]),
    ),
    (
        Call::Step(DARK),
        (State::Covered, 1, &[60, 20, 40], &[3, 0, 3]),
    ),
    (
        Call::Step(DARK),
        (State::Covered, 1, &[80, 20, 50], &[4, 0, 4]),
    ),
    (
        Call::Step(DARK),
        (State::Covered, 1, &[100, 20, 60], &[5, 0, 5]),
    ),
    (
        Call::Step(DARK),
        (State::Covered, 1, &[120, 20, 70], &[6, 0, 6]),
    ),
    (
        Call::Step(DARK),
        (State::Covered, 1, &[140, 20, 80], &[7, 0, 7]),
    ),
    (
        Call::Step(DARK),
        (State::Covered, 1, &[160, 20, 90], &[8, 0, 8]),
    ),
    (
        Call::Step(DARK),
        (State::Covered, 1, &[180, 20, 100], &[9, 0, 9]),
    ),
    (
        Call::Step(DARK),
        (State::Covered, 1, &[200, 20, 110], &[10, 0, 10]),
    ),
    (Call::Step(DARK), (CUT, 1, &[200, 100, 200], &[11, 0, 11])),
    (Call::Step(SHOWN), (CUT, 0, &[200, 100, 200], &[12, 2, 1])),
    (Call::Step(SHOWN), (CUT, 1, &[200, 100, 200], &[0, 6, 1])),
];

// Bound 50 on the heavy street: queues and envelope are the heaviest run.
pub const ROUND: [Called; 2] = [
    (
        Call::Step(SHOWN),
        (State::Covered, 1, &[20, 20, 20], &[20, 20, 20]),
    ),
    (
        Call::Step(SHOWN),
        (State::Covered, 0, &[40, 25, 10], &[40, 25, 10]),
    ),
];

// Bound 50 on the heavy street, from 30 5 10, below the start.
pub const LIGHTER: [Called; 4] = [
    (
        Call::Step(SHOWN),
        (State::Covered, 1, &[20, 20, 20], &[20, 15, 20]),
    ),
    (
        Call::Step(SHOWN),
        (State::Covered, 0, &[40, 25, 10], &[40, 20, 10]),
    ),
    (
        Call::Step(SHOWN),
        (State::Covered, 1, &[20, 20, 20], &[20, 20, 20]),
    ),
    (
        Call::Step(SHOWN),
        (State::Covered, 0, &[40, 25, 10], &[40, 25, 10]),
    ),
];

// The two-mode model on the heavy street.
pub const LINEAR_ROUND: [Called; 9] = [
    (
        Call::Step(SHOWN),
        (State::Covered, 1, &[25760, 18400], &[25760, 18400]),
    ),
    (
        Call::Step(SHOWN),
        (State::Covered, 2, &[20072, 22916], &[20072, 22916]),
    ),
    (
        Call::Step(SHOWN),
        (State::Covered, 3, &[16542, 27315], &[16542, 27315]),
    ),
    (
        Call::Step(SHOWN),
        (State::Covered, 4, &[27745, 17066], &[27745, 17066]),
    ),
    (
        Call::Step(SHOWN),
        (State::Covered, 5, &[21329, 21648], &[21329, 21648]),
    ),
    (
        Call::Step(SHOWN),
        (State::Covered, 6, &[17296, 26046], &[17296, 26046]),
    ),
    (
        Call::Step(SHOWN),
        (State::Covered, 0, &[14912, 30481], &[14912, 30481]),
    ),
    (
        Call::Step(SHOWN),
        (State::Covered, 1, &[25617, 18323], &[25617, 18323]),
    ),
    (
        Call::Step(SHOWN),
        (State::Covered, 2, &[19965, 22817], &[19965, 22817]),
    ),
];
