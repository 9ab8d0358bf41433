// Models: what steps a state of queues by a row of signal modes and by arrivals.
// A state is sixty-four numbers, one for each place; a row is thirty-two modes, one for each signal.
// Both are arrays with zeros beyond the last place or signal, since a step allocates nothing.
// Places and signals are numbered from 1, and a question out of range answers 0: that is what a state holds beyond the last place.
#![tactic(auto)]

ghost use Rattle.std.specs.Prelude.{◌≡◌, ◌+◌, ◌<◌};
ghost use Rattle.model.specs.State.{told};
ghost use Rattle.model.specs.Model.{Meaning, Lawful, dark_row, lamps, stepped};

use std::array;

// Why a place is held.
#[derive(Clone, Copy, PartialEq, Eq, Debug)]
pub enum Cause {
    // there is no room for what it would let out
    Blocked,
    // its top cuts its queue off
    Overflow,
}

// What a step says: every place is clear, or the lowest held place with its cause.
// An enum of its own, since `None` would read as no answer where every place was found clear.
#[derive(Clone, Copy, PartialEq, Eq, Debug)]
pub enum Answer {
    Clear,
    Held(usize, Cause),
}

// The next state of a step, and what the step says.
#[derive(Clone, Copy)]
pub struct Step {
    pub next: [u32; 64],
    pub answer: Answer,
}

// No model refuses: a number above a top or a load counts as that, a number beyond the last place as 0,
// and an illegal row as the dark row.
pub trait Model {
    ghost meaning: { Self → Meaning };

    fn places(&self) -> usize
        ensures { result ≡ (meaning self.now).places };

    fn signals(&self) -> usize
        ensures { result ≡ (meaning self.now).signals };

    // The greatest number that the place can hold.
    fn top(&self, place: usize) -> u32
        ensures { result ≡ told (meaning self.now).tops place };

    // The most that can arrive at the place in one step.
    fn load(&self, place: usize) -> u32
        ensures { result ≡ told (meaning self.now).loads place };

    fn legal(&self, row: [u8; 32]) -> bool
        ensures { result ≡ (meaning self.now).legal row };

    // The row that a dark street shows.
    fn dark(&self) -> [u8; 32]
        ensures { result ≡ dark_row (meaning self.now) };

    // The row, the state and the arrivals come apart, since whoever asks has each from elsewhere: a row from its plan, a state from
    // the step before, arrivals from the street or from the loads.
    fn step(&self, row: [u8; 32], state: [u32; 64], arrivals: [u32; 64]) -> Step
        ensures { result ≡ stepped (meaning self.now) row state arrivals };

    // The greatest number that each place can hold.
    fn tops(&self) -> [u32; 64]
        ensures { result ≡ (meaning self.now).tops }
    {
        array::from_fn(
            |k|
                requires { k < 64 }
                ensures { result ≡ told (meaning self.entry.now).tops (k + 1) }
            { self.top(k + 1) },
        )
    }

    // The most that can arrive at each place in one step. Beside `tops`, since each asks a question of its own.
    fn loads(&self) -> [u32; 64]
        ensures { result ≡ (meaning self.now).loads }
    {
        array::from_fn(
            |k|
                requires { k < 64 }
                ensures { result ≡ told (meaning self.entry.now).loads (k + 1) }
            { self.load(k + 1) },
        )
    }

    // The row that counts: the dark row in place of an illegal one.
    fn lamps(&self, row: [u8; 32]) -> [u8; 32]
        ensures { result ≡ lamps (meaning self.now) row }
    {
        if self.legal(row) { row } else { self.dark() }
    }

    ghost lawful: { (m : Self) → Lawful (meaning m) };
}

pub mod states;
