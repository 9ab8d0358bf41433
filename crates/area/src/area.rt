// An area over any street, and the duty to give it back.
use lives::fault::AreaFault;
use lives::state::State;
use plan::limits::Limit;
use plan::plan::Plan;

// Where an area stands: its state, the current row of the plan on line, counted from 0, and the envelope.
// The envelope is an array, since an area allocates nothing.
#[derive(Clone, Copy)]
struct Position {
    state: State,
    row: usize,
    envelope: [u32; 64],
}

// What an area knows without looking at its street: the plans under the shelf numbers 1 to 8, the limits, the shelf number of the
// plan on line, and where it stands. The shelf is an array, since an area allocates nothing.
#[derive(Drop)]
struct Book {
    shelf: [Option<Plan>; 8],
    limits: Vec<Limit>,
    on: Option<usize>,
    position: Position,
}

#[derive(Drop)]
pub struct Area<S> {
    street: S,
    number: u32,
    book: Book,
}

// Whoever takes an area on line has the duty to give it back. It cannot be let go: only an accepted `give_back` spends it.
pub struct Duty {
    area: u32,
}

// A duty that was not spent, and why.
pub struct Unspent {
    pub duty: Duty,
    pub fault: AreaFault,
}

mod advancing;
mod changing;
pub mod first;
mod making;
mod questions;
mod shelving;
mod telling;
