// What an area is, what each of its calls asks and does, and what is promised of its whole life.
#![tactic(auto)]

pub mod fault;
pub mod state;
