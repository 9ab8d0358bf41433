// Plan sheets for any model: the plan that a sheet says, and its check.
#![tactic(auto)]

pub mod check;
pub mod fault;
pub mod read;
