// Limits, plans, and the check of a plan over any model.
#![tactic(auto)]

pub mod check;
pub mod fault;
pub mod limits;
pub mod plan;
