// Linear models: a table of entries for each mode, and how the values of the places move in a step.
#![tactic(auto)]

pub mod linear;
pub mod place;
