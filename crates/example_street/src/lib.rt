// An example: a street in front of a controller, to copy and to change.
#![tactic(auto)]

pub mod box_street;
pub mod cabinet;
pub mod controller;
