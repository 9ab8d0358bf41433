// The verdict on an input that holds a model sheet and a plan sheet.
#![tactic(auto)]

pub mod judge;
pub mod verdict;
