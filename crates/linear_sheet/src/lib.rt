// Linear model sheets: the modes, places, entries and limits that a sheet says.
#![tactic(auto)]

pub mod place;
pub mod read;
