// A whole day of an area: what a day sheet says, and what the area answers call by call.
#![tactic(auto)]

pub mod call;
pub mod day;
mod group;
mod lines;
pub mod read;
mod run;
mod table;
