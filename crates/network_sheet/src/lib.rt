// Network sheets: the signals, links, turns and limits that a sheet says.
#![tactic(auto)]

pub mod link;
pub mod read;
pub mod turn;
