// Sheets, word by word: words, numbers in a range, section words and names, and why a sheet is refused.
#![tactic(auto)]

pub mod fault;
pub mod name;
pub mod number;
pub mod reading;
pub mod recorded;
pub mod word;
