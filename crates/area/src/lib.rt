// Areas: plans on a shelf, one of them on line, and an envelope over every queue.
#![tactic(auto)]

pub mod area;
