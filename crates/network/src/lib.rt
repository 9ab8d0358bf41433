// Link networks: junctions, links of road and turns, and how their queues move in a step.
#![tactic(auto)]

pub mod links;
pub mod network;
