// A network: the phases of each junction, the links and the turns.
ghost use Rattle.network.specs.Sound.{PhasesOk, LinksOk, TurnsOk};
ghost use Rattle.std.specs.Prelude.{◌≤◌, length};

use crate::links::{Link, Turn};

// No number of a network is out of its range.
#[derive(Drop)]
pub struct Network {
    pub phases: Vec<u8>,
    pub links: Vec<Link>,
    pub turns: Vec<Turn>,
    ghost phased: { PhasesOk phases.items },
    ghost some: { 1 ≤ length links.items },
    ghost few: { length links.items ≤ 64 },
    ghost linked: { LinksOk (length phases.items) links.items },
    ghost short: { length turns.items ≤ 256 },
    ghost turned: { TurnsOk (length links.items) turns.items },
}

pub mod as_model;
mod held;
mod release;
mod share;
mod step;
