// A linear model: the modes of its one signal, the places and the entries.
ghost use Rattle.linear.specs.Sound.{PlacesOk, EntriesOk};
ghost use Rattle.std.specs.Prelude.{◌≡◌, ◌*◌, ◌≤◌, length};

use crate::place::Place;

// An entry says what part of one place's value goes over into another's, in hundredths.
// They follow one another by mode, line and column, with a line and a column for each place: one list, as a sheet writes them,
// of which each line is a slice.
// No number of a linear model is out of its range.
#[derive(Drop)]
pub struct Linear {
    pub modes: u8,
    pub places: Vec<Place>,
    pub entries: Vec<u32>,
    ghost moded: { 1 ≤ modes },
    ghost short: { modes ≤ 8 },
    ghost some: { 1 ≤ length places.items },
    ghost few: { length places.items ≤ 16 },
    ghost placed: { PlacesOk places.items },
    ghost full: { length entries.items ≡ modes * length places.items * length places.items },
    ghost entered: { EntriesOk entries.items },
}

pub mod as_model;
mod step;
