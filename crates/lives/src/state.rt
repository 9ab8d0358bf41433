// The states of an area, and how they are printed.
ghost use Rattle.std.specs.Prelude.{Some};
ghost use Rattle.lives.specs.Text.{loss_text, state_text};

use std::fmt;

// Why cover was lost: the row that was tried, counted from 0, and the place or the limit, counted from 1.
#[derive(Clone, Copy, PartialEq, Eq, Debug)]
pub enum Loss {
    // at this row this place was held
    PlaceHeld(usize, usize),
    // after this row this limit was broken
    LimitBroken(usize, usize),
}

impl fmt::Display for Loss {
    ghost output = { λ loss. Some (loss_text loss) };

    fn fmt<W: fmt::Write>(&self, f: &mut fmt::Formatter<W>) -> fmt::Result {
        match self {
            Loss::PlaceHeld(row, place) => write!(f, "held {row} {place}"),
            Loss::LimitBroken(row, limit) => write!(f, "limit {row} {limit}"),
        }
    }
}

#[derive(Clone, Copy, PartialEq, Eq, Debug)]
pub enum State {
    // no plan is on line
    OffLine,
    // no queue is above the envelope
    Covered,
    // the envelope tells nothing any more
    Lost(Loss),
}

impl fmt::Display for State {
    ghost output = { λ state. Some (state_text state) };

    fn fmt<W: fmt::Write>(&self, f: &mut fmt::Formatter<W>) -> fmt::Result {
        match self {
            State::OffLine => write!(f, "off"),
            State::Covered => write!(f, "covered"),
            State::Lost(loss) => write!(f, "lost {loss}"),
        }
    }
}
