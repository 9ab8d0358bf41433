// Streets: what takes a row and moves its queues.
#![tactic(auto)]

ghost use Rattle.std.specs.Prelude.{◌≡◌};
ghost use Rattle.model.specs.State.{told};
ghost use Rattle.street.specs.Street.{Seen, Showed, Bounded};

use model::Model;

// What a street answers to a row: it shows that row, or it is dark.
#[derive(Clone, Copy, PartialEq, Eq, Debug)]
pub enum Showing {
    Shown,
    Dark,
}

// That a street keeps the bounds of its model stands in each answer: a law would be one proof more for whoever writes a street.
pub trait Street: Model {
    ghost seen: { Self → Seen };

    // Shows a row, and moves the queues by one step.
    fn show(&mut self, row: [u8; 32]) -> Showing
        ensures moved { Showed (Self.Model.meaning self.old) row (seen self.old) result (seen self.new) }
        ensures model { Self.Model.meaning self.new ≡ Self.Model.meaning self.old }
        ensures within { Bounded (Self.Model.meaning self.new) (seen self.new) };

    // The queue at a place.
    fn queue(&self, place: usize) -> u32
        ensures is { result ≡ told (seen self.now).queues place }
        ensures within { Bounded (Self.Model.meaning self.now) (seen self.now) };

    // The mode that a signal shows.
    fn lamp(&self, signal: usize) -> u8
        ensures is { result ≡ told (seen self.now).lamps signal }
        ensures within { Bounded (Self.Model.meaning self.now) (seen self.now) };

    // What arrived at a place in the latest step.
    fn arrival(&self, place: usize) -> u32
        ensures is { result ≡ told (seen self.now).arrivals place }
        ensures within { Bounded (Self.Model.meaning self.now) (seen self.now) };
}

pub mod careful;
pub mod counted;
pub mod fed;
pub mod feed;
pub mod groups;
pub mod heavy;
pub mod queues;
pub mod standing;
