// A street over any model, on which each step brings what its feed gives.
ghost use Rattle.std.specs.Prelude.{◌≡◌};
ghost use Rattle.street.specs.Street.{Showed, Bounded};
ghost use Rattle.street.specs.Standing.{fresh_seen};
ghost use Rattle.street.specs.Fed.{fed_seen, FedStep};

use crate::feed::Feed;
use crate::groups::Group;
use crate::standing::Standing;
use crate::{Showing, Street};
use model::{Model, Model as QueueModel, Step};

#[derive(Drop)]
pub struct FedStreet<M, F> {
    model: M,
    standing: Standing,
    pub(crate) feed: F,
}

impl<M: Model, F: Feed> FedStreet<M, F> {
    // A dark street with these queues. Each kind of street is made by a function of its own, which repeats these promises for its callers.
    pub fn with_feed(model: M, queues: [u32; 64], feed: F) -> Self
        ensures model { M.Model.meaning result.model ≡ M.Model.meaning model }
        ensures seen { fed_seen M.Model.meaning result ≡ fresh_seen (M.Model.meaning model) queues }
        ensures feed { result.feed ≡ feed }
    {
        let standing = Standing::fresh(&model, queues);
        FedStreet {
            model,
            standing,
            feed,
        }
    }
}

impl<M: Model, F> QueueModel for FedStreet<M, F> {
    ghost meaning = { λ s. M.Model.meaning s.model };

    ghost lawful = { λ s. M.Model.lawful s.model };

    fn places(&self) -> usize {
        self.model.places()
    }

    fn signals(&self) -> usize {
        self.model.signals()
    }

    fn top(&self, place: usize) -> u32 {
        self.model.top(place)
    }

    fn load(&self, place: usize) -> u32 {
        self.model.load(place)
    }

    fn legal(&self, row: [u8; 32]) -> bool {
        self.model.legal(row)
    }

    fn dark(&self) -> [u8; 32] {
        self.model.dark()
    }

    fn tops(&self) -> [u32; 64] {
        self.model.tops()
    }

    fn loads(&self) -> [u32; 64] {
        self.model.loads()
    }

    fn step(&self, row: [u8; 32], state: [u32; 64], arrivals: [u32; 64]) -> Step {
        self.model.step(row, state, arrivals)
    }
}

impl<M: Model, F: Feed> Street for FedStreet<M, F> {
    ghost seen = { fed_seen M.Model.meaning };

    fn show(&mut self, row: [u8; 32]) -> Showing
        ensures moved { Showed (M.Model.meaning self.old.model) row (fed_seen M.Model.meaning self.old) result (fed_seen M.Model.meaning self.new) }
        ensures model { M.Model.meaning self.new.model ≡ M.Model.meaning self.old.model }
        ensures within { Bounded (M.Model.meaning self.new.model) (fed_seen M.Model.meaning self.new) }
        ensures step { FedStep M.Model.meaning F.Feed.brings row self.old result self.new }
    {
        let Group { arrivals, dark } = self.feed.bring(&self.model, self.model.lamps(row));
        self.standing.show(&self.model, dark, row, arrivals)
    }

    fn queue(&self, place: usize) -> u32 {
        self.standing.queue(&self.model, place)
    }

    fn lamp(&self, signal: usize) -> u8 {
        self.standing.lamp(&self.model, signal)
    }

    fn arrival(&self, place: usize) -> u32 {
        self.standing.arrival(&self.model, place)
    }
}
