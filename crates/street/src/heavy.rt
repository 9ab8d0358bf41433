// A street on which every step brings the greatest arrivals.
ghost use Rattle.std.specs.Prelude.{◌≡◌};
ghost use Rattle.street.specs.Street.{Showed, Bounded};
ghost use Rattle.street.specs.Standing.{fresh_seen};
ghost use Rattle.street.specs.Fed.{fed_seen, FedStep};
ghost use Rattle.street.specs.Views.{BringsLoads, HeavyStep, StepsHeavily};

use crate::fed::FedStreet;
use crate::feed::Feed;
use crate::groups::Group;
use crate::{Showing, Street};
use model::Model;

// The greatest arrivals in every step, of which none is marked dark.
#[derive(Clone, Copy)]
pub struct Loads;

impl Feed for Loads {
    ghost brings = { BringsLoads };

    fn bring<M: Model>(&mut self, model: &M, _row: [u8; 32]) -> Group {
        Group {
            arrivals: model.loads(),
            dark: false,
        }
    }
}

pub type HeavyStreet<M> = FedStreet<M, Loads>;

impl<M: Model> FedStreet<M, Loads> {
    // A dark street with these queues.
    pub fn new(model: M, queues: [u32; 64]) -> Self
        ensures model { M.Model.meaning result.model ≡ M.Model.meaning model }
        ensures seen { fed_seen M.Model.meaning result ≡ fresh_seen (M.Model.meaning model) queues }
        ensures steps { StepsHeavily M.Model.meaning }
    {
        FedStreet::with_feed(model, queues, Loads)
    }

    // One step, as any street shows a row. Beside the `show` of the trait, which every feed shares: of a heavy street it is known too
    // what arrives and what is answered.
    pub fn show(&mut self, row: [u8; 32]) -> Showing
        ensures moved { Showed (M.Model.meaning self.old.model) row (fed_seen M.Model.meaning self.old) result (fed_seen M.Model.meaning self.new) }
        ensures model { M.Model.meaning self.new.model ≡ M.Model.meaning self.old.model }
        ensures within { Bounded (M.Model.meaning self.new.model) (fed_seen M.Model.meaning self.new) }
        ensures fed { FedStep M.Model.meaning BringsLoads row self.old result self.new }
        ensures step { HeavyStep M.Model.meaning row self.old result self.new }
    {
        Street::show(self, row)
    }
}
