// What brings a street its arrivals.
ghost use Rattle.std.specs.Prelude.{ℕ, List};
ghost use Rattle.model.specs.Model.{Meaning};
ghost use Rattle.street.specs.declared.groups.Group.{Group};

use crate::groups::Group;
use model::Model;

pub trait Feed {
    // which group a step may bring, for the model, the row that is sent, and the feed before and after
    ghost brings: { Meaning → List ℕ → Self → Group → Self → Type 0 };

    // The group of one step. The row is the one that counts, the dark row in place of an illegal one.
    fn bring<M: Model>(&mut self, model: &M, row: [u8; 32]) -> Group
        ensures { brings (M.Model.meaning model.now) row self.old result self.new };
}
