// A standing before the first step, and after one more.
ghost use Rattle.std.specs.Prelude.{◌≡◌};
ghost use Rattle.street.specs.Street.{Showed, Bounded, lamps_after};
ghost use Rattle.street.specs.Standing.{seen_of, Fresh, After, answer_for};

use super::Standing;
use crate::Showing;
use model::Model;

// The answer to a row, where the step may be marked dark.
fn answer_for<M: Model>(model: &M, marked: bool, row: [u8; 32]) -> Showing
    ensures { result ≡ answer_for (M.Model.meaning model.now) marked row }
{
    if !marked && model.legal(row) {
        Showing::Shown
    } else {
        Showing::Dark
    }
}

// The lamps under an answer.
fn lamps_under<M: Model>(model: &M, answer: Showing, row: [u8; 32]) -> [u8; 32]
    ensures { result ≡ lamps_after (M.Model.meaning model.now) answer row }
{
    match answer {
        Showing::Shown => row,
        Showing::Dark => model.dark(),
    }
}

impl Standing {
    // Dark, with these queues, before the first step.
    #[tactic(auto, using(crate::specs::Moving::fresh_is))]
    pub fn fresh<M: Model>(model: &M, queues: [u32; 64]) -> Standing
        ensures { Fresh (M.Model.meaning model.now) queues result }
    {
        Standing {
            queues,
            lamps: model.dark(),
            arrivals: [0; 64],
        }
    }

    // The queues after a step under these lamps, in which so much arrives.
    fn queues_after<M: Model>(&self, model: &M, lamps: [u8; 32], arrivals: [u32; 64]) -> [u32; 64]
        ensures { result ≡ (M.Model.meaning model.now).next lamps self.now.queues arrivals }
    {
        let queues = self.queues;
        let step = model.step(lamps, queues, arrivals);
        step.next
    }

    // One step in which so much arrives; the step may be marked dark.
    pub fn show<M: Model>(
        &mut self,
        model: &M,
        marked: bool,
        row: [u8; 32],
        arrivals: [u32; 64],
    ) -> Showing
        ensures answer { result ≡ answer_for (M.Model.meaning model.now) marked row }
        ensures exact { After (M.Model.meaning model.now) marked row arrivals self.old self.new }
        ensures moved { Showed (M.Model.meaning model.now) row (seen_of (M.Model.meaning model.now) self.old) result (seen_of (M.Model.meaning model.now) self.new) }
        ensures within { Bounded (M.Model.meaning model.now) (seen_of (M.Model.meaning model.now) self.new) }
    {
        let answer = answer_for(model, marked, row);
        let lamps = lamps_under(model, answer, row);
        let queues = self.queues_after(model, lamps, arrivals);
        *self = Standing {
            queues,
            lamps,
            arrivals,
        };
        answer
    }
}
