// What a standing tells under a model.
ghost use Rattle.std.specs.Prelude.{◌≡◌};
ghost use Rattle.model.specs.State.{told};
ghost use Rattle.street.specs.Street.{Bounded};
ghost use Rattle.street.specs.Standing.{seen_of};

use super::Standing;
use model::Model;
use model::states::number_at;

impl Standing {
    // The queue at a place.
    #[tactic(auto, using(crate::specs::Moving::told_top))]
    pub fn queue<M: Model>(&self, model: &M, place: usize) -> u32
        ensures is { result ≡ told (seen_of (M.Model.meaning model.now) self.now).queues place }
        ensures within { Bounded (M.Model.meaning model.now) (seen_of (M.Model.meaning model.now) self.now) }
    {
        number_at(&self.queues, place).min(model.top(place))
    }

    // The mode that a signal shows.
    pub fn lamp<M: Model>(&self, model: &M, signal: usize) -> u8
        ensures is { result ≡ told (seen_of (M.Model.meaning model.now) self.now).lamps signal }
        ensures within { Bounded (M.Model.meaning model.now) (seen_of (M.Model.meaning model.now) self.now) }
    {
        let lamps = model.lamps(self.lamps);
        // as `number_at` of states, whose numbers are of another type
        let mode = signal.checked_sub(1).and_then(|k| lamps.get(k));
        mode.copied().unwrap_or(0)
    }

    // What arrived at a place in the latest step.
    #[tactic(auto, using(crate::specs::Moving::told_load))]
    pub fn arrival<M: Model>(&self, model: &M, place: usize) -> u32
        ensures is { result ≡ told (seen_of (M.Model.meaning model.now) self.now).arrivals place }
        ensures within { Bounded (M.Model.meaning model.now) (seen_of (M.Model.meaning model.now) self.now) }
    {
        number_at(&self.arrivals, place).min(model.load(place))
    }
}
