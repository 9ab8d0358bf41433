// A network is a model.
ghost use Rattle.std.specs.Prelude.{◌≡◌};
ghost use Rattle.model.specs.Model.{stepped};
ghost use Rattle.network.specs.Code.{roads};
ghost use Rattle.network.specs.Network.{network, ClearWhereFlows};
ghost use Rattle.network.specs.Laws;
ghost use Rattle.network.specs.Ranges.{sound};

use super::Network;
use super::held::Outcome;
use model::states::{capped_by, fits_modes};
use model::{Model as QueueModel, Step};

impl QueueModel for Network {
    ghost meaning = { λ m. network (roads m) };

    ghost lawful = { λ m. Laws.lawful (roads m) (sound m) };

    fn places(&self) -> usize {
        self.links.len()
    }

    fn signals(&self) -> usize {
        self.phases.len()
    }

    fn top(&self, place: usize) -> u32 {
        self.link(place).map_or(0, |link| link.top)
    }

    fn load(&self, place: usize) -> u32 {
        self.link(place).map_or(0, |link| link.load)
    }

    fn legal(&self, row: [u8; 32]) -> bool {
        fits_modes(&self.phases, &row)
    }

    // Over the links that there are: the trait's own `tops` and `loads` ask for each of 64 places, which costs a small network more than its step.
    fn tops(&self) -> [u32; 64] {
        let mut tops = [0; 64];
        for (k, link) in self.links.iter().enumerate() {
            tops[k] = link.top;
        }
        tops
    }

    fn loads(&self) -> [u32; 64] {
        let mut loads = [0; 64];
        for (k, link) in self.links.iter().enumerate() {
            loads[k] = link.load;
        }
        loads
    }

    #[tactic(auto, unfolding(model::specs::Model::dark_row))]
    fn dark(&self) -> [u8; 32] {
        [0; 32]
    }

    // Both models cap, move and cap again; what moves and what is held is each one's own, and so is the promise.
    // Clear exactly where each link lets out its wish and no top cuts a queue off.
    fn step(&self, row: [u8; 32], state: [u32; 64], arrivals: [u32; 64]) -> Step
        ensures is { result ≡ stepped (network (roads self.now)) row state arrivals }
        ensures clear_where_flows { ClearWhereFlows (roads self.now) row state arrivals result.answer }
    {
        let tops = self.tops();
        let queues = capped_by(&tops, &state);
        let coming = capped_by(&self.loads(), &arrivals);
        let wishes = self.wishes(&self.lamps(row), &queues);
        let out = self.releases(&wishes, &queues);
        let amounts = self.amounts(&out, &queues, &coming);
        let next = capped_by(&tops, &amounts);
        let outcome = Outcome {
            wishes,
            out,
            amounts,
            tops,
        };
        let answer = outcome.lowest_held(self.places());
        Step { next, answer }
    }
}
