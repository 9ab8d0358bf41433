// What a link lets out in a step.
ghost use Rattle.std.specs.Prelude.{◌≡◌};
ghost use Rattle.model.specs.State.{told};
ghost use Rattle.network.specs.Code.{roads};
ghost use Rattle.network.specs.Network.{let_out, LetsOut};

use super::Network;
use model::Model as QueueModel;
use model::states::{capped_by, number_at};

impl Network {
    // The release of the link, counted from 1; 0 out of range.
    pub fn release(&self, row: [u8; 32], state: [u32; 64], link: usize) -> u32
        ensures value { result ≡ told (let_out (roads self.now) row state) link }
        ensures greatest { LetsOut (roads self.now) row state link result }
    {
        let queues = capped_by(&self.tops(), &state);
        let wishes = self.wishes(&self.lamps(row), &queues);
        number_at(&self.releases(&wishes, &queues), link)
    }
}
