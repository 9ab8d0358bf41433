// The parts of a step: wishes, releases and amounts, all from the queues before it.
ghost use Rattle.std.specs.Prelude.{◌≡◌, ℕ, ◌+◌, ◌-◌, ◌*◌, ◌/◌, ◌<◌, ◌≤◌, min, cond, length, MatchOption, slice_index};
ghost use Rattle.model.specs.State.{whole, told};
ghost use Rattle.network.specs.Sound.{TurnOk};
ghost use Rattle.network.specs.Code.{roads};
ghost use Rattle.network.specs.Network.{tops, loads, mode, green, wish, wishes, passage, inflow, amounts};
ghost use Rattle.network.specs.Parts.{eased, Small};

use super::Network;
use crate::links::{Link, Turn};
use std::array;

impl Network {
    // The link of a place, counted from 1. Each model has its own, since it promises the tops and the loads of that model.
    pub(super) fn link(&self, place: usize) -> Option<&Link>
        ensures top { MatchOption result (told (tops (roads self.now)) place ≡ 0) (λ l. l.now.top ≡ told (tops (roads self.now)) place) }
        ensures load { MatchOption result (told (loads (roads self.now)) place ≡ 0) (λ l. l.now.load ≡ told (loads (roads self.now)) place) }
    {
        self.links.get(place.checked_sub(1)?)
    }
}

impl Link {
    // The mode that the row shows at the link's head.
    fn mode(&self, row: &[u8; 32]) -> u8
        ensures { result ≡ mode self.now row.now }
    {
        row.get(self.head.saturating_sub(1)).copied().unwrap_or(0)
    }

    // Whether the row shows the link green.
    fn is_green(&self, row: &[u8; 32]) -> bool
        ensures { result ≡ green self.now row.now }
    {
        let mode = self.mode(row);
        mode > 0 && self.is_green_in(u32::from(mode - 1))
    }

    // What the link would let out of its queue.
    fn wish(&self, row: &[u8; 32], queue: u32) -> u32
        ensures { result ≡ cond (green self.now row.now) (min self.now.flow queue) 0 }
    {
        if self.is_green(row) {
            self.flow.min(queue)
        } else {
            0
        }
    }
}

impl Network {
    // What each link would let out. Over the links that there are, since a small network has far fewer than 64.
    pub(super) fn wishes(&self, row: &[u8; 32], queues: &[u32; 64]) -> [u32; 64]
        ensures { result ≡ wishes (roads self.now) row.now queues.now }
    {
        let mut wishes = [0; 64];
        for (k, link) in self.links.iter().enumerate() {
            wishes[k] = link.wish(row, queues[k]);
        }
        wishes
    }

    // The most that the turn has room for.
    fn passage(&self, queues: &[u32; 64], turn: &Turn) -> u32
        requires { TurnOk (length self.now.links.items) turn.now }
        ensures { result ≡ passage (roads self.now) queues.now turn.now }
    {
        let room = self.links[turn.to - 1]
            .top
            .saturating_sub(queues[turn.to - 1]);
        let weighed = turn.supply * room;
        weighed / turn.share
    }

    // What each link lets out of what it asks for: less where a turn has no room for it.
    pub(super) fn releases(&self, asked: &[u32; 64], queues: &[u32; 64]) -> [u32; 64]
        ensures { result ≡ eased (roads self.now) queues.now asked.now }
    {
        let mut out = *asked;
        for turn in &self.turns {
            let from = turn.from - 1;
            out[from] = out[from].min(self.passage(queues, turn));
        }
        out
    }
}

impl Turn {
    // The part of a release that takes the turn, rounded down.
    fn part(&self, release: u32) -> u32
        requires shared { self.now.share ≤ 1000 }
        requires small { release ≤ 100000 }
        ensures { result ≡ self.now.share * release / 1000 }
    {
        let thousandths = self.share * release;
        thousandths / 1000
    }
}

// The queue of a link once its release is gone, the inflow is in and the arrivals have come.
fn queue_after(queue: u32, release: u32, inflow: u32, arrivals: u32) -> u32
    requires leaving { release ≤ queue }
    requires queued { queue ≤ 100000 }
    requires brought { inflow ≤ 25600000 }
    requires arrived { arrivals ≤ 100000 }
    ensures { result ≡ queue - release + inflow + arrivals }
{
    queue - release + inflow + arrivals
}

impl Network {
    // What all turns bring into each link.
    fn inflows(&self, out: &[u32; 64]) -> [u32; 64]
        requires { (j : ℕ) → slice_index out.now j ≤ 100000 }
        ensures value { result ≡ whole (inflow (roads self.now) out.now) }
        ensures small { (j : ℕ) → slice_index result j ≤ 25600000 }
    {
        let mut inflows = [0; 64];
        for turn in &self.turns {
            inflows[turn.to - 1] += turn.part(out[turn.from - 1]);
        }
        inflows
    }

    // The queue of each link after the step, before its top cuts it off.
    pub(super) fn amounts(
        &self,
        out: &[u32; 64],
        queues: &[u32; 64],
        arrivals: &[u32; 64],
    ) -> [u32; 64]
        requires { Small out.now queues.now arrivals.now }
        ensures { result ≡ amounts (roads self.now) out.now queues.now arrivals.now }
    {
        let inflows = self.inflows(out);
        array::from_fn(|k| queue_after(queues[k], out[k], inflows[k], arrivals[k]))
    }
}
