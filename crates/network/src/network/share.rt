// The share of a pair of links.
ghost use Rattle.std.specs.Prelude.{◌≡◌};
ghost use Rattle.network.specs.Network.{share_of, ShareTold};

use super::Network;

impl Network {
    // What part of one link's release goes into another, in thousandths; links are counted from 1.
    // None where no turn joins them.
    pub fn share(&self, from: usize, to: usize) -> Option<u32>
        ensures value { result ≡ share_of self.now.turns.items from to }
        ensures joined { ShareTold self.now.turns.items from to result }
    {
        self.turns
            .iter()
            .find(|turn| turn.joins(from, to))
            .map(|turn| turn.share)
    }
}
