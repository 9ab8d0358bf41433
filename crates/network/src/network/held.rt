// Which link a step finds held.
ghost use Rattle.std.specs.Prelude.{◌≡◌, ◌<◌, ◌≤◌};
ghost use Rattle.model.specs.Model.{lowest};
ghost use Rattle.network.specs.Network.{verdict_at};

use model::{Answer, Cause};

// What a step works out for each link: its wish, its release, its amount and its top.
// Each stays a whole state, since the next state is made of the amounts and the tops as they are.
#[derive(Clone, Copy)]
pub(super) struct Outcome {
    pub(super) wishes: [u32; 64],
    pub(super) out: [u32; 64],
    pub(super) amounts: [u32; 64],
    pub(super) tops: [u32; 64],
}

impl Outcome {
    // Whether the link after k others is held: blocked, or else cut off at its top.
    fn verdict_at(&self, k: usize) -> Answer
        requires { k < 64 }
        ensures { result ≡ verdict_at self.now.wishes self.now.out self.now.amounts self.now.tops k }
    {
        if self.out[k] < self.wishes[k] {
            Answer::Held(k + 1, Cause::Blocked)
        } else if self.tops[k] < self.amounts[k] {
            Answer::Held(k + 1, Cause::Overflow)
        } else {
            Answer::Clear
        }
    }

    // The lowest held one of so many links.
    pub(super) fn lowest_held(&self, count: usize) -> Answer
        requires { count ≤ 64 }
        ensures { result ≡ lowest count (verdict_at self.now.wishes self.now.out self.now.amounts self.now.tops) }
    {
        let mut verdicts = (0..count).map(
            |k|
                requires { k < 64 }
                ensures { result ≡ verdict_at self.entry.now.wishes self.entry.now.out self.entry.now.amounts self.entry.now.tops k }
            { self.verdict_at(k) },
        );
        verdicts
            .find(|answer| *answer != Answer::Clear)
            .unwrap_or(Answer::Clear)
    }
}
