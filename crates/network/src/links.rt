// Links of road, and the turns between them.
ghost use Rattle.std.specs.Prelude.{◌≡◌, ◌/◌, ◌%◌, ◌^◌, ◌==◌};
ghost use Rattle.network.specs.Network.{green_in, joins};

// At the head of a link a junction shows it green in the phases of its mask: bit p - 1 for phase p.
// The top is the link's storage, the flow the most that it lets out in a step, the load the most that arrives in one.
// The name has zeros beyond its last letter: a table, and plain, since a record that is read is copied, as a list is not.
// Junctions are counted from 1, and 0 is outside. A tail is only compared with heads, so an Option would never be opened.
#[derive(Clone, Copy)]
pub struct Link {
    pub name: [u8; 8],
    pub tail: usize,
    pub head: usize,
    pub top: u32,
    pub flow: u32,
    pub load: u32,
    pub mask: u8,
}

// What part of one link's release goes into another, and what part of that one's room it may take, in thousandths.
// Links are counted from 1.
#[derive(Clone, Copy)]
pub struct Turn {
    pub from: usize,
    pub to: usize,
    pub share: u32,
    pub supply: u32,
}

// Whether a bit of the mask, counted from 0, is 1.
fn has_bit(mask: u8, bit: u32) -> bool
    ensures { result ≡ (mask / 2 ^ bit % 2 == 1) }
{
    mask.checked_shr(bit).is_some_and(|bits| bits % 2 == 1)
}

impl Link {
    // Whether a phase of the link's junction, counted from 0, shows it green.
    pub fn is_green_in(&self, phase: u32) -> bool
        ensures { result ≡ green_in phase self.now }
    {
        has_bit(self.mask, phase)
    }
}

impl Turn {
    // Whether the turn goes from one link to another. It compares two of the four fields, so it is no equality of turns.
    pub fn joins(&self, from: usize, to: usize) -> bool
        ensures { result ≡ joins self.now from to }
    {
        self.from == from && self.to == to
    }
}
