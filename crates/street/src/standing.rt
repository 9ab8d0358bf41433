// How a street stands: its queues, its row of lamps, and what arrived in the latest step. A street of your own may hold one and ask it.
ghost use Rattle.std.specs.Prelude.{◌≡◌, length};

// A number above a top or a load counts as that, and an illegal row as the dark row.
// Arrays, since a street takes no memory.
#[derive(Clone, Copy)]
pub struct Standing {
    queues: [u32; 64],
    lamps: [u8; 32],
    arrivals: [u32; 64],
    ghost row: { length lamps ≡ 32 },
}

mod questions;
mod steps;
