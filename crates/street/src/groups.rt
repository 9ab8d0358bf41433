// Groups of arrivals, one for each step.
ghost use Rattle.std.specs.Prelude.{◌≡◌, ◌≤◌, length};
ghost use Rattle.street.specs.Counted.{no_group};

// What arrives at each place in one step, and whether that step is marked dark.
// An array, since a street takes no memory.
#[derive(Clone, Copy)]
pub struct Group {
    pub arrivals: [u32; 64],
    // a marked step brings arrivals as any other
    pub dark: bool,
}

// Up to 64 groups, of which the first so many are used up.
// A table with two counts, and no vector in place: groups are a plain value, which is copied.
#[derive(Clone, Copy)]
pub struct Groups {
    pub(crate) table: [Group; 64],
    pub(crate) kept: usize,
    pub(crate) used: usize,
    ghost size: { length table ≡ 64 },
    ghost few: { kept ≤ 64 },
    ghost within: { used ≤ kept },
}

// A step in which nothing arrives.
impl Default for Group {
    ghost is_default = { λ g. g ≡ no_group };

    fn default() -> Group {
        Group {
            arrivals: [0; 64],
            dark: false,
        }
    }
}
