// Plans.
ghost use Rattle.std.specs.Prelude.{◌≤◌};

// A start and 1 to 64 rows, numbered from 0; the table has zeros beyond the last row.
// A table with a count, and plain: a plan is copied from its shelf, as a list is not, whether it lies on the heap or not.
#[derive(Clone, Copy)]
pub struct Plan {
    pub start: [u32; 64],
    pub rows: [[u8; 32]; 64],
    pub count: usize,
    ghost some: { 1 ≤ count },
    ghost few: { count ≤ 64 },
}

mod rows;
