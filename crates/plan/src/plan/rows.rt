// The rows of a plan.
ghost use Rattle.std.specs.Prelude.{◌≡◌, length, slice_index_or};
ghost use Rattle.plan.specs.Check.{rows_of};

use crate::plan::Plan;

impl Plan {
    // Its rows, from row 0 to the last.
    pub fn rows(&self) -> &[[u8; 32]]
        ensures { result.now ≡ rows_of self.now }
    {
        &self.rows[..self.count]
    }

    // How many rows it has.
    pub fn length(&self) -> usize
        ensures { result ≡ length (rows_of self.now) }
    {
        self.rows().len()
    }

    // Row n, or another row past the last.
    pub fn row_or(&self, n: usize, other: [u8; 32]) -> [u8; 32]
        ensures { result ≡ slice_index_or (rows_of self.now) n other }
    {
        self.rows().get(n).copied().unwrap_or(other)
    }
}
