// Limits: bounds on weighted sums of a state.
ghost use Rattle.std.specs.Prelude.{◌≡◌, nat_lt};
ghost use Rattle.plan.specs.Limits.{weighed, total, first_broken};

use model::states::number_at;

// A place, counted from 1, and its weight.
#[derive(Clone, Copy)]
pub struct Term {
    pub place: usize,
    pub weight: u32,
}

// A bound on the sum of weight × value over the terms; the table has zeros beyond the last term.
// A table with a count, and plain: a record that is read is copied, as a list is not, whether it lies on the heap or not.
#[derive(Clone, Copy)]
pub struct Limit {
    pub bound: u32,
    pub count: usize,
    pub terms: [Term; 8],
}

impl Term {
    fn weigh(&self, state: &[u32; 64]) -> u64
        ensures { result ≡ weighed state.now self.now }
    {
        u64::from(self.weight) * u64::from(number_at(state, self.place))
    }
}

impl Limit {
    // The sum of weight × value over the terms.
    fn sum(&self, state: &[u32; 64]) -> u128
        ensures { result ≡ total state.now self.now.terms }
    {
        self.terms.iter().map(|t| u128::from(t.weigh(state))).sum()
    }

    fn is_broken(&self, state: &[u32; 64]) -> bool
        ensures { result ≡ nat_lt self.now.bound (total state.now self.now.terms) }
    {
        self.sum(state) > u128::from(self.bound)
    }
}

// The number of the first limit, counted from 1, that the state does not keep.
pub fn first_broken(limits: &[Limit], state: &[u32; 64]) -> Option<usize>
    ensures { result ≡ first_broken limits.now state.now }
{
    let broken = limits.iter().position(|limit| limit.is_broken(state));
    broken.map(|k| k + 1)
}
