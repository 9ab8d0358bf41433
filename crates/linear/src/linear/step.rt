// The parts of a step, all from the values before it.
ghost use Rattle.std.specs.Prelude.{◌≡◌, ℕ, ◌*◌, ◌<◌, ◌≤◌, length, MatchOption, slice_index};
ghost use Rattle.model.specs.State.{told};
ghost use Rattle.linear.specs.Code.{lines};
ghost use Rattle.linear.specs.Lines.{tops, loads, entry, part, line_sum, units, amount, amounts};
ghost use Rattle.linear.specs.Parts.{Ready};

use super::Linear;
use crate::place::Place;

impl Linear {
    // The place of a number, counted from 1. Each model has its own, since it promises the tops and the loads of that model.
    pub(super) fn place(&self, number: usize) -> Option<&Place>
        ensures top { MatchOption result (told (tops (lines self.now)) number ≡ 0) (λ p. p.now.top ≡ told (tops (lines self.now)) number) }
        ensures load { MatchOption result (told (loads (lines self.now)) number ≡ 0) (λ p. p.now.load ≡ told (loads (lines self.now)) number) }
    {
        self.places.get(number.checked_sub(1)?)
    }
}

// A value by the weight of an entry, in hundredths.
fn weighed(entry: u32, value: u32) -> u32
    requires { (entry ≤ 10000) × (value ≤ 100000) }
    ensures value { result ≡ entry * value }
    ensures small { result ≤ 1000000000 }
{
    entry * value
}

impl Linear {
    // The entry of a mode at a line and a column.
    fn entry(&self, mode: u8, line: usize, column: usize) -> u32
        requires moded { (1 ≤ mode) × (mode ≤ self.now.modes) }
        requires inside { (line < length self.now.places.items) × (column < length self.now.places.items) }
        ensures value { result ≡ entry (lines self.now) mode line column }
        ensures small { result ≤ 10000 }
    {
        let count = self.places.len();
        self.entries[((usize::from(mode) - 1) * count + line) * count + column]
    }

    // What the value of a column adds to a line, in hundredths.
    fn part(&self, mode: u8, values: &[u32; 64], line: usize, column: usize) -> u32
        requires moded { (1 ≤ mode) × (mode ≤ self.now.modes) }
        requires inside { (line < length self.now.places.items) × (column < length self.now.places.items) }
        requires small { (k : ℕ) → slice_index values.now k ≤ 100000 }
        ensures value { result ≡ part (lines self.now) mode values.now line column }
        ensures small { result ≤ 1000000000 }
    {
        weighed(self.entry(mode, line, column), values[column])
    }

    // The sum of a line, in hundredths: too large for 32 bits. Column by column, since an entry is told by its line and its column.
    fn line_sum(&self, mode: u8, values: &[u32; 64], line: usize) -> u64
        requires moded { (1 ≤ mode) × (mode ≤ self.now.modes) }
        requires inside { line < length self.now.places.items }
        requires small { (k : ℕ) → slice_index values.now k ≤ 100000 }
        ensures value { result ≡ line_sum (lines self.now) mode values.now line }
        ensures small { result ≤ 16000000000 }
    {
        let mut sum = 0;
        for column in 0..self.places.len() {
            sum += u64::from(self.part(mode, values, line, column));
        }
        sum
    }
}

// Hundredths as whole units, rounded up. The cast is proved to lose nothing, so no error has to be named.
fn units(hundredths: u64) -> u32
    requires { hundredths ≤ 16000000000 }
    ensures value { result ≡ units hundredths }
    ensures small { result ≤ 160000000 }
{
    hundredths.div_ceil(100) as u32
}

impl Linear {
    // The value at the place after k others once a step is done, before its top cuts it off.
    #[tactic(auto, unfolding(crate::specs::Lines::amount))]
    fn amount(&self, mode: u8, values: &[u32; 64], arrivals: &[u32; 64], k: usize) -> u32
        requires within { k < length self.now.places.items }
        requires ready { Ready (lines self.now) mode values.now arrivals.now }
        ensures { result ≡ amount (lines self.now) mode values.now arrivals.now k }
    {
        let carried = if mode == 0 {
            values[k]
        } else {
            units(self.line_sum(mode, values, k))
        };
        carried + arrivals[k]
    }

    // The amount of each place. The mode and the values come as they stand: a struct of both would be opened again at each line.
    // Over the places that there are, since a linear model has far fewer than 64.
    pub(super) fn amounts(&self, mode: u8, values: &[u32; 64], arrivals: &[u32; 64]) -> [u32; 64]
        requires { Ready (lines self.now) mode values.now arrivals.now }
        ensures { result ≡ amounts (lines self.now) mode values.now arrivals.now }
    {
        let mut amounts = [0; 64];
        for k in 0..self.places.len() {
            amounts[k] = self.amount(mode, values, arrivals, k);
        }
        amounts
    }
}
