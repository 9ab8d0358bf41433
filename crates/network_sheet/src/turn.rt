// The records of the section `turns`.
ghost use Rattle.std.specs.Prelude.{◌≡◌, ℕ, ◌+◌, MatchOption, sum_by, nat_le};
ghost use Rattle.std.specs.Fn.{FnReturnsAt};
ghost use Rattle.network.specs.Sound.{no_link};
ghost use Rattle.network.specs.Network.{green_in};
ghost use Rattle.network.specs.declared.links.Turn.{Turn};
ghost use Rattle.network_sheet.specs.Turns.{numbered, given_in, share_from, supply_into, goes_on, within_supply, has_room, turn_at};

use network::links::{Link, Turn};
use records::Record;
use words::fault::SheetFault;
use words::number::number;
use words::recorded::Recorded;

// What the turn adds to the shares of the link `from`.
fn share_from(turn: &Turn, from: usize) -> u32
    ensures { result ≡ share_from from turn.now }
{
    if turn.from == from { turn.share } else { 0 }
}

// Do these parts of the turns before the turn, and its own with them, make at most 1000?
fn fits_with<F: Fn(&Turn) -> u32>(before: &[Turn], turn: &Turn, part: F) -> bool
    requires { F.IsAlwaysCallable part }
    ensures { (h : Turn → ℕ) → ((t : Turn) (r : ℕ) → FnReturnsAt F.Fn part t r → r ≡ h t) → result ≡ nat_le (sum_by h before.now + h turn.now) 1000 }
{
    let others: u128 = before.iter().map(|t| u128::from(part(t))).sum();
    others.saturating_add(u128::from(part(turn))) <= 1000
}

// Is the pair of links given before?
fn given(before: &[Turn], turn: &Turn) -> bool
    ensures { result ≡ given_in turn.now.from turn.now.to before.now }
{
    before.iter().any(|t| t.joins(turn.from, turn.to))
}

// A turn between these links, of which there are so many: the count is the greatest number that a sheet may name,
// and goes into a number of a sheet, as the length of a slice need not.
#[derive(Clone, Copy)]
pub struct TurnRecord<'a> {
    pub links: &'a [Link],
    pub count: u32,
}

impl<'a> TurnRecord<'a> {
    // A link by its number, counted from 1.
    fn link(&self, number: usize) -> Option<&Link>
        ensures { MatchOption result (numbered self.now.links.now number ≡ no_link) (λ l. l.now ≡ numbered self.now.links.now number) }
    {
        self.links.get(number.saturating_sub(1))
    }

    // Does the link `to` begin where the link `from` ends? Out of range each is 0.
    fn goes_on(&self, turn: &Turn) -> bool
        ensures { result ≡ goes_on self.now.links.now turn.now }
    {
        let tail = self.link(turn.to).map_or(0, |link| link.tail);
        let head = self.link(turn.from).map_or(0, |link| link.head);
        tail == head
    }

    // Does the phase, counted from 0, show the link green? Out of range none does.
    fn is_green(&self, number: usize, phase: u32) -> bool
        ensures { result ≡ green_in phase (numbered self.now.links.now number) }
    {
        self.link(number)
            .is_some_and(|link| link.is_green_in(phase))
    }

    // What the turn adds to the supplies into the link `to` in the phase: nothing where its own link is red then.
    fn supply_into(&self, turn: &Turn, to: usize, phase: u32) -> u32
        ensures { result ≡ supply_into self.now.links.now phase to turn.now }
    {
        if turn.to == to && self.is_green(turn.from, phase) {
            turn.supply
        } else {
            0
        }
    }

    // Is there room for the turn's supply in the phase?
    fn is_supplied(&self, before: &[Turn], turn: &Turn, phase: u32) -> bool
        ensures { result ≡ within_supply self.now.links.now before.now turn.now phase }
    {
        fits_with(before, turn, |t| self.supply_into(t, turn.to, phase))
    }

    // Is there room for the turn's share and supply beside those of the turns before it?
    fn has_room(&self, before: &[Turn], turn: &Turn) -> bool
        ensures { result ≡ has_room self.now.links.now before.now turn.now }
    {
        fits_with(before, turn, |t| share_from(t, turn.from))
            && (0..8).all(|phase| self.is_supplied(before, turn, phase))
    }
}

impl<'a> Record for TurnRecord<'a> {
    type Item = Turn;

    ghost reads = { λ s bs. turn_at bs s.links.now s.count };

    fn read(&self, bytes: &[u8], at: usize, before: &[Turn]) -> Result<Recorded<Turn>, SheetFault> {
        let from = number(bytes, at, 1, self.count)?;
        let to = number(bytes, from.end, 1, self.count)?;
        let share = number(bytes, to.end, 1, 1000)?;
        let supply = number(bytes, share.end, 1, 1000)?;
        // both casts lose nothing, since the numbers are in their range: `try_from` would name an error that never comes
        let turn = Turn {
            from: from.value as usize,
            to: to.value as usize,
            share: share.value,
            supply: supply.value,
        };
        if !self.goes_on(&turn) || given(before, &turn) {
            return Err(SheetFault::BadTurn(from.place));
        }
        if !self.has_room(before, &turn) {
            return Err(SheetFault::Overfull(from.place));
        }
        Ok(Recorded {
            item: turn,
            end: supply.end,
        })
    }
}
