// A street on which each step brings one group of counted arrivals.
ghost use Rattle.std.specs.Prelude.{◌≡◌, ◌≤◌, map, length, take};
ghost use Rattle.street.specs.Street.{Showed, Bounded};
ghost use Rattle.street.specs.Standing.{fresh_seen};
ghost use Rattle.street.specs.Counted.{first_of, capped_group};
ghost use Rattle.street.specs.Fed.{fed_seen, FedStep};
ghost use Rattle.street.specs.Views.{to_come, groups_of, BringsFirst, CountedStep, StepsByGroups};

use crate::fed::FedStreet;
use crate::feed::Feed;
use crate::groups::Group;
pub use crate::groups::Groups;
use crate::{Showing, Street};
use model::Model;

// A table that begins with the first so many groups.
fn table_of(given: &[Group], kept: usize) -> [Group; 64]
    requires some { kept ≤ length given.now }
    requires few { kept ≤ 64 }
    ensures { take kept result ≡ take kept given.now }
{
    let mut table = [Group::default(); 64];
    table[..kept].copy_from_slice(&given[..kept]);
    table
}

impl Groups {
    // The first 64 of the groups.
    fn keep(given: &[Group]) -> Groups
        ensures { to_come result ≡ take 64 given.now }
    {
        let kept = given.len().min(64);
        let table = table_of(given, kept);
        Groups {
            table,
            kept,
            used: 0,
        }
    }

    // The group of the next step, which is empty where none is left.
    fn first(&self) -> Group
        ensures { result ≡ first_of (to_come self.now) }
    {
        if self.used < self.kept {
            self.table[self.used]
        } else {
            Group::default()
        }
    }

    // How many are left.
    fn left(&self) -> usize
        ensures { result ≡ length (to_come self.now) }
    {
        self.kept - self.used
    }
}

// Each step uses up one group, whatever is answered; without one, nothing arrives.
impl Feed for Groups {
    ghost brings = { BringsFirst };

    fn bring<M: Model>(&mut self, _model: &M, _row: [u8; 32]) -> Group {
        let group = self.first();
        self.used = self.kept.min(self.used + 1);
        group
    }
}

pub type CountedStreet<M> = FedStreet<M, Groups>;

impl<M: Model> FedStreet<M, Groups> {
    // A dark street with these queues, which keeps the first 64 of the groups.
    pub fn new(model: M, queues: [u32; 64], groups: &[Group]) -> Self
        ensures model { M.Model.meaning result.model ≡ M.Model.meaning model }
        ensures seen { fed_seen M.Model.meaning result ≡ fresh_seen (M.Model.meaning model) queues }
        ensures steps { StepsByGroups M.Model.meaning }
        ensures left { groups_of M.Model.meaning result ≡ map (capped_group (M.Model.meaning model)) (take 64 groups.now) }
    {
        FedStreet::with_feed(model, queues, Groups::keep(groups))
    }

    // One step, as any street shows a row. Beside the `show` of the trait, which every feed shares: of a counted street it is known too
    // which group arrives and what is answered.
    pub fn show(&mut self, row: [u8; 32]) -> Showing
        ensures moved { Showed (M.Model.meaning self.old.model) row (fed_seen M.Model.meaning self.old) result (fed_seen M.Model.meaning self.new) }
        ensures model { M.Model.meaning self.new.model ≡ M.Model.meaning self.old.model }
        ensures within { Bounded (M.Model.meaning self.new.model) (fed_seen M.Model.meaning self.new) }
        ensures fed { FedStep M.Model.meaning BringsFirst row self.old result self.new }
        ensures step { CountedStep M.Model.meaning row self.old result self.new }
    {
        Street::show(self, row)
    }

    // How many groups are still to come.
    pub fn groups_left(&self) -> usize
        ensures { result ≡ length (groups_of M.Model.meaning self.now) }
    {
        self.feed.left()
    }
}
