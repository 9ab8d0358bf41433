// The records of the section `groups`.
ghost use Rattle.day.specs.Tables.{group_at};

use crate::table::read_numbers;
use model::Model;
use records::Record;
use street::groups::Group;
use words::fault::SheetFault;
use words::number::number;
use words::recorded::Recorded;

// A group: its dark mark, and an arrival for each place.
#[derive(Clone, Copy)]
pub struct GroupRecord<'a, M> {
    pub model: &'a M,
}

impl<'a, M: Model> Record for GroupRecord<'a, M> {
    type Item = Group;

    ghost reads = { λ s bs. group_at (M.Model.meaning s.model.now) bs };

    fn read(
        &self,
        bytes: &[u8],
        at: usize,
        before: &[Group],
    ) -> Result<Recorded<Group>, SheetFault> {
        let mark = number(bytes, at, 0, 1)?;
        let Recorded {
            item: arrivals,
            end,
        } = read_numbers(self.model, bytes, mark.end)?;
        let item = Group {
            arrivals,
            dark: mark.value == 1,
        };
        Ok(Recorded { item, end })
    }
}
