// The calls of a day, as records of the section `calls`.
ghost use Rattle.std.specs.Prelude.{◌≡◌};
ghost use Rattle.words.specs.Faults.{told};
ghost use Rattle.day.specs.Calls.{shelf_at, shelve_at, call_of, call_at};

use model::Model;
use plan_sheet::read::read_plan;
use records::Record;
use words::fault::SheetFault;
use words::number::number;
use words::recorded::Recorded;
use words::word::{Word, next_word, rest_of};

// A call.
#[derive(Clone, Copy)]
pub enum DayCall {
    // puts the plan of a sheet under this shelf number; the sheet begins at this place of the day sheet
    Shelve(usize, usize),
    // takes the plan under this shelf number on line
    Take(usize),
    Advance,
    // changes to the plan under this shelf number
    Change(usize),
    Give,
}

// The number of a shelf, from 0 to 255.
fn shelf_at(bytes: &[u8], at: usize) -> Result<Recorded<usize>, SheetFault>
    ensures { told result ≡ shelf_at bytes.now at }
{
    // the cast loses nothing, since the number is in its range: `try_from` would name an error that never comes
    let number = number(bytes, at, 0, 255)?;
    Ok(Recorded {
        item: number.value as usize,
        end: number.end,
    })
}

// A call: its word, and what follows it.
#[derive(Clone, Copy)]
pub struct CallRecord<'a, M> {
    pub model: &'a M,
}

impl<'a, M: Model> CallRecord<'a, M> {
    // A shelve: its number, and its plan sheet from there on.
    fn shelve_at(&self, bytes: &[u8], at: usize) -> Result<Recorded<DayCall>, SheetFault>
        ensures { told result ≡ shelve_at (M.Model.meaning self.now.model.now) bytes.now at }
    {
        let shelf = shelf_at(bytes, at)?;
        let plan = read_plan(self.model, rest_of(bytes, shelf.end))?;
        Ok(Recorded {
            item: DayCall::Shelve(shelf.item, shelf.end),
            end: shelf.end + plan.end,
        })
    }

    // The call that a word at a place begins, and what follows the word from its end on.
    fn call_of(
        &self,
        bytes: &[u8],
        word: &[u8],
        place: usize,
        end: usize,
    ) -> Result<Recorded<DayCall>, SheetFault>
        ensures { told result ≡ call_of (M.Model.meaning self.now.model.now) bytes.now word.now place end }
    {
        match word {
            b"shelve" => self.shelve_at(bytes, end),
            // this arm and that of `change` differ by the call that they make
            b"take" => {
                let shelf = shelf_at(bytes, end)?;
                Ok(Recorded {
                    item: DayCall::Take(shelf.item),
                    end: shelf.end,
                })
            }
            b"advance" => Ok(Recorded {
                item: DayCall::Advance,
                end,
            }),
            b"change" => {
                let shelf = shelf_at(bytes, end)?;
                Ok(Recorded {
                    item: DayCall::Change(shelf.item),
                    end: shelf.end,
                })
            }
            b"give" => Ok(Recorded {
                item: DayCall::Give,
                end,
            }),
            _ => Err(SheetFault::WrongSection(place)),
        }
    }
}

impl<'a, M: Model> Record for CallRecord<'a, M> {
    type Item = DayCall;

    ghost reads = { λ s bs. call_at (M.Model.meaning s.model.now) bs };

    fn read(
        &self,
        bytes: &[u8],
        at: usize,
        before: &[DayCall],
    ) -> Result<Recorded<DayCall>, SheetFault> {
        match next_word(bytes, at)? {
            Word::Name(word, place) => self.call_of(bytes, word, place, place + word.len()),
            Word::Number(_, place) => Err(SheetFault::WrongSection(place)),
        }
    }
}
