// Showing a row with care: only where no place can be held, whatever the street answers.
ghost use Rattle.std.specs.Prelude.{◌≡◌};
ghost use Rattle.street.specs.Careful.{both_clear, Careful, Untouched};

use crate::queues::queues_of;
use crate::{Showing, Street};
use model::{Answer, Model};

// Whether both the row and the dark row are clear under the greatest arrivals.
fn both_clear<M: Model>(model: &M, row: [u8; 32], queues: [u32; 64]) -> bool
    ensures { result ≡ both_clear (M.Model.meaning model.now) row queues }
{
    let loads = model.loads();
    let clears = |row| model.step(row, queues, loads).answer == Answer::Clear;
    clears(row) && clears(model.dark())
}

// Shows the row if no place can be held, and else does nothing.
pub fn show_if_clear<S: Street>(street: &mut S, row: [u8; 32]) -> Option<Showing>
    ensures careful { Careful (S.Model.meaning street.old) row (S.Street.seen street.old) result (S.Street.seen street.new) }
    ensures model { S.Model.meaning street.new ≡ S.Model.meaning street.old }
    ensures still { Untouched street.old result street.new }
{
    let queues = queues_of(street);
    if both_clear(street, row, queues) {
        Some(street.show(row))
    } else {
        None
    }
}
