// Tables with a number for each place of a model.
ghost use Rattle.std.specs.Prelude.{◌≡◌};
ghost use Rattle.words.specs.Faults.{told};
ghost use Rattle.day.specs.Tables.{numbers_at};

use model::Model;
use records::number::NumberRecord;
use records::read_table;
use words::fault::SheetFault;
use words::recorded::Recorded;

// A number for each place, and 0 beyond the last.
pub(crate) fn read_numbers<M: Model>(
    model: &M,
    bytes: &[u8],
    at: usize,
) -> Result<Recorded<[u32; 64]>, SheetFault>
    ensures { told result ≡ numbers_at (M.Model.meaning model.now) bytes.now at }
{
    let kind = NumberRecord { high: 999_999_999 };
    read_table(&kind, bytes, at, model.places(), 0)
}
