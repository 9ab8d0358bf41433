// Reading a plan sheet: the section `start` and the section `rows`.
ghost use Rattle.std.specs.Prelude.{◌≡◌, ◌<◌};
ghost use Rattle.words.specs.Faults.{told};
ghost use Rattle.plan_sheet.specs.Plans.{queue_at, mode_at, modes_at, row_at, start_section, rows_section, plan_sheet};
ghost use Rattle.plan_sheet.specs.Says.{Exact};
ghost use Rattle.plan_sheet.specs.Views.{plan_told};

use model::Model;
use plan::plan::Plan;
use records::{Record, read_table};
use words::fault::SheetFault;
use words::number::{number, section};
use words::reading::Reading;
use words::recorded::Recorded;
use words::word::short_enough;

// The number of a place: up to the place's top.
#[derive(Clone, Copy)]
struct QueueRecord<'a, M> {
    model: &'a M,
}

impl<'a, M: Model> Record for QueueRecord<'a, M> {
    type Item = u32;

    ghost reads = { λ s bs. queue_at (M.Model.meaning s.model.now) bs };

    fn read(&self, bytes: &[u8], at: usize, before: &[u32]) -> Result<Recorded<u32>, SheetFault> {
        let top = self.model.top(before.len() + 1);
        Ok(number(bytes, at, 0, top)?.into())
    }
}

// One mode more: that of signal k, counted from 0, from 0 to 8.
fn next_mode(
    bytes: &[u8],
    k: usize,
    row: Reading<[u8; 32]>,
) -> Result<Reading<[u8; 32]>, SheetFault>
    requires { k < 32 }
    ensures { told result ≡ mode_at bytes.now k row }
{
    let n = number(bytes, row.end, 0, 8)?;
    let mut modes = row.value;
    // the cast loses nothing, since the number is in its range: `try_from` would name an error that never comes
    modes[k] = n.value as u8;
    Ok(Reading {
        value: modes,
        place: n.place,
        end: n.end,
    })
}

// A mode for each signal; the place is that of the last one.
fn read_modes<M: Model>(model: &M, bytes: &[u8], at: usize) -> Result<Reading<[u8; 32]>, SheetFault>
    ensures { told result ≡ modes_at (M.Model.meaning model.now) bytes.now at }
{
    let none = Reading {
        value: [0; 32],
        place: at,
        end: at,
    };
    (0..model.signals()).try_fold(none, |row, k| next_mode(bytes, k, row))
}

// A row: a mode for each signal; at the last one, the row has to be legal.
#[derive(Clone, Copy)]
struct RowRecord<'a, M> {
    model: &'a M,
}

impl<'a, M: Model> Record for RowRecord<'a, M> {
    type Item = [u8; 32];

    ghost reads = { λ s bs. row_at (M.Model.meaning s.model.now) bs };

    fn read(
        &self,
        bytes: &[u8],
        at: usize,
        before: &[[u8; 32]],
    ) -> Result<Recorded<[u8; 32]>, SheetFault> {
        let row = read_modes(self.model, bytes, at)?;
        if !self.model.legal(row.value) {
            return Err(SheetFault::OutOfRange(row.place));
        }
        Ok(row.into())
    }
}

// The model and the sheet come apart here and where a sheet is checked: the kinds of record hold the model, and the sheet is what is read.
// The section `start`: exactly the model's places.
fn start_section<M: Model>(model: &M, bytes: &[u8]) -> Result<Recorded<[u32; 64]>, SheetFault>
    ensures { told result ≡ start_section (M.Model.meaning model.now) bytes.now }
{
    let places = model.places();
    // the cast loses nothing, since a model has at most 64 places: `try_from` would name an error that never comes
    let due = places as u32;
    let named = section(bytes, 0, b"start")?;
    let count = number(bytes, named, due, due)?;
    read_table(&QueueRecord { model }, bytes, count.end, places, 0)
}

// The section `rows`, 1 to 64 rows, after the start: the plan of both.
fn rows_section<M: Model>(
    model: &M,
    bytes: &[u8],
    start: Recorded<[u32; 64]>,
) -> Result<Recorded<Plan>, SheetFault>
    ensures { plan_told result ≡ rows_section (M.Model.meaning model.now) bytes.now start }
{
    let named = section(bytes, start.end, b"rows")?;
    let due = number(bytes, named, 1, 64)?;
    // the cast loses nothing, since the number is in its range: `try_from` would name an error that never comes
    let count = due.value as usize;
    let rows = read_table(&RowRecord { model }, bytes, due.end, count, [0; 32])?;
    let queues = start.item;
    let table = rows.item;
    let plan = Plan {
        start: queues,
        rows: table,
        count,
    };
    Ok(Recorded {
        item: plan,
        end: rows.end,
    })
}

// The plan that a sheet says for the model.
pub fn read_plan<M: Model>(model: &M, bytes: &[u8]) -> Result<Recorded<Plan>, SheetFault>
    ensures is { plan_told result ≡ plan_sheet (M.Model.meaning model.now) bytes.now }
    ensures exact { Exact (M.Model.meaning model.now) bytes.now (plan_told result) }
{
    short_enough(bytes)?;
    let start = start_section(model, bytes)?;
    rows_section(model, bytes, start)
}
