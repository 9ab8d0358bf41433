// The first shelf number of a fresh area.
ghost use Rattle.std.specs.Prelude.{◌≡◌};
ghost use Rattle.refusal.specs.Questions.{told_by};
ghost use Rattle.plan_sheet.specs.Accepts.{checked_sheet};
ghost use Rattle.lives.specs.Calls.{shelve, rows};
ghost use Rattle.lives.specs.Faults.{area_refusal};
ghost use Rattle.area.specs.Code.{Called, outcome};

use crate::area::Area;
use lives::fault::AreaFault;
use model::Model;
use plan::limits::Limit;
use street::Street;
use street::heavy::HeavyStreet;

// Shelves the plan of a sheet under number 1.
fn under_first<S: Street>(area: &mut Area<S>, sheet: &[u8]) -> Result<usize, AreaFault>
    ensures { Called S.Model.meaning S.Street.seen area.old (shelve 1 sheet.now) (outcome rows result) area.new }
{
    area.shelve(1, sheet)
}

// Shelves the plan of a sheet under number 1 of an area over the street of the greatest arrivals.
pub fn shelve_first<M: Model + Drop>(
    model: M,
    limits: Vec<Limit>,
    sheet: &[u8],
) -> Result<usize, AreaFault>
    ensures { told_by area_refusal result ≡ checked_sheet (M.Model.meaning model) limits.items sheet.now }
{
    let street = HeavyStreet::new(model, [0; 64]);
    let mut area = Area::new(street, limits, 1);
    under_first(&mut area, sheet)
}
