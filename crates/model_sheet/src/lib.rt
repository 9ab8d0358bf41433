// Model sheets: what every kind of sheet that says a model has in common.
#![tactic(auto)]

ghost use Rattle.std.specs.Prelude.{ℕ, List};
ghost use Rattle.refusal.specs.Questions.{Told};
ghost use Rattle.records.specs.Sections.{ToldAs, Exactly};
ghost use Rattle.model.specs.Model.{Meaning};
ghost use Rattle.model_sheet.specs.Content.{Content, content_by};

use model::Model;
use plan::limits::Limit;
use records::fault::ModelFault;
use std::alloc::Global;

// A model and the limits of its sheet, and where the last word ended.
#[derive(Drop)]
pub struct ModelRead<M> {
    pub model: M,
    pub limits: Vec<Limit>,
    pub end: usize,
}

// A kind of model sheet. What it says is told by its meaning, so that whoever reads one need not know the kind:
// `sheet` asks the questions on the bytes in order, and `says` says by the words alone what stands there.
pub trait ModelSheet {
    type Made: Model + Drop;

    ghost sheet: { List ℕ → Told (Content Meaning) };

    ghost says: { List ℕ → Content Meaning → Type 0 };

    // The model and the limits that a sheet says.
    fn read(heap: Global, bytes: &[u8]) -> Result<ModelRead<Self::Made>, ModelFault>
        ensures is { ToldAs (content_by Self.Made.meaning) result (sheet bytes.now) }
        ensures exact { Exactly (content_by Self.Made.meaning) (says bytes.now) result };
}
