// Why no model is made of a sheet: the sheet's own refusal, unchanged, or want of memory.
ghost use Rattle.std.specs.Prelude.{◌≡◌, alloc_error};
ghost use Rattle.records.specs.declared.fault.ModelFault.TheVariants.{Sheet, Memory};

use std::alloc::{AllocError, AllocFailed};
use words::fault::SheetFault;

#[derive(Clone, Copy)]
pub enum ModelFault {
    Sheet(SheetFault),
    Memory(AllocError),
}

impl From<SheetFault> for ModelFault {
    ghost from_gives = { λ e r. r ≡ Sheet e };

    fn from(e: SheetFault) -> ModelFault {
        ModelFault::Sheet(e)
    }
}

impl<T: Drop> From<AllocFailed<T>> for ModelFault {
    ghost from_gives = { λ _ r. r ≡ Memory alloc_error };

    fn from(e: AllocFailed<T>) -> ModelFault {
        ModelFault::Memory(AllocError::from(e))
    }
}
