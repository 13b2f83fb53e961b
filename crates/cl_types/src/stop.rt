//! Why a type isn't taken.

use clv_place::NoMemory;
use std::alloc::{AllocError, AllocFailed};

/// Why a type isn't taken into a table.
#[derive(Clone, Copy, PartialEq, Eq, Debug)]
pub enum TypeStop {
    /// Its size is over 65,536 bytes (501).
    TooLarge,
    /// Types nest in it over 16 deep (502).
    TooDeep,
    /// No memory is left, or no number for another type.
    NoMemory,
}

impl From<NoMemory> for TypeStop {
    ghost use Rattle.std.specs.Prelude.{◌≡◌};
    ghost use Rattle.cl_types.specs.declared.stop.TypeStop.TheVariants.{NoMemory as WantOfMemory};

    ghost from_gives = { λ _ s. s ≡ WantOfMemory };

    fn from(_refused: NoMemory) -> Self {
        TypeStop::NoMemory
    }
}

impl From<AllocError> for TypeStop {
    ghost use Rattle.std.specs.Prelude.{◌≡◌};
    ghost use Rattle.cl_types.specs.declared.stop.TypeStop.TheVariants.{NoMemory as WantOfMemory};

    ghost from_gives = { λ _ s. s ≡ WantOfMemory };

    fn from(_refused: AllocError) -> Self {
        TypeStop::NoMemory
    }
}

impl<T: Drop> From<AllocFailed<T>> for TypeStop {
    ghost use Rattle.std.specs.Prelude.{◌≡◌};
    ghost use Rattle.cl_types.specs.declared.stop.TypeStop.TheVariants.{NoMemory as WantOfMemory};

    ghost from_gives = { λ _ s. s ≡ WantOfMemory };

    fn from(_refused: AllocFailed<T>) -> Self {
        TypeStop::NoMemory
    }
}
