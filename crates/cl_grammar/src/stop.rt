//! Why a part of the grammar isn't read.

use clv_place::NoMemory;
use std::alloc::{AllocError, AllocFailed};

/// Why tokens from an index on are not what was asked for: at the token of an index the part doesn't go on, or no
/// memory is left.
#[derive(Clone, Copy, PartialEq, Eq, Debug)]
pub enum ExprStop {
    Out { at: usize },
    NoMemory,
}

impl From<NoMemory> for ExprStop {
    ghost use Rattle.std.specs.Prelude.{◌≡◌};
    ghost use Rattle.cl_grammar.specs.declared.stop.ExprStop.TheVariants.{NoMemory as WantOfMemory};

    ghost from_gives = { λ _ s. s ≡ WantOfMemory };

    fn from(_refused: NoMemory) -> Self {
        ExprStop::NoMemory
    }
}

impl From<AllocError> for ExprStop {
    ghost use Rattle.std.specs.Prelude.{◌≡◌};
    ghost use Rattle.cl_grammar.specs.declared.stop.ExprStop.TheVariants.{NoMemory as WantOfMemory};

    ghost from_gives = { λ _ s. s ≡ WantOfMemory };

    fn from(_refused: AllocError) -> Self {
        ExprStop::NoMemory
    }
}

impl<T: Drop> From<AllocFailed<T>> for ExprStop {
    ghost use Rattle.std.specs.Prelude.{◌≡◌};
    ghost use Rattle.cl_grammar.specs.declared.stop.ExprStop.TheVariants.{NoMemory as WantOfMemory};

    ghost from_gives = { λ _ s. s ≡ WantOfMemory };

    fn from(_refused: AllocFailed<T>) -> Self {
        ExprStop::NoMemory
    }
}
