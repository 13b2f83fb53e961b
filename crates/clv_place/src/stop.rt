//! Why a call gives no answer.

use crate::place::Place;
use std::alloc::{AllocError, AllocFailed};

/// No memory is left. No contract says when this answer comes; it leaves things as its call says.
#[derive(Clone, Copy, PartialEq, Eq, Debug)]
pub struct NoMemory;

/// A refusal of a text: its code, and the place of what offends.
#[derive(Clone, Copy, PartialEq, Eq, Debug)]
pub struct Offence {
    pub code: u16,
    pub place: Place,
}

/// Why a phase over a text stops: at an offence, or for want of memory.
#[derive(Clone, Copy, PartialEq, Eq, Debug)]
pub enum Stop {
    Out(Offence),
    NoMemory,
}

impl From<AllocError> for NoMemory {
    fn from(_refused: AllocError) -> Self {
        NoMemory
    }
}

impl<T: Drop> From<AllocFailed<T>> for NoMemory {
    fn from(_refused: AllocFailed<T>) -> Self {
        NoMemory
    }
}

impl From<NoMemory> for Stop {
    ghost use Rattle.std.specs.Prelude.{◌≡◌};
    ghost use Rattle.clv_place.specs.declared.stop.Stop.TheVariants.{NoMemory as WantOfMemory};

    ghost from_gives = { λ _ s. s ≡ WantOfMemory };

    fn from(_refused: NoMemory) -> Self {
        Stop::NoMemory
    }
}

impl From<AllocError> for Stop {
    ghost use Rattle.std.specs.Prelude.{◌≡◌};
    ghost use Rattle.clv_place.specs.declared.stop.Stop.TheVariants.{NoMemory as WantOfMemory};

    ghost from_gives = { λ _ s. s ≡ WantOfMemory };

    fn from(_refused: AllocError) -> Self {
        Stop::NoMemory
    }
}

impl<T: Drop> From<AllocFailed<T>> for Stop {
    ghost use Rattle.std.specs.Prelude.{◌≡◌};
    ghost use Rattle.clv_place.specs.declared.stop.Stop.TheVariants.{NoMemory as WantOfMemory};

    ghost from_gives = { λ _ s. s ≡ WantOfMemory };

    fn from(_refused: AllocFailed<T>) -> Self {
        Stop::NoMemory
    }
}
