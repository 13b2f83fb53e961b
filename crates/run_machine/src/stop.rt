//! Why there is no machine for a launch.

use clv_place::NoMemory;

/// Why there is no machine: the launch needs more cells than there may be, `need` of them, or more than 64
/// bits hold where `need` is the greatest number of 64 bits; or want of memory.
#[derive(Clone, Copy, PartialEq, Eq, Debug)]
pub enum NewStop {
    Cells { need: u64 },
    NoMemory,
}

impl From<NoMemory> for NewStop {
    ghost use Rattle.std.specs.Prelude.{◌≡◌};
    ghost use Rattle.run_machine.specs.declared.stop.NewStop.TheVariants.{NoMemory as WantOfMemory};

    ghost from_gives = { λ _ s. s ≡ WantOfMemory };

    fn from(_refused: NoMemory) -> Self {
        NewStop::NoMemory
    }
}
