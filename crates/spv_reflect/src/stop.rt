//! Why a module's reflection isn't read.

use clv_place::NoMemory;

/// Why a module's reflection isn't read.
#[derive(Clone, Copy, PartialEq, Eq, Debug)]
pub enum ReflectStop {
    /// A rule of [`rule`] is broken: its number, and the index of the first word of the line that breaks
    /// it, in words from the module's beginning.
    Fault {
        /// Which rule.
        number: u8,
        /// The index of the word, from 0.
        word: u32,
    },
    /// No memory is left.
    NoMemory,
}

/// The numbers of the rules.
pub mod rule {
    /// A reflection line has a number that the compiler knows.
    pub const NUMBER: u8 = 1;
    /// Its operands are as many as the line takes, and each is what the line takes there.
    pub const OPERANDS: u8 = 2;
    /// The ordinals of a kernel's arguments are 0, 1, 2 and so on in the order of their lines.
    pub const ORDINALS: u8 = 4;
}

impl From<NoMemory> for ReflectStop {
    ghost use Rattle.std.specs.Prelude.{◌≡◌};
    ghost use Rattle.spv_reflect.specs.declared.stop.ReflectStop.TheVariants.{NoMemory as WantOfMemory};

    ghost from_gives = { λ _ s. s ≡ WantOfMemory };

    fn from(_refused: NoMemory) -> Self {
        ReflectStop::NoMemory
    }
}
