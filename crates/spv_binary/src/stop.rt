//! Why bytes aren't read as a module.

use clv_place::NoMemory;
use std::alloc::{AllocError, AllocFailed};

/// Why bytes aren't read as a module.
#[derive(Clone, Copy, PartialEq, Eq, Debug)]
pub enum ReadStop {
    /// A rule of [`rule`] is broken: its number, and the index of the word where it is broken.
    Fault {
        /// Which rule.
        number: u8,
        /// The index of the word, from 0.
        word: u32,
    },
    /// No memory is left.
    NoMemory,
}

/// The numbers of the rules.
pub mod rule {
    /// A file has at least 20 bytes, whole words, and at most 256 MiB.
    pub const SIZE: u8 = 1;
    /// The first word is the magic number, in one order of bytes or the other (SPIR-V 2.3).
    pub const MAGIC: u8 = 2;
    /// The second word is version 1.3 (SPIR-V 2.3).
    pub const VERSION: u8 = 3;
    /// The fifth word, the schema, is 0 (SPIR-V 2.3).
    pub const SCHEMA: u8 = 4;
    /// An instruction takes at least one word, and ends in the file (SPIR-V 2.3).
    pub const COUNT: u8 = 5;
    /// The opcode is one that the compiler knows.
    pub const OPCODE: u8 = 6;
    /// An instruction's words are as many as its operands take, and an enumerant is one that the
    /// compiler knows.
    pub const FORM: u8 = 7;
    /// A string is UTF-8, and ends by a zero byte, behind which its last word is zero (SPIR-V 2.2.1).
    pub const STRING: u8 = 8;
    /// An id is from 1 to below the bound, and the bound from 1 to its limit (SPIR-V 2.3 and 2.17).
    pub const ID: u8 = 9;
}

impl From<NoMemory> for ReadStop {
    ghost use Rattle.std.specs.Prelude.{◌≡◌};
    ghost use Rattle.spv_binary.specs.declared.stop.ReadStop.TheVariants.{NoMemory as WantOfMemory};

    ghost from_gives = { λ _ s. s ≡ WantOfMemory };

    fn from(_refused: NoMemory) -> Self {
        ReadStop::NoMemory
    }
}

impl From<AllocError> for ReadStop {
    ghost use Rattle.std.specs.Prelude.{◌≡◌};
    ghost use Rattle.spv_binary.specs.declared.stop.ReadStop.TheVariants.{NoMemory as WantOfMemory};

    ghost from_gives = { λ _ s. s ≡ WantOfMemory };

    fn from(_refused: AllocError) -> Self {
        ReadStop::NoMemory
    }
}
