//! A module as data: what its words say, with no words and no bytes.

use clv_place::{List, Text};

/// The first word of a module, which also shows the order of its bytes (SPIR-V 2.3).
pub const MAGIC: u32 = 0x0723_0203;

/// Version 1.3, as the second word has it (SPIR-V 2.3).
pub const VERSION: u32 = 0x0001_0300;

/// The largest bound of the ids of a module (SPIR-V 2.17).
pub const MAX_BOUND: u32 = 4_194_303;

/// The most bytes that the compiler gives or takes as a module, header included.
pub const MAX_BYTES: usize = 256 << 20;

/// A module (SPIR-V 2.3): its header and its instructions. The magic number and the schema, which
/// are the same in each module, aren't kept.
#[derive(Drop)]
pub struct Module {
    /// The version of SPIR-V, as the second word has it: [`VERSION`].
    pub version: u32,
    /// The number of the tool that made the module. It means nothing.
    pub generator: u32,
    /// All ids are from 1 to one below it.
    pub bound: u32,
    /// The instructions, in order.
    pub body: List<Inst>,
}

/// An instruction (SPIR-V 2.2.1): its opcode and its operands, the result type and the result among
/// them, in the order of the words.
#[derive(Drop)]
pub struct Inst {
    /// The opcode, the low half of the first word.
    pub op: u16,
    /// The operands. Their number and kinds are not those of the opcode in each value of this type.
    pub operands: List<Operand>,
}

/// An operand (SPIR-V 2.2.1).
#[derive(Drop)]
pub enum Operand {
    /// An id: a result type, a result, or the id of something that stands elsewhere.
    Id(u32),
    /// A literal number of one word, or an enumerant. A number of two words is two of these.
    Word(u32),
    /// A literal string: its bytes, without the zero byte that ends it.
    Str(Text),
}
