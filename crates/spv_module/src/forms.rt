//! What the operands of an instruction are, as a row of the table says it.

/// The form of an instruction: the operands that stand first, then what may follow (SPIR-V 3,
/// Instructions).
#[derive(Clone, Copy, PartialEq, Eq, Debug)]
pub struct Form {
    /// Whether the id of a result type stands first.
    pub typed: bool,
    /// Whether the id of a result stands first, or behind the result type.
    pub makes: bool,
    /// The operands that stand next. From `count` on they are fillers.
    pub slots: [Slot; 6],
    /// How many of the slots stand.
    pub count: u8,
    /// What may follow them.
    pub last: Last,
}

/// What one operand is.
#[derive(Clone, Copy, PartialEq, Eq, Debug)]
pub enum Slot {
    /// An id.
    Id,
    /// A literal number of one word, or an enumerant.
    Word,
    /// A literal string.
    Str,
}

/// What may follow the slots.
#[derive(Clone, Copy, PartialEq, Eq, Debug)]
pub enum Last {
    /// Nothing.
    Nothing,
    /// One literal word, or none: the high half of a constant of 64 bits.
    OneWord,
    /// Any number of literal words.
    Words,
    /// Any number of ids.
    Ids,
    /// Any number of pairs of a literal word and an id.
    Pairs,
}
