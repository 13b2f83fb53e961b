//! What one operand may be, enumerants included.

ghost use Rattle.std.specs.Prelude.{◌≡◌};
ghost use Rattle.spv_module.specs.Grammar.{is_among};
ghost use Rattle.spv_binary.specs.Kinds.{numbers_of, set_at as set_of_slot, slot_kind as kind_of_slot};

use spv_module::enumerant::{
    addressing_model, built_in, capability, control, decoration, execution_mode, execution_model,
    memory_model, storage_class,
};
use spv_module::{Slot, op};

/// What one operand may be.
#[derive(Clone, Copy, PartialEq, Eq, Debug)]
pub enum Kind {
    /// An id.
    Id,
    /// Any literal number of one word.
    Word,
    /// An enumerant.
    OneOf(Set),
    /// A literal string.
    Str,
}

/// The enumerants that the compiler knows, by where they stand.
#[derive(Clone, Copy, PartialEq, Eq, Debug)]
pub enum Set {
    AddressingModels,
    BuiltIns,
    Capabilities,
    Controls,
    Decorations,
    ExecutionModels,
    ExecutionModes,
    MemoryModels,
    StorageClasses,
}

static ADDRESSING_MODELS: [u32; 1] = [addressing_model::LOGICAL];

static BUILT_INS: [u32; 5] = [
    built_in::NUM_WORKGROUPS,
    built_in::WORKGROUP_SIZE,
    built_in::WORKGROUP_ID,
    built_in::LOCAL_INVOCATION_ID,
    built_in::GLOBAL_INVOCATION_ID,
];

static CAPABILITIES: [u32; 8] = [
    capability::SHADER,
    capability::INT64,
    capability::INT16,
    capability::INT8,
    capability::STORAGE_BUFFER16_BIT_ACCESS,
    capability::STORAGE_PUSH_CONSTANT16,
    capability::STORAGE_BUFFER8_BIT_ACCESS,
    capability::STORAGE_PUSH_CONSTANT8,
];

static CONTROLS: [u32; 1] = [control::NONE];

static DECORATIONS: [u32; 10] = [
    decoration::SPEC_ID,
    decoration::BLOCK,
    decoration::ARRAY_STRIDE,
    decoration::BUILT_IN,
    decoration::RESTRICT,
    decoration::ALIASED,
    decoration::NON_WRITABLE,
    decoration::BINDING,
    decoration::DESCRIPTOR_SET,
    decoration::OFFSET,
];

static EXECUTION_MODELS: [u32; 1] = [execution_model::GL_COMPUTE];

static EXECUTION_MODES: [u32; 1] = [execution_mode::LOCAL_SIZE];

static MEMORY_MODELS: [u32; 1] = [memory_model::GLSL450];

static STORAGE_CLASSES: [u32; 5] = [
    storage_class::INPUT,
    storage_class::WORKGROUP,
    storage_class::FUNCTION,
    storage_class::PUSH_CONSTANT,
    storage_class::STORAGE_BUFFER,
];

impl Set {
    /// The numbers of the enumerants.
    fn numbers(self) -> &'static [u32]
        ensures { result.now ≡ numbers_of self }
    {
        match self {
            Set::AddressingModels => &ADDRESSING_MODELS,
            Set::BuiltIns => &BUILT_INS,
            Set::Capabilities => &CAPABILITIES,
            Set::Controls => &CONTROLS,
            Set::Decorations => &DECORATIONS,
            Set::ExecutionModels => &EXECUTION_MODELS,
            Set::ExecutionModes => &EXECUTION_MODES,
            Set::MemoryModels => &MEMORY_MODELS,
            Set::StorageClasses => &STORAGE_CLASSES,
        }
    }

    /// Whether a number is among them.
    pub fn has(self, number: u32) -> bool
        ensures { result ≡ is_among (numbers_of self) number }
    {
        self.numbers().contains(&number)
    }
}

/// The slots that hold enumerants: an opcode, the slot's index from 0, and which enumerants.
static ENUMERANTS: [(u16, usize, Set); 12] = [
    (op::MEMORY_MODEL, 0, Set::AddressingModels),
    (op::MEMORY_MODEL, 1, Set::MemoryModels),
    (op::ENTRY_POINT, 0, Set::ExecutionModels),
    (op::EXECUTION_MODE, 1, Set::ExecutionModes),
    (op::CAPABILITY, 0, Set::Capabilities),
    (op::TYPE_POINTER, 0, Set::StorageClasses),
    (op::FUNCTION, 0, Set::Controls),
    (op::VARIABLE, 0, Set::StorageClasses),
    (op::DECORATE, 1, Set::Decorations),
    (op::MEMBER_DECORATE, 2, Set::Decorations),
    (op::LOOP_MERGE, 2, Set::Controls),
    (op::SELECTION_MERGE, 1, Set::Controls),
];

/// The enumerants that a slot holds, if it holds any.
#[tactic(auto, unfolding(crate::specs::Kinds::set_at))]
fn set_at(op: u16, slot: usize) -> Option<Set>
    ensures { result ≡ set_of_slot op slot }
{
    ENUMERANTS
        .iter()
        .find(|row| row.0 == op && row.1 == slot)
        .map(|row| row.2)
}

/// What the operand in a slot may be.
pub fn slot_kind(op: u16, at: usize, slot: Slot) -> Kind
    ensures { result ≡ kind_of_slot op at slot }
{
    match slot {
        Slot::Id => Kind::Id,
        Slot::Str => Kind::Str,
        Slot::Word => match set_at(op, at) {
            Some(set) => Kind::OneOf(set),
            None => Kind::Word,
        },
    }
}
