//! The table of the instructions that the compiler knows.

ghost use Rattle.std.specs.Prelude.{◌≡◌, ◌==◌, find, option_copied};
ghost use Rattle.spv_module.specs.Grammar.{form_of};

use crate::forms::{Form, Last, Slot};
use crate::op;
use Last::{Ids, Nothing, OneWord, Pairs, Words};
use Slot::{Id, Str, Word};

/// An opcode; whether the id of a result type and that of a result stand first; the slots; what may
/// follow.
type Row = (u16, (bool, bool), Slots, Last);

/// How many slots stand, and the slots: in a tuple, since no static lends an array inside a tuple.
type Slots = (u8, (Slot, Slot, Slot, Slot, Slot, Slot));

/// No result.
const PLAIN: (bool, bool) = (false, false);

/// A result with no type.
const RESULT: (bool, bool) = (false, true);

/// A result of a type.
const VALUE: (bool, bool) = (true, true);

/// A slot that no operand takes.
const NONE: Slot = Id;

const NO_SLOTS: Slots = (0, (NONE, NONE, NONE, NONE, NONE, NONE));

const ID: Slots = (1, (Id, NONE, NONE, NONE, NONE, NONE));

const WORD: Slots = (1, (Word, NONE, NONE, NONE, NONE, NONE));

const STR: Slots = (1, (Str, NONE, NONE, NONE, NONE, NONE));

const TWO_IDS: Slots = (2, (Id, Id, NONE, NONE, NONE, NONE));

const ID_WORD: Slots = (2, (Id, Word, NONE, NONE, NONE, NONE));

const ID_STR: Slots = (2, (Id, Str, NONE, NONE, NONE, NONE));

const WORD_ID: Slots = (2, (Word, Id, NONE, NONE, NONE, NONE));

const TWO_WORDS: Slots = (2, (Word, Word, NONE, NONE, NONE, NONE));

const THREE_IDS: Slots = (3, (Id, Id, Id, NONE, NONE, NONE));

const TWO_IDS_WORD: Slots = (3, (Id, Id, Word, NONE, NONE, NONE));

const ID_TWO_WORDS: Slots = (3, (Id, Word, Word, NONE, NONE, NONE));

const ID_WORD_STR: Slots = (3, (Id, Word, Str, NONE, NONE, NONE));

const WORD_ID_STR: Slots = (3, (Word, Id, Str, NONE, NONE, NONE));

const FOUR_IDS: Slots = (4, (Id, Id, Id, Id, NONE, NONE));

const ID_FOUR_WORDS: Slots = (5, (Id, Word, Word, Word, Word, NONE));

const SIX_IDS: Slots = (6, (Id, Id, Id, Id, Id, Id));

/// The table, in the order of the opcodes.
static ROWS: [Row; 99] = [
    (op::UNDEF, VALUE, NO_SLOTS, Nothing),
    (op::NAME, PLAIN, ID_STR, Nothing),
    (op::MEMBER_NAME, PLAIN, ID_WORD_STR, Nothing),
    (op::STRING, RESULT, STR, Nothing),
    (op::EXTENSION, PLAIN, STR, Nothing),
    (op::EXT_INST_IMPORT, RESULT, STR, Nothing),
    (op::EXT_INST, VALUE, ID_WORD, Ids),
    (op::MEMORY_MODEL, PLAIN, TWO_WORDS, Nothing),
    (op::ENTRY_POINT, PLAIN, WORD_ID_STR, Ids),
    (op::EXECUTION_MODE, PLAIN, ID_FOUR_WORDS, Nothing),
    (op::CAPABILITY, PLAIN, WORD, Nothing),
    (op::TYPE_VOID, RESULT, NO_SLOTS, Nothing),
    (op::TYPE_BOOL, RESULT, NO_SLOTS, Nothing),
    (op::TYPE_INT, RESULT, TWO_WORDS, Nothing),
    (op::TYPE_VECTOR, RESULT, ID_WORD, Nothing),
    (op::TYPE_ARRAY, RESULT, TWO_IDS, Nothing),
    (op::TYPE_RUNTIME_ARRAY, RESULT, ID, Nothing),
    (op::TYPE_STRUCT, RESULT, NO_SLOTS, Ids),
    (op::TYPE_POINTER, RESULT, WORD_ID, Nothing),
    (op::TYPE_FUNCTION, RESULT, ID, Ids),
    (op::CONSTANT_TRUE, VALUE, NO_SLOTS, Nothing),
    (op::CONSTANT_FALSE, VALUE, NO_SLOTS, Nothing),
    (op::CONSTANT, VALUE, WORD, OneWord),
    (op::CONSTANT_COMPOSITE, VALUE, NO_SLOTS, Ids),
    (op::CONSTANT_NULL, VALUE, NO_SLOTS, Nothing),
    (op::SPEC_CONSTANT, VALUE, WORD, Nothing),
    (op::SPEC_CONSTANT_COMPOSITE, VALUE, NO_SLOTS, Ids),
    (op::FUNCTION, VALUE, WORD_ID, Nothing),
    (op::FUNCTION_PARAMETER, VALUE, NO_SLOTS, Nothing),
    (op::FUNCTION_END, PLAIN, NO_SLOTS, Nothing),
    (op::FUNCTION_CALL, VALUE, ID, Ids),
    (op::VARIABLE, VALUE, WORD, Nothing),
    (op::LOAD, VALUE, ID, Nothing),
    (op::STORE, PLAIN, TWO_IDS, Nothing),
    (op::ACCESS_CHAIN, VALUE, ID, Ids),
    (op::DECORATE, PLAIN, ID_WORD, Words),
    (op::MEMBER_DECORATE, PLAIN, ID_TWO_WORDS, Words),
    (op::VECTOR_EXTRACT_DYNAMIC, VALUE, TWO_IDS, Nothing),
    (op::VECTOR_INSERT_DYNAMIC, VALUE, THREE_IDS, Nothing),
    (op::VECTOR_SHUFFLE, VALUE, TWO_IDS, Words),
    (op::COMPOSITE_CONSTRUCT, VALUE, NO_SLOTS, Ids),
    (op::COMPOSITE_EXTRACT, VALUE, ID, Words),
    (op::COMPOSITE_INSERT, VALUE, TWO_IDS, Words),
    (op::U_CONVERT, VALUE, ID, Nothing),
    (op::S_CONVERT, VALUE, ID, Nothing),
    (op::BITCAST, VALUE, ID, Nothing),
    (op::S_NEGATE, VALUE, ID, Nothing),
    (op::I_ADD, VALUE, TWO_IDS, Nothing),
    (op::I_SUB, VALUE, TWO_IDS, Nothing),
    (op::I_MUL, VALUE, TWO_IDS, Nothing),
    (op::U_DIV, VALUE, TWO_IDS, Nothing),
    (op::S_DIV, VALUE, TWO_IDS, Nothing),
    (op::U_MOD, VALUE, TWO_IDS, Nothing),
    (op::S_REM, VALUE, TWO_IDS, Nothing),
    (op::LOGICAL_OR, VALUE, TWO_IDS, Nothing),
    (op::LOGICAL_AND, VALUE, TWO_IDS, Nothing),
    (op::LOGICAL_NOT, VALUE, ID, Nothing),
    (op::SELECT, VALUE, THREE_IDS, Nothing),
    (op::I_EQUAL, VALUE, TWO_IDS, Nothing),
    (op::I_NOT_EQUAL, VALUE, TWO_IDS, Nothing),
    (op::U_GREATER_THAN, VALUE, TWO_IDS, Nothing),
    (op::S_GREATER_THAN, VALUE, TWO_IDS, Nothing),
    (op::U_GREATER_THAN_EQUAL, VALUE, TWO_IDS, Nothing),
    (op::S_GREATER_THAN_EQUAL, VALUE, TWO_IDS, Nothing),
    (op::U_LESS_THAN, VALUE, TWO_IDS, Nothing),
    (op::S_LESS_THAN, VALUE, TWO_IDS, Nothing),
    (op::U_LESS_THAN_EQUAL, VALUE, TWO_IDS, Nothing),
    (op::S_LESS_THAN_EQUAL, VALUE, TWO_IDS, Nothing),
    (op::SHIFT_RIGHT_LOGICAL, VALUE, TWO_IDS, Nothing),
    (op::SHIFT_RIGHT_ARITHMETIC, VALUE, TWO_IDS, Nothing),
    (op::SHIFT_LEFT_LOGICAL, VALUE, TWO_IDS, Nothing),
    (op::BITWISE_OR, VALUE, TWO_IDS, Nothing),
    (op::BITWISE_XOR, VALUE, TWO_IDS, Nothing),
    (op::BITWISE_AND, VALUE, TWO_IDS, Nothing),
    (op::NOT, VALUE, ID, Nothing),
    (op::CONTROL_BARRIER, PLAIN, THREE_IDS, Nothing),
    (op::MEMORY_BARRIER, PLAIN, TWO_IDS, Nothing),
    (op::ATOMIC_EXCHANGE, VALUE, FOUR_IDS, Nothing),
    (op::ATOMIC_COMPARE_EXCHANGE, VALUE, SIX_IDS, Nothing),
    (op::ATOMIC_I_INCREMENT, VALUE, THREE_IDS, Nothing),
    (op::ATOMIC_I_DECREMENT, VALUE, THREE_IDS, Nothing),
    (op::ATOMIC_I_ADD, VALUE, FOUR_IDS, Nothing),
    (op::ATOMIC_I_SUB, VALUE, FOUR_IDS, Nothing),
    (op::ATOMIC_S_MIN, VALUE, FOUR_IDS, Nothing),
    (op::ATOMIC_U_MIN, VALUE, FOUR_IDS, Nothing),
    (op::ATOMIC_S_MAX, VALUE, FOUR_IDS, Nothing),
    (op::ATOMIC_U_MAX, VALUE, FOUR_IDS, Nothing),
    (op::ATOMIC_AND, VALUE, FOUR_IDS, Nothing),
    (op::ATOMIC_OR, VALUE, FOUR_IDS, Nothing),
    (op::ATOMIC_XOR, VALUE, FOUR_IDS, Nothing),
    (op::LOOP_MERGE, PLAIN, TWO_IDS_WORD, Nothing),
    (op::SELECTION_MERGE, PLAIN, ID_WORD, Nothing),
    (op::LABEL, RESULT, NO_SLOTS, Nothing),
    (op::BRANCH, PLAIN, ID, Nothing),
    (op::BRANCH_CONDITIONAL, PLAIN, THREE_IDS, Nothing),
    (op::SWITCH, PLAIN, TWO_IDS, Pairs),
    (op::RETURN, PLAIN, NO_SLOTS, Nothing),
    (op::RETURN_VALUE, PLAIN, ID, Nothing),
    (op::UNREACHABLE, PLAIN, NO_SLOTS, Nothing),
];

/// The row of an opcode.
fn row(op: u16) -> Option<&'static Row>
    ensures { option_copied result ≡ find (λ r. r.0 == op) ROWS }
{
    ROWS.iter().find(|row| row.0 == op)
}

/// The form of an instruction with this opcode, and none exactly where the compiler knows no such
/// instruction (SPIR-V 3, Instructions). It takes no memory.
pub fn form(op: u16) -> Option<Form>
    ensures { result ≡ form_of op }
{
    let (_, (typed, makes), (count, slots), last) = *row(op)?;
    Some(Form {
        typed,
        makes,
        slots: [slots.0, slots.1, slots.2, slots.3, slots.4, slots.5],
        count,
        last,
    })
}
