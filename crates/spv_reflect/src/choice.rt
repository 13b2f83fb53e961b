//! What a module has already of what reflection lines name.

ghost use Rattle.std.specs.Prelude.{◌≡◌};
ghost use Rattle.spv_module.specs.Instructions.{definition_in};
ghost use Rattle.spv_reflect.specs.Writing as spec;

use crate::line::{is_reflection, is_word_type};
use spv_module::lookup::definition;
use spv_module::reading::Said;
use spv_module::{Inst, op};

/// What each reflection line names, or what each of its numbers does.
#[derive(Clone, Copy)]
pub enum Wanted {
    /// The import of NonSemantic.ClspvReflection.1.
    Import,
    /// The type void.
    Void,
    /// A type of 32-bit numbers.
    WordType,
}

fn op_of(wanted: Wanted) -> u16
    ensures { result ≡ spec.op_of wanted }
{
    match wanted {
        Wanted::Import => op::EXT_INST_IMPORT,
        Wanted::Void => op::TYPE_VOID,
        Wanted::WordType => op::TYPE_INT,
    }
}

fn is_void(body: &[Inst], id: u32) -> bool
    ensures { result ≡ spec.is_void (definition_in body.now id) }
{
    matches!(definition(body, id), Some(Said::VoidType { .. }))
}

fn is_wanted(body: &[Inst], wanted: Wanted, id: u32) -> bool
    ensures { result ≡ spec.is_wanted wanted (definition_in body.now id) }
{
    match wanted {
        Wanted::Import => is_reflection(body, id),
        Wanted::Void => is_void(body, id),
        Wanted::WordType => is_word_type(body, id),
    }
}

// The id that the instruction defines, where it is what is wanted.
fn made(body: &[Inst], wanted: Wanted, inst: &Inst) -> Option<u32>
    ensures { result ≡ spec.made_by body.now wanted inst.now }
{
    if inst.op != op_of(wanted) {
        return None;
    }
    let id = inst.says().result()?;
    if is_wanted(body, wanted, id) {
        Some(id)
    } else {
        None
    }
}

/// The id of what is wanted, where the module has it.
pub fn find(body: &[Inst], wanted: Wanted) -> Option<u32>
    ensures { result ≡ spec.find_in body.now wanted body.now }
{
    let mut rest = body;
    while let [inst, others @ ..] = rest {
        if let Some(id) = made(body, wanted, inst) {
            return Some(id);
        }
        rest = others;
    }
    None
}
