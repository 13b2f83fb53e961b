//! What a module says of an id: its definition and its decorations.

ghost use Rattle.std.specs.Prelude.{◌≡◌, option_map};
ghost use Rattle.spv_module.specs.Readings.{said_by, is_nil};
ghost use Rattle.spv_module.specs.Instructions.{result_of, is_result, definition_in, decoration_in, decoration_by, member_decoration_in, member_decoration_by, words, ids, StructType};
ghost use Rattle.spv_module.specs.Options.{is_there};
ghost use Rattle.spv_module.specs.Interface.{number_of, pointee_by, is_bound_at};

use crate::enumerant::decoration;
use crate::module::{Inst, Operand};
use crate::reading::Said;

impl Said<'_> {
    /// The id that the instruction defines, where it is one that defines an id.
    pub fn result(&self) -> Option<u32>
        ensures { result ≡ result_of (said_by self.now) }
    {
        match *self {
            Said::String { id, .. } => Some(id),
            Said::Import { id, .. } => Some(id),
            Said::Extended { id, .. } => Some(id),
            Said::VoidType { id } => Some(id),
            Said::IntType { id, .. } => Some(id),
            Said::VectorType { id, .. } => Some(id),
            Said::RuntimeArray { id, .. } => Some(id),
            Said::StructType { id, .. } => Some(id),
            Said::PointerType { id, .. } => Some(id),
            Said::FunctionType { id, .. } => Some(id),
            Said::Constant { id, .. } => Some(id),
            Said::SpecConstant { id, .. } => Some(id),
            Said::SpecComposite { id, .. } => Some(id),
            Said::Function { id, .. } => Some(id),
            Said::Variable { id, .. } => Some(id),
            Said::Load { id, .. } => Some(id),
            Said::AccessChain { id, .. } => Some(id),
            Said::Extract { id, .. } => Some(id),
            Said::Add { id, .. } => Some(id),
            Said::Label { id } => Some(id),
            _ => None,
        }
    }

    // Whether the instruction defines this id.
    fn defines(&self, wanted: u32) -> bool
        ensures { result ≡ is_result (result_of (said_by self.now)) wanted }
    {
        match self.result() {
            Some(id) => id == wanted,
            None => false,
        }
    }
}

/// What the instruction says that defines an id: the first that does.
pub fn definition(body: &[Inst], id: u32) -> Option<Said<'_>>
    ensures { option_map said_by result ≡ definition_in body.now id }
{
    let mut rest = body;
    while let [inst, others @ ..] = rest {
        let said = inst.says();
        if said.defines(id) {
            return Some(said);
        }
        rest = others;
    }
    None
}

// Whether no id is left.
fn is_idless(operands: &[Operand]) -> bool
    ensures { result ≡ is_nil (ids operands.now) }
{
    let mut rest = operands;
    while let [operand, others @ ..] = rest {
        if let Operand::Id(_) = operand {
            return false;
        }
        rest = others;
    }
    true
}

// The id, where there is just one.
fn one_id(operands: &[Operand]) -> Option<u32>
    ensures { result ≡ pointee_by (Some (StructType 0 (ids operands.now))) }
{
    let mut rest = operands;
    while let [operand, others @ ..] = rest {
        if let Operand::Id(id) = operand {
            return if is_idless(others) { Some(*id) } else { None };
        }
        rest = others;
    }
    None
}

/// What a variable, a pointer type, or a struct of one member leads to.
pub fn pointee(body: &[Inst], id: u32) -> Option<u32>
    ensures { result ≡ pointee_by (definition_in body.now id) }
{
    match definition(body, id)? {
        Said::Variable { ty, .. } => Some(ty),
        Said::PointerType { pointee, .. } => Some(pointee),
        Said::StructType { members, .. } => one_id(members),
        _ => None,
    }
}

// Whether no literal word is left.
fn is_wordless(operands: &[Operand]) -> bool
    ensures { result ≡ is_nil (words operands.now) }
{
    let mut rest = operands;
    while let [operand, others @ ..] = rest {
        if let Operand::Word(_) = operand {
            return false;
        }
        rest = others;
    }
    true
}

/// The literal word among the operands, where there is just one.
pub fn one_number(operands: &[Operand]) -> Option<u32>
    ensures { result ≡ number_of (Some (words operands.now)) }
{
    let mut rest = operands;
    while let [operand, others @ ..] = rest {
        if let Operand::Word(number) = operand {
            return if is_wordless(others) {
                Some(*number)
            } else {
                None
            };
        }
        rest = others;
    }
    None
}

/// The number of a decoration of an id. None where it isn't so decorated, or not with one number.
pub fn decoration_number(body: &[Inst], id: u32, wanted: u32) -> Option<u32>
    ensures { result ≡ number_of (decoration_in body.now id wanted) }
{
    let mut rest = body;
    while let [inst, others @ ..] = rest {
        if let Said::Decorate {
            target,
            decoration,
            numbers,
        } = inst.says()
        {
            if target == id && decoration == wanted {
                return one_number(numbers);
            }
        }
        rest = others;
    }
    None
}

/// The number of a decoration of a struct's member. None where it isn't so decorated, or not with one
/// number.
pub fn member_decoration_number(body: &[Inst], id: u32, at: u32, wanted: u32) -> Option<u32>
    ensures { result ≡ number_of (member_decoration_in body.now id at wanted) }
{
    let mut rest = body;
    while let [inst, others @ ..] = rest {
        if let Said::MemberDecorate {
            ty,
            member,
            decoration,
            numbers,
        } = inst.says()
        {
            if ty == id && member == at && decoration == wanted {
                return one_number(numbers);
            }
        }
        rest = others;
    }
    None
}

/// Whether an id has a decoration.
pub fn is_decorated(body: &[Inst], id: u32, wanted: u32) -> bool
    ensures { result ≡ is_there (decoration_in body.now id wanted) }
{
    let mut rest = body;
    while let [inst, others @ ..] = rest {
        if let Said::Decorate {
            target,
            decoration,
            ..
        } = inst.says()
        {
            if target == id && decoration == wanted {
                return true;
            }
        }
        rest = others;
    }
    false
}

/// Whether a struct's member has a decoration.
pub fn is_member_decorated(body: &[Inst], id: u32, at: u32, wanted: u32) -> bool
    ensures { result ≡ is_there (member_decoration_in body.now id at wanted) }
{
    let mut rest = body;
    while let [inst, others @ ..] = rest {
        if let Said::MemberDecorate {
            ty,
            member,
            decoration,
            ..
        } = inst.says()
        {
            if ty == id && member == at && decoration == wanted {
                return true;
            }
        }
        rest = others;
    }
    false
}

/// Whether the variable has this descriptor set and this binding.
pub fn is_at(body: &[Inst], variable: u32, set: u32, binding: u32) -> bool
    ensures { result ≡ is_bound_at body.now variable set binding }
{
    decoration_number(body, variable, decoration::DESCRIPTOR_SET) == Some(set)
        && decoration_number(body, variable, decoration::BINDING) == Some(binding)
}
