//! Instructions read by what they say.

ghost use Rattle.spv_module.specs.Readings.{said_by};
ghost use Rattle.spv_module.specs.Instructions as spec;
ghost use Rattle.std.specs.Prelude.{◌≡◌};

use crate::module::{Inst, Operand};
use crate::op;
use Operand::{Id, Str, Word};
use clv_place::Text;

/// What an instruction says. Ids and numbers stand in the order of its operands; `id` is the id of its
/// result and `ty` that of the result's type. Lists are the operands that are left.
#[derive(Clone, Copy)]
pub enum Said<'a> {
    Capability {
        capability: u32,
    },
    Extension {
        name: &'a Text,
    },
    MemoryModel {
        addressing: u32,
        memory: u32,
    },
    String {
        id: u32,
        text: &'a Text,
    },
    Import {
        id: u32,
        name: &'a Text,
    },
    Extended {
        ty: u32,
        id: u32,
        set: u32,
        number: u32,
        operands: &'a [Operand],
    },
    EntryPoint {
        model: u32,
        function: u32,
        name: &'a Text,
        interface: &'a [Operand],
    },
    ExecutionMode {
        function: u32,
        mode: u32,
    },
    VoidType {
        id: u32,
    },
    IntType {
        id: u32,
        width: u32,
        signedness: u32,
    },
    VectorType {
        id: u32,
        component: u32,
        count: u32,
    },
    RuntimeArray {
        id: u32,
        element: u32,
    },
    StructType {
        id: u32,
        members: &'a [Operand],
    },
    PointerType {
        id: u32,
        storage: u32,
        pointee: u32,
    },
    FunctionType {
        id: u32,
        result: u32,
        parameters: &'a [Operand],
    },
    Constant {
        ty: u32,
        id: u32,
        value: u32,
    },
    SpecConstant {
        ty: u32,
        id: u32,
        default: u32,
    },
    SpecComposite {
        ty: u32,
        id: u32,
        parts: &'a [Operand],
    },
    Function {
        ty: u32,
        id: u32,
        kind: u32,
    },
    FunctionEnd,
    Variable {
        ty: u32,
        id: u32,
        storage: u32,
    },
    Load {
        ty: u32,
        id: u32,
        pointer: u32,
    },
    Store {
        pointer: u32,
        value: u32,
    },
    AccessChain {
        ty: u32,
        id: u32,
        base: u32,
        indices: &'a [Operand],
    },
    Decorate {
        target: u32,
        decoration: u32,
        numbers: &'a [Operand],
    },
    MemberDecorate {
        ty: u32,
        member: u32,
        decoration: u32,
        numbers: &'a [Operand],
    },
    Extract {
        ty: u32,
        id: u32,
        composite: u32,
        at: &'a [Operand],
    },
    Add {
        ty: u32,
        id: u32,
        a: u32,
        b: u32,
    },
    Label {
        id: u32,
    },
    Return,
    /// Any other instruction, or operands that don't fit.
    Other,
}

fn capability(operands: &[Operand]) -> Said<'_>
    ensures { said_by result ≡ spec.capability operands.now }
{
    match operands {
        [Word(capability)] => Said::Capability {
            capability: *capability,
        },
        _ => Said::Other,
    }
}

fn extension(operands: &[Operand]) -> Said<'_>
    ensures { said_by result ≡ spec.extension operands.now }
{
    match operands {
        [Str(name)] => Said::Extension { name },
        _ => Said::Other,
    }
}

fn memory_model(operands: &[Operand]) -> Said<'_>
    ensures { said_by result ≡ spec.memory_model operands.now }
{
    match operands {
        [Word(addressing), Word(memory)] => Said::MemoryModel {
            addressing: *addressing,
            memory: *memory,
        },
        _ => Said::Other,
    }
}

fn string(operands: &[Operand]) -> Said<'_>
    ensures { said_by result ≡ spec.string operands.now }
{
    match operands {
        [Id(id), Str(text)] => Said::String { id: *id, text },
        _ => Said::Other,
    }
}

fn import_(operands: &[Operand]) -> Said<'_>
    ensures { said_by result ≡ spec.import operands.now }
{
    match operands {
        [Id(id), Str(name)] => Said::Import { id: *id, name },
        _ => Said::Other,
    }
}

fn extended(operands: &[Operand]) -> Said<'_>
    ensures { said_by result ≡ spec.extended operands.now }
{
    match operands {
        [Id(ty), Id(id), Id(set), Word(number), operands @ ..] => Said::Extended {
            ty: *ty,
            id: *id,
            set: *set,
            number: *number,
            operands,
        },
        _ => Said::Other,
    }
}

fn entry_point(operands: &[Operand]) -> Said<'_>
    ensures { said_by result ≡ spec.entry_point operands.now }
{
    match operands {
        [Word(model), Id(function), Str(name), interface @ ..] => Said::EntryPoint {
            model: *model,
            function: *function,
            name,
            interface,
        },
        _ => Said::Other,
    }
}

fn execution_mode(operands: &[Operand]) -> Said<'_>
    ensures { said_by result ≡ spec.execution_mode operands.now }
{
    match operands {
        [Id(function), Word(mode), ..] => Said::ExecutionMode {
            function: *function,
            mode: *mode,
        },
        _ => Said::Other,
    }
}

fn void_type(operands: &[Operand]) -> Said<'_>
    ensures { said_by result ≡ spec.void_type operands.now }
{
    match operands {
        [Id(id)] => Said::VoidType { id: *id },
        _ => Said::Other,
    }
}

fn int_type(operands: &[Operand]) -> Said<'_>
    ensures { said_by result ≡ spec.int_type operands.now }
{
    match operands {
        [Id(id), Word(width), Word(signedness)] => Said::IntType {
            id: *id,
            width: *width,
            signedness: *signedness,
        },
        _ => Said::Other,
    }
}

fn vector_type(operands: &[Operand]) -> Said<'_>
    ensures { said_by result ≡ spec.vector_type operands.now }
{
    match operands {
        [Id(id), Id(component), Word(count)] => Said::VectorType {
            id: *id,
            component: *component,
            count: *count,
        },
        _ => Said::Other,
    }
}

fn runtime_array(operands: &[Operand]) -> Said<'_>
    ensures { said_by result ≡ spec.runtime_array operands.now }
{
    match operands {
        [Id(id), Id(element)] => Said::RuntimeArray {
            id: *id,
            element: *element,
        },
        _ => Said::Other,
    }
}

fn struct_type(operands: &[Operand]) -> Said<'_>
    ensures { said_by result ≡ spec.struct_type operands.now }
{
    match operands {
        [Id(id), members @ ..] => Said::StructType { id: *id, members },
        _ => Said::Other,
    }
}

fn pointer_type(operands: &[Operand]) -> Said<'_>
    ensures { said_by result ≡ spec.pointer_type operands.now }
{
    match operands {
        [Id(id), Word(storage), Id(pointee)] => Said::PointerType {
            id: *id,
            storage: *storage,
            pointee: *pointee,
        },
        _ => Said::Other,
    }
}

fn function_type(operands: &[Operand]) -> Said<'_>
    ensures { said_by result ≡ spec.function_type operands.now }
{
    match operands {
        [Id(id), Id(result), parameters @ ..] => Said::FunctionType {
            id: *id,
            result: *result,
            parameters,
        },
        _ => Said::Other,
    }
}

fn constant(operands: &[Operand]) -> Said<'_>
    ensures { said_by result ≡ spec.constant operands.now }
{
    match operands {
        [Id(ty), Id(id), Word(value)] => Said::Constant {
            ty: *ty,
            id: *id,
            value: *value,
        },
        _ => Said::Other,
    }
}

fn spec_constant(operands: &[Operand]) -> Said<'_>
    ensures { said_by result ≡ spec.spec_constant operands.now }
{
    match operands {
        [Id(ty), Id(id), Word(default)] => Said::SpecConstant {
            ty: *ty,
            id: *id,
            default: *default,
        },
        _ => Said::Other,
    }
}

fn spec_composite(operands: &[Operand]) -> Said<'_>
    ensures { said_by result ≡ spec.spec_composite operands.now }
{
    match operands {
        [Id(ty), Id(id), parts @ ..] => Said::SpecComposite {
            ty: *ty,
            id: *id,
            parts,
        },
        _ => Said::Other,
    }
}

fn function_line(operands: &[Operand]) -> Said<'_>
    ensures { said_by result ≡ spec.function operands.now }
{
    match operands {
        [Id(ty), Id(id), Word(_), Id(kind)] => Said::Function {
            ty: *ty,
            id: *id,
            kind: *kind,
        },
        _ => Said::Other,
    }
}

fn function_end(operands: &[Operand]) -> Said<'_>
    ensures { said_by result ≡ spec.function_end operands.now }
{
    match operands {
        [] => Said::FunctionEnd,
        _ => Said::Other,
    }
}

fn variable(operands: &[Operand]) -> Said<'_>
    ensures { said_by result ≡ spec.variable operands.now }
{
    match operands {
        [Id(ty), Id(id), Word(storage)] => Said::Variable {
            ty: *ty,
            id: *id,
            storage: *storage,
        },
        _ => Said::Other,
    }
}

fn load(operands: &[Operand]) -> Said<'_>
    ensures { said_by result ≡ spec.load operands.now }
{
    match operands {
        [Id(ty), Id(id), Id(pointer)] => Said::Load {
            ty: *ty,
            id: *id,
            pointer: *pointer,
        },
        _ => Said::Other,
    }
}

fn store(operands: &[Operand]) -> Said<'_>
    ensures { said_by result ≡ spec.store operands.now }
{
    match operands {
        [Id(pointer), Id(value)] => Said::Store {
            pointer: *pointer,
            value: *value,
        },
        _ => Said::Other,
    }
}

fn access_chain(operands: &[Operand]) -> Said<'_>
    ensures { said_by result ≡ spec.access_chain operands.now }
{
    match operands {
        [Id(ty), Id(id), Id(base), indices @ ..] => Said::AccessChain {
            ty: *ty,
            id: *id,
            base: *base,
            indices,
        },
        _ => Said::Other,
    }
}

fn decorate(operands: &[Operand]) -> Said<'_>
    ensures { said_by result ≡ spec.decorate operands.now }
{
    match operands {
        [Id(target), Word(decoration), numbers @ ..] => Said::Decorate {
            target: *target,
            decoration: *decoration,
            numbers,
        },
        _ => Said::Other,
    }
}

fn member_decorate(operands: &[Operand]) -> Said<'_>
    ensures { said_by result ≡ spec.member_decorate operands.now }
{
    match operands {
        [Id(ty), Word(member), Word(decoration), numbers @ ..] => Said::MemberDecorate {
            ty: *ty,
            member: *member,
            decoration: *decoration,
            numbers,
        },
        _ => Said::Other,
    }
}

fn extract(operands: &[Operand]) -> Said<'_>
    ensures { said_by result ≡ spec.extract operands.now }
{
    match operands {
        [Id(ty), Id(id), Id(composite), at @ ..] => Said::Extract {
            ty: *ty,
            id: *id,
            composite: *composite,
            at,
        },
        _ => Said::Other,
    }
}

fn add(operands: &[Operand]) -> Said<'_>
    ensures { said_by result ≡ spec.add operands.now }
{
    match operands {
        [Id(ty), Id(id), Id(a), Id(b)] => Said::Add {
            ty: *ty,
            id: *id,
            a: *a,
            b: *b,
        },
        _ => Said::Other,
    }
}

fn label(operands: &[Operand]) -> Said<'_>
    ensures { said_by result ≡ spec.label operands.now }
{
    match operands {
        [Id(id)] => Said::Label { id: *id },
        _ => Said::Other,
    }
}

fn return_(operands: &[Operand]) -> Said<'_>
    ensures { said_by result ≡ spec.return operands.now }
{
    match operands {
        [] => Said::Return,
        _ => Said::Other,
    }
}

impl Inst {
    /// What an instruction says, by its opcode and its operands (SPIR-V 3.32).
    pub fn says(&self) -> Said<'_>
        ensures { said_by result ≡ spec.said self.now }
    {
        let operands = self.operands.as_slice();
        match self.op {
            op::CAPABILITY => capability(operands),
            op::EXTENSION => extension(operands),
            op::MEMORY_MODEL => memory_model(operands),
            op::STRING => string(operands),
            op::EXT_INST => extended(operands),
            op::ENTRY_POINT => entry_point(operands),
            op::EXECUTION_MODE => execution_mode(operands),
            op::TYPE_VOID => void_type(operands),
            op::TYPE_INT => int_type(operands),
            op::TYPE_VECTOR => vector_type(operands),
            op::TYPE_RUNTIME_ARRAY => runtime_array(operands),
            op::TYPE_STRUCT => struct_type(operands),
            op::TYPE_POINTER => pointer_type(operands),
            op::TYPE_FUNCTION => function_type(operands),
            op::CONSTANT => constant(operands),
            op::SPEC_CONSTANT => spec_constant(operands),
            op::SPEC_CONSTANT_COMPOSITE => spec_composite(operands),
            op::FUNCTION => function_line(operands),
            op::FUNCTION_END => function_end(operands),
            op::VARIABLE => variable(operands),
            op::LOAD => load(operands),
            op::STORE => store(operands),
            op::ACCESS_CHAIN => access_chain(operands),
            op::DECORATE => decorate(operands),
            op::MEMBER_DECORATE => member_decorate(operands),
            op::COMPOSITE_EXTRACT => extract(operands),
            op::I_ADD => add(operands),
            op::LABEL => label(operands),
            op::RETURN => return_(operands),
            op::EXT_INST_IMPORT => import_(operands),
            _ => Said::Other,
        }
    }
}
