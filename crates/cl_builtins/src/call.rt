//! The built-in function that a call means.

ghost use Rattle.std.specs.Prelude.{◌≡◌, List, ◌++◌, length, IfOk};
ghost use Rattle.cl_types.specs.Table.{IsBuilt};
ghost use Rattle.cl_builtins.specs.Kinds.{kind_of};
ghost use Rattle.cl_builtins.specs.Found.{AreKnown, IsSimple, Adds, HasKind, named_by, IsFound, Finds};
ghost use Rattle.cl_builtins.specs.Tables.{Keeps, AreKinds, IsAt, IsOfTable, AreOfTable};

use crate::form::Form;
use crate::kind::{Gentype, Kind};
use crate::name::entry;
use cl_types::{Builtin, ClType, TypeId, TypeStop, TypeTable};
use clv_place::{List, NoMemory};
use std::alloc::Global;

/// A built-in function as a call means it: the types to which the arguments convert, and the type of the
/// result.
#[derive(Drop)]
pub struct Found {
    pub builtin: Builtin,
    pub params: List<TypeId>,
    pub result: TypeId,
}

/// Why a call means no built-in function.
#[derive(Clone, Copy, PartialEq, Eq, Debug)]
pub enum FindStop {
    /// There is none of the name.
    NoName,
    /// There is, and no form of it takes such arguments.
    NoForm,
    /// No memory is left, or no number for another type.
    NoMemory,
}

impl From<NoMemory> for FindStop {
    ghost use Rattle.std.specs.Prelude.{◌≡◌};
    ghost use Rattle.cl_builtins.specs.declared.call.FindStop.TheVariants.{NoMemory as WantOfMemory};

    ghost from_gives = { λ _ s. s ≡ WantOfMemory };

    fn from(_refused: NoMemory) -> Self {
        FindStop::NoMemory
    }
}

// What the types of arguments are.
fn kinds(alloc: Global, args: &List<TypeId>, types: &TypeTable) -> Result<List<Kind>, NoMemory>
    requires { AreKnown types.now args.now }
    ensures { IfOk result (AreKinds types.now args.now) }
{
    let mut kinds = List::new(alloc);
    for arg in args.as_slice() {
        kinds.push(Kind::of(types, *arg))?;
    }
    Ok(kinds)
}

// The number of a type, with what the table had as it was. Integers and vectors are within the limits of a table,
// so it refuses them for want of memory or of a number alone.
fn intern(ty: ClType, types: &mut TypeTable) -> Result<TypeId, NoMemory>
    requires built { IsBuilt types.old ty }
    requires simple { IsSimple ty }
    ensures at { IfOk result (IsAt types.new ty) }
    ensures kept { Keeps types.old types.new }
{
    types.is_table();
    match types.intern(ty) {
        Ok(t) => Ok(t),
        Err(TypeStop::NoMemory) => Err(NoMemory),
        Err(TypeStop::TooLarge) => unreachable!(),
        Err(TypeStop::TooDeep) => unreachable!(),
    }
}

// The number of an integer scalar or vector type.
fn integer_type(t: Gentype, types: &mut TypeTable) -> Result<TypeId, NoMemory>
    requires { IsOfTable types.old (Kind.Integers t) }
    ensures number { IfOk result (HasKind types.new (Kind.Integers t)) }
    ensures kept { Keeps types.old types.new }
{
    let element = ClType::Int {
        bits: t.bits,
        signed: t.signed,
    };
    let elem = intern(element, types)?;
    if t.count == 1 {
        return Ok(elem);
    }
    intern(ClType::Vector { elem, n: t.count }, types)
}

// The number of a type of this kind.
fn type_of(kind: Kind, types: &mut TypeTable) -> Result<TypeId, NoMemory>
    requires { IsOfTable types.old kind }
    ensures number { IfOk result (HasKind types.new kind) }
    ensures kept { Keeps types.old types.new }
{
    match kind {
        Kind::Void => intern(ClType::Void, types),
        Kind::Bool => intern(ClType::Bool, types),
        Kind::Integers(t) => integer_type(t, types),
        Kind::Pointer { own, .. } => Ok(own),
        Kind::Other(own) => Ok(own),
    }
}

// `select` is told apart by whether it chooses components.
fn named_by(builtin: Builtin, result_kind: Kind) -> Builtin
    ensures { result ≡ named_by builtin result_kind }
{
    match (builtin, result_kind) {
        (Builtin::Select { .. }, Kind::Integers(t)) => Builtin::Select {
            vector: t.count != 1,
        },
        _ => builtin,
    }
}

// The answer for a form.
fn answer(
    alloc: Global,
    builtin: Builtin,
    form: &Form,
    types: &mut TypeTable,
) -> Result<Found, NoMemory>
    requires { AreOfTable types.old form.now }
    ensures found { IfOk result (IsFound types.new builtin form.now) }
    ensures kept { Keeps types.old types.new }
{
    let mut params = List::new(alloc);
    for kind in form.params.as_slice() {
        params.push(type_of(*kind, types)?)?;
    }
    Ok(Found {
        builtin: named_by(builtin, form.result),
        params,
        result: type_of(form.result, types)?,
    })
}

/// The built-in function that a call of a name with arguments of these types means. `NoName` comes exactly
/// where no built-in function has the name, and `NoForm` exactly where one has it and none of its forms
/// takes such arguments, but for want of memory. An array that stands for a pointer is given as that
/// pointer. The table keeps its types, also after a refusal, and may have more integers and vectors.
pub fn find(
    alloc: Global,
    name: &[u8],
    args: &List<TypeId>,
    types: &mut TypeTable,
) -> Result<Found, FindStop>
    requires { AreKnown types.old args.now }
    ensures found { Finds name.now types.old args.now types.new result }
    ensures kept { Adds types.old types.new }
{
    let Some((builtin, rule)) = entry(name) else {
        return Err(FindStop::NoName);
    };
    types.is_table();
    let kinds = kinds(alloc, args, types)?;
    match rule.form(alloc, kinds.as_slice())? {
        Some(form) => Ok(answer(alloc, builtin, &form, types)?),
        None => Err(FindStop::NoForm),
    }
}
