//! The types that rules ask for, by their numbers in a table.

ghost use Rattle.std.specs.Prelude.{◌≡◌, true, IfOk};
ghost use Rattle.cl_types.specs.Table.{IsBuilt};
ghost use Rattle.cl_builtins.specs.Found.{IsKnown};
ghost use Rattle.cl_builtins.specs.Kinds.{is_gentype};
ghost use Rattle.cl_builtins.specs.Tables.{IsAt};
ghost use Rattle.cl_tree.specs.declared.shape.Shape.TheVariants.{Integers};
ghost use Rattle.cl_rules.specs.declared.rule.Want.TheVariants.{Of};
ghost use Rattle.cl_make.specs.Answered.{IsGiven, IsOwnOr};
ghost use Rattle.cl_make.specs.Ready.{Grows};
ghost use Rattle.cl_make.specs.Wanted.{IsFlat, MayJoin, IsAskable, IsAskableShape, IsGivable, target};

use cl_builtins::Gentype;
use cl_rules::{Target, Want};
use cl_tree::Shape;
use cl_types::{ClType, TypeId, TypeStop, TypeTable};
use clv_place::NoMemory;

/// A type of a table, with what it is (OpenCL C 1.2, 6.1).
pub fn shaped(types: &TypeTable, t: TypeId) -> Target
    requires { IsKnown types.now t }
    ensures { result ≡ target types.now t }
{
    Target {
        ty: t,
        shape: Shape::of(types, t),
    }
}

// The number of a type without elements and members. Such types are within the limits of a table, so it refuses them
// for want of memory or of a number alone.
fn intern(ty: ClType, types: &mut TypeTable) -> Result<TypeId, NoMemory>
    requires built { IsBuilt types.old ty }
    requires flat { IsFlat ty }
    requires allowed { MayJoin types.old ty }
    ensures at { IfOk result (IsAt types.new ty) }
    ensures grows { Grows types.old types.new }
{
    types.is_table();
    match types.intern(ty) {
        Ok(t) => {
            types.is_table();
            Ok(t)
        }
        Err(TypeStop::NoMemory) => {
            types.is_table();
            Err(NoMemory)
        }
        Err(TypeStop::TooLarge) => unreachable!(),
        Err(TypeStop::TooDeep) => unreachable!(),
    }
}

// The number of an integer scalar or vector type.
fn integer_type(t: Gentype, types: &mut TypeTable) -> Result<TypeId, NoMemory>
    requires { is_gentype t ≡ true }
    ensures number { IfOk result (IsGiven types.new (Of (Integers t))) }
    ensures grows { Grows types.old types.new }
{
    let element = ClType::Int {
        bits: t.bits,
        signed: t.signed,
    };
    let elem = intern(element, types)?;
    if t.count == 1 {
        return Ok(elem);
    }
    intern(ClType::Vector { elem, n: t.count }, types)
}

/// The number of a type of this shape, which the table may get for it. No array and no struct is asked for by its
/// shape, since there are others of the same.
pub fn of_shape(s: Shape, types: &mut TypeTable) -> Result<TypeId, NoMemory>
    requires { IsAskableShape types.old s }
    ensures number { IfOk result (IsGiven types.new (Of s)) }
    ensures grows { Grows types.old types.new }
{
    match s {
        Shape::Void => intern(ClType::Void, types),
        Shape::Bool => intern(ClType::Bool, types),
        Shape::Integers(t) => integer_type(t, types),
        Shape::Pointer {
            space,
            to,
            readonly,
            restricted,
        } => intern(
            ClType::Pointer {
                space,
                to,
                readonly,
                restricted,
            },
            types,
        ),
        Shape::Array { .. } => unreachable!(),
        Shape::Struct => unreachable!(),
    }
}

/// The number of the type that a node gives, which the table may get for it.
pub fn given(want: Want, types: &mut TypeTable) -> Result<TypeId, NoMemory>
    requires { IsGivable types.old want }
    ensures number { IfOk result (IsGiven types.new want) }
    ensures grows { Grows types.old types.new }
{
    types.is_table();
    match want {
        Want::Own => unreachable!(),
        Want::Type(t) => Ok(t),
        Want::Of(s) => of_shape(s, types),
    }
}

/// The number of the type that is wanted of an operand of type `own`, which the table may get for it.
pub fn wanted(want: Want, own: TypeId, types: &mut TypeTable) -> Result<TypeId, NoMemory>
    requires { IsAskable types.old want }
    ensures number { IfOk result (IsOwnOr types.new want own) }
    ensures grows { Grows types.old types.new }
{
    types.is_table();
    match want {
        Want::Own => Ok(own),
        Want::Type(t) => Ok(t),
        Want::Of(s) => of_shape(s, types),
    }
}
