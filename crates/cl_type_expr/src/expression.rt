//! The cycle of expressions and the types in them. Each function makes the calls of the cycle, and leaves the rule to
//! a function below.

ghost use Rattle.std.specs.Prelude.{◌≡◌, ◌<◌, [], length, slice_index_or, Some, None, IfOk, IfErr, OnOk};
ghost use Rattle.cl_ast.specs.declared.expression.Base.TheVariants as spelled;
ghost use Rattle.cl_make.specs.Ready.{Grows};
ghost use Rattle.cl_scope.specs.Scopes.{IsKnownEnv};
ghost use Rattle.cl_type_expr.specs.Expressions.{first_left};
ghost use Rattle.cl_type_expr.specs.Typing.{IsTypedAs, OperandsAre, WordsAre, BaseIs, MembersAre, FieldIs, LengthsAre, LengthIs, AreReadyMembers, StopsIn, SomeStops, WordsStop, BaseStops, MembersStop, FieldStops, LengthsStop, LengthStops};

use crate::declaring::member_named;
use crate::length::{length_of, missing};
use crate::members::Members;
use crate::node::node;
use crate::term::{cast, size_of_type, vector};
use crate::word_type::{is_tag_again, struct_tag, struct_type, tagged, typedef, word};
use cl_ast::expression::{Base, Expr, ExprNode, Field, Spec};
use cl_make::{Typed, of_shape, shaped};
use cl_rules::Qualified;
use cl_scope::Names;
use cl_tree::Shape;
use cl_types::{TypeTable, UnOp};
use cl_words::{Length, plain, qualify};
use clv_place::{List, Place, Stop, Text};
use std::alloc::Global;

// Whether the first operand stands on the left of an assignment.
fn first_left(left: bool, node: &ExprNode) -> bool
    ensures { result ≡ first_left left node.now }
{
    match node {
        ExprNode::Unary(op) => match op {
            UnOp::PreInc => true,
            UnOp::PreDec => true,
            UnOp::PostInc => true,
            UnOp::PostDec => true,
            _ => false,
        },
        ExprNode::Assign(_) => true,
        ExprNode::Index => left,
        ExprNode::Member { arrow, .. } => left && !*arrow,
        _ => false,
    }
}

/// The typed tree of an expression, on the left of an assignment or not, with what its parent has to know of it (C99,
/// 6.5; OpenCL C 1.2, 6.3); or its first offence, or want of memory. The structs that it declares stand in the
/// innermost block then. The table keeps its types, and may have more; after a refusal nothing is said of the names.
#[cycle(expression)]
pub fn expr(
    alloc: Global,
    e: &Expr,
    left: bool,
    names: &mut Names,
    types: &mut TypeTable,
) -> Result<Typed, Stop>
    requires known { IsKnownEnv types.old names.old }
    ensures ok { IfOk result (IsTypedAs types.new names.old left e.now names.new) }
    ensures out { IfErr result (StopsIn types.new names.old left e.now) }
    ensures grows { Grows types.old types.new }
{
    match &e.node {
        ExprNode::SizeofType(term) => {
            let q = words(alloc, &term.spec, names, types)?;
            size_of_type(e, left, term, q, names, types)
        }
        ExprNode::Cast(term) => {
            let q = words(alloc, &term.spec, names, types)?;
            let operands = operands(alloc, &e.args, false, names, types)?;
            cast(alloc, e, left, term, q, operands, names, types)
        }
        ExprNode::Vector(term) => {
            let q = words(alloc, &term.spec, names, types)?;
            let operands = operands(alloc, &e.args, false, names, types)?;
            vector(alloc, e, left, term, q, operands, names, types)
        }
        _ => {
            let first = first_left(left, &e.node);
            let operands = operands(alloc, &e.args, first, names, types)?;
            node(alloc, e, left, operands, names, types)
        }
    }
}

// Operands, of which the first stands on the left of an assignment or not.
#[cycle(expression)]
fn operands(
    alloc: Global,
    args: &[Expr],
    left: bool,
    names: &mut Names,
    types: &mut TypeTable,
) -> Result<Vec<Typed>, Stop>
    requires known { IsKnownEnv types.old names.old }
    ensures ok { IfOk result (λ rs. OperandsAre types.new names.old left args.now names.new rs.items) }
    ensures out { IfErr result (SomeStops types.new names.old left args.now) }
    ensures grows { Grows types.old types.new }
{
    types.is_table();
    let mut typed = Vec::new(alloc);
    let mut first = left;
    for arg in args {
        typed.push(expr(alloc, arg, first, names, types)?)?;
        first = false;
    }
    Ok(typed)
}

/// The type that words name, with their qualifiers (C99, 6.7.2 and 6.7.3); or the first offence in them, or want of
/// memory. The structs that they declare stand in the innermost block then. The table and the names are as for `expr`.
#[cycle(expression)]
pub fn words(
    alloc: Global,
    spec: &Spec,
    names: &mut Names,
    types: &mut TypeTable,
) -> Result<Qualified, Stop>
    requires known { IsKnownEnv types.old names.old }
    ensures ok { IfOk result (WordsAre types.new names.old spec.now names.new) }
    ensures out { IfErr result (WordsStop types.new names.old spec.now) }
    ensures grows { Grows types.old types.new }
{
    let q = base_type(alloc, &spec.base, names, types)?;
    Ok(qualify(spec.quals.as_slice(), q))
}

// What the words of a type qualify.
#[cycle(expression)]
fn base_type(
    alloc: Global,
    base: &Base,
    names: &mut Names,
    types: &mut TypeTable,
) -> Result<Qualified, Stop>
    requires known { IsKnownEnv types.old names.old }
    ensures ok { IfOk result (BaseIs types.new names.old base.now names.new) }
    ensures out { IfErr result (BaseStops types.new names.old base.now) }
    ensures grows { Grows types.old types.new }
{
    types.is_table();
    match base {
        Base::Named { name, place } => typedef(base, name.as_slice(), *place, names, types),
        Base::Struct {
            name,
            place,
            members,
        } => match members {
            Some(fields) => structure(alloc, fields, base, name, *place, names, types),
            None => struct_tag(base, name, *place, names, types),
        },
        _ => word(base, names, types),
    }
}

// A struct with its members. Its tag is declared from its `{` on, and complete behind its `}`.
#[cycle(expression)]
fn structure(
    alloc: Global,
    fields: &Vec<Field>,
    base: &Base,
    name: &Option<Text>,
    place: Place,
    names: &mut Names,
    types: &mut TypeTable,
) -> Result<Qualified, Stop>
    requires known { IsKnownEnv types.old names.old }
    requires is { base.now ≡ spelled.Struct name.now place (Some fields.now) }
    ensures ok { IfOk result (BaseIs types.new names.old base.now names.new) }
    ensures out { IfErr result (BaseStops types.new names.old base.now) }
    ensures grows { Grows types.old types.new }
{
    types.is_table();
    let again = is_tag_again(names, name);
    let void = of_shape(Shape::Void, types)?;
    tagged(alloc, name, void, false, names)?;
    let members = members(alloc, fields, names, types)?;
    let ty = struct_type(alloc, name, place, again, &members, types)?;
    tagged(alloc, name, ty, true, names)?;
    Ok(plain(shaped(types, ty), false))
}

// The members of a struct.
#[cycle(expression)]
fn members(
    alloc: Global,
    fields: &[Field],
    names: &mut Names,
    types: &mut TypeTable,
) -> Result<Members, Stop>
    requires known { IsKnownEnv types.old names.old }
    ensures ok { IfOk result (MembersAre types.new names.old [] fields.now names.new) }
    ensures out { IfErr result (MembersStop types.new names.old [] fields.now) }
    ensures grows { Grows types.old types.new }
{
    types.is_table();
    let mut members = Members::new(alloc);
    for field in fields {
        named(alloc, field, &mut members, names, types)?;
    }
    Ok(members)
}

// Members of one type, behind others.
#[cycle(expression)]
fn named(
    alloc: Global,
    field: &Field,
    members: &mut Members,
    names: &mut Names,
    types: &mut TypeTable,
) -> Result<(), Stop>
    requires known { IsKnownEnv types.old names.old }
    requires ready { AreReadyMembers types.old members.old }
    ensures ok { OnOk result (FieldIs types.new names.old members.old field.now names.new members.new) }
    ensures out { IfErr result (FieldStops types.new names.old members.old field.now) }
    ensures grows { Grows types.old types.new }
{
    types.is_table();
    let q = words(alloc, &field.spec, names, types)?;
    for one in &field.names {
        let lengths = lengths(alloc, &one.lengths, false, names, types)?;
        member_named(alloc, q, one, lengths, members, types)?;
    }
    Ok(())
}

/// The lengths of arrays in elements, the outermost first, of which the first may be missing or not (C99, 6.7.5.2); or
/// the first offence in them, which is 334 where one divides by zero or out of range, or want of memory. One that is no
/// positive constant is told apart from the others. The table and the names are as for `expr`.
#[cycle(expression)]
pub fn lengths(
    alloc: Global,
    written: &[Option<Expr>],
    may_miss: bool,
    names: &mut Names,
    types: &mut TypeTable,
) -> Result<List<Length>, Stop>
    requires known { IsKnownEnv types.old names.old }
    ensures ok { IfOk result (LengthsAre types.new names.old may_miss written.now names.new) }
    ensures out { IfErr result (LengthsStop types.new names.old may_miss written.now) }
    ensures grows { Grows types.old types.new }
{
    types.is_table();
    let mut lengths = List::new(alloc);
    let mut may = may_miss;
    for at in 0..written.len() {
        lengths.push(length_at(alloc, written, at, may, names, types)?)?;
        may = false;
    }
    Ok(lengths)
}

// The length at an index, written or missing.
#[cycle(expression)]
fn length_at(
    alloc: Global,
    written: &[Option<Expr>],
    at: usize,
    may_miss: bool,
    names: &mut Names,
    types: &mut TypeTable,
) -> Result<Length, Stop>
    requires known { IsKnownEnv types.old names.old }
    requires within { at < length written.now }
    ensures ok { IfOk result (LengthIs types.new names.old may_miss (slice_index_or written.now at None) names.new) }
    ensures out { IfErr result (LengthStops types.new names.old may_miss (slice_index_or written.now at None)) }
    ensures grows { Grows types.old types.new }
{
    types.is_table();
    match &written[at] {
        Some(e) => {
            let typed = expr(alloc, e, false, names, types)?;
            length_of(alloc, &typed, types)
        }
        None => Ok(missing(may_miss)),
    }
}
