//! What stands at file scope.

ghost use Rattle.std.specs.Prelude.{◌≡◌, true, false, is_some, Some, None, IfOk, IfErr, OnOk};
ghost use Rattle.cl_ast.specs.declared.declaration.External.TheVariants as external;
ghost use Rattle.cl_make.specs.Ready.{Grows, IsReadyType};
ghost use Rattle.cl_type_expr.specs.Typing.{ArePositive, IsReadySketch};
ghost use Rattle.cl_rules.specs.Operands.{first_broken};
ghost use Rattle.cl_scope.specs.Scopes.{IsKnownEnv};
ghost use Rattle.cl_words.specs.Words.{no_declared_type};
ghost use Rattle.cl_variables.specs.Answers.{is_taken};
ghost use Rattle.cl_typing.specs.Units.{space_or_private, typedef_tests_at, empty};
ghost use Rattle.cl_typing.specs.UnitAnswers.{TypedefIs, TypedefStops, IsTypedef, TypedefOffends, UnitIsTyped, UnitStops, ConstantIs, ConstantStops, ConstantsAreDeclared, ConstantsStopAt, ExternalIsTyped, ExternalStops};

use crate::condition::out;
use crate::declaring::next_number;
use crate::head::typed_head;
use crate::name_list::NameList;
use crate::setting::Setting;
use crate::size::is_kernel;
use crate::statement::body_items;
use crate::unit_state::UnitState;
use cl_ast::declaration::{External, FWord, InitDeclor, Param};
use cl_ast::expression::{Declor, Spec};
use cl_ast::statement::Stmt;
use cl_rules::{Qualified, first_broken};
use cl_scope::{Declared, DeclaredKind, Names};
use cl_tree::{ConstantVar, Function, TExpr, TStmt, TStmtNode};
use cl_type_expr::{declared, lengths, words};
use cl_types::{Space, TypeId, TypeStop, TypeTable};
use cl_variables::{Where, bytes, variable};
use cl_words::{Sketch, some_wrong};
use clv_place::{List, NoMemory, Place, Stop, Text};
use std::alloc::Global;

// ---- typedefs

fn space_or_private(space: Option<Space>) -> Space
    ensures { result ≡ space_or_private space }
{
    match space {
        None => Space::Private,
        Some(space) => space,
    }
}

// The least code that a typedef breaks, but for the limits of its type: 302, 303, 304, 326.
fn typedef_broken(again: bool, sketch: &Sketch) -> Option<u16>
    ensures { result ≡ first_broken (typedef_tests_at again sketch.now false false) }
{
    first_broken(&[
        (302, again),
        (303, sketch.has_no_type()),
        (304, some_wrong(sketch.lengths.as_slice())),
        (326, sketch.clash),
        (501, false),
        (502, false),
    ])
}

// The type of a typedef: 302, 303, 304, 326, 501, 502.
fn typedef_type(
    alloc: Global,
    again: bool,
    place: Place,
    sketch: &Sketch,
    types: &mut TypeTable,
) -> Result<TypeId, Stop>
    requires ready { no_declared_type sketch.now ≡ false → IsReadySketch types.old sketch.now }
    requires positive { ArePositive sketch.now.lengths }
    ensures ok { IfOk result (TypedefIs types.new again sketch.now) }
    ensures out { IfErr result (TypedefStops types.new again place sketch.now) }
    ensures grows { Grows types.old types.new }
{
    types.is_table();
    if let Some(code) = typedef_broken(again, sketch) {
        return Err(out(code, place));
    }
    match declared(alloc, sketch, 1, types) {
        Ok(ty) => Ok(ty),
        Err(TypeStop::TooLarge) => Err(out(501, place)),
        Err(TypeStop::TooDeep) => Err(out(502, place)),
        Err(TypeStop::NoMemory) => Err(Stop::NoMemory),
    }
}

// Whether a name is declared at file scope: by a variable, a type or a function (302).
fn is_taken(names: &Names, name: &[u8]) -> bool
    ensures { result ≡ is_taken names.now name.now }
{
    names.is_declared(name) || names.find_function(name).is_some()
}

// A typedef (C99, 6.7.7).
fn typedef(
    alloc: Global,
    spec: &Spec,
    d: &Declor,
    names: &mut Names,
    types: &mut TypeTable,
) -> Result<(), Stop>
    requires known { IsKnownEnv types.old names.old }
    ensures ok { OnOk result (IsTypedef types.new names.old spec.now d.now names.new) }
    ensures out { IfErr result (TypedefOffends types.new names.old spec.now d.now) }
    ensures grows { Grows types.old types.new }
{
    let q = words(alloc, spec, names, types)?;
    let lengths = lengths(alloc, &d.lengths, false, names, types)?;
    let sketch = Sketch::new(q, &d.star, lengths);
    let name = d.name.as_slice();
    let again = is_taken(names, name);
    let ty = typedef_type(alloc, again, d.place, &sketch, types)?;
    names.declare(Declared {
        name: Text::from_bytes(alloc, name)?,
        ty,
        space: space_or_private(sketch.space),
        readonly: sketch.readonly,
        kind: DeclaredKind::Typedef,
        complete: true,
    })?;
    Ok(())
}

// ---- constants

// The tree of an initialiser that is there, as that of each constant is.
fn initialiser(tree: Option<TExpr>) -> TExpr
    requires { is_some tree ≡ true }
    ensures { tree ≡ Some result }
{
    match tree {
        Some(tree) => tree,
        None => unreachable!(),
    }
}

// A constant of the unit, with its bytes.
fn constant(
    alloc: Global,
    q: Qualified,
    d: &InitDeclor,
    unit: &mut UnitState,
    types: &mut TypeTable,
) -> Result<(), Stop>
    requires known { IsKnownEnv types.old unit.old.env }
    requires type_ready { IsReadyType types.old q }
    ensures ok { OnOk result (ConstantIs types.new q unit.old d.now unit.new) }
    ensures out { IfErr result (ConstantStops types.new q unit.old d.now) }
    ensures grows { Grows types.old types.new }
{
    types.is_table();
    let kind = DeclaredKind::Constant(next_number(unit.constants.len())?);
    let read = variable(alloc, Where::AtFileScope, kind, q, d, &mut unit.env, types)?;
    let tree = initialiser(read.tree);
    let bytes = bytes(alloc, types, &tree)?;
    unit.constants.push(ConstantVar {
        variable: read.variable,
        bytes,
    })?;
    Ok(())
}

// Constants of one type.
fn constants(
    alloc: Global,
    q: Qualified,
    all: &[InitDeclor],
    unit: &mut UnitState,
    types: &mut TypeTable,
) -> Result<(), Stop>
    requires known { IsKnownEnv types.old unit.old.env }
    requires type_ready { IsReadyType types.old q }
    ensures ok { OnOk result (ConstantsAreDeclared types.new q unit.old all.now unit.new) }
    ensures out { IfErr result (ConstantsStopAt types.new q unit.old all.now) }
    ensures grows { Grows types.old types.new }
{
    types.is_table();
    for one in all {
        constant(alloc, q, one, unit, types)?;
    }
    Ok(())
}

// ---- functions

// A function without its body.
fn prototype(
    alloc: Global,
    bodies: &NameList,
    e: &External,
    before: &Vec<FWord>,
    spec: &Spec,
    name: &Text,
    place: Place,
    params: &Vec<Param>,
    unit: &mut UnitState,
    types: &mut TypeTable,
) -> Result<(), Stop>
    requires known { IsKnownEnv types.old unit.old.env }
    requires is { e.now ≡ external.Function before.now spec.now name.now place params.now None }
    ensures ok { OnOk result (ExternalIsTyped types.new bodies.now unit.old e.now unit.new) }
    ensures out { IfErr result (ExternalStops types.new bodies.now unit.old e.now) }
    ensures grows { Grows types.old types.new }
{
    let head = typed_head(
        alloc, bodies, before, spec, name, place, params, false, unit, types,
    )?;
    unit.env.leave(head.mark);
    unit.add_size(name.as_slice(), head.size)?;
    Ok(())
}

// A function with its body.
fn defined(
    alloc: Global,
    bodies: &NameList,
    e: &External,
    before: &Vec<FWord>,
    spec: &Spec,
    name: &Text,
    place: Place,
    params: &Vec<Param>,
    body: &Stmt,
    unit: &mut UnitState,
    types: &mut TypeTable,
) -> Result<(), Stop>
    requires known { IsKnownEnv types.old unit.old.env }
    requires is { e.now ≡ external.Function before.now spec.now name.now place params.now (Some body.now) }
    ensures ok { OnOk result (ExternalIsTyped types.new bodies.now unit.old e.now unit.new) }
    ensures out { IfErr result (ExternalStops types.new bodies.now unit.old e.now) }
    ensures grows { Grows types.old types.new }
{
    let head = typed_head(
        alloc, bodies, before, spec, name, place, params, true, unit, types,
    )?;
    let kernel = is_kernel(before);
    let mut vars = List::new(alloc);
    let p = Setting::of(kernel, head.q.ty);
    let typed = body_items(alloc, p, body, &mut unit.env, &mut vars, types)?;
    unit.env.leave(head.mark);
    unit.add_size(name.as_slice(), head.size)?;
    unit.add_function(Function {
        name: Text::from_bytes(alloc, name.as_slice())?,
        place,
        kernel,
        required: None,
        result: head.q.ty,
        params: head.params,
        vars,
        body: TStmt {
            place: body.place,
            node: TStmtNode::Block(typed),
        },
    })?;
    Ok(())
}

/// What stands at file scope, behind what stands there so far (C99, 6.9).
pub(crate) fn external(
    alloc: Global,
    bodies: &NameList,
    e: &External,
    unit: &mut UnitState,
    types: &mut TypeTable,
) -> Result<(), Stop>
    requires known { IsKnownEnv types.old unit.old.env }
    ensures ok { OnOk result (ExternalIsTyped types.new bodies.now unit.old e.now unit.new) }
    ensures out { IfErr result (ExternalStops types.new bodies.now unit.old e.now) }
    ensures grows { Grows types.old types.new }
{
    types.is_table();
    match e {
        External::Typedef { spec, name } => typedef(alloc, spec, name, &mut unit.env, types),
        External::Struct { spec } => {
            words(alloc, spec, &mut unit.env, types)?;
            Ok(())
        }
        External::Constant { spec, items } => {
            let q = words(alloc, spec, &mut unit.env, types)?;
            constants(alloc, q, items, unit, types)
        }
        External::Function {
            words,
            spec,
            name,
            place,
            params,
            body,
        } => match body {
            None => prototype(
                alloc, bodies, e, words, spec, name, *place, params, unit, types,
            ),
            Some(body) => defined(
                alloc, bodies, e, words, spec, name, *place, params, body, unit, types,
            ),
        },
    }
}

/// What stands at file scope, in text order.
pub(crate) fn externals(
    alloc: Global,
    bodies: &NameList,
    all: &[External],
    types: &mut TypeTable,
) -> Result<UnitState, Stop>
    ensures ok { IfOk result (UnitIsTyped types.new bodies.now empty all.now) }
    ensures out { IfErr result (UnitStops types.new bodies.now empty all.now) }
    ensures grows { Grows types.old types.new }
{
    types.is_table();
    let mut unit = UnitState::new(alloc);
    for one in all {
        external(alloc, bodies, one, &mut unit, types)?;
    }
    Ok(unit)
}
