//! Initialisers of declared variables.

ghost use Rattle.std.specs.Prelude.{◌≡◌, ◌<◌, true, false, None, Some, IfOk, IfErr};
ghost use Rattle.cl_ast.specs.declared.declaration.Init.TheVariants as init;
ghost use Rattle.cl_builtins.specs.Found.{IsKnown};
ghost use Rattle.cl_make.specs.Ready.{Grows};
ghost use Rattle.cl_scope.specs.Scopes.{IsKnownEnv};
ghost use Rattle.cl_tree.specs.Shapes.{shape_of, is_array};
ghost use Rattle.cl_words.specs.Words.{is_open, no_declared_type};
ghost use Rattle.cl_type_expr.specs.Typing.{ArePositive, IsReadySketch, DeclaredIs};
ghost use Rattle.cl_variables.specs.Answers.{IsElementOf, InitialIs, InitialStops, OpenedIs, OpenedStops};

use crate::filling::{fill, list};
use crate::listing::{Opened, open_list};
use crate::tally::Tally;
use crate::valued::{as_wanted, value};
use cl_ast::declaration::Init;
use cl_make::shaped;
use cl_scope::Names;
use cl_tree::{Shape, TExpr};
use cl_type_expr::declared;
use cl_types::{TypeId, TypeStop, TypeTable};
use cl_words::{Sketch, is_open};
use clv_place::{Place, Stop};
use std::alloc::Global;

/// An initialiser: its tree, where it is right; how many elements it says; and what is told at the declared name.
#[derive(Drop)]
pub(crate) struct Initial {
    pub(crate) tree: Option<TExpr>,
    pub(crate) count: u64,
    pub(crate) tally: Tally,
}

// The type of an array's elements.
fn element_of(types: &TypeTable, t: TypeId) -> TypeId
    requires known { IsKnown types.now t }
    requires array { is_array (shape_of types.now t) ≡ true }
    ensures { IsElementOf types.now t result }
{
    match shaped(types, t).shape {
        Shape::Array { elem, .. } => elem,
        _ => unreachable!(),
    }
}

// An initialiser without a tree.
fn untold(count: u64, tally: Tally) -> Initial
    ensures tree { result.tree ≡ None }
    ensures count { result.count ≡ count }
    ensures tally { result.tally ≡ tally }
{
    Initial {
        tree: None,
        count,
        tally,
    }
}

// The array that a list says, where it is within the limits.
fn opened(
    alloc: Global,
    place: Place,
    sketch: &Sketch,
    list: Opened,
    types: &mut TypeTable,
) -> Result<Initial, Stop>
    requires ready { IsReadySketch types.old sketch.now }
    requires element { no_declared_type sketch.now ≡ false }
    requires positive { ArePositive sketch.now.lengths }
    requires open { is_open sketch.now.lengths ≡ true }
    requires some { 0 < list.count }
    ensures ok { IfOk result (OpenedIs types.new place sketch.now list) }
    ensures out { IfErr result OpenedStops }
    ensures grows { Grows types.old types.new }
{
    let count = list.count as u64;
    let tally = Tally::only(list.varies);
    match declared(alloc, sketch, count, types) {
        Ok(ty) => Ok(Initial {
            tree: Some(fill(ty, place, list.trees)),
            count,
            tally,
        }),
        Err(TypeStop::TooLarge) => Ok(untold(count, tally)),
        Err(TypeStop::TooDeep) => Ok(untold(count, tally)),
        Err(TypeStop::NoMemory) => Err(Stop::NoMemory),
    }
}

/// The initialiser of what is declared so, whose type is the one that it has with one element where its first length
/// is missing (C99, 6.7.8).
pub(crate) fn initialised(
    alloc: Global,
    constant: bool,
    init: &Option<Init>,
    sketch: &Sketch,
    ty: TypeId,
    names: &mut Names,
    types: &mut TypeTable,
) -> Result<Initial, Stop>
    requires known { IsKnownEnv types.old names.old }
    requires ready { IsReadySketch types.old sketch.now }
    requires element { no_declared_type sketch.now ≡ false }
    requires positive { ArePositive sketch.now.lengths }
    requires type_is { DeclaredIs types.old sketch.now 1 ty }
    ensures ok { IfOk result (InitialIs types.new constant names.old init.now sketch.now ty names.new) }
    ensures out { IfErr result (InitialStops types.new constant names.old init.now sketch.now ty) }
    ensures grows { Grows types.old types.new }
{
    types.is_table();
    match init {
        None => Ok(untold(1, Tally::clean())),
        Some(given) => initialised_by(alloc, constant, given, sketch, ty, names, types),
    }
}

// The initialiser that is written.
fn initialised_by(
    alloc: Global,
    constant: bool,
    init: &Init,
    sketch: &Sketch,
    ty: TypeId,
    names: &mut Names,
    types: &mut TypeTable,
) -> Result<Initial, Stop>
    requires known { IsKnownEnv types.old names.old }
    requires ready { IsReadySketch types.old sketch.now }
    requires element { no_declared_type sketch.now ≡ false }
    requires positive { ArePositive sketch.now.lengths }
    requires type_is { DeclaredIs types.old sketch.now 1 ty }
    ensures ok { IfOk result (InitialIs types.new constant names.old (Some init.now) sketch.now ty names.new) }
    ensures out { IfErr result (InitialStops types.new constant names.old (Some init.now) sketch.now ty) }
    ensures grows { Grows types.old types.new }
{
    types.is_table();
    match init {
        Init::Value(e) => {
            let valued = value(alloc, constant, e, names, types)?;
            let taken = as_wanted(alloc, ty, valued, types)?;
            Ok(Initial {
                tree: taken.tree,
                count: 1,
                tally: taken.tally,
            })
        }
        Init::Braces { place, items } => {
            braced(alloc, constant, *place, items, sketch, ty, names, types)
        }
    }
}

// A list in braces, which says the length where it is missing.
fn braced(
    alloc: Global,
    constant: bool,
    place: Place,
    items: &Vec<Init>,
    sketch: &Sketch,
    ty: TypeId,
    names: &mut Names,
    types: &mut TypeTable,
) -> Result<Initial, Stop>
    requires known { IsKnownEnv types.old names.old }
    requires ready { IsReadySketch types.old sketch.now }
    requires element { no_declared_type sketch.now ≡ false }
    requires positive { ArePositive sketch.now.lengths }
    requires type_is { DeclaredIs types.old sketch.now 1 ty }
    ensures ok { IfOk result (InitialIs types.new constant names.old (Some (init.Braces place items.now)) sketch.now ty names.new) }
    ensures out { IfErr result (InitialStops types.new constant names.old (Some (init.Braces place items.now)) sketch.now ty) }
    ensures grows { Grows types.old types.new }
{
    types.is_table();
    if is_open(sketch.lengths.as_slice()) {
        let elem = element_of(types, ty);
        let all = open_list(alloc, constant, place, items, elem, names, types)?;
        return opened(alloc, place, sketch, all, types);
    }
    let listed = list(alloc, constant, place, items, ty, names, types)?;
    Ok(Initial {
        tree: Some(listed.tree),
        count: 1,
        tally: Tally::only(listed.varies),
    })
}
