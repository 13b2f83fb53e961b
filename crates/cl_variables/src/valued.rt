//! Values of initialisers.

ghost use Rattle.std.specs.Prelude.{◌≡◌, IfOk, IfErr};
ghost use Rattle.clv_place.specs.declared.stop.Stop.TheVariants.{Out};
ghost use Rattle.cl_builtins.specs.Found.{IsKnown};
ghost use Rattle.cl_make.specs.Ready.{Grows, IsReady};
ghost use Rattle.cl_scope.specs.Scopes.{IsKnownEnv};
ghost use Rattle.cl_type_expr.specs.Offences.{at};
ghost use Rattle.cl_variables.specs.Initialisers.{is_varying};
ghost use Rattle.cl_variables.specs.Answers.{IsValued, ValueStops, IsNext, NextStops, IsBegun, VariesAs, VaryingStops, IsTaken};

use crate::tally::Tally;
use cl_ast::expression::Expr;
use cl_constants::{constancy, divides};
use cl_make::{Typed, converted, shaped};
use cl_rules::Want;
use cl_scope::Names;
use cl_tree::{Constancy, TExpr};
use cl_type_expr::expr;
use cl_types::{TypeId, TypeTable};
use clv_place::{NoMemory, Offence, Place, Stop};
use std::alloc::Global;

/// A typed value, and whether it isn't constant though it must be.
#[derive(Drop)]
pub(crate) struct Valued {
    pub(crate) typed: Typed,
    pub(crate) varies: bool,
}

/// A value's tree of the type that is wanted, where it has one, and what goes wrong with it.
#[derive(Drop)]
pub(crate) struct Taken {
    pub(crate) tree: Option<TExpr>,
    pub(crate) tally: Tally,
}

// An offence at a place.
pub(crate) fn out(code: u16, place: Place) -> Stop
    ensures { result ≡ Out (at code place) }
{
    Stop::Out(Offence { code, place })
}

fn is_varying(value: &Constancy) -> bool
    ensures { result ≡ is_varying value.now }
{
    match value {
        Constancy::Varies => true,
        _ => false,
    }
}

// Whether a value that must be constant isn't (C99, 6.6): 334 where it divides by zero or out of range.
fn varies(alloc: Global, typed: &Typed, types: &TypeTable) -> Result<bool, Stop>
    requires { IsReady types.now typed.now }
    ensures ok { IfOk result (VariesAs types.now typed.now.tree) }
    ensures out { IfErr result (VaryingStops types.now typed.now.tree) }
{
    let value = constancy(alloc, types, &typed.tree)?;
    match divides(&value) {
        Some(place) => Err(out(334, place)),
        None => Ok(is_varying(&value)),
    }
}

/// A value, which must be constant or needn't be: 334 where it must, and divides by zero or out of range.
pub(crate) fn value(
    alloc: Global,
    constant: bool,
    e: &Expr,
    names: &mut Names,
    types: &mut TypeTable,
) -> Result<Valued, Stop>
    requires known { IsKnownEnv types.old names.old }
    ensures ok { IfOk result (IsValued types.new constant names.old e.now names.new) }
    ensures out { IfErr result (ValueStops types.new constant names.old e.now) }
    ensures grows { Grows types.old types.new }
{
    let typed = expr(alloc, e, false, names, types)?;
    if !constant {
        return Ok(Valued {
            typed,
            varies: false,
        });
    }
    let varies = varies(alloc, &typed, types)?;
    Ok(Valued { typed, varies })
}

/// A value, which may have been typed already.
pub(crate) fn next_value(
    alloc: Global,
    constant: bool,
    first: Option<Valued>,
    e: &Expr,
    names: &mut Names,
    types: &mut TypeTable,
) -> Result<Valued, Stop>
    requires known { IsKnownEnv types.old names.old }
    requires begun { IsBegun types.old first }
    ensures ok { IfOk result (IsNext types.new constant names.old first e.now names.new) }
    ensures out { IfErr result (NextStops types.new constant names.old first e.now) }
    ensures grows { Grows types.old types.new }
{
    types.is_table();
    match first {
        Some(valued) => Ok(valued),
        None => value(alloc, constant, e, names, types),
    }
}

/// A value as one of the type that is wanted.
pub(crate) fn as_wanted(
    alloc: Global,
    ty: TypeId,
    valued: Valued,
    types: &mut TypeTable,
) -> Result<Taken, NoMemory>
    requires ready { IsReady types.old valued.typed }
    requires known { IsKnown types.old ty }
    ensures taken { IfOk result (IsTaken types.new ty valued) }
    ensures grows { Grows types.old types.new }
{
    types.is_table();
    let tally = Tally::of(valued.typed.operand, shaped(types, ty), valued.varies);
    if !tally.is_right() {
        return Ok(Taken { tree: None, tally });
    }
    let tree = Some(converted(alloc, Want::Type(ty), valued.typed, types)?);
    Ok(Taken { tree, tally })
}
