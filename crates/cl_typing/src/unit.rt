//! The typed tree of a unit.

ghost use Rattle.std.specs.Prelude.{◌≡◌, IfOk, IfErr, OnOk};
ghost use Rattle.cl_typing.specs.Units.{IsTyped, StopsAt, body_names, with_body};

use crate::condition::out;
use crate::external::externals;
use crate::name_list::NameList;
use crate::unit_state::UnitState;
use cl_ast::declaration::{Ast, External};
use cl_tree::Tree;
use cl_types::TypeTable;
use clv_place::{NoMemory, Place, Stop};
use std::alloc::Global;

// Adds the name of a function that has a body.
fn add_body(e: &External, names: &mut NameList) -> Result<(), NoMemory>
    ensures { OnOk result (names.new ≡ with_body e.now names.old) }
{
    match e {
        External::Function { name, body, .. } => match body {
            Some(_) => names.add(name.as_slice()),
            None => Ok(()),
        },
        External::Typedef { .. } => Ok(()),
        External::Struct { .. } => Ok(()),
        External::Constant { .. } => Ok(()),
    }
}

// The names of the functions that have a body in the unit, in the order of their first bodies.
fn body_names(alloc: Global, all: &[External]) -> Result<NameList, NoMemory>
    ensures { IfOk result (λ names. names ≡ body_names all.now) }
{
    let mut names = NameList::new(alloc);
    for one in all {
        add_body(one, &mut names)?;
    }
    Ok(names)
}

/// The typed tree of a unit, or its first offence, but for want of memory.
pub fn type_unit(alloc: Global, ast: &Ast) -> Result<Tree, Stop>
    ensures tree { IfOk result (IsTyped ast.now) }
    ensures out { IfErr result (StopsAt ast.now) }
{
    let bodies = body_names(alloc, ast.externals.as_slice())?;
    let mut types = TypeTable::new(alloc)?;
    let unit = externals(alloc, &bodies, ast.externals.as_slice(), &mut types)?;
    if !unit.functions.has_kernel() {
        return Err(out(335, Place { line: 1, col: 1 }));
    }
    let UnitState {
        constants,
        functions,
        sized,
        sizes,
        ..
    } = unit;
    let functions = functions.with_sizes(alloc, &sized, sizes.as_slice())?;
    Ok(Tree {
        types,
        constants,
        functions,
    })
}
