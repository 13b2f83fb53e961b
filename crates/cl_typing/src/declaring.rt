//! Variables of functions.

ghost use Rattle.std.specs.Prelude.{◌≡◌, IfOk, IfErr, OnOk};
ghost use Rattle.cl_make.specs.Ready.{Grows, IsReadyType};
ghost use Rattle.cl_scope.specs.Scopes.{IsKnownEnv};
ghost use Rattle.cl_typing.specs.Answers.{VariableIsTyped, VariableStopsAt, VariablesAre, VariablesStop};
ghost use Rattle.cl_typing.specs.Settings.{state};

use crate::setting::Setting;
use cl_ast::declaration::InitDeclor;
use cl_rules::Qualified;
use cl_scope::{DeclaredKind, Names};
use cl_tree::{TStmt, TStmtNode, Variable};
use cl_types::TypeTable;
use cl_variables::variable;
use clv_place::{List, NoMemory, Stop};
use std::alloc::Global;

// The number of what comes behind so many. There is no memory for more than have a number.
pub(crate) fn next_number(count: usize) -> Result<u32, NoMemory>
    ensures { IfOk result (λ n. n ≡ count) }
{
    match u32::try_from(count) {
        Ok(n) => Ok(n),
        Err(_) => Err(NoMemory),
    }
}

// A variable, which is a statement.
fn declaration(
    alloc: Global,
    p: Setting,
    q: Qualified,
    d: &InitDeclor,
    names: &mut Names,
    vars: &mut List<Variable>,
    types: &mut TypeTable,
) -> Result<TStmt, Stop>
    requires known { IsKnownEnv types.old names.old }
    requires type_ready { IsReadyType types.old q }
    ensures ok { IfOk result (VariableIsTyped types.new p (state names.old vars.old) q d.now (state names.new vars.new)) }
    ensures out { IfErr result (VariableStopsAt types.new p (state names.old vars.old) q d.now) }
    ensures grows { Grows types.old types.new }
{
    types.is_table();
    let var = next_number(vars.len())?;
    let read = variable(
        alloc,
        p.variables,
        DeclaredKind::Var(var),
        q,
        d,
        names,
        types,
    )?;
    let place = read.variable.place;
    vars.push(read.variable)?;
    Ok(TStmt {
        place,
        node: TStmtNode::Decl {
            var,
            init: read.tree,
        },
    })
}

// Variables of one type, behind other statements.
pub(crate) fn variables(
    alloc: Global,
    p: Setting,
    q: Qualified,
    all: &[InitDeclor],
    typed: &mut Vec<TStmt>,
    names: &mut Names,
    vars: &mut List<Variable>,
    types: &mut TypeTable,
) -> Result<(), Stop>
    requires known { IsKnownEnv types.old names.old }
    requires type_ready { IsReadyType types.old q }
    ensures ok { OnOk result (VariablesAre types.new p (state names.old vars.old) q all.now (state names.new vars.new) typed.old.items typed.new.items) }
    ensures out { IfErr result (VariablesStop types.new p (state names.old vars.old) q all.now) }
    ensures grows { Grows types.old types.new }
{
    types.is_table();
    for one in all {
        typed.push(declaration(alloc, p, q, one, names, vars, types)?)?;
    }
    Ok(())
}
