//! The cycle of statements. Each function makes the calls of the cycle, and leaves the rule to a function below.

ghost use Rattle.std.specs.Prelude.{◌≡◌, true, IfOk, IfErr, OnOk};
ghost use Rattle.cl_ast.specs.declared.statement.StmtNode.TheVariants as node;
ghost use Rattle.cl_ast.specs.declared.statement.StmtNode.TheViews.{out-Stmt};
ghost use Rattle.cl_builtins.specs.Found.{IsKnown};
ghost use Rattle.cl_builtins.specs.Kinds.{is_gentype};
ghost use Rattle.cl_make.specs.Ready.{Grows};
ghost use Rattle.cl_scope.specs.Scopes.{IsKnownEnv};
ghost use Rattle.cl_typing.specs.Answers.{IsNoDeclaration, ItemsAreTyped, ItemsStop, ItemIs, ItemStops, StmtIsTyped, StmtStops, ArmsAreTyped, ArmsStop, ArmIs, ArmStops, PartIs, PartStops, SectionsAreTyped, SectionsStop, SectionIs, SectionStops};
ghost use Rattle.cl_typing.specs.Settings.{state};
ghost use Rattle.cl_typing.specs.UnitAnswers.{BodyIs, BodyStops};

use crate::condition::{
    condition, expression, for_condition, leaving, may_be, return_statement, switched,
};
use crate::declaring::variables;
use crate::ends::list_ends;
use crate::entering::{enter, first_tested, looped};
use crate::label::{Tested, falls, labels};
use crate::setting::Setting;
use cl_ast::expression::Expr;
use cl_ast::statement::{Group, Stmt, StmtNode};
use cl_scope::Names;
use cl_tree::{Section, TStmt, TStmtNode, Variable};
use cl_type_expr::{expr, words};
use cl_types::TypeTable;
use clv_place::{List, Stop};
use std::alloc::Global;

/// Statements and declarations of a list, one after another. The variables of the function go behind those that it
/// has.
#[cycle(statement)]
pub fn items(
    alloc: Global,
    p: Setting,
    all: &[Stmt],
    names: &mut Names,
    vars: &mut List<Variable>,
    types: &mut TypeTable,
) -> Result<Vec<TStmt>, Stop>
    requires known { IsKnownEnv types.old names.old }
    requires result { IsKnown types.old p.result }
    ensures ok { IfOk result (λ ts. ItemsAreTyped types.new p (state names.old vars.old) all.now (state names.new vars.new) ts.items) }
    ensures out { IfErr result (ItemsStop types.new p (state names.old vars.old) all.now) }
    ensures grows { Grows types.old types.new }
{
    types.is_table();
    let mut typed = Vec::new(alloc);
    for one in all {
        item(alloc, p, one, &mut typed, names, vars, types)?;
    }
    Ok(typed)
}

// A statement or a declaration of a list, behind others.
#[cycle(statement)]
fn item(
    alloc: Global,
    p: Setting,
    s: &Stmt,
    typed: &mut Vec<TStmt>,
    names: &mut Names,
    vars: &mut List<Variable>,
    types: &mut TypeTable,
) -> Result<(), Stop>
    requires known { IsKnownEnv types.old names.old }
    requires result { IsKnown types.old p.result }
    ensures ok { OnOk result (ItemIs types.new p (state names.old vars.old) s.now (state names.new vars.new) typed.old.items typed.new.items) }
    ensures out { IfErr result (ItemStops types.new p (state names.old vars.old) s.now) }
    ensures grows { Grows types.old types.new }
{
    types.is_table();
    match &s.node {
        StmtNode::Decl { spec, items } => {
            let q = words(alloc, spec, names, types)?;
            variables(alloc, p, q, items, typed, names, vars, types)
        }
        _ => {
            typed.push(statement(alloc, p, s, names, vars, types)?)?;
            Ok(())
        }
    }
}

// A statement that isn't a declaration.
#[cycle(statement)]
fn statement(
    alloc: Global,
    p: Setting,
    s: &Stmt,
    names: &mut Names,
    vars: &mut List<Variable>,
    types: &mut TypeTable,
) -> Result<TStmt, Stop>
    requires known { IsKnownEnv types.old names.old }
    requires result { IsKnown types.old p.result }
    requires plain { IsNoDeclaration (out-Stmt s.now).node }
    ensures ok { IfOk result (StmtIsTyped types.new p (state names.old vars.old) s.now (state names.new vars.new)) }
    ensures out { IfErr result (StmtStops types.new p (state names.old vars.old) s.now) }
    ensures grows { Grows types.old types.new }
{
    types.is_table();
    match &s.node {
        StmtNode::Block(items) => block(alloc, p, s, items, names, vars, types),
        StmtNode::If { cond, arms } => choice(alloc, p, s, cond, arms, names, vars, types),
        StmtNode::While { cond, body } => while_loop(alloc, p, s, cond, body, names, vars, types),
        StmtNode::Do { body, cond } => do_loop(alloc, p, s, body, cond, names, vars, types),
        StmtNode::For {
            decl,
            first,
            cond,
            next,
            body,
        } => for_loop(
            alloc, p, s, decl, first, cond, next, body, names, vars, types,
        ),
        StmtNode::Switch { value, sections } => {
            switch(alloc, p, s, value, sections, names, vars, types)
        }
        StmtNode::Expr(e) => expression(alloc, p, s, e, names, types),
        StmtNode::Return(value) => return_statement(alloc, p, s, value, names, types),
        StmtNode::Break => leaving(s, p.breaks, TStmtNode::Break),
        StmtNode::Continue => leaving(s, p.continues, TStmtNode::Continue),
        StmtNode::Empty => leaving(s, true, TStmtNode::Empty),
        StmtNode::Decl { .. } => unreachable!(),
    }
}

#[cycle(statement)]
fn block(
    alloc: Global,
    p: Setting,
    s: &Stmt,
    all: &Vec<Stmt>,
    names: &mut Names,
    vars: &mut List<Variable>,
    types: &mut TypeTable,
) -> Result<TStmt, Stop>
    requires known { IsKnownEnv types.old names.old }
    requires result { IsKnown types.old p.result }
    requires is { (out-Stmt s.now).node ≡ node.Block all.now }
    ensures ok { IfOk result (StmtIsTyped types.new p (state names.old vars.old) s.now (state names.new vars.new)) }
    ensures out { IfErr result (StmtStops types.new p (state names.old vars.old) s.now) }
    ensures grows { Grows types.old types.new }
{
    let mark = enter(names, types);
    let typed = items(alloc, p.inside(), all, names, vars, types)?;
    names.leave(mark);
    Ok(TStmt {
        place: s.place,
        node: TStmtNode::Block(typed),
    })
}

#[cycle(statement)]
fn choice(
    alloc: Global,
    p: Setting,
    s: &Stmt,
    cond: &Expr,
    all: &Vec<Stmt>,
    names: &mut Names,
    vars: &mut List<Variable>,
    types: &mut TypeTable,
) -> Result<TStmt, Stop>
    requires known { IsKnownEnv types.old names.old }
    requires result { IsKnown types.old p.result }
    requires is { (out-Stmt s.now).node ≡ node.If cond.now all.now }
    ensures ok { IfOk result (StmtIsTyped types.new p (state names.old vars.old) s.now (state names.new vars.new)) }
    ensures out { IfErr result (StmtStops types.new p (state names.old vars.old) s.now) }
    ensures grows { Grows types.old types.new }
{
    let mark = names.enter();
    let test = expr(alloc, cond, false, names, types)?;
    let arms = arms(alloc, p.inside(), all, names, vars, types)?;
    names.leave(mark);
    let cond = condition(test, s.place)?;
    Ok(TStmt {
        place: s.place,
        node: TStmtNode::If { cond, arms },
    })
}

#[cycle(statement)]
fn while_loop(
    alloc: Global,
    p: Setting,
    s: &Stmt,
    cond: &Expr,
    all: &Vec<Stmt>,
    names: &mut Names,
    vars: &mut List<Variable>,
    types: &mut TypeTable,
) -> Result<TStmt, Stop>
    requires known { IsKnownEnv types.old names.old }
    requires result { IsKnown types.old p.result }
    requires is { (out-Stmt s.now).node ≡ node.While cond.now all.now }
    ensures ok { IfOk result (StmtIsTyped types.new p (state names.old vars.old) s.now (state names.new vars.new)) }
    ensures out { IfErr result (StmtStops types.new p (state names.old vars.old) s.now) }
    ensures grows { Grows types.old types.new }
{
    let mark = names.enter();
    let test = expr(alloc, cond, false, names, types)?;
    let body = arms(alloc, p.in_loop(), all, names, vars, types)?;
    names.leave(mark);
    let cond = condition(test, s.place)?;
    Ok(TStmt {
        place: s.place,
        node: TStmtNode::While { cond, body },
    })
}

#[cycle(statement)]
fn do_loop(
    alloc: Global,
    p: Setting,
    s: &Stmt,
    all: &Vec<Stmt>,
    cond: &Expr,
    names: &mut Names,
    vars: &mut List<Variable>,
    types: &mut TypeTable,
) -> Result<TStmt, Stop>
    requires known { IsKnownEnv types.old names.old }
    requires result { IsKnown types.old p.result }
    requires is { (out-Stmt s.now).node ≡ node.Do all.now cond.now }
    ensures ok { IfOk result (StmtIsTyped types.new p (state names.old vars.old) s.now (state names.new vars.new)) }
    ensures out { IfErr result (StmtStops types.new p (state names.old vars.old) s.now) }
    ensures grows { Grows types.old types.new }
{
    let mark = enter(names, types);
    let body = arms(alloc, p.in_loop(), all, names, vars, types)?;
    let test = expr(alloc, cond, false, names, types)?;
    names.leave(mark);
    let cond = condition(test, s.place)?;
    Ok(TStmt {
        place: s.place,
        node: TStmtNode::Do { body, cond },
    })
}

// Its parts are one block: what its declaration or its first expression declares is in scope in the others.
#[cycle(statement)]
fn for_loop(
    alloc: Global,
    p: Setting,
    s: &Stmt,
    decl: &Vec<Stmt>,
    first: &Option<Expr>,
    cond: &Option<Expr>,
    next: &Option<Expr>,
    all: &Vec<Stmt>,
    names: &mut Names,
    vars: &mut List<Variable>,
    types: &mut TypeTable,
) -> Result<TStmt, Stop>
    requires known { IsKnownEnv types.old names.old }
    requires result { IsKnown types.old p.result }
    requires is { (out-Stmt s.now).node ≡ node.For decl.now first.now cond.now next.now all.now }
    ensures ok { IfOk result (StmtIsTyped types.new p (state names.old vars.old) s.now (state names.new vars.new)) }
    ensures out { IfErr result (StmtStops types.new p (state names.old vars.old) s.now) }
    ensures grows { Grows types.old types.new }
{
    let mark = enter(names, types);
    let decls = items(alloc, p.inside(), decl, names, vars, types)?;
    let first = may_be(alloc, first, names, types)?;
    let test = for_condition(alloc, s.place, cond, names, types)?;
    let next = may_be(alloc, next, names, types)?;
    let inner = looped(p, types);
    let body = arms(alloc, inner, all, names, vars, types)?;
    names.leave(mark);
    let cond = condition(test, s.place)?;
    Ok(TStmt {
        place: s.place,
        node: TStmtNode::For {
            decls,
            first,
            cond,
            next,
            body,
        },
    })
}

#[cycle(statement)]
fn switch(
    alloc: Global,
    p: Setting,
    s: &Stmt,
    value: &Expr,
    all: &Vec<Group>,
    names: &mut Names,
    vars: &mut List<Variable>,
    types: &mut TypeTable,
) -> Result<TStmt, Stop>
    requires known { IsKnownEnv types.old names.old }
    requires result { IsKnown types.old p.result }
    requires is { (out-Stmt s.now).node ≡ node.Switch value.now all.now }
    ensures ok { IfOk result (StmtIsTyped types.new p (state names.old vars.old) s.now (state names.new vars.new)) }
    ensures out { IfErr result (StmtStops types.new p (state names.old vars.old) s.now) }
    ensures grows { Grows types.old types.new }
{
    let mark = names.enter();
    let typed = expr(alloc, value, false, names, types)?;
    types.is_table();
    let tested = first_tested(alloc, &typed, types);
    let sections = sections(alloc, p.in_switch(), tested, all, names, vars, types)?;
    names.leave(mark);
    let value = switched(alloc, typed, s.place, types)?;
    Ok(TStmt {
        place: s.place,
        node: TStmtNode::Switch { value, sections },
    })
}

// Statements that are parts of another one, each a block.
#[cycle(statement)]
fn arms(
    alloc: Global,
    p: Setting,
    all: &[Stmt],
    names: &mut Names,
    vars: &mut List<Variable>,
    types: &mut TypeTable,
) -> Result<Vec<TStmt>, Stop>
    requires known { IsKnownEnv types.old names.old }
    requires result { IsKnown types.old p.result }
    ensures ok { IfOk result (λ ts. ArmsAreTyped types.new p (state names.old vars.old) all.now (state names.new vars.new) ts.items) }
    ensures out { IfErr result (ArmsStop types.new p (state names.old vars.old) all.now) }
    ensures grows { Grows types.old types.new }
{
    types.is_table();
    let mut typed = Vec::new(alloc);
    for one in all {
        typed.push(arm(alloc, p, one, names, vars, types)?)?;
    }
    Ok(typed)
}

// A statement that is a part of another one, in a block of its own.
#[cycle(statement)]
fn arm(
    alloc: Global,
    p: Setting,
    s: &Stmt,
    names: &mut Names,
    vars: &mut List<Variable>,
    types: &mut TypeTable,
) -> Result<TStmt, Stop>
    requires known { IsKnownEnv types.old names.old }
    requires result { IsKnown types.old p.result }
    ensures ok { IfOk result (ArmIs types.new p (state names.old vars.old) s.now (state names.new vars.new)) }
    ensures out { IfErr result (ArmStops types.new p (state names.old vars.old) s.now) }
    ensures grows { Grows types.old types.new }
{
    let mark = names.enter();
    let typed = part(alloc, p, s, names, vars, types)?;
    names.leave(mark);
    Ok(typed)
}

// A statement, or a declaration, which stands there in no text and would be a block.
#[cycle(statement)]
fn part(
    alloc: Global,
    p: Setting,
    s: &Stmt,
    names: &mut Names,
    vars: &mut List<Variable>,
    types: &mut TypeTable,
) -> Result<TStmt, Stop>
    requires known { IsKnownEnv types.old names.old }
    requires result { IsKnown types.old p.result }
    ensures ok { IfOk result (PartIs types.new p (state names.old vars.old) s.now (state names.new vars.new)) }
    ensures out { IfErr result (PartStops types.new p (state names.old vars.old) s.now) }
    ensures grows { Grows types.old types.new }
{
    types.is_table();
    match &s.node {
        StmtNode::Decl { .. } => {
            let mut typed = Vec::new(alloc);
            item(alloc, p, s, &mut typed, names, vars, types)?;
            Ok(TStmt {
                place: s.place,
                node: TStmtNode::Block(typed),
            })
        }
        _ => statement(alloc, p, s, names, vars, types),
    }
}

// The sections of a `switch`, which are one block.
#[cycle(statement)]
fn sections(
    alloc: Global,
    p: Setting,
    tested: Tested,
    all: &[Group],
    names: &mut Names,
    vars: &mut List<Variable>,
    types: &mut TypeTable,
) -> Result<Vec<Section>, Stop>
    requires known { IsKnownEnv types.old names.old }
    requires result { IsKnown types.old p.result }
    requires kind { is_gentype tested.of ≡ true }
    ensures ok { IfOk result (λ ss. SectionsAreTyped types.new p tested (state names.old vars.old) all.now (state names.new vars.new) ss.items) }
    ensures out { IfErr result (SectionsStop types.new p tested (state names.old vars.old) all.now) }
    ensures grows { Grows types.old types.new }
{
    types.is_table();
    let mut typed = Vec::new(alloc);
    let mut known = tested;
    let mut behind = all.len();
    for one in all {
        behind -= 1;
        let last = behind == 0;
        typed.push(section(alloc, p, last, one, &mut known, names, vars, types)?)?;
    }
    Ok(typed)
}

// A section of a `switch`, which is the last one or not.
#[cycle(statement)]
fn section(
    alloc: Global,
    p: Setting,
    last: bool,
    group: &Group,
    tested: &mut Tested,
    names: &mut Names,
    vars: &mut List<Variable>,
    types: &mut TypeTable,
) -> Result<Section, Stop>
    requires known { IsKnownEnv types.old names.old }
    requires result { IsKnown types.old p.result }
    requires kind { is_gentype tested.old.of ≡ true }
    ensures ok { IfOk result (SectionIs types.new p last tested.old (state names.old vars.old) group.now tested.new (state names.new vars.new)) }
    ensures out { IfErr result (SectionStops types.new p last tested.old (state names.old vars.old) group.now) }
    ensures grows { Grows types.old types.new }
{
    types.is_table();
    let ends = list_ends(&group.body);
    let falls = falls(last, ends, tested.before);
    let labels = labels(alloc, falls, &group.labels, tested, names, types)?;
    let body = items(alloc, p, &group.body, names, vars, types)?;
    tested.before = ends;
    Ok(Section { labels, body })
}

/// The statements of a function's body. Each body is a block; another statement would be the only one in it.
pub(crate) fn body_items(
    alloc: Global,
    p: Setting,
    body: &Stmt,
    names: &mut Names,
    vars: &mut List<Variable>,
    types: &mut TypeTable,
) -> Result<Vec<TStmt>, Stop>
    requires known { IsKnownEnv types.old names.old }
    requires result { IsKnown types.old p.result }
    ensures ok { IfOk result (λ ts. BodyIs types.new p (state names.old vars.old) body.now (state names.new vars.new) ts.items) }
    ensures out { IfErr result (BodyStops types.new p (state names.old vars.old) body.now) }
    ensures grows { Grows types.old types.new }
{
    match &body.node {
        StmtNode::Block(all) => items(alloc, p, all, names, vars, types),
        _ => {
            let mut typed = Vec::new(alloc);
            item(alloc, p, body, &mut typed, names, vars, types)?;
            Ok(typed)
        }
    }
}
