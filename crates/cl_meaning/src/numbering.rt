//! From typed functions to functions with numbered nodes.

ghost use Rattle.std.specs.Prelude.{◌≡◌, [], IfOk, map, slice_get, suc, take};
ghost use Rattle.cl_meaning.specs.Code.{arms, behind_operands, code_of, declared, is_in_local, labelled, locals_among, loop_body, numbered, numbered_option, placed_all, placed_sections, variable};
ghost use Rattle.cl_meaning.specs.Placing.{label_at};
ghost use Rattle.cl_meaning.specs.Views.{IsPair, IsSectionAt, code_by, expr_by, option_by, placed, section_at, section_by, sections_by, stmt_by, stmts_by};
ghost use Rattle.cl_tree.specs.Statements.{is_local};
ghost use Rattle.cl_tree.specs.Units.{types_of};

use crate::code::{Code, Expr, Label, Node, Section, Stmt};
use cl_constants::number;
use cl_tree::{Function, TExpr, TNode, TStmt, TStmtNode, Variable};
use cl_types::{Space, TypeId, TypeTable};
use clv_place::{List, NoMemory};
use std::alloc::Global;

// The number behind a node's. No function that memory holds has more nodes.
fn behind(n: u32) -> Result<u32, NoMemory>
    ensures { IfOk result (λ m. m ≡ suc n) }
{
    match n.checked_add(1) {
        Some(next) => Ok(next),
        None => Err(NoMemory),
    }
}

fn is_local(variable: &Variable) -> bool
    ensures { result ≡ is_local variable.now.space }
{
    match variable.space {
        Space::Local => true,
        _ => false,
    }
}

fn is_in_local(vars: &[Variable], k: u32) -> bool
    ensures { result ≡ is_in_local (slice_get vars.now k) }
{
    match vars.get(k as usize) {
        Some(variable) => is_local(variable),
        None => false,
    }
}

// How many of the first `count` variables lie in local memory.
#[tactic(auto, using(crate::proofs::Numberings::locals))]
fn locals_among(vars: &[Variable], count: u32) -> u32
    ensures { result ≡ locals_among (take count vars.now) }
{
    let mut locals = 0;
    for k in 0..count {
        if is_in_local(vars, k) {
            locals += 1;
        }
    }
    locals
}

// A variable of the function: in private memory by its number, in local memory by its number among those there.
fn variable(vars: &[Variable], k: u32) -> Node
    ensures { result ≡ variable vars.now k }
{
    if is_in_local(vars, k) {
        Node::Local(locals_among(vars, k))
    } else {
        Node::Var(k)
    }
}

fn leaf(alloc: Global, node: Node, ty: TypeId, n: u32) -> Result<(Expr, u32), NoMemory>
    ensures { IfOk result (λ p. IsPair (expr_by p.0) p.1 (behind_operands node [] ty n)) }
{
    let expr = Expr {
        node,
        ty,
        number: n,
        operands: Vec::new(alloc),
    };
    Ok((expr, behind(n)?))
}

#[cycle(numbering)]
fn behind_operands(
    alloc: Global,
    vars: &[Variable],
    node: Node,
    args: &[TExpr],
    ty: TypeId,
    n: u32,
) -> Result<(Expr, u32), NoMemory>
    ensures { IfOk result (λ p. IsPair (expr_by p.0) p.1 (behind_operands node (map (numbered vars.now) args.now) ty n)) }
{
    let mut operands = Vec::new(alloc);
    let mut number = n;
    for arg in args {
        let (operand, next) = numbered(alloc, vars, arg, number)?;
        operands.push(operand)?;
        number = next;
    }
    let expr = Expr {
        node,
        ty,
        number,
        operands,
    };
    Ok((expr, behind(number)?))
}

/// An expression, by the number of its first node, and the number behind it.
#[cycle(numbering)]
pub fn numbered(
    alloc: Global,
    vars: &[Variable],
    e: &TExpr,
    n: u32,
) -> Result<(Expr, u32), NoMemory>
    ensures { IfOk result (λ p. IsPair (expr_by p.0) p.1 (numbered vars.now e.now n)) }
{
    match &e.node {
        TNode::Param(k) => leaf(alloc, Node::Param(*k), e.ty, n),
        TNode::Var(k) => leaf(alloc, variable(vars, *k), e.ty, n),
        TNode::Constant(k) => leaf(alloc, Node::Constant(*k), e.ty, n),
        TNode::Number(bits) => leaf(alloc, Node::Number(bits.value), e.ty, n),
        TNode::Convert(args) => behind_operands(alloc, vars, Node::Convert, args, e.ty, n),
        TNode::Unary { op, args } => behind_operands(alloc, vars, Node::Unary(*op), args, e.ty, n),
        TNode::Binary { op, args } => {
            behind_operands(alloc, vars, Node::Binary(*op), args, e.ty, n)
        }
        TNode::Assign { op, args } => {
            behind_operands(alloc, vars, Node::Assign(*op), args, e.ty, n)
        }
        TNode::Cond(args) => behind_operands(alloc, vars, Node::Cond, args, e.ty, n),
        TNode::Vector(args) => behind_operands(alloc, vars, Node::Vector, args, e.ty, n),
        TNode::Call { function, args } => {
            behind_operands(alloc, vars, Node::Call(*function), args, e.ty, n)
        }
        TNode::Builtin { builtin, args } => {
            behind_operands(alloc, vars, Node::Builtin(*builtin), args, e.ty, n)
        }
        TNode::Index(args) => behind_operands(alloc, vars, Node::Index, args, e.ty, n),
        TNode::Member { member, args } => {
            behind_operands(alloc, vars, Node::Member(*member), args, e.ty, n)
        }
        TNode::Components { at, args } => {
            let at = List::from_vec(at.as_slice().to_vec(alloc)?);
            behind_operands(alloc, vars, Node::Components(at), args, e.ty, n)
        }
        TNode::Fill(args) => behind_operands(alloc, vars, Node::Fill, args, e.ty, n),
        TNode::Comma(args) => behind_operands(alloc, vars, Node::Comma, args, e.ty, n),
    }
}

// The arms of an `if`: the first statement, and those behind it.
fn arms(alloc: Global, stmts: Vec<Stmt>) -> Result<(Vec<Stmt>, Vec<Stmt>), NoMemory>
    ensures on_true { IfOk result (λ p. stmts_by p.0.items ≡ (arms (stmts_by stmts.items)).0) }
    ensures on_false { IfOk result (λ p. stmts_by p.1.items ≡ (arms (stmts_by stmts.items)).1) }
{
    let mut on_true = stmts;
    if on_true.is_empty() {
        return Ok((on_true, Vec::new(alloc)));
    }
    let on_false = on_true.split_off(1)?;
    Ok((on_true, on_false))
}

// The body of a loop, which is a statement. A tree without one, which comes of no text, has the empty one.
#[tactic(auto, using(crate::proofs::Numberings::bodies))]
fn loop_body(stmts: Vec<Stmt>) -> Result<Vec<Stmt>, NoMemory>
    ensures { IfOk result (λ ss. stmts_by ss.items ≡ loop_body (stmts_by stmts.items)) }
{
    if !stmts.is_empty() {
        return Ok(stmts);
    }
    let mut body = stmts;
    body.push(Stmt::Empty)?;
    Ok(body)
}

/// What the statements of a function are numbered by: its variables, and the types of its unit.
#[derive(Clone, Copy)]
pub struct Numbering<'a> {
    pub alloc: Global,
    pub types: &'a TypeTable,
    pub vars: &'a [Variable],
}

impl Numbering<'_> {
    fn expr(self, e: &TExpr, n: u32) -> Result<(Expr, u32), NoMemory>
        ensures { IfOk result (λ p. IsPair (expr_by p.0) p.1 (numbered self.entry.vars.now e.now n)) }
    {
        numbered(self.alloc, self.vars, e, n)
    }

    fn option(self, e: &Option<TExpr>, n: u32) -> Result<(Option<Expr>, u32), NoMemory>
        ensures { IfOk result (λ p. IsPair (option_by p.0) p.1 (numbered_option self.entry.types.now self.entry.vars.now e.now n)) }
    {
        match e {
            None => Ok((None, n)),
            Some(e) => {
                let (expr, next) = self.expr(e, n)?;
                Ok((Some(expr), next))
            }
        }
    }

    fn label(self, label: &Option<TExpr>, n: u32) -> Result<(Label, u32), NoMemory>
        ensures { IfOk result (λ p. IsPair (p.0) p.1 (label_at self.entry.types.now self.entry.vars.now label.now n)) }
    {
        match label {
            None => Ok((Label::Default, n)),
            Some(e) => {
                let (_tree, next) = self.expr(e, n)?;
                Ok((Label::Case(number(self.alloc, self.types, e)?), next))
            }
        }
    }

    fn labelled(self, labels: &[Option<TExpr>], n: u32) -> Result<(List<Label>, u32), NoMemory>
        ensures { IfOk result (λ p. IsPair (p.0) p.1 (labelled self.entry.types.now self.entry.vars.now labels.now n)) }
    {
        let mut made = List::new(self.alloc);
        let mut next = n;
        for label in labels {
            let (label, behind) = self.label(label, next)?;
            made.push(label)?;
            next = behind;
        }
        Ok((made, next))
    }

    #[cycle(placing)]
    fn all(self, stmts: &[TStmt], n: u32) -> Result<(Vec<Stmt>, u32), NoMemory>
        ensures { IfOk result (λ p. IsPair (stmts_by p.0.items) p.1 (placed_all (map (placed self.entry.types.now self.entry.vars.now) stmts.now) n)) }
    {
        let mut made = Vec::new(self.alloc);
        let mut next = n;
        for stmt in stmts {
            let (stmt, behind) = self.stmt(stmt, next)?;
            made.push(stmt)?;
            next = behind;
        }
        Ok((made, next))
    }

    #[cycle(placing)]
    fn section(self, section: &cl_tree::Section, n: u32) -> Result<(Section, u32), NoMemory>
        ensures { IfOk result (λ p. IsSectionAt (section_by p.0) p.1 (section_at self.entry.types.now self.entry.vars.now section.now n)) }
    {
        let (labels, n) = self.labelled(&section.labels, n)?;
        let (body, n) = self.all(&section.body, n)?;
        Ok((Section { labels, body }, n))
    }

    #[cycle(placing)]
    fn sections(
        self,
        sections: &[cl_tree::Section],
        n: u32,
    ) -> Result<(Vec<Section>, u32), NoMemory>
        ensures { IfOk result (λ p. IsPair (sections_by p.0.items) p.1 (placed_sections (map (section_at self.entry.types.now self.entry.vars.now) sections.now) n)) }
    {
        let mut made = Vec::new(self.alloc);
        let mut next = n;
        for section in sections {
            let (section, behind) = self.section(section, next)?;
            made.push(section)?;
            next = behind;
        }
        Ok((made, next))
    }

    fn declared(self, k: u32, init: Option<Expr>) -> Stmt
        ensures { stmt_by result ≡ declared self.entry.types.now self.entry.vars.now k (option_by init) }
    {
        match init {
            Some(e) => Stmt::Initialise(k, e),
            None => {
                if is_in_local(self.vars, k) {
                    Stmt::Empty
                } else {
                    Stmt::Declare(k)
                }
            }
        }
    }

    /// A statement, by the number of its first node, and the number behind it.
    #[cycle(placing)]
    pub fn stmt(self, stmt: &TStmt, n: u32) -> Result<(Stmt, u32), NoMemory>
        ensures { IfOk result (λ p. IsPair (stmt_by p.0) p.1 (placed self.entry.types.now self.entry.vars.now stmt.now n)) }
    {
        match &stmt.node {
            TStmtNode::Block(items) => {
                let (items, n) = self.all(items, n)?;
                Ok((Stmt::Block(items), n))
            }
            TStmtNode::Decl { var, init } => {
                let (init, n) = self.option(init, n)?;
                Ok((self.declared(*var, init), n))
            }
            TStmtNode::Expr(e) => {
                let (e, n) = self.expr(e, n)?;
                Ok((Stmt::Evaluate(e), n))
            }
            TStmtNode::If { cond, arms: stmts } => {
                let (test, n) = self.expr(cond, n)?;
                let (stmts, n) = self.all(stmts, n)?;
                let (on_true, on_false) = arms(self.alloc, stmts)?;
                let made = Stmt::If {
                    test,
                    on_true,
                    on_false,
                };
                Ok((made, n))
            }
            TStmtNode::While { cond, body } => {
                let (test, n) = self.expr(cond, n)?;
                let (body, n) = self.all(body, n)?;
                let body = loop_body(body)?;
                Ok((Stmt::While { test, body }, n))
            }
            TStmtNode::Do { body, cond } => {
                let (body, n) = self.all(body, n)?;
                let (test, n) = self.expr(cond, n)?;
                let body = loop_body(body)?;
                Ok((Stmt::Do { body, test }, n))
            }
            TStmtNode::For {
                decls,
                first,
                cond,
                next,
                body,
            } => {
                let (declarations, n) = self.all(decls, n)?;
                let (first, n) = self.option(first, n)?;
                let (test, n) = self.expr(cond, n)?;
                let (next, n) = self.option(next, n)?;
                let (body, n) = self.all(body, n)?;
                let body = loop_body(body)?;
                let made = Stmt::For {
                    declarations,
                    first,
                    test,
                    next,
                    body,
                };
                Ok((made, n))
            }
            TStmtNode::Switch { value, sections } => {
                let (on, n) = self.expr(value, n)?;
                let (sections, n) = self.sections(sections, n)?;
                Ok((Stmt::Switch { on, sections }, n))
            }
            TStmtNode::Break => Ok((Stmt::Break, n)),
            TStmtNode::Continue => Ok((Stmt::Continue, n)),
            TStmtNode::Return(e) => {
                let (e, n) = self.option(e, n)?;
                Ok((Stmt::Return(e), n))
            }
            TStmtNode::Empty => Ok((Stmt::Empty, n)),
        }
    }
}

#[tactic(auto, using(crate::proofs::Numberings::types))]
fn types_of(alloc: Global, variables: &[Variable]) -> Result<List<TypeId>, NoMemory>
    ensures { IfOk result (λ ts. ts ≡ types_of variables.now) }
{
    let mut types = Vec::new(alloc);
    for variable in variables {
        types.push(variable.ty)?;
    }
    Ok(List::from_vec(types))
}

fn code_of(alloc: Global, types: &TypeTable, function: &Function) -> Result<Code, NoMemory>
    ensures { IfOk result (λ c. code_by c ≡ code_of types.now function.now) }
{
    let numbering = Numbering {
        alloc,
        types,
        vars: function.vars.as_slice(),
    };
    let (body, _count) = numbering.stmt(&function.body, 0)?;
    Ok(Code {
        params: types_of(alloc, function.params.as_slice())?,
        result: function.result,
        body,
    })
}

/// The functions of a unit with their nodes numbered.
pub fn codes_of(
    alloc: Global,
    types: &TypeTable,
    functions: &[Function],
) -> Result<Vec<Code>, NoMemory>
    ensures { IfOk result (λ codes. map code_by codes.items ≡ map (code_of types.now) functions.now) }
{
    let mut codes = Vec::new(alloc);
    for function in functions {
        codes.push(code_of(alloc, types, function)?)?;
    }
    Ok(codes)
}
