//! Expressions, and the types in them.

ghost use Rattle.std.specs.Prelude.{◌≡◌, ◌<◌, ◌+◌, ◌∷◌, ◌++◌, [], length, IfOk, IfErr};
ghost use Rattle.cl_grammar.specs.Symbols as sym;
ghost use Rattle.cl_grammar.specs.Symbols.{E};
ghost use Rattle.cl_grammar.specs.ExpressionTrees.{ExprTree, AssignTree, AssignTrees, CondTree, CastTree, UnaryTree, PostfixTree, PrimaryTree};
ghost use Rattle.cl_grammar.specs.Items.{between, EndsIn, ReadAt, RefusedAt};
ghost use Rattle.cl_parse_expr.specs.Reading.{AssignsAt, TakenAt, BehindAt, CondFrom, BinFrom, SpecAt, BaseAt, TypeOut, NamesAt, DeclorAt};

use crate::parts::{Members, Names, Row};
use crate::reader::Reader;
use crate::simple::{BaseRead, listed};
use cl_ast::expression::{Declor, Expr, Spec};
use cl_grammar::{ExprStop, Terminal};
use cl_types::UnOp;
use clv_place::{List, NoMemory};
use std::alloc::Global;

/// An expression, and the index of the token behind it.
#[derive(Drop)]
pub struct Taken {
    pub tree: Expr,
    pub next: usize,
}

/// The words of a type, whether they name a vector, and the index of the token behind them.
#[derive(Drop)]
pub struct SpecRead {
    pub spec: Spec,
    pub vector: bool,
    pub next: usize,
}

/// Operands between commas, the index behind the first one, and the index behind all.
#[derive(Drop)]
pub struct Operands {
    pub first: Expr,
    pub comma: usize,
    pub others: Vec<Expr>,
    pub next: usize,
}

impl Operands {
    // A first operand alone.
    fn of(alloc: Global, first: Taken) -> Operands
        ensures first { result.first ≡ first.tree }
        ensures comma { result.comma ≡ first.next }
        ensures others { result.others.items ≡ [] }
        ensures next { result.next ≡ first.next }
    {
        Operands {
            first: first.tree,
            comma: first.next,
            others: Vec::new(alloc),
            next: first.next,
        }
    }

    // These and another behind them.
    fn with(self, other: Taken) -> Result<Operands, NoMemory>
        ensures first { IfOk result (λ more. more.first ≡ self.first) }
        ensures comma { IfOk result (λ more. more.comma ≡ self.comma) }
        ensures others { IfOk result (λ more. more.others.items ≡ self.others.items ++ other.tree ∷ []) }
        ensures next { IfOk result (λ more. more.next ≡ other.next) }
    {
        let mut others = self.others;
        others.push(other.tree)?;
        Ok(Operands {
            first: self.first,
            comma: self.comma,
            others,
            next: other.next,
        })
    }
}

impl<'a> Reader<'a> {
    /// An expression with commas at an index.
    pub fn expr(&self, alloc: Global, at: usize) -> Result<Taken, ExprStop>
        requires ends { EndsIn self.now }
        requires within { at < length self.now }
        ensures read { IfOk result (λ t. ReadAt (E sym.Assigns) self.now at t.next) }
        ensures forth { IfOk result (λ t. at < t.next) }
        ensures tree { IfOk result (λ t. ExprTree (between self.now at t.next) t.tree) }
        ensures out { IfErr result (RefusedAt (E sym.Assigns) self.now at) }
    {
        let operands = self.operands(alloc, at)?;
        Ok(self.whole(alloc, operands)?)
    }

    /// Expressions between commas at an index, in a list, and the index behind them.
    pub fn args(&self, alloc: Global, at: usize) -> Result<(Vec<Expr>, usize), ExprStop>
        requires ends { EndsIn self.now }
        requires within { at < length self.now }
        ensures read { IfOk result (λ t. ReadAt (E sym.Assigns) self.now at t.1) }
        ensures forth { IfOk result (λ t. at < t.1) }
        ensures tree { IfOk result (λ t. AssignTrees (between self.now at t.1) t.0.items) }
        ensures out { IfErr result (RefusedAt (E sym.Assigns) self.now at) }
    {
        let operands = self.operands(alloc, at)?;
        let next = operands.next;
        Ok((listed(alloc, operands)?, next))
    }

    // Expressions between commas.
    #[cycle(expression)]
    fn operands(&self, alloc: Global, at: usize) -> Result<Operands, ExprStop>
        requires ends { EndsIn self.now }
        requires within { at < length self.now }
        ensures ok { IfOk result (AssignsAt self.now at) }
        ensures out { IfErr result (RefusedAt (E sym.Assigns) self.now at) }
    {
        let first = self.assign(alloc, at)?;
        let mut operands = Operands::of(alloc, first);
        while self.is_at(operands.next, Terminal::Comma) {
            let other = self.assign(alloc, operands.next + 1)?;
            operands = operands.with(other)?;
        }
        Ok(operands)
    }

    /// An expression without commas.
    #[cycle(expression)]
    pub fn assign(&self, alloc: Global, at: usize) -> Result<Taken, ExprStop>
        requires ends { EndsIn self.now }
        requires within { at < length self.now }
        ensures ok { IfOk result (TakenAt sym.Assign AssignTree self.now at) }
        ensures out { IfErr result (RefusedAt (E sym.Assign) self.now at) }
    {
        if self.begins_type_in_brackets(at) {
            return self.cond(alloc, at);
        }
        let left = self.unary(alloc, at)?;
        let Some(op) = self.peek(left.next).assignment() else {
            return self.behind_cast(alloc, left);
        };
        let right = self.assign(alloc, left.next + 1)?;
        Ok(self.assigned(alloc, op, left, right)?)
    }

    /// An expression that is no assignment.
    #[cycle(expression)]
    pub fn cond(&self, alloc: Global, at: usize) -> Result<Taken, ExprStop>
        requires ends { EndsIn self.now }
        requires within { at < length self.now }
        ensures ok { IfOk result (TakenAt sym.Cond CondTree self.now at) }
        ensures out { IfErr result (RefusedAt (E sym.Cond) self.now at) }
    {
        let first = self.cast(alloc, at)?;
        self.behind_cast(alloc, first)
    }

    // What stands behind a first operand: operators and operands, and `?:`.
    #[cycle(expression)]
    fn behind_cast(&self, alloc: Global, first: Taken) -> Result<Taken, ExprStop>
        requires ends { EndsIn self.now }
        requires within { first.next < length self.now }
        ensures ok { IfOk result (BehindAt sym.BehindCast CondFrom self.now first) }
        ensures out { IfErr result (RefusedAt (E sym.BehindCast) self.now first.next) }
    {
        let test = self.row(alloc, first)?;
        if !self.is_at(test.next, Terminal::Question) {
            return Ok(test);
        }
        let yes = self.assign(alloc, test.next + 1)?;
        let colon = self.expect(yes.next, Terminal::Colon)?;
        let no = self.cond(alloc, colon)?;
        Ok(self.chosen(alloc, test, yes, no)?)
    }

    // The operators and operands behind a first one, with it.
    #[cycle(expression)]
    fn row(&self, alloc: Global, first: Taken) -> Result<Taken, ExprStop>
        requires ends { EndsIn self.now }
        requires within { first.next < length self.now }
        ensures ok { IfOk result (BehindAt sym.Row BinFrom self.now first) }
        ensures out { IfErr result (RefusedAt (E sym.Row) self.now first.next) }
    {
        let mut row = Row::of(alloc, first);
        while let Some(op) = self.peek(row.next).binary() {
            let operand = self.cast(alloc, row.next + 1)?;
            row = self.joined(row, op, operand)?;
        }
        Ok(row.whole(alloc)?)
    }

    // An operand of operators.
    #[cycle(expression)]
    fn cast(&self, alloc: Global, at: usize) -> Result<Taken, ExprStop>
        requires ends { EndsIn self.now }
        requires within { at < length self.now }
        ensures ok { IfOk result (TakenAt sym.Cast CastTree self.now at) }
        ensures out { IfErr result (RefusedAt (E sym.Cast) self.now at) }
    {
        if !self.begins_type_in_brackets(at) {
            return self.unary(alloc, at);
        }
        let words = self.spec(alloc, at + 1)?;
        let name = self.closed_type(alloc, words)?;
        if self.begins_literal(&name) {
            let operands = self.operands(alloc, name.next + 1)?;
            return self.literal(alloc, name, operands, at);
        }
        let operand = self.cast(alloc, name.next)?;
        Ok(self.casted(alloc, name, operand, at)?)
    }

    #[cycle(expression)]
    fn unary(&self, alloc: Global, at: usize) -> Result<Taken, ExprStop>
        requires ends { EndsIn self.now }
        requires within { at < length self.now }
        ensures ok { IfOk result (TakenAt sym.Unary UnaryTree self.now at) }
        ensures out { IfErr result (RefusedAt (E sym.Unary) self.now at) }
    {
        let terminal = self.peek(at);
        if let Some(op) = terminal.increment_before() {
            let operand = self.unary(alloc, at + 1)?;
            return self.prefixed(alloc, op, operand, at);
        }
        if let Some(op) = terminal.prefix() {
            let operand = self.cast(alloc, at + 1)?;
            return self.prefixed(alloc, op, operand, at);
        }
        if !self.is_at(at, Terminal::Sizeof) {
            return self.postfix(alloc, at);
        }
        if self.begins_type_in_brackets(at + 1) {
            let words = self.spec(alloc, at + 2)?;
            return self.sized(alloc, words, at);
        }
        let operand = self.unary(alloc, at + 1)?;
        self.prefixed(alloc, UnOp::Sizeof, operand, at)
    }

    #[cycle(expression)]
    fn postfix(&self, alloc: Global, at: usize) -> Result<Taken, ExprStop>
        requires ends { EndsIn self.now }
        requires within { at < length self.now }
        ensures ok { IfOk result (TakenAt sym.Postfix PostfixTree self.now at) }
        ensures out { IfErr result (RefusedAt (E sym.Postfix) self.now at) }
    {
        let mut operand = self.primary(alloc, at)?;
        while self.begins_suffix(operand.next) {
            if self.is_at(operand.next, Terminal::OpenBracket) {
                let operands = self.operands(alloc, operand.next + 1)?;
                operand = self.element(alloc, operand, operands)?;
            } else {
                operand = self.suffixed(alloc, operand.tree, operand.next)?;
            }
        }
        Ok(operand)
    }

    #[cycle(expression)]
    fn primary(&self, alloc: Global, at: usize) -> Result<Taken, ExprStop>
        requires ends { EndsIn self.now }
        requires within { at < length self.now }
        ensures ok { IfOk result (TakenAt sym.Primary PrimaryTree self.now at) }
        ensures out { IfErr result (RefusedAt (E sym.Primary) self.now at) }
    {
        if self.is_at(at, Terminal::OpenParen) {
            let operands = self.operands(alloc, at + 1)?;
            return self.closed(alloc, operands, Terminal::CloseParen);
        }
        if !self.begins_arguments(at) {
            return self.leaf(alloc, at);
        }
        let operands = self.operands(alloc, at + 2)?;
        self.called(alloc, operands, at)
    }

    /// The words of a type.
    #[cycle(expression)]
    pub fn spec(&self, alloc: Global, at: usize) -> Result<SpecRead, ExprStop>
        requires ends { EndsIn self.now }
        requires within { at < length self.now }
        ensures ok { IfOk result (SpecAt self.now at) }
        ensures out { IfErr result (TypeOut sym.Spec self.now at) }
    {
        let mut quals = List::new(alloc);
        let here = self.qualifiers(&mut quals, at)?;
        let read = self.any_base(alloc, here)?;
        Ok(self.qualified(quals, read)?)
    }

    // What a type is without its qualifiers, with the members of a struct that is declared here.
    #[cycle(expression)]
    fn any_base(&self, alloc: Global, at: usize) -> Result<BaseRead, ExprStop>
        requires ends { EndsIn self.now }
        requires within { at < length self.now }
        ensures ok { IfOk result (BaseAt self.now at) }
        ensures out { IfErr result (TypeOut sym.Base self.now at) }
    {
        if !self.begins_struct(at) {
            return self.base(alloc, at);
        }
        let tag = self.tag(alloc, at)?;
        let mut members = Members::of(alloc, tag.brace + 1);
        loop {
            let words = self.spec(alloc, members.next)?;
            let names = self.names(alloc, members.room, words.next)?;
            members = members.with(words, names)?;
            if !self.goes_on(members.next, members.room) {
                break;
            }
        }
        self.declared(tag, members)
    }

    // Declared names between commas, of which there may be so many, and the index behind their `;`.
    #[cycle(expression)]
    fn names(&self, alloc: Global, room: usize, at: usize) -> Result<Names, ExprStop>
        requires ends { EndsIn self.now }
        requires within { at < length self.now }
        requires some { 0 < room }
        ensures ok { IfOk result (NamesAt self.now room at) }
        ensures out { IfErr result (RefusedAt (E (sym.Names room)) self.now at) }
    {
        let first = self.declor(alloc, at)?;
        let mut names = Names::of(alloc, first)?;
        while names.list.len() < room && self.is_at(names.next, Terminal::Comma) {
            let name = self.declor(alloc, names.next + 1)?;
            names = names.with(name)?;
        }
        let next = self.expect(names.next, Terminal::Semicolon)?;
        let list = names.list;
        Ok(Names { list, next })
    }

    /// A declared name with its `*` and its lengths, and the index of the token behind it.
    #[cycle(expression)]
    pub fn declor(&self, alloc: Global, at: usize) -> Result<(Declor, usize), ExprStop>
        requires ends { EndsIn self.now }
        requires within { at < length self.now }
        ensures ok { IfOk result (DeclorAt self.now at) }
        ensures out { IfErr result (RefusedAt (E sym.Declor) self.now at) }
    {
        let head = self.head(alloc, at)?;
        let mut lengths = Vec::new(alloc);
        let mut here = head.next;
        while self.is_at(here, Terminal::OpenBracket) {
            if self.is_at(here + 1, Terminal::CloseBracket) {
                lengths.push(None)?;
                here += 2;
            } else {
                let length = self.cond(alloc, here + 1)?;
                here = self.length(&mut lengths, length)?;
            }
        }
        Ok((
            Declor {
                star: head.star,
                name: head.name,
                place: head.place,
                lengths,
            },
            here,
        ))
    }
}
