//! Trees of what was read, where no other expression is read.

ghost use Rattle.std.specs.Prelude.{◌≡◌, ◌<◌, ◌≤◌, ◌+◌, ◌-◌, ◌++◌, [], ◌∷◌, true, false, length, Some, IfOk, IfErr, OnOk, MatchBool};
ghost use Rattle.cl_grammar.specs.Symbols as sym;
ghost use Rattle.cl_grammar.specs.Symbols.{E, Mark, makes};
ghost use Rattle.cl_grammar.specs.declared.terminal.Terminal.TheVariants.{CloseBracket, CloseBrace, Sizeof};
ghost use Rattle.cl_grammar.specs.ExpressionTrees.{IsStruct, CastTree, UnaryTree, PrimaryTree, level_at};
ghost use Rattle.cl_grammar.specs.Items.{EndsIn, IsAt, RefusedAt};
ghost use Rattle.cl_precedence.specs.Grouping.{Groups};
ghost use Rattle.cl_parse_expr.specs.Reading.{GroupJoins, group_of, AssignsAt, TakenAt, WholeOf, AssignedAt, ChosenAt, JoinedAt, BeginsTyped, SpecAt, QualifiedFrom, FieldBehind, ClosedFrom, Unclosed, TypedAt, LiteralAt, NoLiteralAt, ElementAt, CallAt};

use crate::expression::{Operands, SpecRead, Taken};
use crate::grouping::{Group, one, three, two};
use crate::reader::Reader;
use crate::simple::{BaseRead, MAX_MEMBERS, Tag, TermRead, listed};
use cl_ast::expression::{Base, Declor, Expr, ExprNode, Field, Qual, Spec};
use cl_grammar::{ExprStop, Operator, Terminal};
use cl_precedence::grouped;
use cl_types::BinOp;
use clv_place::{List, NoMemory};
use std::alloc::Global;

/// A first operand, the operators behind it with their right operands, and the index behind them.
#[derive(Drop)]
pub(crate) struct Row {
    pub(crate) first: Group,
    pub(crate) rest: Vec<(Operator, Group)>,
    pub(crate) next: usize,
}

impl Row {
    // A first operand alone.
    pub(crate) fn of(alloc: Global, first: Taken) -> Row
        ensures first { result.first.tree ≡ first.tree }
        ensures rest { result.rest.items ≡ [] }
        ensures next { result.next ≡ first.next }
    {
        Row {
            first: Group { tree: first.tree },
            rest: Vec::new(alloc),
            next: first.next,
        }
    }

    // The tree of the row.
    pub(crate) fn whole(self, alloc: Global) -> Result<Taken, NoMemory>
        ensures tree { IfOk result (λ t. Groups level_at GroupJoins self.first self.rest.items (group_of t.tree)) }
        ensures next { IfOk result (λ t. t.next ≡ self.next) }
    {
        let next = self.next;
        let whole = grouped(alloc, self.first, self.rest)?;
        Ok(Taken {
            tree: whole.tree,
            next,
        })
    }
}

/// Declared names, and the index behind them.
#[derive(Drop)]
pub(crate) struct Names {
    pub(crate) list: Vec<Declor>,
    pub(crate) next: usize,
}

impl Names {
    // One name.
    pub(crate) fn of(alloc: Global, first: (Declor, usize)) -> Result<Names, NoMemory>
        ensures list { IfOk result (λ names. names.list.items ≡ first.0 ∷ []) }
        ensures next { IfOk result (λ names. names.next ≡ first.1) }
    {
        let mut list = Vec::new(alloc);
        list.push(first.0)?;
        Ok(Names {
            list,
            next: first.1,
        })
    }

    // These and another behind them.
    pub(crate) fn with(self, name: (Declor, usize)) -> Result<Names, NoMemory>
        ensures list { IfOk result (λ names. names.list.items ≡ self.list.items ++ name.0 ∷ []) }
        ensures next { IfOk result (λ names. names.next ≡ name.1) }
    {
        let mut list = self.list;
        list.push(name.0)?;
        Ok(Names { list, next: name.1 })
    }
}

/// Members of a struct, how many more may follow, and the index behind them.
#[derive(Drop)]
pub(crate) struct Members {
    pub(crate) fields: Vec<Field>,
    pub(crate) room: usize,
    pub(crate) next: usize,
}

impl Members {
    // No member.
    pub(crate) fn of(alloc: Global, next: usize) -> Members
        ensures fields { result.fields.items ≡ [] }
        ensures room { result.room ≡ 65500 }
        ensures next { result.next ≡ next }
    {
        Members {
            fields: Vec::new(alloc),
            room: MAX_MEMBERS,
            next,
        }
    }

    // These and others of one type behind them.
    pub(crate) fn with(self, words: SpecRead, names: Names) -> Result<Members, NoMemory>
        requires few { length names.list.items ≤ self.room }
        ensures fields { IfOk result (λ more. FieldBehind self.fields.items words.spec names.list.items more.fields.items) }
        ensures room { IfOk result (λ more. more.room ≡ self.room - length names.list.items) }
        ensures next { IfOk result (λ more. more.next ≡ names.next) }
    {
        let room = self.room - names.list.len();
        let mut fields = self.fields;
        fields.push(Field {
            spec: words.spec,
            names: names.list,
        })?;
        Ok(Members {
            fields,
            room,
            next: names.next,
        })
    }
}

impl<'a> Reader<'a> {
    // The expression of operands: the only one, or a list at its first comma.
    pub(crate) fn whole(&self, alloc: Global, operands: Operands) -> Result<Taken, NoMemory>
        requires comma { operands.comma < length self.now }
        ensures tree { IfOk result (λ t. WholeOf self.now operands t.tree) }
        ensures next { IfOk result (λ t. t.next ≡ operands.next) }
    {
        let next = operands.next;
        if operands.others.as_slice().is_empty() {
            return Ok(Taken {
                tree: operands.first,
                next,
            });
        }
        let place = self.place(operands.comma);
        let args = listed(alloc, operands)?;
        let node = ExprNode::Comma;
        Ok(Taken {
            tree: Expr { place, node, args },
            next,
        })
    }

    // The expression of operands before a mark that closes it, and the index behind that.
    pub(crate) fn closed(
        &self,
        alloc: Global,
        operands: Operands,
        mark: Terminal,
    ) -> Result<Taken, ExprStop>
        requires comma { operands.comma < length self.now }
        requires within { operands.next < length self.now }
        requires makes { makes mark ≡ true }
        ensures tree { IfOk result (λ t. WholeOf self.now operands t.tree) }
        ensures closes { IfOk result (λ t. IsAt self.now operands.next mark) }
        ensures next { IfOk result (λ t. t.next ≡ operands.next + 1) }
        ensures out { IfErr result (RefusedAt (Mark mark) self.now operands.next) }
    {
        let next = self.expect(operands.next, mark)?;
        let whole = self.whole(alloc, operands)?;
        Ok(Taken {
            tree: whole.tree,
            next,
        })
    }

    // An assignment by its operator and its operands.
    pub(crate) fn assigned(
        &self,
        alloc: Global,
        op: Option<BinOp>,
        left: Taken,
        right: Taken,
    ) -> Result<Taken, NoMemory>
        requires within { left.next < length self.now }
        ensures tree { IfOk result (λ t. AssignedAt self.now left.next op left.tree right.tree t.tree) }
        ensures next { IfOk result (λ t. t.next ≡ right.next) }
    {
        let place = self.place(left.next);
        let node = ExprNode::Assign(op);
        let args = two(alloc, left.tree, right.tree)?;
        Ok(Taken {
            tree: Expr { place, node, args },
            next: right.next,
        })
    }

    // A choice by its test, behind which its `?` stands, and its two sides.
    pub(crate) fn chosen(
        &self,
        alloc: Global,
        test: Taken,
        yes: Taken,
        no: Taken,
    ) -> Result<Taken, NoMemory>
        requires within { test.next < length self.now }
        ensures tree { IfOk result (λ t. ChosenAt self.now test.next test.tree yes.tree no.tree t.tree) }
        ensures next { IfOk result (λ t. t.next ≡ no.next) }
    {
        let place = self.place(test.next);
        let node = ExprNode::Cond;
        let args = three(alloc, test.tree, yes.tree, no.tree)?;
        Ok(Taken {
            tree: Expr { place, node, args },
            next: no.next,
        })
    }

    // A row with another operator and its right operand.
    pub(crate) fn joined(&self, row: Row, op: BinOp, operand: Taken) -> Result<Row, NoMemory>
        requires within { row.next < length self.now }
        ensures first { IfOk result (λ more. more.first ≡ row.first) }
        ensures rest { IfOk result (λ more. JoinedAt self.now row.next op operand.tree row.rest.items more.rest.items) }
        ensures next { IfOk result (λ more. more.next ≡ operand.next) }
    {
        let place = self.place(row.next);
        let mut rest = row.rest;
        let group = Group { tree: operand.tree };
        rest.push((Operator { op, place }, group))?;
        Ok(Row {
            first: row.first,
            rest,
            next: operand.next,
        })
    }

    // The name of a type by its words, and the index behind the `)` there.
    pub(crate) fn closed_type(&self, alloc: Global, words: SpecRead) -> Result<TermRead, ExprStop>
        requires ends { EndsIn self.now }
        requires within { words.next < length self.now }
        ensures ok { IfOk result (ClosedFrom self.now words) }
        ensures out { IfErr result (Unclosed self.now words) }
    {
        let name = self.named_type(alloc, words)?;
        let next = self.expect(name.next, Terminal::CloseParen)?;
        Ok(TermRead {
            term: name.term,
            vector: name.vector,
            next,
        })
    }

    // Whether operands in brackets behind a type are a vector's.
    pub(crate) fn begins_literal(&self, name: &TermRead) -> bool
        requires within { name.now.next < length self.now }
        ensures { MatchBool result (LiteralAt self.now name.now) (NoLiteralAt self.now name.now) }
    {
        if !name.vector {
            return false;
        }
        self.is_at(name.next, Terminal::OpenParen)
    }

    // A vector by its type, in brackets from an index on, and its operands.
    pub(crate) fn literal(
        &self,
        alloc: Global,
        name: TermRead,
        operands: Operands,
        at: usize,
    ) -> Result<Taken, ExprStop>
        requires ends { EndsIn self.now }
        requires typed { TypedAt self.now at name }
        requires begins { LiteralAt self.now name }
        requires operands { AssignsAt self.now (name.next + 1) operands }
        ensures ok { IfOk result (TakenAt sym.Cast CastTree self.now at) }
        ensures out { IfErr result (RefusedAt (E sym.Cast) self.now at) }
    {
        let next = self.expect(operands.next, Terminal::CloseParen)?;
        let place = self.place(at);
        let args = listed(alloc, operands)?;
        let node = ExprNode::Vector(name.term);
        Ok(Taken {
            tree: Expr { place, node, args },
            next,
        })
    }

    // A cast by its type, in brackets from an index on, and its operand.
    pub(crate) fn casted(
        &self,
        alloc: Global,
        name: TermRead,
        operand: Taken,
        at: usize,
    ) -> Result<Taken, NoMemory>
        requires ends { EndsIn self.now }
        requires typed { TypedAt self.now at name }
        requires other { NoLiteralAt self.now name }
        requires operand { TakenAt sym.Cast CastTree self.now name.next operand }
        ensures { IfOk result (TakenAt sym.Cast CastTree self.now at) }
    {
        let place = self.place(at);
        let args = one(alloc, operand.tree)?;
        let node = ExprNode::Cast(name.term);
        Ok(Taken {
            tree: Expr { place, node, args },
            next: operand.next,
        })
    }

    // The size of a type by its words, behind a `sizeof` at an index.
    pub(crate) fn sized(&self, alloc: Global, words: SpecRead, at: usize) -> Result<Taken, ExprStop>
        requires ends { EndsIn self.now }
        requires stands { IsAt self.now at Sizeof }
        requires typed { BeginsTyped self.now (at + 1) }
        requires words { SpecAt self.now (at + 2) words }
        ensures ok { IfOk result (TakenAt sym.Unary UnaryTree self.now at) }
        ensures out { IfErr result (RefusedAt (E sym.Unary) self.now at) }
    {
        let name = self.closed_type(alloc, words)?;
        let place = self.place(at);
        let args = Vec::new(alloc);
        let node = ExprNode::SizeofType(name.term);
        Ok(Taken {
            tree: Expr { place, node, args },
            next: name.next,
        })
    }

    // An element by its operand and what stands in the brackets behind it.
    pub(crate) fn element(
        &self,
        alloc: Global,
        operand: Taken,
        operands: Operands,
    ) -> Result<Taken, ExprStop>
        requires within { operand.next < length self.now }
        requires comma { operands.comma < length self.now }
        requires closes { operands.next < length self.now }
        ensures ok { IfOk result (ElementAt self.now operand operands) }
        ensures out { IfErr result (RefusedAt (Mark CloseBracket) self.now operands.next) }
    {
        let index = self.closed(alloc, operands, Terminal::CloseBracket)?;
        let tree = self.indexed(alloc, operand.tree, index.tree, operand.next)?;
        Ok(Taken {
            tree,
            next: index.next,
        })
    }

    // A call with arguments by these, where its name stands at an index.
    pub(crate) fn called(
        &self,
        alloc: Global,
        operands: Operands,
        at: usize,
    ) -> Result<Taken, ExprStop>
        requires ends { EndsIn self.now }
        requires call { CallAt self.now at }
        requires operands { AssignsAt self.now (at + 2) operands }
        ensures ok { IfOk result (TakenAt sym.Primary PrimaryTree self.now at) }
        ensures out { IfErr result (RefusedAt (E sym.Primary) self.now at) }
    {
        let next = self.expect(operands.next, Terminal::CloseParen)?;
        let place = self.place(at);
        let name = self.text(alloc, at)?;
        let args = listed(alloc, operands)?;
        let node = ExprNode::Call(name);
        Ok(Taken {
            tree: Expr { place, node, args },
            next,
        })
    }

    // The words of a type by its qualifiers so far and its base.
    pub(crate) fn qualified(&self, quals: List<Qual>, read: BaseRead) -> Result<SpecRead, NoMemory>
        requires ends { EndsIn self.now }
        requires within { read.next < length self.now }
        ensures { IfOk result (QualifiedFrom self.now quals read) }
    {
        let mut quals = quals;
        let next = self.qualifiers(&mut quals, read.next)?;
        Ok(SpecRead {
            spec: Spec {
                quals,
                base: read.base,
            },
            vector: read.vector,
            next,
        })
    }

    // A struct by its name and its members, and the index behind its `}`.
    pub(crate) fn declared(&self, tag: Tag, members: Members) -> Result<BaseRead, ExprStop>
        requires within { members.next < length self.now }
        ensures base { IfOk result (λ read. IsStruct read.base tag.name tag.place (Some members.fields.items)) }
        ensures vector { IfOk result (λ read. read.vector ≡ false) }
        ensures closes { IfOk result (λ read. IsAt self.now members.next CloseBrace) }
        ensures next { IfOk result (λ read. read.next ≡ members.next + 1) }
        ensures out { IfErr result (RefusedAt (Mark CloseBrace) self.now members.next) }
    {
        let next = self.expect(members.next, Terminal::CloseBrace)?;
        Ok(BaseRead {
            base: Base::Struct {
                name: tag.name,
                place: tag.place,
                members: Some(members.fields),
            },
            vector: false,
            next,
        })
    }

    // Another length, and the index behind its `]`.
    pub(crate) fn length(
        &self,
        lengths: &mut Vec<Option<Expr>>,
        size: Taken,
    ) -> Result<usize, ExprStop>
        requires within { size.next < length self.now }
        ensures next { IfOk result (λ next. next ≡ size.next + 1) }
        ensures closes { IfOk result (λ next. IsAt self.now size.next CloseBracket) }
        ensures lengths { OnOk result (lengths.new.items ≡ lengths.old.items ++ Some size.tree ∷ []) }
        ensures out { IfErr result (RefusedAt (Mark CloseBracket) self.now size.next) }
    {
        let next = self.expect(size.next, Terminal::CloseBracket)?;
        lengths.push(Some(size.tree))?;
        Ok(next)
    }
}
