//! What a work-item has to do for an expression (C99, 6.5; OpenCL C 1.2, 6.3 and 6.12). Operands and arguments are
//! evaluated from left to right, and the place of an assignment before its value.

ghost use Rattle.cl_meaning.specs.declared.code.Expr.{out-Expr};
ghost use Rattle.std.specs.Prelude.{◌≡◌, ◌++◌, ◌∷◌, [], ◌&&◌, None, OnOk, Some, length, map, option_map};
ghost use Rattle.cl_common.specs.Types.{count_at};
ghost use Rattle.cl_meaning.specs.Expressions.{all_used, assigned, binary, built_in, call, commas, converts, copied, dropped, element_value, indexed, loads, makes, may_drop, member_value, named, operand_of, points_to, postfix, prefix, shape_at, types_of, unary, used};
ghost use Rattle.cl_meaning.specs.Endings.{member_end, on_one, on_two, part, pointee, stores};
ghost use Rattle.cl_meaning.specs.Operations.{Components, Fill, Select, Vector};
ghost use Rattle.cl_meaning.specs.Tasks.{Choose, Quiet, making, quiet};
ghost use Rattle.cl_meaning.specs.Views.{expr_by, tasks_by};
ghost use Rattle.cl_tree.specs.Shapes.{is_array, shape_of};

use crate::code::{Expr, Node};
use crate::ending;
use crate::layouts::Layouts;
use crate::operation::Operation;
use crate::task::{Tasks, quiet, step};
use crate::wide::WideShape;
use cl_tree::Shared;
use cl_types::{BinOp, Builtin, TypeId, UnOp};
use clv_place::{List, NoMemory};
use std::alloc::Global;

/// How expressions unfold into tasks: by the types of the unit.
#[derive(Clone, Copy)]
pub struct Unfolding<'t> {
    pub alloc: Global,
    pub types: &'t Layouts<'t>,
}

impl<'t> Unfolding<'t> {
    fn shape(self, a: &Expr) -> WideShape
        ensures { result ≡ shape_of self.entry.types.now (out-Expr a.now).ty }
    {
        self.types.shape(a.ty)
    }

    fn is_place(self, e: &Expr) -> bool
        ensures { result ≡ (operand_of self.entry.types.now (expr_by e.now)).is_place }
    {
        match (&e.node, e.operands.as_slice()) {
            (Node::Param(_), _) => true,
            (Node::Var(_), _) => true,
            (Node::Local(_), _) => true,
            (Node::Constant(_), _) => true,
            (Node::Unary(UnOp::Deref), [a, ..]) => {
                ending::points(self.types, a) || self.is_place(a)
            }
            (Node::Index, [a, ..]) => ending::points(self.types, a) || self.is_place(a),
            (Node::Member(_), [a, ..]) => self.is_place(a),
            (Node::Components(_), [a, ..]) => self.is_place(a),
            _ => false,
        }
    }

    // A value that is used. That of a call may be missing, where the function fell off its end (C99, 6.9.1).
    #[cycle(unfolding)]
    pub fn used<'a>(self, a: &'a Expr, out: &mut Tasks<'a>) -> Result<(), NoMemory>
        ensures { OnOk result (tasks_by out.new.items ≡ tasks_by out.old.items ++ used (operand_of self.entry.types.now (expr_by a.now))) }
    {
        self.gives(a, out)?;
        ending::sure(&a.node, out)
    }

    #[cycle(unfolding)]
    #[tactic(auto, using(crate::proofs::Unfolded::operands_left))]
    fn all_used<'a>(self, operands: &'a [Expr], out: &mut Tasks<'a>) -> Result<(), NoMemory>
        ensures { OnOk result (tasks_by out.new.items ≡ tasks_by out.old.items ++ all_used (map (λ e. operand_of self.entry.types.now (expr_by e)) operands.now)) }
    {
        for operand in operands {
            self.used(operand, out)?;
        }
        Ok(())
    }

    // A place that is named, and not read.
    #[cycle(unfolding)]
    fn named<'a>(self, a: &'a Expr, out: &mut Tasks<'a>) -> Result<(), NoMemory>
        ensures { OnOk result (tasks_by out.new.items ≡ tasks_by out.old.items ++ named (operand_of self.entry.types.now (expr_by a.now))) }
    {
        self.finds(a, out)?;
        ending::pass(out)
    }

    // What is evaluated and dropped, by an expression statement, a part of `for` or the left of a comma: the value may
    // be missing, and an array is named and not read.
    #[cycle(unfolding)]
    pub fn dropped<'a>(self, a: &'a Expr, out: &mut Tasks<'a>) -> Result<(), NoMemory>
        ensures { OnOk result (tasks_by out.new.items ≡ tasks_by out.old.items ++ dropped self.entry.types.now (operand_of self.entry.types.now (expr_by a.now))) }
    {
        if self.is_array(a) {
            self.named(a, out)?;
            return quiet(out, Operation::Drop);
        }
        self.gives(a, out)?;
        quiet(out, Operation::Drop)
    }

    // Whether an expression is an array that is a place.
    fn is_array(self, a: &Expr) -> bool
        ensures { result ≡ is_array (shape_at self.entry.types.now (operand_of self.entry.types.now (expr_by a.now))) && (operand_of self.entry.types.now (expr_by a.now)).is_place }
    {
        self.shape(a).shape().is_array() && self.is_place(a)
    }

    /// An expression that is dropped, where there is one.
    pub fn may_drop<'a>(self, e: Option<&'a Expr>, out: &mut Tasks<'a>) -> Result<(), NoMemory>
        ensures { OnOk result (tasks_by out.new.items ≡ tasks_by out.old.items ++ may_drop self.entry.types.now (option_map (λ e. expr_by e.now) e.entry)) }
    {
        match e {
            None => Ok(()),
            Some(e) => self.dropped(e, out),
        }
    }

    // ---- places

    #[cycle(unfolding)]
    fn indexed<'a>(
        self,
        operands: &'a [Expr],
        ty: TypeId,
        out: &mut Tasks<'a>,
    ) -> Result<(), NoMemory>
        ensures { OnOk result (tasks_by out.new.items ≡ tasks_by out.old.items ++ on_two (λ a i. indexed self.entry.types.now a i ty) (map (λ e. operand_of self.entry.types.now (expr_by e)) operands.now)) }
    {
        let [a, i, ..] = operands else {
            return Ok(());
        };
        if ending::points(self.types, a) {
            self.used(a, out)?;
            self.used(i, out)?;
            return ending::further(self.types, i, ty, out);
        }
        self.named(a, out)?;
        self.used(i, out)?;
        ending::in_array(self.types, a, i, ty, out)
    }

    #[cycle(unfolding)]
    fn pointee<'a>(self, operands: &'a [Expr], out: &mut Tasks<'a>) -> Result<(), NoMemory>
        ensures { OnOk result (tasks_by out.new.items ≡ tasks_by out.old.items ++ on_one (pointee self.entry.types.now) (map (λ e. operand_of self.entry.types.now (expr_by e)) operands.now)) }
    {
        let [a, ..] = operands else {
            return Ok(());
        };
        if ending::points(self.types, a) {
            self.used(a, out)?;
            return quiet(out, Operation::Follow);
        }
        self.named(a, out)?;
        ending::first_element(self.types, a.ty, out)
    }

    #[cycle(unfolding)]
    fn member<'a>(
        self,
        k: u32,
        operands: &'a [Expr],
        ty: TypeId,
        out: &mut Tasks<'a>,
    ) -> Result<(), NoMemory>
        ensures { OnOk result (tasks_by out.new.items ≡ tasks_by out.old.items ++ on_one (λ a. named a ++ member_end self.entry.types.now k a.ty ty ∷ []) (map (λ e. operand_of self.entry.types.now (expr_by e)) operands.now)) }
    {
        let [a, ..] = operands else {
            return Ok(());
        };
        self.named(a, out)?;
        ending::member(self.types, k, a, ty, out)
    }

    #[cycle(unfolding)]
    fn selection<'a>(
        self,
        at: &List<u8>,
        operands: &'a [Expr],
        out: &mut Tasks<'a>,
    ) -> Result<(), NoMemory>
        ensures { OnOk result (tasks_by out.new.items ≡ tasks_by out.old.items ++ on_one (λ a. named a ++ quiet (Select at.now) ∷ []) (map (λ e. operand_of self.entry.types.now (expr_by e)) operands.now)) }
    {
        let [a, ..] = operands else {
            return Ok(());
        };
        self.named(a, out)?;
        ending::selection(self.alloc, at, out)
    }

    // The tasks that find the place of a node, where it is one.
    #[cycle(unfolding)]
    #[tactic(auto, using(crate::proofs::Unfolded::places_seen))]
    fn finds<'a>(self, e: &'a Expr, out: &mut Tasks<'a>) -> Result<(), NoMemory>
        ensures { OnOk result (tasks_by out.new.items ≡ tasks_by out.old.items ++ (operand_of self.entry.types.now (expr_by e.now)).finds) }
    {
        let operands = e.operands.as_slice();
        match &e.node {
            Node::Param(k) => ending::variable(self.types, true, *k, e.ty, out),
            Node::Var(k) => ending::variable(self.types, false, *k, e.ty, out),
            Node::Local(k) => ending::in_shared(self.types, Shared::LocalVariable(*k), e.ty, out),
            Node::Constant(k) => ending::in_shared(self.types, Shared::Constant(*k), e.ty, out),
            Node::Unary(UnOp::Deref) => self.pointee(operands, out),
            Node::Index => self.indexed(operands, e.ty, out),
            Node::Member(k) => self.member(*k, operands, e.ty, out),
            Node::Components(at) => self.selection(at, operands, out),
            _ => Ok(()),
        }
    }

    // ---- assignments

    #[cycle(unfolding)]
    fn set<'a>(self, operands: &'a [Expr], out: &mut Tasks<'a>) -> Result<(), NoMemory>
        ensures { OnOk result (tasks_by out.new.items ≡ tasks_by out.old.items ++ on_two (assigned self.entry.types.now None) (map (λ e. operand_of self.entry.types.now (expr_by e)) operands.now)) }
    {
        let [a, b, ..] = operands else {
            return Ok(());
        };
        self.named(a, out)?;
        self.used(b, out)?;
        ending::stored(self.types, a.ty, out)
    }

    #[cycle(unfolding)]
    fn updated<'a>(
        self,
        op: BinOp,
        operands: &'a [Expr],
        out: &mut Tasks<'a>,
    ) -> Result<(), NoMemory>
        ensures { OnOk result (tasks_by out.new.items ≡ tasks_by out.old.items ++ on_two (assigned self.entry.types.now (Some op)) (map (λ e. operand_of self.entry.types.now (expr_by e)) operands.now)) }
    {
        let [a, b, ..] = operands else {
            return Ok(());
        };
        let inner = self.shape(a).working(op, self.shape(b));
        self.named(a, out)?;
        ending::old_value(self.alloc, self.types, a.ty, inner, false, out)?;
        self.used(b, out)?;
        ending::updated(self.alloc, self.types, op, a.ty, inner, out)
    }

    // Of a pointer.
    #[cycle(unfolding)]
    fn pointed<'a>(self, operands: &'a [Expr], out: &mut Tasks<'a>) -> Result<(), NoMemory>
        ensures { OnOk result (tasks_by out.new.items ≡ tasks_by out.old.items ++ on_two (points_to self.entry.types.now None) (map (λ e. operand_of self.entry.types.now (expr_by e)) operands.now)) }
    {
        let [p, q, ..] = operands else {
            return Ok(());
        };
        ending::pass(out)?;
        self.used(q, out)?;
        ending::pointed(p, out)
    }

    // Of a pointer.
    #[cycle(unfolding)]
    fn moved<'a>(self, op: BinOp, operands: &'a [Expr], out: &mut Tasks<'a>) -> Result<(), NoMemory>
        ensures { OnOk result (tasks_by out.new.items ≡ tasks_by out.old.items ++ on_two (points_to self.entry.types.now (Some op)) (map (λ e. operand_of self.entry.types.now (expr_by e)) operands.now)) }
    {
        let [p, n, ..] = operands else {
            return Ok(());
        };
        ending::recalled(p, out)?;
        self.used(n, out)?;
        ending::moved(self.types, op, p, n, out)
    }

    #[cycle(unfolding)]
    fn assigned<'a>(
        self,
        op: Option<BinOp>,
        operands: &'a [Expr],
        out: &mut Tasks<'a>,
    ) -> Result<(), NoMemory>
        ensures { OnOk result (tasks_by out.new.items ≡ tasks_by out.old.items ++ on_two (stores self.entry.types.now op) (map (λ e. operand_of self.entry.types.now (expr_by e)) operands.now)) }
    {
        let [a, _, ..] = operands else {
            return Ok(());
        };
        if ending::points(self.types, a) {
            return match op {
                None => self.pointed(operands, out),
                Some(op) => self.moved(op, operands, out),
            };
        }
        match op {
            None => self.set(operands, out),
            Some(op) => self.updated(op, operands, out),
        }
    }

    #[cycle(unfolding)]
    fn prefix<'a>(self, op: BinOp, a: &'a Expr, out: &mut Tasks<'a>) -> Result<(), NoMemory>
        ensures { OnOk result (tasks_by out.new.items ≡ tasks_by out.old.items ++ prefix self.entry.types.now op (operand_of self.entry.types.now (expr_by a.now))) }
    {
        if ending::points(self.types, a) {
            return ending::pointer_prefix(self.alloc, self.types, op, a, out);
        }
        self.named(a, out)?;
        ending::number_prefix(self.alloc, self.types, op, a, out)
    }

    #[cycle(unfolding)]
    fn postfix<'a>(self, op: BinOp, a: &'a Expr, out: &mut Tasks<'a>) -> Result<(), NoMemory>
        ensures { OnOk result (tasks_by out.new.items ≡ tasks_by out.old.items ++ postfix self.entry.types.now op (operand_of self.entry.types.now (expr_by a.now))) }
    {
        if ending::points(self.types, a) {
            return ending::pointer_postfix(self.alloc, self.types, op, a, out);
        }
        self.named(a, out)?;
        ending::number_postfix(self.alloc, self.types, op, a, out)
    }

    // ---- values

    #[cycle(unfolding)]
    fn converts<'a>(self, ty: TypeId, a: &'a Expr, out: &mut Tasks<'a>) -> Result<(), NoMemory>
        ensures { OnOk result (tasks_by out.new.items ≡ tasks_by out.old.items ++ converts self.entry.types.now ty (operand_of self.entry.types.now (expr_by a.now))) }
    {
        if self.shape(a).shape().is_array() {
            self.named(a, out)?;
            return ending::address(self.types, a.ty, out);
        }
        self.used(a, out)?;
        ending::converted(self.types, a, ty, out)
    }

    #[cycle(unfolding)]
    fn unary<'a>(
        self,
        op: UnOp,
        ty: TypeId,
        a: &'a Expr,
        out: &mut Tasks<'a>,
    ) -> Result<(), NoMemory>
        ensures { OnOk result (tasks_by out.new.items ≡ tasks_by out.old.items ++ unary self.entry.types.now op ty (operand_of self.entry.types.now (expr_by a.now))) }
    {
        match op {
            UnOp::Address => {
                self.named(a, out)?;
                step(out, Operation::Address)
            }
            UnOp::Deref => {
                self.used(a, out)?;
                ending::dereferenced(self.types, ty, out)
            }
            UnOp::PreInc => self.prefix(BinOp::Add, a, out),
            UnOp::PreDec => self.prefix(BinOp::Sub, a, out),
            UnOp::PostInc => self.postfix(BinOp::Add, a, out),
            UnOp::PostDec => self.postfix(BinOp::Sub, a, out),
            _ => {
                self.used(a, out)?;
                ending::operated(self.types, op, a, ty, out)
            }
        }
    }

    #[cycle(unfolding)]
    fn binary<'a>(
        self,
        op: BinOp,
        operands: &'a [Expr],
        out: &mut Tasks<'a>,
    ) -> Result<(), NoMemory>
        ensures { OnOk result (tasks_by out.new.items ≡ tasks_by out.old.items ++ on_two (binary self.entry.types.now op) (map (λ e. operand_of self.entry.types.now (expr_by e)) operands.now)) }
    {
        let [a, b, ..] = operands else {
            return Ok(());
        };
        self.used(a, out)?;
        match op {
            BinOp::LogicalAnd => ending::unless(false, b, out),
            BinOp::LogicalOr => ending::unless(true, b, out),
            _ => {
                self.used(b, out)?;
                ending::calculated(self.alloc, self.types, op, a, b, out)
            }
        }
    }

    // The last operand of a comma is used, and the others are dropped.
    #[cycle(unfolding)]
    fn part<'a>(self, is_last: bool, a: &'a Expr, out: &mut Tasks<'a>) -> Result<(), NoMemory>
        ensures { OnOk result (tasks_by out.new.items ≡ tasks_by out.old.items ++ part self.entry.types.now is_last (operand_of self.entry.types.now (expr_by a.now))) }
    {
        if is_last {
            self.used(a, out)
        } else {
            self.dropped(a, out)
        }
    }

    #[cycle(unfolding)]
    #[tactic(auto, using(crate::proofs::Unfolded::parts_left))]
    fn commas<'a>(self, operands: &'a [Expr], out: &mut Tasks<'a>) -> Result<(), NoMemory>
        ensures { OnOk result (tasks_by out.new.items ≡ tasks_by out.old.items ++ commas self.entry.types.now (map (λ e. operand_of self.entry.types.now (expr_by e)) operands.now)) }
    {
        let mut left = operands.len();
        for part in operands {
            left -= 1;
            self.part(left == 0, part, out)?;
        }
        Ok(())
    }

    #[cycle(unfolding)]
    fn member_value<'a>(
        self,
        k: u32,
        ty: TypeId,
        a: &'a Expr,
        out: &mut Tasks<'a>,
    ) -> Result<(), NoMemory>
        ensures { OnOk result (tasks_by out.new.items ≡ tasks_by out.old.items ++ member_value self.entry.types.now k ty (operand_of self.entry.types.now (expr_by a.now))) }
    {
        self.used(a, out)?;
        ending::member_value(self.types, k, a, ty, out)
    }

    #[cycle(unfolding)]
    fn element_value<'a>(
        self,
        ty: TypeId,
        operands: &'a [Expr],
        out: &mut Tasks<'a>,
    ) -> Result<(), NoMemory>
        ensures { OnOk result (tasks_by out.new.items ≡ tasks_by out.old.items ++ on_two (element_value self.entry.types.now ty) (map (λ e. operand_of self.entry.types.now (expr_by e)) operands.now)) }
    {
        let [a, i, ..] = operands else {
            return Ok(());
        };
        self.used(a, out)?;
        self.used(i, out)?;
        ending::element_value(self.types, a, i, ty, out)
    }

    #[cycle(unfolding)]
    fn components<'a>(self, at: &List<u8>, a: &'a Expr, out: &mut Tasks<'a>) -> Result<(), NoMemory>
        ensures { OnOk result (tasks_by out.new.items ≡ tasks_by out.old.items ++ used (operand_of self.entry.types.now (expr_by a.now)) ++ making (length at.now) (Components at.now)) }
    {
        self.used(a, out)?;
        ending::components(self.alloc, at, out)
    }

    #[cycle(unfolding)]
    fn chosen<'a>(
        self,
        test: &'a Expr,
        on_true: &'a Expr,
        on_false: &'a Expr,
        ty: TypeId,
        out: &mut Tasks<'a>,
    ) -> Result<(), NoMemory>
        ensures { OnOk result (tasks_by out.new.items ≡ tasks_by out.old.items ++ used (operand_of self.entry.types.now (expr_by test.now)) ++ Quiet (Choose (expr_by on_true.now) (expr_by on_false.now)) ∷ copied self.entry.types.now ty) }
    {
        self.used(test, out)?;
        ending::chosen(self.types, on_true, on_false, ty, out)
    }

    #[cycle(unfolding)]
    fn vector<'a>(
        self,
        ty: TypeId,
        operands: &'a [Expr],
        out: &mut Tasks<'a>,
    ) -> Result<(), NoMemory>
        ensures { OnOk result (tasks_by out.new.items ≡ tasks_by out.old.items ++ all_used (map (λ e. operand_of self.entry.types.now (expr_by e)) operands.now) ++ making (count_at self.entry.types.now ty) (Vector (length operands.now) (count_at self.entry.types.now ty))) }
    {
        self.all_used(operands, out)?;
        ending::vector(self.types, ty, operands, out)
    }

    #[cycle(unfolding)]
    fn filled<'a>(
        self,
        ty: TypeId,
        operands: &'a [Expr],
        out: &mut Tasks<'a>,
    ) -> Result<(), NoMemory>
        ensures { OnOk result (tasks_by out.new.items ≡ tasks_by out.old.items ++ all_used (map (λ e. operand_of self.entry.types.now (expr_by e)) operands.now) ++ making (count_at self.entry.types.now ty) (Fill (types_of (map (λ e. operand_of self.entry.types.now (expr_by e)) operands.now)) ty)) }
    {
        self.all_used(operands, out)?;
        ending::filled(self.alloc, self.types, ty, operands, out)
    }

    #[cycle(unfolding)]
    fn comma<'a>(
        self,
        ty: TypeId,
        operands: &'a [Expr],
        out: &mut Tasks<'a>,
    ) -> Result<(), NoMemory>
        ensures { OnOk result (tasks_by out.new.items ≡ tasks_by out.old.items ++ commas self.entry.types.now (map (λ e. operand_of self.entry.types.now (expr_by e)) operands.now) ++ copied self.entry.types.now ty) }
    {
        self.commas(operands, out)?;
        ending::copied(self.types, ty, out)
    }

    // ---- calls

    #[cycle(unfolding)]
    fn call<'a>(
        self,
        function: u32,
        number: u32,
        operands: &'a [Expr],
        out: &mut Tasks<'a>,
    ) -> Result<(), NoMemory>
        ensures { OnOk result (tasks_by out.new.items ≡ tasks_by out.old.items ++ call self.entry.types.now function number (map (λ e. operand_of self.entry.types.now (expr_by e)) operands.now)) }
    {
        self.all_used(operands, out)?;
        ending::call(self.types, function, number, operands, out)
    }

    #[cycle(unfolding)]
    fn built_in<'a>(
        self,
        function: Builtin,
        e: &'a Expr,
        out: &mut Tasks<'a>,
    ) -> Result<(), NoMemory>
        ensures { OnOk result (tasks_by out.new.items ≡ tasks_by out.old.items ++ built_in self.entry.types.now function (out-Expr e.now).ty (out-Expr e.now).number (map (λ e. operand_of self.entry.types.now (expr_by e)) (out-Expr e.now).operands.items)) }
    {
        self.all_used(e.operands.as_slice(), out)?;
        ending::built_in(self.alloc, self.types, function, e, out)
    }

    // ---- expressions

    // What gives the value of a node that is no place.
    #[cycle(unfolding)]
    fn makes<'a>(self, e: &'a Expr, out: &mut Tasks<'a>) -> Result<(), NoMemory>
        ensures { OnOk result (tasks_by out.new.items ≡ tasks_by out.old.items ++ makes self.entry.types.now (out-Expr e.now).node (out-Expr e.now).ty (out-Expr e.now).number (map (λ e. operand_of self.entry.types.now (expr_by e)) (out-Expr e.now).operands.items)) }
    {
        let operands = e.operands.as_slice();
        match (&e.node, operands) {
            (Node::Number(n), _) => ending::number(self.alloc, *n, out),
            (Node::Convert, [a, ..]) => self.converts(e.ty, a, out),
            (Node::Unary(op), [a, ..]) => self.unary(*op, e.ty, a, out),
            (Node::Binary(op), _) => self.binary(*op, operands, out),
            (Node::Assign(op), _) => self.assigned(*op, operands, out),
            (Node::Cond, [test, on_true, on_false, ..]) => {
                self.chosen(test, on_true, on_false, e.ty, out)
            }
            (Node::Vector, _) => self.vector(e.ty, operands, out),
            (Node::Call(function), _) => self.call(*function, e.number, operands, out),
            (Node::Builtin(function), _) => self.built_in(*function, e, out),
            (Node::Index, _) => self.element_value(e.ty, operands, out),
            (Node::Member(k), [a, ..]) => self.member_value(*k, e.ty, a, out),
            (Node::Components(at), [a, ..]) => self.components(at, a, out),
            (Node::Fill, _) => self.filled(e.ty, operands, out),
            (Node::Comma, _) => self.comma(e.ty, operands, out),
            _ => Ok(()),
        }
    }

    // What gives the value of a place: a pointer is that of its variable.
    #[cycle(unfolding)]
    fn loads<'a>(self, e: &'a Expr, out: &mut Tasks<'a>) -> Result<(), NoMemory>
        ensures { OnOk result (tasks_by out.new.items ≡ tasks_by out.old.items ++ loads self.entry.types.now (out-Expr e.now).node (out-Expr e.now).ty (map (λ e. operand_of self.entry.types.now (expr_by e)) (out-Expr e.now).operands.items)) }
    {
        if ending::points(self.types, e) {
            return ending::pointer_loaded(&e.node, out);
        }
        self.finds(e, out)?;
        ending::loaded(self.alloc, self.types, e.ty, out)
    }

    // The tasks that give the value of an expression.
    #[cycle(unfolding)]
    #[tactic(auto, using(crate::proofs::Unfolded::values_seen))]
    fn gives<'a>(self, e: &'a Expr, out: &mut Tasks<'a>) -> Result<(), NoMemory>
        ensures { OnOk result (tasks_by out.new.items ≡ tasks_by out.old.items ++ (operand_of self.entry.types.now (expr_by e.now)).gives) }
    {
        if self.is_place(e) {
            self.loads(e, out)
        } else {
            self.makes(e, out)
        }
    }
}
