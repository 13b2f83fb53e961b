//! Expressions as operands that group.

ghost use Rattle.std.specs.Prelude.{◌≡◌, ◌∷◌, [], IfOk};

use cl_ast::expression::{Expr, ExprNode};
use cl_grammar::Operator;
use cl_precedence::Operand;
use cl_types::BinOp;
use clv_place::NoMemory;
use std::alloc::Global;

/// An operand, or a group of some with the operators between them.
#[derive(Drop)]
pub(crate) struct Group {
    pub(crate) tree: Expr,
}

impl Operand for Group {
    ghost use Rattle.cl_grammar.specs.ExpressionTrees as trees;
    ghost use Rattle.cl_parse_expr.specs.Reading.{GroupJoins};

    type Operator = Operator;

    ghost level = { trees.level_at };

    ghost Joins = { GroupJoins };

    fn level(operator: Operator) -> u8 {
        match operator.op {
            BinOp::Mul | BinOp::Div | BinOp::Rem => 10,
            BinOp::Add | BinOp::Sub => 9,
            BinOp::Shl | BinOp::Shr => 8,
            BinOp::Less | BinOp::Greater | BinOp::LessEqual | BinOp::GreaterEqual => 7,
            BinOp::Equal | BinOp::NotEqual => 6,
            BinOp::And => 5,
            BinOp::Xor => 4,
            BinOp::Or => 3,
            BinOp::LogicalAnd => 2,
            BinOp::LogicalOr => 1,
        }
    }

    fn join(
        alloc: Global,
        operator: Operator,
        left: Group,
        right: Group,
    ) -> Result<Group, NoMemory> {
        Ok(Group {
            tree: Expr {
                place: operator.place,
                node: ExprNode::Binary(operator.op),
                args: two(alloc, left.tree, right.tree)?,
            },
        })
    }
}

/// A list of one operand.
pub(crate) fn one(alloc: Global, only: Expr) -> Result<Vec<Expr>, NoMemory>
    ensures { IfOk result (λ args. args.items ≡ only ∷ []) }
{
    let mut args = Vec::new(alloc);
    args.push(only)?;
    Ok(args)
}

/// A list of two operands.
pub(crate) fn two(alloc: Global, left: Expr, right: Expr) -> Result<Vec<Expr>, NoMemory>
    ensures { IfOk result (λ args. args.items ≡ left ∷ right ∷ []) }
{
    let mut args = Vec::new(alloc);
    args.push(left)?;
    args.push(right)?;
    Ok(args)
}

/// A list of three operands.
pub(crate) fn three(
    alloc: Global,
    first: Expr,
    second: Expr,
    third: Expr,
) -> Result<Vec<Expr>, NoMemory>
    ensures { IfOk result (λ args. args.items ≡ first ∷ second ∷ third ∷ []) }
{
    let mut args = two(alloc, first, second)?;
    args.push(third)?;
    Ok(args)
}
