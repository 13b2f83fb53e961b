//! Rows of operands with binary operators between them.

ghost use Rattle.std.specs.Prelude.{◌≡◌, ℕ, IfOk, OnOk, MatchOption};
ghost use Rattle.cl_precedence.specs.Grouping.{Groups, GroupsOnce};
ghost use Rattle.cl_precedence.specs.Waiting.{IsLoose, Keeps, LeavesLoose, TakesLast};

use clv_place::NoMemory;
use std::alloc::Global;

/// A tree that may stand in a row, and how an operator makes one of two.
pub trait Operand: Drop + Sized {
    /// A binary operator, with all that its tree needs of it.
    type Operator: Copy + Drop;

    /// The level at which an operator binds: a greater one binds tighter.
    ghost level: { Self.Operator → ℕ };

    /// That a tree is the one of an operator over its left and its right operand.
    ghost Joins: { Self.Operator → Self → Self → Self → Type 0 };

    /// The level at which an operator binds: a greater one binds tighter.
    fn level(operator: Self::Operator) -> u8
        ensures { result ≡ level operator };

    /// The tree of an operator over its left and its right operand. For want of memory it drops both.
    fn join(
        alloc: Global,
        operator: Self::Operator,
        left: Self,
        right: Self,
    ) -> Result<Self, NoMemory>
        ensures { IfOk result (λ tree. Joins operator left right tree) };
}

/// The tree of a row: its first operand, and the operators behind it, each with its right operand,
/// in their order. What binds tighter is grouped first, and operators of one level to the left (C99
/// section 6.5). It takes time linear in the row. For want of memory it drops the row.
pub fn grouped<N: Operand>(
    alloc: Global,
    first: N,
    rest: Vec<(N::Operator, N)>,
) -> Result<N, NoMemory>
    ensures { IfOk result (λ tree. Groups N.level N.Joins first rest.items tree) }
{
    let mut waiting = Vec::new(alloc);
    let mut here = first;
    for (operator, next) in rest {
        here = closed(alloc, &mut waiting, here, N::level(operator))?;
        waiting.push((here, operator))?;
        here = next;
    }
    closed(alloc, &mut waiting, here, 0)
}

// Gives this right operand to the last operator that waits, and the tree to the one before it, as
// long as they bind at least as tight as a level.
fn closed<N: Operand>(
    alloc: Global,
    waiting: &mut Vec<(N, N::Operator)>,
    right: N,
    level: u8,
) -> Result<N, NoMemory>
    ensures held { IfOk result (λ tree. Keeps N.level N.Joins waiting.old.items right waiting.new.items tree level) }
    ensures loose { OnOk result (IsLoose N.level waiting.new.items level) }
{
    let mut here = right;
    while let Some((left, operator)) = last_at_least(waiting, level) {
        here = N::join(alloc, operator, left, here)?;
    }
    Ok(here)
}

// Takes the last operator that waits, with its left operand, where it binds at least as tight as a
// level.
fn last_at_least<N: Operand>(
    waiting: &mut Vec<(N, N::Operator)>,
    level: u8,
) -> Option<(N, N::Operator)>
    ensures { MatchOption result (LeavesLoose N.level waiting.old.items waiting.new.items level) (λ last. TakesLast N.level waiting.old.items waiting.new.items last.0 last.1 level) }
{
    match waiting.last() {
        Some(last) if N::level(last.1) >= level => waiting.pop(),
        _ => None,
    }
}

/// A law: each row has exactly one grouping, where operands that an operator joins have exactly one
/// tree.
#[tactic(auto, using(crate::proofs::Unique::one_grouping))]
pub fn one_grouping<N: Operand>()
    ensures { GroupsOnce N.level N.Joins }
{}
