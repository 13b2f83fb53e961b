//! An expression from tokens.

ghost use Rattle.std.specs.Prelude.{◌≡◌, ◌≤◌, ◌-◌, length, IfOk, IfErr};
ghost use Rattle.cl_parse_expr.specs.Longest.{Longest, StopsAt, seen_between};

use crate::expression::Taken;
use crate::reader::Reader;
use cl_grammar::{ExprStop, TypeNames, lexemes};
use cl_lexer::Tokens;
use std::alloc::Global;

/// The longest expression that begins at an index, behind these typedefs, where the list is read as if it ended at
/// `end` (C99 6.5; OpenCL C 1.2, 6.3). Indices are of tokens, from 0. It is refused at the first token, or at
/// `end`, at which no expression goes on, and else fails only for want of memory. It takes time linear in the
/// tokens from `at` to `end`.
#[tactic(auto, using(crate::proofs::LongestRead::longest))]
pub fn parse_expr(
    alloc: Global,
    tokens: &Tokens,
    at: usize,
    end: usize,
    names: &TypeNames,
) -> Result<Taken, ExprStop>
    requires order { at ≤ end }
    requires within { end ≤ length tokens.now.list }
    ensures forth { IfOk result (λ taken. at ≤ taken.next) }
    ensures ok { IfOk result (λ taken. Longest (seen_between tokens.now names.now at end) (taken.next - at) taken.tree) }
    ensures out { IfErr result (StopsAt (seen_between tokens.now names.now at end) at) }
{
    let seen = lexemes(alloc, &tokens.list.as_slice()[at..end], tokens.end)?;
    let reader = Reader::new(seen.as_slice(), names);
    match reader.expr(alloc, 0) {
        Ok(taken) => Ok(Taken {
            tree: taken.tree,
            next: at + taken.next,
        }),
        Err(ExprStop::Out { at: k }) => Err(ExprStop::Out { at: at + k }),
        Err(ExprStop::NoMemory) => Err(ExprStop::NoMemory),
    }
}
