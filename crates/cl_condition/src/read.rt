//! Conditions read from their terms, by descent through the grammar.

ghost use Rattle.std.specs.Prelude.{◌≡◌, ◌≤◌, ◌<◌, ◌+◌, length, drop, IfOk, IfErr, MatchOption, MatchBool};
ghost use Rattle.cl_condition.specs.Operators.{unary_of};
ghost use Rattle.cl_condition.specs.Readings.{StandsAt, MarkAt, OtherAt, OperatorAt, NoOperatorAt, UnaryAt, RowAt, ConditionAt, UnaryStopped, RowStopped, ConditionStopped, IsEndAt};

use crate::operator::{BinaryOperator, UnaryOperator};
use crate::outcome::Outcome;
use crate::term::Term;
use cl_precedence::grouped;
use clv_place::NoMemory;
use std::alloc::{AllocFailed, Global};

/// Why a reading stops.
#[derive(Clone, Copy, PartialEq, Eq, Debug)]
pub enum Halt {
    /// What stands there is none of what was to be read.
    Malformed,
    NoMemory,
}

// Marks by their numbers.
const OPEN: u8 = 8;

const CLOSE: u8 = 9;

const COLON: u8 = 23;

const QUESTION: u8 = 35;

// The term at an index, where there is one.
#[tactic(auto, using(crate::proofs::Terms::terms))]
fn term_at(terms: &[Term], at: usize) -> Option<Term>
    ensures { MatchOption result (IsEndAt terms.now at) (StandsAt terms.now at) }
{
    terms.get(at).copied()
}

// Whether this mark stands at an index.
#[tactic(auto, using(crate::proofs::Terms::terms))]
fn is_mark(terms: &[Term], at: usize, mark: u8) -> bool
    ensures { MatchBool result (MarkAt terms.now at mark) (OtherAt terms.now at mark) }
{
    match term_at(terms, at) {
        Some(Term::Mark(other)) => other == mark,
        Some(Term::Value { .. }) | Some(Term::Stray) | None => false,
    }
}

// The operator whose mark stands at an index.
#[tactic(auto, using(crate::proofs::Terms::terms))]
fn operator_at(terms: &[Term], at: usize) -> Option<BinaryOperator>
    ensures { MatchOption result (NoOperatorAt terms.now at) (OperatorAt terms.now at) }
{
    match term_at(terms, at) {
        Some(Term::Mark(mark)) => BinaryOperator::of_mark(mark),
        Some(Term::Value { .. }) | Some(Term::Stray) | None => None,
    }
}

/// The condition that begins at an index, and the index behind it: a row, and where `?` stands
/// behind it two arms (C99 section 6.5.15).
#[cycle(condition)]
#[tactic(auto, using(crate::proofs::Reading::reading))]
pub fn condition(alloc: Global, terms: &[Term], at: usize) -> Result<(Outcome, usize), Halt>
    requires { at ≤ length terms.now }
    ensures read { IfOk result (λ r. ConditionAt terms.now at r.1 r.0) }
    ensures stopped { IfErr result (ConditionStopped terms.now at) }
{
    let (test, here) = row(alloc, terms, at)?;
    if !is_mark(terms, here, QUESTION) {
        return Ok((test, here));
    }
    let (passed, colon) = condition(alloc, terms, here + 1)?;
    if !is_mark(terms, colon, COLON) {
        return Err(Halt::Malformed);
    }
    let (failed, next) = condition(alloc, terms, colon + 1)?;
    Ok((Outcome::choice(test, passed, failed), next))
}

// The row of operands that begins at an index, and the index behind it.
#[cycle(condition)]
#[tactic(auto, using(crate::proofs::Reading::reading))]
fn row(alloc: Global, terms: &[Term], at: usize) -> Result<(Outcome, usize), Halt>
    requires { at ≤ length terms.now }
    ensures read { IfOk result (λ r. RowAt terms.now at r.1 r.0) }
    ensures stopped { IfErr result (RowStopped terms.now at) }
{
    let (first, mut here) = unary(alloc, terms, at)?;
    let mut rest = Vec::new(alloc);
    while let Some(operator) = operator_at(terms, here) {
        let (operand, next) = unary(alloc, terms, here + 1)?;
        rest.push((operator, operand))?;
        here = next;
    }
    Ok((grouped(alloc, first, rest)?, here))
}

// The number, operator with its operand or bracket that begins at an index, and the index behind
// it.
#[cycle(condition)]
#[tactic(auto, using(crate::proofs::Reading::reading))]
fn unary(alloc: Global, terms: &[Term], at: usize) -> Result<(Outcome, usize), Halt>
    requires { at ≤ length terms.now }
    ensures read { IfOk result (λ r. UnaryAt terms.now at r.1 r.0) }
    ensures stopped { IfErr result (UnaryStopped terms.now at) }
{
    match term_at(terms, at) {
        Some(Term::Value { bits, unsigned }) => Ok((Outcome::number(bits, unsigned), at + 1)),
        Some(Term::Mark(OPEN)) => bracket(alloc, terms, at),
        Some(Term::Mark(mark)) => match UnaryOperator::of_mark(mark) {
            Some(operator) => prefix(alloc, terms, at, mark, operator),
            None => Err(Halt::Malformed),
        },
        Some(Term::Stray) | None => Err(Halt::Malformed),
    }
}

// The bracket whose mark stands at an index, and the index behind it.
#[cycle(condition)]
#[tactic(auto, using(crate::proofs::Reading::reading))]
fn bracket(alloc: Global, terms: &[Term], at: usize) -> Result<(Outcome, usize), Halt>
    requires { MarkAt terms.now at OPEN }
    ensures read { IfOk result (λ r. UnaryAt terms.now at r.1 r.0) }
    ensures stopped { IfErr result (UnaryStopped terms.now at) }
{
    let (inner, close) = condition(alloc, terms, at + 1)?;
    if is_mark(terms, close, CLOSE) {
        Ok((inner, close + 1))
    } else {
        Err(Halt::Malformed)
    }
}

// The operator whose mark stands at an index, with its operand, and the index behind it.
#[cycle(condition)]
#[tactic(auto, using(crate::proofs::Reading::reading))]
fn prefix(
    alloc: Global,
    terms: &[Term],
    at: usize,
    mark: u8,
    operator: UnaryOperator,
) -> Result<(Outcome, usize), Halt>
    requires stands { MarkAt terms.now at mark }
    requires is { unary_of mark ≡ Some operator }
    ensures read { IfOk result (λ r. UnaryAt terms.now at r.1 r.0) }
    ensures stopped { IfErr result (UnaryStopped terms.now at) }
{
    let (operand, next) = unary(alloc, terms, at + 1)?;
    Ok((Outcome::unary(operator, operand), next))
}

impl From<NoMemory> for Halt {
    ghost use Rattle.std.specs.Prelude.{◌≡◌};
    ghost use Rattle.cl_condition.specs.declared.read.Halt.TheVariants.{NoMemory as WantOfMemory};

    ghost from_gives = { λ _ s. s ≡ WantOfMemory };

    fn from(_refused: NoMemory) -> Self {
        Halt::NoMemory
    }
}

impl<T: Drop> From<AllocFailed<T>> for Halt {
    ghost use Rattle.std.specs.Prelude.{◌≡◌};
    ghost use Rattle.cl_condition.specs.declared.read.Halt.TheVariants.{NoMemory as WantOfMemory};

    ghost from_gives = { λ _ s. s ≡ WantOfMemory };

    fn from(_refused: AllocFailed<T>) -> Self {
        Halt::NoMemory
    }
}
