//! Terms judged as a condition.

ghost use Rattle.std.specs.Prelude.{◌≡◌, IfOk};
ghost use Rattle.cl_condition.specs.Conditions.{Judges, OneJudgement};
ghost use Rattle.cl_condition.specs.Readings.{judged_of};

use crate::outcome::Outcome;
use crate::read::{Halt, condition};
use crate::term::{Judged, Term};
use clv_place::NoMemory;
use std::alloc::Global;

/// What terms come to as a condition: `Malformed` exactly where they are none; else `DividesByZero`
/// exactly where an operand that is evaluated divides by zero, and otherwise the value. `&&`, `||`
/// and `?:` evaluate only what they need. A number is unsigned where an operand of an arithmetic or
/// bit operator or an arm of `?:` is; shifts have the signedness of their left operand and take
/// their amounts modulo 64; comparisons, `!`, `&&` and `||` are signed, 0 or 1; all else wraps (C99
/// sections 6.10.1 and 6.5).
#[tactic(auto, using(crate::proofs::Judgements::judging))]
pub fn judge(alloc: Global, terms: &[Term]) -> Result<Judged, NoMemory>
    ensures { IfOk result (Judges terms.now) }
{
    match condition(alloc, terms, 0) {
        Ok((outcome, next)) if next == terms.len() => Ok(judged(outcome)),
        Err(Halt::NoMemory) => Err(NoMemory),
        _ => Ok(Judged::Malformed),
    }
}

// The judgement of an outcome.
fn judged(outcome: Outcome) -> Judged
    ensures { result ≡ judged_of outcome }
{
    match outcome.value {
        Some(bits) => Judged::Value {
            bits,
            unsigned: outcome.unsigned,
        },
        None => Judged::DividesByZero,
    }
}

/// A law: terms have one judgement, which is what `judge` answers.
#[tactic(auto, using(crate::proofs::Judgements::one_judgement))]
pub fn one_judgement()
    ensures { OneJudgement }
{}
