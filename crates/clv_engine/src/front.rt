//! From a text to the kernel that it is.

ghost use Rattle.std.specs.Prelude.{◌≡◌, IfOk, IfErr};
ghost use Rattle.clv_engine.specs.FirstForm.{IsIn, IsStopOf, InOrOut, OneOffence};

use crate::form::{Kernel, form};
use cl_lexer::lex;
use cl_parse::parse;
use cl_pre::expand;
use cl_typing::type_unit;
use clv_place::{Offence, Place, Stop};
use std::alloc::Global;

/// The kernel that a text is, once its tokens are expanded. The text is refused at its first offence: of
/// the lexer, else of the expansion, else of the grammar, else of the typing rules. A unit that keeps them and
/// is no such kernel is refused by code 900 at 1:1.
#[tactic(auto, using(crate::proofs::Refusals::refusals))]
pub fn first_form(alloc: Global, text: &[u8]) -> Result<Kernel, Stop>
    ensures ok { IfOk result (λ k. IsIn text.now k) }
    ensures out { IfErr result (IsStopOf text.now) }
{
    let tokens = lex(alloc, text)?;
    let expanded = expand(alloc, &tokens)?;
    let tree = parse(alloc, &expanded)?;
    let _typed = type_unit(alloc, &tree)?;
    match form(alloc, expanded.list.as_slice())? {
        Some(kernel) => Ok(kernel),
        None => Err(Stop::Out(not_built())),
    }
}

// The refusal of a unit that is no kernel of the form.
fn not_built() -> Offence
    ensures code { result.code ≡ 900 }
    ensures line { result.place.line ≡ 1 }
    ensures col { result.place.col ≡ 1 }
{
    Offence {
        code: 900,
        place: Place { line: 1, col: 1 },
    }
}

/// A text is a kernel or has one offence, and never both.
pub fn one_verdict()
    ensures no_both { InOrOut }
    ensures one { OneOffence }
{
    cl_lexer::one_verdict();
    cl_pre::one_verdict();
    cl_parse::one_offence();
    cl_plain::one_tree();
    cl_verdicts::one_verdict();
}
