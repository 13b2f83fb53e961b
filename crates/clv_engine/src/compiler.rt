//! The compiler: from a text to the bytes of its module.

ghost use Rattle.std.specs.Prelude.{IfOk, IfErr};
ghost use Rattle.clv_engine.specs.FirstForm.{IsStopOf};
ghost use Rattle.clv_engine.specs.Command.{IsCompiled};

use crate::emit::emit;
use crate::front::first_form;
use clv_place::{Stop, Text};
use spv_binary::write;
use std::alloc::Global;

/// The bytes of the module of a text: the little-endian words of SPIR-V 1.3. A text is refused at its
/// first offence: of the lexer, else of the expansion, else of the grammar, else of the typing rules. A unit that
/// keeps them and is no kernel of the form that is compiled so far is refused by code 900 at 1:1.
#[tactic(auto, using(crate::proofs::Compiled::compile_steps))]
pub fn compile(alloc: Global, text: &[u8]) -> Result<Text, Stop>
    ensures compiled { IfOk result (IsCompiled text.now) }
    ensures refused { IfErr result (IsStopOf text.now) }
{
    let kernel = first_form(alloc, text)?;
    let module = emit(alloc, &kernel)?;
    Ok(write(alloc, &module)?)
}
