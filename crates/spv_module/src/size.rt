//! How many words instructions take, and where they stand in a module (SPIR-V 2.3).

ghost use Rattle.std.specs.Prelude.{◌≡◌, ◌+◌, ◌<◌, ◌≤◌, ◌^◌, length, take};
ghost use Rattle.std.specs.List.{flat_map};
ghost use Rattle.spv_module.specs.Words.{operand_words, word_count as words_of_inst, body_words};
ghost use Rattle.spv_module.specs.Interface.{word_at as first_word};

use crate::module::{Inst, Operand};

/// The words of a module's header.
const HEADER: u32 = 5;

#[tactic(auto, using(crate::proofs::Lengths::string_lengths))]
fn operand_len(operand: &Operand) -> u32
    requires { length (operand_words operand.now) < 2 ^ 32 }
    ensures { result ≡ length (operand_words operand.now) }
{
    match operand {
        Operand::Id(_) => 1,
        Operand::Word(_) => 1,
        Operand::Str(text) => (text.len() / 4 + 1) as u32,
    }
}

fn operands_len(operands: &[Operand]) -> u32
    requires { length (flat_map operand_words operands.now) < 2 ^ 32 }
    ensures { result ≡ length (flat_map operand_words operands.now) }
{
    let mut count = 0;
    for operand in operands {
        count += operand_len(operand);
    }
    count
}

fn insts_len(insts: &[Inst], start: u32) -> u32
    requires { start + length (body_words insts.now) < 2 ^ 32 }
    ensures { result ≡ start + length (body_words insts.now) }
{
    let mut count = start;
    for inst in insts {
        count += 1 + operands_len(inst.operands.as_slice());
    }
    count
}

/// The index of the first word of the instruction at a place, in words from the module's beginning.
pub fn word_at(body: &[Inst], place: usize) -> u32
    requires place { place ≤ length body.now }
    requires size { first_word body.now place < 2 ^ 32 }
    ensures { result ≡ first_word body.now place }
{
    insts_len(&body[..place], HEADER)
}
