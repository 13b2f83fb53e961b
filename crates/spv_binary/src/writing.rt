//! The room where a module becomes bytes: its words in order, of each word the lowest byte first
//! (SPIR-V 2.3).

ghost use Rattle.spv_module.specs.Words.{
  HasCount,
  header_words,
  inst_words,
  little_endian,
  module_words,
  operand_words,
  string_words,
};
ghost use Rattle.std.specs.Int.{w32, to_le_bytes};
ghost use Rattle.std.specs.List.{flat_map};
ghost use Rattle.std.specs.Prelude.{All, IfOk, OnOk, ◌++◌, ◌+◌, ◌*◌, ◌%◌, ◌<◌, ◌≡◌, ◌∷◌, [], drop, length};

use clv_place::{NoMemory, Text};
use spv_module::module::MAGIC;
use spv_module::{Inst, Module, Operand};
use std::alloc::Global;

/// The last word of a module's header, which is reserved (SPIR-V 2.3).
const SCHEMA: u32 = 0;

/// The bytes of a module. Fails for want of memory alone.
#[tactic(auto, using(crate::proofs::Bytes::joined))]
pub fn write(alloc: Global, module: &Module) -> Result<Text, NoMemory>
    requires { All HasCount «module».now.body }
    ensures { IfOk result (λ bytes. bytes ≡ little_endian (module_words «module».now)) }
{
    let mut bytes = Text::new(alloc);
    put_header(&mut bytes, module)?;
    put_body(&mut bytes, module.body.as_slice())?;
    Ok(bytes)
}

fn put_header(bytes: &mut Text, module: &Module) -> Result<(), NoMemory>
    ensures { OnOk result (bytes.new ≡ bytes.old ++ little_endian (header_words «module».now)) }
{
    put_words(
        bytes,
        &[
            MAGIC,
            module.version,
            module.generator,
            module.bound,
            SCHEMA,
        ],
    )
}

#[tactic(auto, using(crate::proofs::Bytes::joined))]
fn put_body(bytes: &mut Text, body: &[Inst]) -> Result<(), NoMemory>
    requires { All HasCount body.now }
    ensures { OnOk result (bytes.new ≡ bytes.old ++ little_endian (flat_map inst_words body.now)) }
{
    for inst in body {
        put_inst(bytes, inst)?;
    }
    Ok(())
}

fn put_inst(bytes: &mut Text, inst: &Inst) -> Result<(), NoMemory>
    requires { HasCount inst.now }
    ensures { OnOk result (bytes.new ≡ bytes.old ++ little_endian (inst_words inst.now)) }
{
    let operands = inst.operands.as_slice();
    put_word(bytes, first_word(1 + operands_len(operands), inst.op))?;
    put_operands(bytes, operands)
}

/// The first word of an instruction: how many words it takes, and its opcode (SPIR-V 2.3).
fn first_word(count: u32, op: u16) -> u32
    requires { count < 65536 }
    ensures { result ≡ count * 65536 + op }
{
    (count << 16) + u32::from(op)
}

/// How many words operands take.
fn operands_len(operands: &[Operand]) -> u32
    requires { length (flat_map operand_words operands.now) < 65536 }
    ensures { result ≡ length (flat_map operand_words operands.now) }
{
    let mut count = 0;
    for operand in operands {
        count += operand_len(operand);
    }
    count
}

#[tactic(auto, using(crate::proofs::Bytes::string_lengths))]
fn operand_len(operand: &Operand) -> u32
    requires { length (operand_words operand.now) < 65536 }
    ensures { result ≡ length (operand_words operand.now) }
{
    match operand {
        Operand::Id(_) => 1,
        Operand::Word(_) => 1,
        Operand::Str(text) => (text.len() / 4 + 1) as u32,
    }
}

#[tactic(auto, using(crate::proofs::Bytes::joined))]
fn put_operands(bytes: &mut Text, operands: &[Operand]) -> Result<(), NoMemory>
    ensures { OnOk result (bytes.new ≡ bytes.old ++ little_endian (flat_map operand_words operands.now)) }
{
    for operand in operands {
        put_operand(bytes, operand)?;
    }
    Ok(())
}

fn put_operand(bytes: &mut Text, operand: &Operand) -> Result<(), NoMemory>
    ensures { OnOk result (bytes.new ≡ bytes.old ++ little_endian (operand_words operand.now)) }
{
    match operand {
        Operand::Id(id) => put_word(bytes, *id),
        Operand::Word(word) => put_word(bytes, *word),
        Operand::Str(text) => put_string(bytes, text.as_slice()),
    }
}

/// A string and the zero bytes that end it: one to four, up to a whole word (SPIR-V 2.2.1).
fn put_string(bytes: &mut Text, string: &[u8]) -> Result<(), NoMemory>
    ensures { OnOk result (bytes.new ≡ bytes.old ++ little_endian (string_words string.now)) }
{
    bytes.extend(string)?;
    bytes.extend(string_end(string.len()))
}

fn string_end(len: usize) -> &'static [u8]
    ensures { result.now ≡ drop (len % 4) (0 ∷ 0 ∷ 0 ∷ 0 ∷ []) }
{
    &[0; 4][len % 4..]
}

fn put_words(bytes: &mut Text, words: &[u32]) -> Result<(), NoMemory>
    ensures { OnOk result (bytes.new ≡ bytes.old ++ little_endian words.now) }
{
    for word in words {
        put_word(bytes, *word)?;
    }
    Ok(())
}

fn put_word(bytes: &mut Text, word: u32) -> Result<(), NoMemory>
    ensures { OnOk result (bytes.new ≡ bytes.old ++ to_le_bytes w32 word) }
{
    bytes.extend(&word.to_le_bytes())
}
