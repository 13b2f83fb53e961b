//! The room where bytes become a module.

ghost use Rattle.std.specs.Prelude.{◌≡◌, ◌+◌, ◌*◌, ◌/◌, ◌<◌, ◌≤◌, ◌^◌, true, length, IfOk, IfErr};
ghost use Rattle.spv_module.specs.Words.{Spells};
ghost use Rattle.spv_binary.specs.Faults.{fault as fault_of, fills, count_of as words_taken};
ghost use Rattle.spv_binary.specs.Kinds.{kind_of, numbers_of, shape_kinds};
ghost use Rattle.spv_binary.specs.Reading.{
  Answers,
  BodyRead,
  Gives,
  IsFaultOf,
  demand as demanded,
  enumerant_at,
  header_at,
  id_at,
  inst_at,
  operand_at,
  operands_at,
  word_at as word_in,
};

use crate::kind::{Kind, Set};
use crate::shape::{Shape, behind, shape_of, width};
use crate::stop::{ReadStop, rule};
use crate::string::read_string;
use crate::words::words_of;
use clv_place::List;
use spv_module::module::{MAGIC, MAX_BOUND, MAX_BYTES, VERSION};
use spv_module::{Inst, Module, Operand};
use std::alloc::Global;

/// The words of a header.
const HEADER_LEN: usize = 5;

/// The module that the bytes spell, in either order of bytes, or the first fault in the order of the
/// file: of two at one word that of the least number. What is left behind the last whole word is a
/// fault at the index behind it.
pub fn read(alloc: Global, bytes: &[u8]) -> Result<Module, ReadStop>
    // What is read is spelled so.
    ensures found { IfOk result (λ m. Spells m bytes.now) }
    // What is spelled so is read, unless memory runs out.
    ensures only { (m : Module) → Spells m bytes.now → Answers m result }
    // Which fault it is.
    ensures first { IfErr result (IsFaultOf bytes.now) }
{
    read_all(alloc, bytes)
}

fn read_all(alloc: Global, bytes: &[u8]) -> Result<Module, ReadStop>
    ensures found { IfOk result (λ m. Spells m bytes.now) }
    ensures first { IfErr result (IsFaultOf bytes.now) }
{
    if bytes.len() > MAX_BYTES {
        return Err(fault(rule::SIZE, 0));
    }
    let read = words_of(alloc, bytes)?;
    let words = read.as_slice();
    let (generator, bound) = read_header(words)?;
    let body = read_body(alloc, bound, behind(words, HEADER_LEN))?;
    if bytes.len() % 4 != 0 {
        return Err(fault(rule::SIZE, words.len() as u32));
    }
    Ok(Module {
        version: VERSION,
        generator,
        bound,
        body,
    })
}

fn fault(number: u8, word: u32) -> ReadStop
    ensures { result ≡ ReadStop.Fault number word }
{
    ReadStop::Fault { number, word }
}

/// The generator and the bound. A header that is too short has its fault behind its last word.
#[tactic(auto, unfolding(crate::specs::Reading::header_at))]
fn read_header(words: &[u32]) -> Result<(u32, u32), ReadStop>
    requires { length words.now < 2 ^ 32 }
    ensures { Gives result (header_at words.now) }
{
    demand(word_at(words, 0)? == MAGIC, rule::MAGIC, 0)?;
    demand(word_at(words, 1)? == VERSION, rule::VERSION, 1)?;
    let generator = word_at(words, 2)?;
    let bound = word_at(words, 3)?;
    demand(1 <= bound && bound <= MAX_BOUND, rule::ID, 3)?;
    demand(word_at(words, 4)? == 0, rule::SCHEMA, 4)?;
    Ok((generator, bound))
}

#[tactic(auto, unfolding(crate::specs::Reading::word_at))]
fn word_at(words: &[u32], at: usize) -> Result<u32, ReadStop>
    requires { length words.now < 2 ^ 32 }
    ensures { Gives result (word_in words.now at) }
{
    match words.get(at) {
        Some(word) => Ok(*word),
        None => Err(fault(rule::SIZE, words.len() as u32)),
    }
}

/// A rule is broken at a word unless a test holds.
fn demand(holds: bool, number: u8, word: u32) -> Result<(), ReadStop>
    ensures { Gives result (demanded holds (fault_of number word)) }
{
    if holds {
        Ok(())
    } else {
        Err(fault(number, word))
    }
}

/// The instructions that all of these words hold, which stand behind the header.
#[tactic(auto, using(crate::proofs::Bodies::body_steps))]
fn read_body(alloc: Global, bound: u32, words: &[u32]) -> Result<List<Inst>, ReadStop>
    requires { 5 + length words.now < 2 ^ 32 }
    ensures { BodyRead bound words.now result }
{
    let mut body = List::new(alloc);
    let mut rest = words;
    let mut at = HEADER_LEN as u32;
    while !rest.is_empty() {
        let inst = read_inst(alloc, bound, at, rest)?;
        let count = count_of(rest[0]);
        body.push(inst)?;
        rest = behind(rest, count as usize);
        at += count;
    }
    Ok(body)
}

/// How many words an instruction takes, by its first (SPIR-V 2.3).
fn count_of(first: u32) -> u32
    ensures { result ≡ words_taken first }
{
    first >> 16
}

/// The instruction at the front, whose first word is the one at the index `at` of the file.
#[tactic(auto, unfolding(crate::specs::Reading::inst_at))]
fn read_inst(alloc: Global, bound: u32, at: u32, words: &[u32]) -> Result<Inst, ReadStop>
    requires some { 1 ≤ length words.now }
    requires small { at + length words.now < 2 ^ 32 }
    ensures { Gives result (inst_at bound at words.now) }
{
    let count = count_of(words[0]) as usize;
    if count == 0 || count > words.len() {
        return Err(fault(rule::COUNT, at));
    }
    let op = (words[0] % 65536) as u16;
    let words = &words[1..count];
    let Some(shape) = shape_of(op, words) else {
        return Err(fault(rule::OPCODE, at));
    };
    if !shape.fits(words) {
        return Err(fault(rule::FORM, at));
    }
    let operands = read_operands(alloc, &shape, bound, at + 1, words)?;
    Ok(Inst { op, operands })
}

/// The operands that these words hold, of which the first is the one at the index `start` of the
/// file.
#[tactic(auto, using(crate::proofs::Loops::operand_steps))]
fn read_operands(
    alloc: Global,
    shape: &Shape,
    bound: u32,
    start: u32,
    words: &[u32],
) -> Result<List<Operand>, ReadStop>
    requires count { shape.now.count ≤ 8 }
    requires long { length shape.now.kinds ≡ 8 }
    requires fits { fills (shape_kinds shape.now words.now) words.now ≡ true }
    requires small { start + length words.now < 2 ^ 32 }
    ensures { Gives result (operands_at bound (shape_kinds shape.now words.now) start words.now) }
{
    let mut operands = List::new(alloc);
    let mut rest = words;
    let mut at = start;
    while !rest.is_empty() {
        let kind = shape.kind(operands.len());
        operands.push(read_operand(alloc, kind, bound, at, rest)?)?;
        let width = width(kind, rest);
        rest = behind(rest, width);
        at += width as u32;
    }
    Ok(operands)
}

/// The operand at the front, whose first word is the one at the index `at` of the file.
#[tactic(auto, unfolding(crate::specs::Reading::operand_at))]
fn read_operand(
    alloc: Global,
    kind: Kind,
    bound: u32,
    at: u32,
    words: &[u32],
) -> Result<Operand, ReadStop>
    requires { 1 ≤ length words.now }
    ensures { Gives result (operand_at bound (kind_of kind) at words.now) }
{
    match kind {
        Kind::Id => read_id(bound, at, words[0]),
        Kind::Word => Ok(Operand::Word(words[0])),
        Kind::OneOf(set) => read_enumerant(set, at, words[0]),
        Kind::Str => match read_string(alloc, words)? {
            Some(text) => Ok(Operand::Str(text)),
            None => Err(fault(rule::STRING, at)),
        },
    }
}

fn read_id(bound: u32, at: u32, id: u32) -> Result<Operand, ReadStop>
    ensures { Gives result (id_at bound at id) }
{
    demand(1 <= id && id < bound, rule::ID, at)?;
    Ok(Operand::Id(id))
}

fn read_enumerant(set: Set, at: u32, number: u32) -> Result<Operand, ReadStop>
    ensures { Gives result (enumerant_at (numbers_of set) at number) }
{
    demand(set.has(number), rule::FORM, at)?;
    Ok(Operand::Word(number))
}
