//! What one line says.

ghost use Rattle.std.specs.Prelude.{◌≡◌};
ghost use Rattle.std.specs.List.{list_all};
ghost use Rattle.hex.specs.Hex.{decode_of};
ghost use Rattle.launch_text.specs.Answers.{Answers, texts_of};
ghost use Rattle.launch_text.specs.Said.{is_remark, is_text, number32_of, line_said, words_said, kernel_said, sizes_said, grid_of, argument_said, given_said, plain_given, buffer_given, local_given, schedule_said, turns_said, robin_given, seed_given, steps_said, steps_given};

use crate::launch::Schedule;
use crate::line::{without_carriage_return, words};
use crate::number::number;
use clv_place::{NoMemory, Text};
use hex::FromHexError;
use std::alloc::{AllocError, Global};

// The most steps that a run may be given: 10^12.
const MAX_STEPS: u64 = 1_000_000_000_000;

/// The sizes of a grid along x, y and z, of which the first so many are given.
#[derive(Clone, Copy, PartialEq, Eq, Debug)]
pub struct Grid {
    pub dims: u8,
    pub sizes: [u32; 3],
}

/// What a line gives an argument: a buffer by its file's name, bytes of local memory, or plain bytes.
#[derive(Drop)]
pub enum Given {
    Buffer(Text),
    Local(u32),
    Plain(Text),
}

/// What a line says.
#[derive(Drop)]
pub enum Said {
    Nothing,
    Kernel(Text),
    Global(Grid),
    Local(Grid),
    Argument(u32, Given),
    Schedule(Schedule),
    Steps(u64),
}

/// Why a line says nothing that counts: it breaks a rule, by its number; or want of memory.
#[derive(Clone, Copy, PartialEq, Eq, Debug)]
pub enum LineStop {
    Broken(u8),
    NoMemory,
}

impl From<NoMemory> for LineStop {
    ghost use Rattle.std.specs.Prelude.{◌≡◌};
    ghost use Rattle.launch_text.specs.declared.said.LineStop.TheVariants.{NoMemory as WantOfMemory};

    ghost from_gives = { λ _ s. s ≡ WantOfMemory };

    fn from(_refused: NoMemory) -> Self {
        LineStop::NoMemory
    }
}

impl From<AllocError> for LineStop {
    ghost use Rattle.std.specs.Prelude.{◌≡◌};
    ghost use Rattle.launch_text.specs.declared.said.LineStop.TheVariants.{NoMemory as WantOfMemory};

    ghost from_gives = { λ _ s. s ≡ WantOfMemory };

    fn from(_refused: AllocError) -> Self {
        LineStop::NoMemory
    }
}

/// What a line says, or the least rule that it breaks by itself.
pub fn line_said(alloc: Global, line: &[u8]) -> Result<Said, LineStop>
    ensures { Answers result (line_said line.now) }
{
    let line = without_carriage_return(line);
    if !is_plain(line) {
        return Err(LineStop::Broken(1));
    }
    words_said(alloc, &words(alloc, line)?)
}

// Whether only such bytes stand in a line as may.
fn is_plain(line: &[u8]) -> bool
    ensures { result ≡ list_all is_text line.now }
{
    line.iter().all(|byte| is_text(*byte))
}

// What may stand in a line.
fn is_text(byte: u8) -> bool
    ensures { result ≡ is_text byte }
{
    byte >= b' ' && byte <= b'~' || byte == b'\t'
}

fn words_said(alloc: Global, words: &[&[u8]]) -> Result<Said, LineStop>
    ensures { Answers result (words_said (texts_of words.now)) }
{
    let Some((first, rest)) = words.split_first() else {
        return Ok(Said::Nothing);
    };
    let first = *first;
    if is_remark(first) {
        Ok(Said::Nothing)
    } else if first == b"kernel".as_slice() {
        kernel_said(alloc, rest)
    } else if first == b"global".as_slice() {
        Ok(Said::Global(sizes_said(rest)?))
    } else if first == b"local".as_slice() {
        Ok(Said::Local(sizes_said(rest)?))
    } else if first == b"arg".as_slice() {
        argument_said(alloc, rest)
    } else if first == b"schedule".as_slice() {
        schedule_said(rest)
    } else if first == b"steps".as_slice() {
        steps_said(rest)
    } else {
        Err(LineStop::Broken(2))
    }
}

// Whether a word begins a remark.
fn is_remark(word: &[u8]) -> bool
    ensures { result ≡ is_remark word.now }
{
    match word {
        [] => false,
        [first, ..] => *first == b'#',
    }
}

// `NAME`
fn kernel_said(alloc: Global, words: &[&[u8]]) -> Result<Said, LineStop>
    ensures { Answers result (kernel_said (texts_of words.now)) }
{
    match words {
        [name] => Ok(Said::Kernel(Text::from_bytes(alloc, name)?)),
        _ => Err(LineStop::Broken(3)),
    }
}

// `X [Y [Z]]`
fn sizes_said(words: &[&[u8]]) -> Result<Grid, LineStop>
    ensures { Answers result (sizes_said (texts_of words.now)) }
{
    match words {
        [x] => grid_of(1, number32(x), Some(1), Some(1)),
        [x, y] => grid_of(2, number32(x), number32(y), Some(1)),
        [x, y, z] => grid_of(3, number32(x), number32(y), number32(z)),
        _ => Err(LineStop::Broken(3)),
    }
}

fn grid_of(dims: u8, x: Option<u32>, y: Option<u32>, z: Option<u32>) -> Result<Grid, LineStop>
    ensures { Answers result (grid_of dims x y z) }
{
    match (x, y, z) {
        (Some(x), Some(y), Some(z)) => {
            if x == 0 || y == 0 || z == 0 {
                Err(LineStop::Broken(6))
            } else {
                Ok(Grid {
                    dims,
                    sizes: [x, y, z],
                })
            }
        }
        _ => Err(LineStop::Broken(4)),
    }
}

// A number of 32 bits.
fn number32(word: &[u8]) -> Option<u32>
    ensures { result ≡ number32_of word.now }
{
    number(word, u32::MAX as u64).map(|value| value as u32)
}

// `N buffer FILE`, `N local BYTES` and `N plain HEX`
fn argument_said(alloc: Global, words: &[&[u8]]) -> Result<Said, LineStop>
    ensures { Answers result (argument_said (texts_of words.now)) }
{
    match words {
        [ordinal, kind, value] => given_said(alloc, number32(ordinal), kind, value),
        _ => Err(LineStop::Broken(3)),
    }
}

fn given_said(
    alloc: Global,
    ordinal: Option<u32>,
    kind: &[u8],
    value: &[u8],
) -> Result<Said, LineStop>
    ensures { Answers result (given_said ordinal kind.now value.now) }
{
    if kind == b"buffer".as_slice() {
        buffer_given(alloc, ordinal, value)
    } else if kind == b"local".as_slice() {
        local_given(ordinal, number32(value))
    } else if kind == b"plain".as_slice() {
        plain_given(alloc, ordinal, value)
    } else {
        Err(LineStop::Broken(3))
    }
}

fn buffer_given(alloc: Global, ordinal: Option<u32>, file: &[u8]) -> Result<Said, LineStop>
    ensures { Answers result (buffer_given ordinal file.now) }
{
    match ordinal {
        Some(ordinal) => {
            let file = Text::from_bytes(alloc, file)?;
            Ok(Said::Argument(ordinal, Given::Buffer(file)))
        }
        None => Err(LineStop::Broken(4)),
    }
}

fn local_given(ordinal: Option<u32>, bytes: Option<u32>) -> Result<Said, LineStop>
    ensures { Answers result (local_given ordinal bytes) }
{
    match (ordinal, bytes) {
        (Some(_), Some(0)) => Err(LineStop::Broken(6)),
        (Some(ordinal), Some(bytes)) => Ok(Said::Argument(ordinal, Given::Local(bytes))),
        _ => Err(LineStop::Broken(4)),
    }
}

fn plain_given(alloc: Global, ordinal: Option<u32>, digits: &[u8]) -> Result<Said, LineStop>
    ensures { Answers result (plain_given ordinal (decode_of digits.now)) }
{
    let Some(ordinal) = ordinal else {
        return Err(LineStop::Broken(4));
    };
    match hex::decode(alloc, digits) {
        Ok(bytes) => Ok(Said::Argument(ordinal, Given::Plain(Text::from_vec(bytes)))),
        Err(FromHexError::OutOfMemory) => Err(LineStop::NoMemory),
        Err(_) => Err(LineStop::Broken(5)),
    }
}

// `robin Q` and `seed S`
fn schedule_said(words: &[&[u8]]) -> Result<Said, LineStop>
    ensures { Answers result (schedule_said (texts_of words.now)) }
{
    match words {
        [kind, value] => turns_said(kind, value),
        _ => Err(LineStop::Broken(3)),
    }
}

fn turns_said(kind: &[u8], value: &[u8]) -> Result<Said, LineStop>
    ensures { Answers result (turns_said kind.now value.now) }
{
    if kind == b"robin".as_slice() {
        robin_given(number32(value))
    } else if kind == b"seed".as_slice() {
        seed_given(number(value, u64::MAX))
    } else {
        Err(LineStop::Broken(3))
    }
}

fn robin_given(turn: Option<u32>) -> Result<Said, LineStop>
    ensures { Answers result (robin_given turn) }
{
    match turn {
        Some(0) => Err(LineStop::Broken(6)),
        Some(turn) => Ok(Said::Schedule(Schedule::Robin(turn))),
        None => Err(LineStop::Broken(4)),
    }
}

fn seed_given(seed: Option<u64>) -> Result<Said, LineStop>
    ensures { Answers result (seed_given seed) }
{
    match seed {
        Some(seed) => Ok(Said::Schedule(Schedule::Mixed(seed))),
        None => Err(LineStop::Broken(4)),
    }
}

// `N`
fn steps_said(words: &[&[u8]]) -> Result<Said, LineStop>
    ensures { Answers result (steps_said (texts_of words.now)) }
{
    match words {
        [count] => steps_given(number(count, MAX_STEPS)),
        _ => Err(LineStop::Broken(3)),
    }
}

fn steps_given(count: Option<u64>) -> Result<Said, LineStop>
    ensures { Answers result (steps_given count) }
{
    match count {
        Some(0) => Err(LineStop::Broken(6)),
        Some(count) => Ok(Said::Steps(count)),
        None => Err(LineStop::Broken(4)),
    }
}
