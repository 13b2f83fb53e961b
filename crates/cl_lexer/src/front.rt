//! What stands first in a text whose lines are joined.

ghost use Rattle.std.specs.Prelude.{◌≡◌, ◌+◌, ◌<◌, ◌≤◌, ◌==◌, ◌&&◌, IfOk, IfSome, drop, length, slice_index, take_while};
ghost use Rattle.cl_lexer.specs.Bytes.{is_word, is_number_part};
ghost use Rattle.cl_lexer.specs.Characters.{character_of};
ghost use Rattle.cl_lexer.specs.Marks.{mark_of};
ghost use Rattle.cl_lexer.specs.Numbers.{number_of};
ghost use Rattle.cl_lexer.specs.Fronts.{comment_end, front_at, front_in, front_of, is_beginning, is_message, is_message_name, line_of, mark_front, number_front, character_front, slash_front, stage_after};

use crate::byte::{byte_at, is_letter, is_separator, is_word, rest_of};
use crate::character::{char_value, character_of};
use crate::mark::{HASH, mark_length, mark_of};
use crate::number::number_of;
use crate::token::TokenKind;
use clv_place::{NoMemory, Text};
use std::alloc::Global;

/// What stands first in a text.
#[derive(Drop)]
pub enum Front {
    /// Nothing.
    End,
    /// The LF that ends a line.
    LineEnd,
    /// A separator or a comment, of so many bytes.
    Apart(usize),
    /// A token, of so many bytes.
    Begins(TokenKind, usize),
    /// An offence of a code.
    Bad(u16),
}

/// How far a line has come.
#[derive(Clone, Copy, PartialEq, Eq, Debug)]
pub enum Stage {
    /// It has no token yet.
    Beginning,
    /// It has the token `#`.
    Hash,
    /// It has the tokens `#` and `error` or `pragma`: one token takes the rest.
    Message,
    /// It has other tokens.
    Inside,
}

impl Stage {
    /// Whether the next token is the first of its line.
    pub fn is_beginning(self) -> bool
        ensures { result ≡ is_beginning self }
    {
        self == Stage::Beginning
    }

    /// The stage behind one more token.
    pub fn after(self, kind: &TokenKind) -> Stage
        ensures { result ≡ stage_after self kind.now }
    {
        match (self, kind) {
            (Stage::Beginning, TokenKind::Mark(number)) => {
                if *number == HASH {
                    Stage::Hash
                } else {
                    Stage::Inside
                }
            }
            (Stage::Hash, TokenKind::Name(name)) => {
                if is_message_name(name.as_slice()) {
                    Stage::Message
                } else {
                    Stage::Inside
                }
            }
            _ => Stage::Inside,
        }
    }
}

fn is_message_name(name: &[u8]) -> bool
    ensures { result ≡ is_message_name name.now }
{
    name == b"error".as_slice() || name == b"pragma".as_slice()
}

/// What stands first in a text at a stage of its line.
#[tactic(auto, unfolding(crate::specs::Fronts::front_of))]
pub fn front_of(alloc: Global, stage: Stage, text: &[u8]) -> Result<Front, NoMemory>
    ensures { IfOk result (λ f. f ≡ front_of stage text.now) }
{
    if stage == Stage::Message {
        let line = line(text);
        return Ok(Front::Begins(TokenKind::Rest(Text::from_bytes(alloc, line)?), line.len()));
    }
    if text.is_empty() {
        return Ok(Front::End);
    }
    front_at(alloc, text[0], text)
}

fn front_at(alloc: Global, byte: u8, text: &[u8]) -> Result<Front, NoMemory>
    requires { 0 < length text.now }
    ensures { IfOk result (λ f. f ≡ front_at byte text.now) }
{
    if byte == b'\n' {
        Ok(Front::LineEnd)
    } else if is_separator(byte) {
        Ok(Front::Apart(1))
    } else if is_letter(byte) {
        let word = word(text);
        Ok(Front::Begins(TokenKind::Name(Text::from_bytes(alloc, word)?), word.len()))
    } else if byte.is_ascii_digit() {
        Ok(number_front(text))
    } else if byte == b'\'' {
        Ok(character_front(text))
    } else if byte == b'/' {
        Ok(slash_front(byte_at(text, 1), text))
    } else {
        Ok(mark_front(text))
    }
}

// The bytes up to the end of the line.
fn line(text: &[u8]) -> &[u8]
    ensures line { result.now ≡ line_of text.now }
{
    let mut n = 0;
    while n < text.len() && text[n] != b'\n' {
        n += 1;
    }
    &text[..n]
}

// The word at the front.
fn word(text: &[u8]) -> &[u8]
    ensures word { result.now ≡ take_while is_word text.now }
{
    let mut n = 0;
    while n < text.len() && is_word(text[n]) {
        n += 1;
    }
    &text[..n]
}

// All that a number at the front takes.
fn number_word(text: &[u8]) -> &[u8]
    ensures word { result.now ≡ take_while is_number_part text.now }
{
    let mut n = 0;
    while n < text.len() && (is_word(text[n]) || text[n] == b'.') {
        n += 1;
    }
    &text[..n]
}

fn number_front(text: &[u8]) -> Front
    ensures { result ≡ number_front (length (take_while is_number_part text.now)) (number_of (take_while is_number_part text.now)) }
{
    let word = number_word(text);
    match number_of(word) {
        Some(number) => Front::Begins(
            TokenKind::Number {
                value: number.value,
                ty: number.ty,
            },
            word.len(),
        ),
        None => Front::Bad(103),
    }
}

fn character_front(text: &[u8]) -> Front
    requires { 0 < length text.now }
    ensures { result ≡ character_front (character_of (drop 1 text.now)) }
{
    match character_of(rest_of(text, 1)) {
        Some(spelled) => Front::Begins(
            TokenKind::Char(char_value(spelled.value)),
            spelled.length + 2,
        ),
        None => Front::Bad(104),
    }
}

fn slash_front(byte: u8, text: &[u8]) -> Front
    requires { slice_index text.now 1 ≡ byte }
    ensures { result ≡ slash_front byte text.now }
{
    if byte == b'/' {
        Front::Apart(line(text).len())
    } else if byte == b'*' {
        match comment_end(rest_of(text, 2)) {
            Some(n) => Front::Apart(n + 2),
            None => Front::Bad(102),
        }
    } else {
        mark_front(text)
    }
}

// How many bytes there are up to the first `*/`, and with it.
#[tactic(auto, using(crate::proofs::Comments::comments))]
fn comment_end(text: &[u8]) -> Option<usize>
    ensures end { result ≡ comment_end text.now }
    ensures within { IfSome result (λ n. n ≤ length text.now) }
{
    for at in 0..text.len() {
        if ends_comment(text, at) {
            return Some(at + 2);
        }
    }
    None
}

// Whether a comment ends with the byte at an index and the next.
fn ends_comment(text: &[u8], at: usize) -> bool
    requires { at < length text.now }
    ensures { result ≡ ((slice_index text.now at == 42) && (slice_index text.now (at + 1) == 47)) }
{
    byte_at(text, at) == b'*' && byte_at(text, at + 1) == b'/'
}

fn mark_front(text: &[u8]) -> Front
    ensures { result ≡ mark_front (mark_of text.now) }
{
    match mark_of(text) {
        Some(number) => Front::Begins(TokenKind::Mark(number), mark_length(number)),
        None => Front::Bad(101),
    }
}
