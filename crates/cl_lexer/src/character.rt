//! Character literals.

ghost use Rattle.std.specs.Prelude.{◌≡◌, IfSome, ◌+◌, ◌%◌, ◌^◌, ◌<◌, ◌≤◌, drop, length, take, slice_index};
ghost use Rattle.std.specs.Str.Parse.{digits_value};
ghost use Rattle.cl_lexer.specs.Characters.{char_value, character_of, escape_of, is_plain, letter_escape, spelled_of};

use crate::byte::{byte_at, rest_of};
use crate::number::{digits, is_digit_of, value_of};

/// A byte that is spelled, and in how many bytes.
#[derive(Clone, Copy, PartialEq, Eq, Debug)]
pub struct Spelled {
    pub value: u8,
    pub length: usize,
}

/// What is spelled at the front of a text, if a quote follows it.
pub fn character_of(text: &[u8]) -> Option<Spelled>
    ensures value { result ≡ character_of text.now }
    ensures within { IfSome result (λ s. s.length < length text.now) }
{
    let spelled = spelling(text)?;
    if byte_at(text, spelled.length) == b'\'' {
        Some(spelled)
    } else {
        None
    }
}

/// The byte as a char, which is signed.
pub fn char_value(byte: u8) -> i32
    ensures { result ≡ char_value byte }
{
    if byte < 128 {
        byte as i32
    } else {
        byte as i32 - 256
    }
}

fn spelling(text: &[u8]) -> Option<Spelled>
    ensures { result ≡ spelled_of text.now }
{
    let byte = byte_at(text, 0);
    if byte == b'\\' {
        escape(byte_at(text, 1), text)
    } else if is_plain(byte) {
        Some(Spelled {
            value: byte,
            length: 1,
        })
    } else {
        None
    }
}

fn is_plain(byte: u8) -> bool
    ensures { result ≡ is_plain byte }
{
    b' ' <= byte && byte <= b'~' && byte != b'\''
}

// The escape whose backslash has this byte behind it, at the front of the text.
fn escape(byte: u8, text: &[u8]) -> Option<Spelled>
    requires { slice_index text.now 1 ≡ byte }
    ensures { result ≡ escape_of byte text.now }
{
    if is_digit_of(8, byte) {
        let digits = digits(8, window(text, 1, 3));
        Some(Spelled {
            value: (few(8, digits) % 256) as u8,
            length: 1 + digits.len(),
        })
    } else if byte == b'x' {
        let digits = digits(16, window(text, 2, 2));
        if digits.is_empty() {
            None
        } else {
            Some(Spelled {
                value: few(16, digits) as u8,
                length: 2 + digits.len(),
            })
        }
    } else {
        letter_escape(byte).map(|value| Spelled { value, length: 2 })
    }
}

// The value of few digits.
fn few(radix: u8, digits: &[u8]) -> u64
    requires low { 2 ≤ radix }
    requires high { radix ≤ 16 }
    requires few { digits_value radix digits.now < 2 ^ 64 }
    ensures { result ≡ digits_value radix digits.now }
{
    value_of(radix, digits).unwrap_or(0)
}

// At most so many bytes from an index on.
fn window(text: &[u8], at: usize, most: usize) -> &[u8]
    ensures window { result.now ≡ take most (drop at text.now) }
{
    let rest = if at < text.len() {
        &text[at..]
    } else {
        &text[..0]
    };
    if most < rest.len() {
        &rest[..most]
    } else {
        rest
    }
}

fn letter_escape(byte: u8) -> Option<u8>
    ensures { result ≡ letter_escape byte }
{
    match byte {
        b'n' => Some(10),
        b't' => Some(9),
        b'r' => Some(13),
        b'a' => Some(7),
        b'b' => Some(8),
        b'f' => Some(12),
        b'v' => Some(11),
        b'\\' | b'\'' | b'"' | b'?' => Some(byte),
        _ => None,
    }
}
