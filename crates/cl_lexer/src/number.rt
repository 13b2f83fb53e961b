//! Numbers.

ghost use Rattle.std.specs.Prelude.{◌≡◌, ◌<◌, ◌≤◌, ◌^◌, IsTrue, length, nat_lt, if◌then◌else◌, Some, None, take_while};
ghost use Rattle.std.specs.Char.{digit_value};
ghost use Rattle.std.specs.Str.Parse.{digits_value};
ghost use Rattle.cl_lexer.specs.Numbers.{is_hexadecimal, radix_of, body_of, is_digit_of, digits_of, is_u, is_l, suffix_of, type_of, suffixed, number_in, number_of};

use crate::byte::{byte_at, rest_of};

/// The value of a number and its type: 0 for int, 1 for uint, 2 for long, 3 for ulong.
#[derive(Clone, Copy, PartialEq, Eq, Debug)]
pub struct Number {
    pub value: u64,
    pub ty: u8,
}

/// What the suffix of a number asks for.
#[derive(Clone, Copy, PartialEq, Eq, Debug)]
pub struct Suffix {
    pub unsigned: bool,
    pub long: bool,
}

/// The number that a whole word writes, if it is well formed and has a type.
pub fn number_of(word: &[u8]) -> Option<Number>
    ensures { result ≡ number_of word.now }
{
    if is_hexadecimal(word) {
        number_in(16, rest_of(word, 2))
    } else if byte_at(word, 0) == b'0' {
        number_in(8, word)
    } else {
        number_in(10, word)
    }
}

fn is_hexadecimal(word: &[u8]) -> bool
    ensures value { result ≡ is_hexadecimal word.now }
    ensures within { IsTrue result → 2 ≤ length word.now }
{
    byte_at(word, 0) == b'0' && (byte_at(word, 1) == b'x' || byte_at(word, 1) == b'X')
}

fn number_in(radix: u8, body: &[u8]) -> Option<Number>
    requires low { 2 ≤ radix }
    requires high { radix ≤ 16 }
    ensures { result ≡ number_in radix body.now }
{
    let digits = digits(radix, body);
    if digits.is_empty() {
        return None;
    }
    let suffix = suffix_of(rest_of(body, digits.len()))?;
    suffixed(radix, value_of(radix, digits)?, suffix)
}

fn suffixed(radix: u8, value: u64, suffix: Suffix) -> Option<Number>
    ensures { result ≡ suffixed radix value (Some suffix) }
{
    type_of(radix, suffix, value).map(|ty| Number { value, ty })
}

/// The value of a digit: 0 to 9, then letters in either case from 10; 36 for what is no digit.
fn digit_value(byte: u8) -> u8
    ensures { result ≡ digit_value byte }
{
    match byte {
        b'0'..=b'9' => byte - b'0',
        b'A'..=b'Z' => byte - b'A' + 10,
        b'a'..=b'z' => byte - b'a' + 10,
        _ => 36,
    }
}

/// Whether a byte is a digit of a radix.
pub fn is_digit_of(radix: u8, byte: u8) -> bool
    ensures { result ≡ is_digit_of radix byte }
{
    digit_value(byte) < radix
}

/// The digits that a text begins with.
pub fn digits(radix: u8, text: &[u8]) -> &[u8]
    ensures digits { result.now ≡ digits_of radix text.now }
    ensures within { length result.now ≤ length text.now }
{
    let mut n = 0;
    while n < text.len() && is_digit_of(radix, text[n]) {
        n += 1;
    }
    &text[..n]
}

/// The value of digits, if 64 bits hold it.
#[tactic(auto, using(crate::proofs::Numbers::values))]
pub fn value_of(radix: u8, digits: &[u8]) -> Option<u64>
    requires low { 2 ≤ radix }
    requires high { radix ≤ 16 }
    ensures { result ≡ (if nat_lt (digits_value radix digits.now) (2 ^ 64) then Some (digits_value radix digits.now) else None) }
{
    let mut value: u64 = 0;
    for digit in digits {
        let more = value as u128 * radix as u128 + digit_value(*digit) as u128;
        if more > u64::MAX as u128 {
            return None;
        }
        value = more as u64;
    }
    Some(value)
}

fn is_u(byte: u8) -> bool
    ensures { result ≡ is_u byte }
{
    byte == b'u' || byte == b'U'
}

fn is_l(byte: u8) -> bool
    ensures { result ≡ is_l byte }
{
    byte == b'l' || byte == b'L'
}

fn suffix_of(text: &[u8]) -> Option<Suffix>
    ensures { result ≡ suffix_of text.now }
{
    match text {
        [] => Some(Suffix {
            unsigned: false,
            long: false,
        }),
        [a] => {
            if is_u(*a) {
                Some(Suffix {
                    unsigned: true,
                    long: false,
                })
            } else if is_l(*a) {
                Some(Suffix {
                    unsigned: false,
                    long: true,
                })
            } else {
                None
            }
        }
        [a, b] => {
            if is_u(*a) && is_l(*b) || is_l(*a) && is_u(*b) {
                Some(Suffix {
                    unsigned: true,
                    long: true,
                })
            } else {
                None
            }
        }
        _ => None,
    }
}

/// The first type that a number may have and that holds it.
fn type_of(radix: u8, suffix: Suffix, value: u64) -> Option<u8>
    ensures { result ≡ type_of radix suffix value }
{
    let any = radix != 10;
    if !suffix.unsigned && !suffix.long && value < 1 << 31 {
        Some(0)
    } else if (suffix.unsigned || any) && !suffix.long && value < 1 << 32 {
        Some(1)
    } else if !suffix.unsigned && value < 1 << 63 {
        Some(2)
    } else if suffix.unsigned || any {
        Some(3)
    } else {
        None
    }
}
