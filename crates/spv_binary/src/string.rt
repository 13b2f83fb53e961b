//! Literal strings in words (SPIR-V 2.2.1).

ghost use Rattle.std.specs.Prelude.{◌≡◌, IfOk};
ghost use Rattle.std.specs.Option.{option_copied};
ghost use Rattle.std.specs.Str.{is_utf8};
ghost use Rattle.spv_binary.specs.Faults.{has_zero as zero_in, string_len as len_of_string};
ghost use Rattle.spv_binary.specs.Reading.{last_bytes as end_of, bytes_at, string_at};

use clv_place::{NoMemory, Text};
use std::alloc::Global;
use std::str::from_utf8;

/// Whether a byte of the word is zero, and so ends a string.
#[tactic(auto, unfolding(crate::specs::Faults::has_zero))]
fn has_zero(word: &u32) -> bool
    ensures { result ≡ zero_in word.now }
{
    word.to_le_bytes().contains(&0)
}

/// How many words the string at the front takes: up to the first with a zero byte, or all.
#[tactic(auto, using(crate::proofs::Strings::len_steps))]
pub fn string_len(words: &[u32]) -> usize
    ensures { result ≡ len_of_string words.now }
{
    for (at, word) in words.iter().enumerate() {
        if has_zero(word) {
            return at + 1;
        }
    }
    words.len()
}

/// The string at the front, and none where none stands there: where it isn't ended, isn't UTF-8, or
/// is padded with other bytes than zeros.
#[tactic(auto, unfolding(crate::specs::Reading::string_at))]
pub fn read_string(alloc: Global, words: &[u32]) -> Result<Option<Text>, NoMemory>
    ensures { IfOk result (λ text. text ≡ string_at words.now) }
{
    match read_bytes(alloc, words)? {
        Some(text) if is_text(text.as_slice()) => Ok(Some(text)),
        _ => Ok(None),
    }
}

#[tactic(auto, using(crate::proofs::Strings::text_tests))]
fn is_text(bytes: &[u8]) -> bool
    ensures { result ≡ is_utf8 bytes.now }
{
    match from_utf8(bytes) {
        Ok(_) => true,
        Err(_) => false,
    }
}

/// The bytes before the first zero byte, if there is one, and only zeros stand behind it in its word.
#[tactic(auto, using(crate::proofs::Strings::byte_steps))]
fn read_bytes(alloc: Global, words: &[u32]) -> Result<Option<Text>, NoMemory>
    ensures { IfOk result (λ text. text ≡ bytes_at words.now) }
{
    let mut text = Text::new(alloc);
    for word in words {
        let bytes = word.to_le_bytes();
        if !has_zero(word) {
            text.extend(&bytes)?;
            continue;
        }
        return match last_bytes(&bytes) {
            Some(end) => {
                text.extend(end)?;
                Ok(Some(text))
            }
            None => Ok(None),
        };
    }
    Ok(None)
}

/// The bytes before the first zero, and none where another byte stands behind it.
fn last_bytes(bytes: &[u8; 4]) -> Option<&[u8]>
    ensures { option_copied result ≡ end_of bytes.now }
{
    match bytes {
        [0, 0, 0, 0] => Some(&[]),
        [_, 0, 0, 0] => Some(&bytes[..1]),
        [0, _, _, _] => None,
        [_, _, 0, 0] => Some(&bytes[..2]),
        [_, 0, _, _] => None,
        [_, _, _, 0] => Some(&bytes[..3]),
        _ => None,
    }
}
