//! The words of a file, in the order of bytes that its first word shows (SPIR-V 2.3).

ghost use Rattle.std.specs.Prelude.{◌≡◌, IfOk};
ghost use Rattle.spv_binary.specs.Faults.{words_of as words_in, word_in_order, is_high_first as shows_high_first};

use clv_place::NoMemory;
use spv_module::module::MAGIC;
use std::alloc::Global;

/// The whole words of a file. One to three bytes may be left.
#[tactic(auto, unfolding(crate::specs::Faults::words_of))]
pub fn words_of(alloc: Global, bytes: &[u8]) -> Result<Vec<u32>, NoMemory>
    ensures { IfOk result (λ words. words.items ≡ words_in bytes.now) }
{
    let high_first = is_high_first(bytes);
    let mut words = Vec::new(alloc);
    let mut rest = bytes;
    while let [a, b, c, d, others @ ..] = rest {
        words.push(word(high_first, *a, *b, *c, *d))?;
        rest = others;
    }
    Ok(words)
}

/// Whether the first word is the magic number with its highest byte first.
fn is_high_first(bytes: &[u8]) -> bool
    ensures { result ≡ shows_high_first bytes.now }
{
    match bytes {
        [a, b, c, d, ..] => word(true, *a, *b, *c, *d) == MAGIC,
        _ => false,
    }
}

fn word(high_first: bool, a: u8, b: u8, c: u8, d: u8) -> u32
    ensures { result ≡ word_in_order high_first a b c d }
{
    if high_first {
        u32::from_be_bytes([a, b, c, d])
    } else {
        u32::from_le_bytes([a, b, c, d])
    }
}
