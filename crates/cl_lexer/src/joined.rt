//! The bytes of a text after its lines are joined, and their places.

ghost use Rattle.std.specs.Prelude.{◌≡◌, ◌+◌, ◌<◌, ◌^◌, IfOk, drop, length, slice_index_or};
ghost use Rattle.cl_lexer.specs.Answers.{Spread};
ghost use Rattle.cl_lexer.specs.Joined.{glyphs_of, join_length};

use crate::byte::byte_at;
use clv_place::{NoMemory, Place};
use std::alloc::Global;

/// The bytes that stay when lines are joined, and their places with that of the end.
#[derive(Drop)]
pub struct Joined {
    pub bytes: Vec<u8>,
    pub places: Vec<Place>,
}

impl Joined {
    /// The place of the byte at an index, or of the end.
    pub fn place(&self, at: usize) -> Place
        requires { at < length self.now.places.items }
        ensures { result ≡ slice_index_or self.now.places.items at result }
    {
        self.places[at]
    }

    /// The place of the end.
    pub fn end(&self) -> Place
        requires { length self.now.bytes.items < length self.now.places.items }
        ensures { result ≡ slice_index_or self.now.places.items (length self.now.bytes.items) result }
    {
        self.places[self.bytes.len()]
    }
}

/// A text of less than 4 GiB with its lines joined.
#[tactic(auto, using(crate::proofs::Joining::joining))]
pub fn join(alloc: Global, text: &[u8]) -> Result<Joined, NoMemory>
    requires { length text.now + 1 < 2 ^ 32 }
    ensures { IfOk result (λ j. Spread text.now (glyphs_of text.now) j.bytes.items j.places.items) }
{
    let mut bytes = Vec::new(alloc);
    let mut places = Vec::new(alloc);
    let mut joining = 0;
    let mut line = 1;
    let mut start = 0;
    for at in 0..text.len() {
        let length = join_length(text, at);
        if joining > 0 {
            joining -= 1;
        } else if length > 0 {
            joining = length - 1;
        } else {
            bytes.push(text[at])?;
            places.push(Place {
                line,
                col: (at - start + 1) as u32,
            })?;
        }
        if text[at] == b'\n' {
            line += 1;
            start = at + 1;
        }
    }
    places.push(Place {
        line,
        col: (text.len() - start + 1) as u32,
    })?;
    Ok(Joined { bytes, places })
}

// How many bytes from an index on join two lines.
fn join_length(text: &[u8], at: usize) -> usize
    requires { at < length text.now }
    ensures { result ≡ join_length (drop at text.now) }
{
    if byte_at(text, at) != b'\\' {
        0
    } else if byte_at(text, at + 1) == b'\n' {
        2
    } else if byte_at(text, at + 1) == b'\r' && byte_at(text, at + 2) == b'\n' {
        3
    } else {
        0
    }
}
