//! Texts: bytes in order, in no particular encoding.

ghost use Rattle.std.specs.Prelude.{◌≡◌, ℕ, List, [], ◌∷◌, ◌++◌, length, slice_get, slice_set, ◌<◌, OnOk, OnErr, IfOk, IsTrue, ◌↔◌};

use crate::stop::NoMemory;
use std::alloc::Global;
use std::marker::Model;

/// Bytes. A contract sees it as the list of them.
#[derive(Drop)]
pub struct Text {
    bytes: Vec<u8>,
}

impl Model for Text {
    ghost use Rattle.std.specs.Prelude.{ℕ, List};

    ghost Value = { List ℕ };

    ghost view = { λ t. t.bytes.items };
}

impl Text {
    /// The empty text. It takes no memory, and keeps the allocator for what is added.
    pub fn new(alloc: Global) -> Self
        ensures { result ≡ [] }
    {
        Text {
            bytes: Vec::new(alloc),
        }
    }

    /// The text of a vector's bytes. It takes no memory.
    pub fn from_vec(bytes: Vec<u8>) -> Self
        ensures { result ≡ bytes.items }
    {
        Text { bytes }
    }

    /// A copy of bytes.
    pub fn from_bytes(alloc: Global, bytes: &[u8]) -> Result<Self, NoMemory>
        ensures { IfOk result (λ t. t ≡ bytes.now) }
    {
        match bytes.to_vec(alloc) {
            Ok(bytes) => Ok(Text { bytes }),
            Err(_) => Err(NoMemory),
        }
    }

    /// The number of bytes.
    pub fn len(&self) -> usize
        ensures { result ≡ length self.now }
    {
        self.bytes.len()
    }

    /// Whether there is no byte.
    pub fn is_empty(&self) -> bool
        ensures { IsTrue result ↔ (self.now ≡ []) }
    {
        self.bytes.is_empty()
    }

    /// The byte at an index from 0, and none exactly where there are not so many.
    pub fn get(&self, at: usize) -> Option<u8>
        ensures { result ≡ slice_get self.now at }
    {
        self.bytes.get(at).copied()
    }

    /// The bytes as a slice.
    pub fn as_slice(&self) -> &[u8]
        ensures { result.now ≡ self.now }
    {
        &self.bytes
    }

    /// Puts a byte in the place of the one at an index.
    pub fn set(&mut self, at: usize, byte: u8)
        requires { at < length self.old }
        ensures { self.new ≡ slice_set self.old at byte }
    {
        self.bytes[at] = byte;
    }

    /// Adds bytes at the end. For want of memory it changes nothing.
    pub fn extend(&mut self, bytes: &[u8]) -> Result<(), NoMemory>
        ensures ok { OnOk result (self.new ≡ self.old ++ bytes.now) }
        ensures err { OnErr result (self.new ≡ self.old) }
    {
        match self.bytes.extend_from_slice(bytes) {
            Ok(()) => Ok(()),
            Err(_) => Err(NoMemory),
        }
    }
}
