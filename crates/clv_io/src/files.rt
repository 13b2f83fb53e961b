//! Files by name.

ghost use Rattle.std.specs.Prelude.{◌≡◌, IsTrue};
ghost use Rattle.clv_io.specs.Files.{FilesState, Loads, Stores};

use clv_place::Text;
use std::alloc::Global;

/// Why a file was not loaded. `seen` counts bytes, and is over the limit that the call was given.
#[derive(Clone, Copy, PartialEq, Eq, Debug)]
pub enum LoadFault {
    Failed,
    TooLarge { seen: u64 },
    NoMemory,
}

/// A file was not stored, or not all of it.
#[derive(Clone, Copy, PartialEq, Eq, Debug)]
pub struct StoreFault;

/// Files by name. Two names are two files.
pub trait Files {
    /// What the files mean to a contract: what is held, the room that is reserved, how often a call
    /// has failed, and whether they are steady.
    ghost state: { Self → FilesState };

    /// All the bytes of a file of at most `max` bytes. It changes no file.
    fn load(&mut self, alloc: Global, name: &str, max: usize) -> Result<Text, LoadFault>
        ensures { Loads (state self.old) (state self.new) name.now max result };

    /// Sets a file's bytes, and no other file's. It takes no memory.
    fn store(&mut self, name: &str, bytes: &[u8]) -> Result<(), StoreFault>
        ensures { Stores (state self.old) (state self.new) name.now bytes.now result };

    /// Steady files tell what they hold.
    ghost steady_tells: { (files : Self) → IsTrue (state files).is_steady → IsTrue (state files).tells };
}
