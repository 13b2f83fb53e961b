//! Files and a sink in memory that are steady: they fail only where nothing is held or no room is
//! reserved, and count only that.

ghost use Rattle.std.specs.Prelude.{◌≡◌, ◌≤◌, ◌+◌, true, [], OnOk, OnErr, IfOk, length, option_copied, vec_len, vec_capacity};

use crate::files::{Files, LoadFault, StoreFault};
use crate::shelf::Shelf;
use crate::sink::{Sink, SinkFault};
use clv_place::{NoMemory, Text};
use std::alloc::Global;

/// Files in memory. They tell what they hold and reserve, and are steady.
#[derive(Drop)]
pub struct SteadyFiles {
    alloc: Global,
    shelf: Shelf,
    faults: u64,
}

impl SteadyFiles {
    ghost use Rattle.clv_io.specs.Steady.{files_of, IsBare, Reserves};

    /// Files that hold nothing and have no room.
    pub fn new(alloc: Global) -> Result<SteadyFiles, NoMemory>
        ensures { IfOk result (λ files. IsBare (files_of files)) }
    {
        Ok(SteadyFiles {
            alloc,
            shelf: Shelf::new(alloc),
            faults: 0,
        })
    }

    /// Sets the bytes of a name. Its room becomes their number, or stays where it was larger. For want
    /// of memory it changes nothing.
    pub fn with(&mut self, name: &str, bytes: &[u8]) -> Result<(), NoMemory>
        ensures ok { OnOk result (Reserves (files_of self.old) (files_of self.new) name.now (Some bytes.now) (length bytes.now)) }
        ensures err { OnErr result (self.new ≡ self.old) }
    {
        self.shelf.reserve(self.alloc, name, bytes.len())?;
        self.shelf.write(name, bytes).unwrap();
        Ok(())
    }

    /// Reserves room for a name, held or not, and leaves what it holds. Its room becomes that many
    /// bytes, or stays where it was larger. For want of memory it changes nothing.
    pub fn room(&mut self, name: &str, bytes: usize) -> Result<(), NoMemory>
        ensures ok { OnOk result (Reserves (files_of self.old) (files_of self.new) name.now ((files_of self.old).held name.now) bytes) }
        ensures err { OnErr result (self.new ≡ self.old) }
    {
        self.shelf.reserve(self.alloc, name, bytes)
    }

    /// The bytes that a name holds, and none exactly where it isn't held.
    pub fn contents(&self, name: &str) -> Option<&[u8]>
        ensures { option_copied result ≡ (files_of self.now).held name.now }
    {
        self.shelf.contents(name)
    }

    /// How often a call has failed, as far as a u64 goes.
    pub fn faults(&self) -> u64
        ensures { result ≡ (files_of self.now).faults }
    {
        self.faults
    }
}

impl Files for SteadyFiles {
    ghost use Rattle.clv_io.specs.Files.{Loads, Stores};
    ghost use Rattle.clv_io.specs.Steady.{files_of, LoadsSteadily, StoresSteadily};

    ghost state = { files_of };

    ghost steady_tells = { λ files is_steady. is_steady };

    fn load(&mut self, alloc: Global, name: &str, max: usize) -> Result<Text, LoadFault>
        ensures loads { Loads (files_of self.old) (files_of self.new) name.now max result }
        ensures steady { LoadsSteadily (files_of self.old) (files_of self.new) name.now max result }
    {
        match self.shelf.contents(name) {
            None => {
                self.faults = self.faults.saturating_add(1);
                Err(LoadFault::Failed)
            }
            Some(bytes) => {
                if max < bytes.len() {
                    return Err(LoadFault::TooLarge {
                        seen: bytes.len() as u64,
                    });
                }
                match Text::from_bytes(alloc, bytes) {
                    Ok(text) => Ok(text),
                    Err(NoMemory) => Err(LoadFault::NoMemory),
                }
            }
        }
    }

    fn store(&mut self, name: &str, bytes: &[u8]) -> Result<(), StoreFault>
        ensures stores { Stores (files_of self.old) (files_of self.new) name.now bytes.now result }
        ensures steady { StoresSteadily (files_of self.old) (files_of self.new) name.now bytes.now result }
    {
        match self.shelf.write(name, bytes) {
            Ok(()) => Ok(()),
            Err(StoreFault) => {
                self.faults = self.faults.saturating_add(1);
                Err(StoreFault)
            }
        }
    }
}

/// A sink in memory. It tells what was put and the room that is left, and is steady.
#[derive(Drop)]
pub struct SteadySink {
    bytes: Vec<u8>,
    left: usize,
    faults: u64,
    ghost reserved: { vec_len bytes + left ≤ vec_capacity bytes },
}

impl SteadySink {
    ghost use Rattle.clv_io.specs.Steady.{sink_of};

    /// A sink in which nothing is put, with room for so many bytes.
    pub fn new(alloc: Global, room: usize) -> Result<SteadySink, NoMemory>
        ensures { IfOk result (λ sink. sink_of sink ≡ record { tells = true; is_steady = true; bytes = []; room = room; faults = 0 }) }
    {
        Ok(SteadySink {
            bytes: Vec::with_capacity(alloc, room)?,
            left: room,
            faults: 0,
        })
    }

    /// The bytes put.
    pub fn bytes(&self) -> &[u8]
        ensures { result.now ≡ (sink_of self.now).bytes }
    {
        &self.bytes
    }

    /// How often a call has failed, as far as a u64 goes.
    pub fn faults(&self) -> u64
        ensures { result ≡ (sink_of self.now).faults }
    {
        self.faults
    }
}

impl Sink for SteadySink {
    ghost use Rattle.clv_io.specs.Sink.{Puts};
    ghost use Rattle.clv_io.specs.Steady.{sink_of, PutsSteadily};

    ghost state = { sink_of };

    ghost steady_tells = { λ sink is_steady. is_steady };

    fn put(&mut self, bytes: &[u8]) -> Result<(), SinkFault>
        ensures puts { Puts (sink_of self.old) (sink_of self.new) bytes.now result }
        ensures steady { PutsSteadily (sink_of self.old) (sink_of self.new) bytes.now result }
    {
        if self.left < bytes.len() {
            self.faults = self.faults.saturating_add(1);
            return Err(SinkFault);
        }
        self.left -= bytes.len();
        self.bytes.extend_from_slice(bytes).unwrap();
        Ok(())
    }
}
