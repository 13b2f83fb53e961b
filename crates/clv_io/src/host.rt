//! Files of the system and standard output, over a runtime. They tell nothing of what they hold, and
//! count each fault of the system that they meet.

ghost use Rattle.std.specs.Prelude.{◌≡◌, ℕ, ◌+◌, ◌<◌, ◌≤◌, length, IfOk, OnOk, IsErrOf};
ghost use Rattle.std.specs.Io.KnownBytes.{Appends};
ghost use Rattle.clv_io.specs.Files.{Loads, Stores};
ghost use Rattle.clv_io.specs.Host.{host_files_of, host_sink_of, CountsErr, CountsLoad, ReadsChunk, ReadsWithin};
ghost use Rattle.clv_io.specs.Sink.{Puts};

use crate::files::{Files, LoadFault, StoreFault};
use crate::sink::{Sink, SinkFault};
use clv_place::Text;
use std::alloc::Global;
use std::io::{ErrorKind, Read, Write};
use std::{fs, io, rt};

/// How many bytes a read asks for at the most.
const CHUNK: usize = 4096;

/// Files of the system, by their paths. A read or a write that a signal interrupts is a fault too.
#[derive(Drop)]
pub struct HostFiles<R> {
    rt: R,
    faults: u64,
}

impl<R> HostFiles<R> {
    /// The files that a runtime reaches. Nothing has failed yet.
    pub fn new(rt: R) -> Self
        ensures { (host_files_of result).faults ≡ 0 }
    {
        HostFiles { rt, faults: 0 }
    }

    /// How often a call has failed, as far as a u64 goes.
    pub fn faults(&self) -> u64
        ensures { result ≡ (host_files_of self.now).faults }
    {
        self.faults
    }
}

impl<R: rt::Files> Files for HostFiles<R> {
    ghost state = { host_files_of };

    ghost steady_tells = { λ files is_steady. is_steady };

    fn load(&mut self, alloc: Global, name: &str, max: usize) -> Result<Text, LoadFault>
        ensures loads { Loads (host_files_of self.old) (host_files_of self.new) name.now max result }
        ensures counts { CountsLoad (host_files_of self.old).faults (host_files_of self.new).faults result }
    {
        match read_file(&self.rt, alloc, name, max) {
            Err(LoadFault::Failed) => {
                self.faults = self.faults.saturating_add(1);
                Err(LoadFault::Failed)
            }
            loaded => loaded,
        }
    }

    fn store(&mut self, name: &str, bytes: &[u8]) -> Result<(), StoreFault>
        ensures stores { Stores (host_files_of self.old) (host_files_of self.new) name.now bytes.now result }
        ensures counts { CountsErr (host_files_of self.old).faults (host_files_of self.new).faults result }
    {
        match write_file(&self.rt, name, bytes) {
            Ok(()) => Ok(()),
            Err(_) => {
                self.faults = self.faults.saturating_add(1);
                Err(StoreFault)
            }
        }
    }
}

/// Standard output. A write that a signal interrupts is a fault too.
#[derive(Drop)]
pub struct HostSink<R> {
    rt: R,
    faults: u64,
}

impl<R> HostSink<R> {
    /// The standard output that a runtime reaches. Nothing has failed yet.
    pub fn new(rt: R) -> Self
        ensures { (host_sink_of result).faults ≡ 0 }
    {
        HostSink { rt, faults: 0 }
    }

    /// How often a call has failed, as far as a u64 goes.
    pub fn faults(&self) -> u64
        ensures { result ≡ (host_sink_of self.now).faults }
    {
        self.faults
    }
}

impl<R: Print> Sink for HostSink<R> {
    ghost state = { host_sink_of };

    ghost steady_tells = { λ sink is_steady. is_steady };

    fn put(&mut self, bytes: &[u8]) -> Result<(), SinkFault>
        ensures puts { Puts (host_sink_of self.old) (host_sink_of self.new) bytes.now result }
        ensures counts { CountsErr (host_sink_of self.old).faults (host_sink_of self.new).faults result }
    {
        match write_through(&mut io::writer(&self.rt), bytes) {
            Ok(()) => Ok(()),
            Err(_) => {
                self.faults = self.faults.saturating_add(1);
                Err(SinkFault)
            }
        }
    }
}

/// Opens a file and reads all of it.
fn read_file<R: rt::Files>(rt: &R, alloc: Global, name: &str, max: usize) -> Result<Text, LoadFault>
    ensures within { IfOk result (λ text. length text ≤ max) }
    ensures over { (seen : ℕ) → IsErrOf result (LoadFault.TooLarge seen) → max < seen }
{
    match fs::open(rt, name) {
        Ok(mut file) => read_within(&mut file, alloc, max),
        Err(_) => Err(LoadFault::Failed),
    }
}

/// Reads to the end of a reader that has at most `max` bytes.
fn read_within<R: Read>(reader: &mut R, alloc: Global, max: usize) -> Result<Text, LoadFault>
    ensures { ReadsWithin (R.remaining reader.old) (R.remaining reader.new) max result }
{
    let mut text = Text::new(alloc);
    while text.len() <= max {
        let spare = max - text.len();
        if read_chunk(reader, &mut text, spare)? == 0 {
            return Ok(text);
        }
    }
    Err(LoadFault::TooLarge {
        seen: text.len() as u64,
    })
}

/// Adds one read of a reader to a text, of one byte more than is spare at the most, and answers how
/// many bytes it brought: none only at the end.
fn read_chunk<R: Read>(reader: &mut R, text: &mut Text, spare: usize) -> Result<usize, LoadFault>
    ensures { ReadsChunk (R.remaining reader.old) (R.remaining reader.new) text.old text.new (spare + 1) result }
{
    let mut chunk = [0; CHUNK];
    let wanted = spare.min(CHUNK - 1) + 1;
    let count = match reader.read(&mut chunk[..wanted]) {
        Ok(count) => count,
        Err(_) => return Err(LoadFault::Failed),
    };
    match text.extend(&chunk[..count]) {
        Ok(()) => Ok(count),
        Err(_) => Err(LoadFault::NoMemory),
    }
}

/// Makes a file of these bytes, in the place of one that is there.
fn write_file<R: rt::Files>(rt: &R, name: &str, bytes: &[u8]) -> io::Result<()> {
    let mut file = fs::create(rt, name)?;
    write_through(&mut file, bytes)
}

/// Writes all the bytes, a write after another. A write that takes none fails.
fn write_through<W: Write>(writer: &mut W, bytes: &[u8]) -> io::Result<()>
    ensures { OnOk result (Appends (W.contents writer.old) (W.contents writer.new) bytes.now) }
{
    let mut rest = bytes;
    while !rest.is_empty() {
        let count = writer.write(rest)?;
        if count == 0 {
            return Err(ErrorKind::WriteZero.into());
        }
        rest = &rest[count..];
    }
    Ok(())
}
