//! The room for timing: loads a file, reads it as a module, or also writes that again in memory, and
//! prints how much there was. `bench/words.sh` times it.
#![tactic(auto)]

ghost use Rattle.std.specs.Prelude.{◌≡◌, false, codes, length, IfOk, IfErr};
ghost use Rattle.spv_binary.specs.Faults.{is_high_first};
ghost use Rattle.spv_binary.specs.Reading.{IsFaultOf};
ghost use Rattle.bench_words.specs.Counts.{IsWrittenAs, IsReadAs, IsRewrittenAs};

use clv_io::{Files, HostFiles};
use clv_place::Text;
use spv_binary::{ReadStop, read, read_is_written, write};
use spv_module::module::MAX_BYTES;
use std::alloc::Global;
use std::rt::Env;
use std::{env, io};

/// The bytes of the module that is read.
fn copy(alloc: Global, bytes: &[u8]) -> Result<Text, ReadStop>
    // They are those of the module that was read, the lowest byte of each word first.
    ensures written { IfOk result (IsWrittenAs bytes.now) }
    // Where the lowest byte of each word stood first, they come back as they were.
    ensures again { IfOk result (λ again. is_high_first bytes.now ≡ false → again ≡ bytes.now) }
    // Nothing else stops it than what stops reading.
    ensures first { IfErr result (IsFaultOf bytes.now) }
{
    read_is_written();
    let module = read(alloc, bytes)?;
    Ok(write(alloc, &module)?)
}

/// How many bytes are loaded, instructions read, or bytes written.
fn count(alloc: Global, step: &str, bytes: &[u8]) -> Result<usize, ReadStop>
    // A load stops at nothing.
    ensures load { step.now ≡ codes "load" → result ≡ Ok (length bytes.now) }
    ensures read { step.now ≡ codes "read" → IfOk result (IsReadAs bytes.now) }
    ensures write { step.now ≡ codes "write" → IfOk result (IsRewrittenAs bytes.now) }
    // Nothing else stops it than what stops reading.
    ensures first { IfErr result (IsFaultOf bytes.now) }
{
    match step {
        "load" => Ok(bytes.len()),
        "read" => Ok(read(alloc, bytes)?.body.len()),
        _ => Ok(copy(alloc, bytes)?.len()),
    }
}

// The words after the program's name.
fn words_of<R: Env + AllocGlobal>(rt: &R) -> io::Result<Vec<String>> {
    let mut words = Vec::new(rt.alloc());
    for word in env::args(rt)?.skip(1) {
        words.push(word)?;
    }
    Ok(words)
}

fn main(rt: HostRuntime) -> io::Result<()> {
    let words = words_of(&rt)?;
    let [step, name] = words.as_slice() else {
        return println!(rt; "bench_words load|read|write FILE");
    };
    let mut files = HostFiles::new(rt.clone()?);
    let Ok(file) = files.load(rt.alloc(), name.as_str(), MAX_BYTES) else {
        return println!(rt; "no file {name}");
    };
    match count(rt.alloc(), step.as_str(), file.as_slice()) {
        Ok(count) => println!(rt; "{step} {count}"),
        Err(stop) => println!(rt; "{stop:?}"),
    }
}
