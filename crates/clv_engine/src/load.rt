//! Loading what a run takes.

ghost use Rattle.std.specs.Prelude.{◌≡◌, All, IfOk, OnErr, IsUtf8};
ghost use Rattle.clv_engine.specs.Command.{IsUnchanged};
ghost use Rattle.clv_engine.specs.RunSteps.{LoadsAs, BuffersLoad};

use clv_io::{Files, LoadFault};
use clv_place::{List, NoMemory, Text};
use std::alloc::Global;
use std::str::from_utf8;

/// What a load has answered.
#[derive(Drop)]
pub enum Loaded {
    Held(Text),
    /// The file is over the limit.
    TooLarge,
    Absent,
}

/// Loads a file of at most `max` bytes.
pub fn load<F: Files>(
    alloc: Global,
    name: &str,
    max: usize,
    files: &mut F,
) -> Result<Loaded, NoMemory>
    ensures ok { IfOk result (LoadsAs (F.state files.old) (F.state files.new) name.now max) }
    ensures err { OnErr result (IsUnchanged (F.state files.old) (F.state files.new)) }
{
    match files.load(alloc, name, max) {
        Ok(text) => Ok(Loaded::Held(text)),
        Err(LoadFault::TooLarge { .. }) => Ok(Loaded::TooLarge),
        Err(LoadFault::Failed) => Ok(Loaded::Absent),
        Err(LoadFault::NoMemory) => Err(NoMemory),
    }
}

/// The text of a name.
pub fn name_of(name: &Text) -> &str
    requires { IsUtf8 name.now }
    ensures { result.now ≡ name.now }
{
    match from_utf8(name.as_slice()) {
        Ok(name) => name,
        Err(_) => unreachable!(),
    }
}

/// The buffers of a launch: all of them, or the number of the first that isn't there or is too large.
#[derive(Drop)]
pub enum Buffers {
    Held(List<Text>),
    TooLarge(usize),
    Absent(usize),
}

/// The most bytes of a buffer.
pub const MAX_BUFFER: usize = 16_777_216;

/// Loads the buffers of some names, in their order.
pub fn load_buffers<F: Files>(
    alloc: Global,
    names: &[Text],
    files: &mut F,
) -> Result<Buffers, NoMemory>
    requires { All IsUtf8 names.now }
    ensures ok { IfOk result (BuffersLoad (F.state files.old) (F.state files.new) names.now) }
    ensures err { OnErr result (IsUnchanged (F.state files.old) (F.state files.new)) }
{
    let mut buffers = List::new(alloc);
    let mut at = 0;
    for name in names {
        match load(alloc, name_of(name), MAX_BUFFER, files)? {
            Loaded::Held(buffer) => buffers.push(buffer)?,
            Loaded::TooLarge => return Ok(Buffers::TooLarge(at)),
            Loaded::Absent => return Ok(Buffers::Absent(at)),
        }
        at += 1;
    }
    Ok(Buffers::Held(buffers))
}
