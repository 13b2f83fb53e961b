//! The top call: all that the program does.

ghost use Rattle.std.specs.Prelude.{◌≡◌, map, string_bytes, IfOk, OnErr};
ghost use Rattle.clv_engine.specs.Asking.{asked_by};
ghost use Rattle.clv_engine.specs.Command.{StoreEnds, CompileComesTo, IsUnchanged};
ghost use Rattle.clv_engine.specs.TopCall.{CommandComesTo, Prints, Answers, IsDecided};

use crate::command::{Command, command_of};
use crate::compiler::compile;
use crate::front::one_verdict;
use crate::report::{Report, report_file, report_module, report_refused};
use crate::run_file::run_file;
use clv_io::{Files, LoadFault, Sink};
use clv_place::{NoMemory, Offence, Place, Stop};
use std::alloc::Global;

/// The most bytes of a source.
pub const MAX_SOURCE: usize = 1_048_576;

// The source is larger than a text may be.
pub const TOO_LARGE: Offence = Offence {
    code: 105,
    place: Place { line: 1, col: 1 },
};

// Stores a module. The texts are made first, so that want of memory leaves each file as it was.
#[tactic(auto, using(crate::proofs::TopSteps::store_steps))]
fn store_module<F: Files>(
    alloc: Global,
    name: &str,
    bytes: &[u8],
    files: &mut F,
) -> Result<Report, NoMemory>
    ensures ok { IfOk result (λ r. StoreEnds (F.state files.old) (F.state files.new) name.now bytes.now r.status (string_bytes r.text)) }
    ensures err { OnErr result (F.state files.new ≡ F.state files.old) }
{
    let stored = report_module(alloc, bytes.len() / 4)?;
    let failed = report_file(alloc, name)?;
    match files.store(name, bytes) {
        Ok(()) => Ok(stored),
        Err(_) => Ok(failed),
    }
}

// Compiles one file to another.
#[tactic(auto, using(crate::proofs::TopSteps::file_steps))]
fn compile_file<F: Files>(
    alloc: Global,
    source: &str,
    target: &str,
    files: &mut F,
) -> Result<Report, NoMemory>
    ensures ok { IfOk result (λ r. CompileComesTo source.now target.now (F.state files.old) (F.state files.new) r.status (string_bytes r.text)) }
    ensures err { OnErr result (IsUnchanged (F.state files.old) (F.state files.new)) }
{
    match files.load(alloc, source, MAX_SOURCE) {
        Ok(text) => match compile(alloc, text.as_slice()) {
            Ok(bytes) => store_module(alloc, target, bytes.as_slice(), files),
            Err(Stop::Out(offence)) => report_refused(alloc, offence),
            Err(Stop::NoMemory) => Err(NoMemory),
        },
        Err(LoadFault::Failed) => report_file(alloc, source),
        Err(LoadFault::TooLarge { .. }) => report_refused(alloc, TOO_LARGE),
        Err(LoadFault::NoMemory) => Err(NoMemory),
    }
}

// Prints a text; where that fails the status is 9, whatever it was.
#[tactic(auto, using(crate::proofs::TopSteps::print_steps))]
fn print<O: Sink>(out: &mut O, status: u8, text: &[u8]) -> u8
    ensures { Prints (O.state out.old) (O.state out.new) status text.now result }
{
    match out.put(text) {
        Ok(()) => status,
        Err(_) => 9,
    }
}

// Does what a command asks for.
fn do_command<F: Files>(alloc: Global, command: Command, files: &mut F) -> Result<Report, NoMemory>
    ensures ok { IfOk result (λ r. CommandComesTo (asked_by command.entry) (F.state files.old) (F.state files.new) r.status (string_bytes r.text)) }
    ensures err { OnErr result (IsUnchanged (F.state files.old) (F.state files.new)) }
{
    match command {
        Command::Compile { source, target } => compile_file(alloc, source, target, files),
        Command::Run { source, launch } => run_file(alloc, source, launch, files),
    }
}

// Does what the words of the command line say, and prints a line.
fn answer_words<F: Files, O: Sink>(
    alloc: Global,
    words: &[String],
    files: &mut F,
    out: &mut O,
) -> u8
    ensures { Answers (map string_bytes words.now) (F.state files.old) (F.state files.new) (O.state out.old) (O.state out.new) result }
{
    match command_of(words) {
        None => print(out, 2, b"words\n"),
        Some(command) => match do_command(alloc, command, files) {
            Ok(report) => print(out, report.status, report.text.as_bytes()),
            Err(NoMemory) => print(out, 4, b"memory\n"),
        },
    }
}

/// Does what the words of the command line say, prints a line, and answers the status: 0 where the
/// module is stored, or the run is complete and its buffers are stored; 1 where the source is refused; 2
/// where the words are no command; 3 where a file could not be loaded or stored; 4 for want of memory; 6
/// where the launch breaks a rule; 7 where the run traps; 8 where its steps are spent; 9 where the line
/// could not be printed.
pub fn clv_top<F: Files, O: Sink>(alloc: Global, words: &[String], files: &mut F, out: &mut O) -> u8
    ensures answer { Answers (map string_bytes words.now) (F.state files.old) (F.state files.new) (O.state out.old) (O.state out.new) result }
    ensures decided { IsDecided (map string_bytes words.now) (F.state files.old) (F.state files.new) (O.state out.old) (O.state out.new) result }
{
    one_verdict();
    answer_words(alloc, words, files, out)
}
