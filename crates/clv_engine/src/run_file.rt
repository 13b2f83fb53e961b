//! The command `run`: a source is compiled in memory, its module is run on a launch, and the buffers that
//! an argument may write are stored.

ghost use Rattle.std.specs.Prelude.{◌≡◌, ◌≤◌, ◌⊎◌, ℕ, Some, string_bytes, All, IfOk, OnErr, IsUtf8, length};
ghost use Rattle.clv_engine.specs.Command.{IsUnchanged};
ghost use Rattle.clv_engine.specs.RunCommand.{RunComesTo, IsLeastGiven};
ghost use Rattle.clv_engine.specs.RunSteps.{JudgesTo, PlansTo, GoesTo, BuffersGoTo, IsRunnable, AreBuffers, AreReports, StoresAs, StoresComeTo, stores_of};
ghost use Rattle.launch_text.specs.declared.launch.Schedule.TheVariants.{Robin};
ghost use Rattle.launch_text.specs.Readable.{IsReadable, IsGiven, AreDistinct};

use crate::compiler::compile;
use crate::load::{Buffers, Loaded, load, load_buffers, name_of};
use crate::outcome::Outcome;
use crate::report::{
    Report, report_done, report_file, report_launch_line, report_launch_rule, report_refused,
    report_spent, report_trap,
};
use crate::run_module::run_module;
use crate::top::{MAX_SOURCE, TOO_LARGE};
use clv_io::Files;
use clv_place::{List, NoMemory, Stop, Text};
use launch_text::{ArgKind, ArgLine, Launch, LaunchStop, Schedule, read_launch};
use std::alloc::Global;

/// The most bytes of a launch text.
const MAX_LAUNCH: usize = 65_536;

/// Compiles a source in memory, runs its module on a launch, and stores the buffers that an argument may
/// write, in the order in which the launch first names them. Both files are loaded before either is
/// judged, the source first.
pub fn run_file<F: Files>(
    alloc: Global,
    source: &str,
    launch: &str,
    files: &mut F,
) -> Result<Report, NoMemory>
    ensures ok { IfOk result (λ r. RunComesTo source.now launch.now (F.state files.old) (F.state files.new) r.status (string_bytes r.text)) }
    ensures err { OnErr result (IsUnchanged (F.state files.old) (F.state files.new)) }
{
    let text = match load(alloc, source, MAX_SOURCE, files)? {
        Loaded::Held(text) => Some(text),
        Loaded::TooLarge => None,
        Loaded::Absent => return report_file(alloc, source),
    };
    let words = match load(alloc, launch, MAX_LAUNCH, files)? {
        Loaded::Held(words) => Some(words),
        Loaded::TooLarge => None,
        Loaded::Absent => return report_file(alloc, launch),
    };
    judge(alloc, text, words, files)
}

// Judges the source, which is none where it is too large.
fn judge<F: Files>(
    alloc: Global,
    text: Option<Text>,
    words: Option<Text>,
    files: &mut F,
) -> Result<Report, NoMemory>
    ensures ok { IfOk result (λ r. JudgesTo text words (F.state files.old) (F.state files.new) r.status (string_bytes r.text)) }
    ensures err { OnErr result (IsUnchanged (F.state files.old) (F.state files.new)) }
{
    let Some(text) = text else {
        return report_refused(alloc, TOO_LARGE);
    };
    match compile(alloc, text.as_slice()) {
        Ok(bytes) => plan(alloc, bytes.as_slice(), words, files),
        Err(Stop::Out(offence)) => report_refused(alloc, offence),
        Err(Stop::NoMemory) => Err(NoMemory),
    }
}

// Reads the launch, which is none where it is too large.
fn plan<F: Files>(
    alloc: Global,
    bytes: &[u8],
    words: Option<Text>,
    files: &mut F,
) -> Result<Report, NoMemory>
    requires { IsRunnable bytes.now }
    ensures ok { IfOk result (λ r. PlansTo bytes.now words (F.state files.old) (F.state files.new) r.status (string_bytes r.text)) }
    ensures err { OnErr result (IsUnchanged (F.state files.old) (F.state files.new)) }
{
    let Some(words) = words else {
        return report_launch_line(alloc, 1, 1);
    };
    match read_launch(alloc, words.as_slice()) {
        Ok(launch) => schedule(alloc, bytes, &launch, files),
        Err(LaunchStop::Fault { number, line }) => report_launch_line(alloc, number, line),
        Err(LaunchStop::NoMemory) => Err(NoMemory),
    }
}

// Takes the schedule: one by a seed isn't built yet (L30).
fn schedule<F: Files>(
    alloc: Global,
    bytes: &[u8],
    launch: &Launch,
    files: &mut F,
) -> Result<Report, NoMemory>
    requires runnable { IsRunnable bytes.now }
    requires readable { IsReadable launch.now }
    ensures ok { IfOk result (λ r. GoesTo bytes.now launch.now (F.state files.old) (F.state files.new) r.status (string_bytes r.text)) }
    ensures err { OnErr result (IsUnchanged (F.state files.old) (F.state files.new)) }
{
    match launch.schedule {
        Schedule::Robin(turn) => take_buffers(alloc, bytes, launch, turn, files),
        Schedule::Mixed(_) => report_launch_rule(alloc, 30, None),
    }
}

// Loads the buffers.
fn take_buffers<F: Files>(
    alloc: Global,
    bytes: &[u8],
    launch: &Launch,
    turn: u32,
    files: &mut F,
) -> Result<Report, NoMemory>
    requires runnable { IsRunnable bytes.now }
    requires readable { IsReadable launch.now }
    requires robin { launch.now.schedule ≡ Robin turn }
    ensures ok { IfOk result (λ r. GoesTo bytes.now launch.now (F.state files.old) (F.state files.new) r.status (string_bytes r.text)) }
    ensures err { OnErr result (IsUnchanged (F.state files.old) (F.state files.new)) }
{
    let names = launch.files.as_slice();
    match load_buffers(alloc, names, files)? {
        Buffers::Held(buffers) => run_on(alloc, bytes, launch, turn, buffers, files),
        Buffers::Absent(at) => report_file(alloc, name_of(&names[at])),
        Buffers::TooLarge(at) => {
            report_launch_rule(alloc, 14, Some(least_given(launch.args.as_slice(), at)))
        }
    }
}

// The least argument that is given a buffer.
fn least_given(args: &[ArgLine], file: usize) -> u32
    requires { IsGiven args.now file }
    ensures { IsLeastGiven args.now file result }
{
    let mut least = None;
    for arg in args {
        if let ArgKind::Buffer { file: given } = arg.kind {
            if given as usize == file {
                least = Some(lesser(least, arg.ordinal));
            }
        }
    }
    match least {
        Some(least) => least,
        None => unreachable!(),
    }
}

// The lesser of an ordinal and what was found before it.
fn lesser(found: Option<u32>, ordinal: u32) -> u32
    ensures within { result ≤ ordinal }
    ensures before { (n : ℕ) → found ≡ Some n → result ≤ n }
    ensures either { (result ≡ ordinal) ⊎ (found ≡ Some result) }
{
    match found {
        Some(least) if least < ordinal => least,
        _ => ordinal,
    }
}

// Runs the module, and stores what it leaves.
fn run_on<F: Files>(
    alloc: Global,
    bytes: &[u8],
    launch: &Launch,
    turn: u32,
    buffers: List<Text>,
    files: &mut F,
) -> Result<Report, NoMemory>
    requires runnable { IsRunnable bytes.now }
    requires readable { IsReadable launch.now }
    requires robin { launch.now.schedule ≡ Robin turn }
    requires sizes { AreBuffers launch.now.files buffers }
    ensures ok { IfOk result (λ r. BuffersGoTo bytes.now launch.now turn buffers (F.state files.old) (F.state files.new) r.status (string_bytes r.text)) }
    ensures err { OnErr result (IsUnchanged (F.state files.old) (F.state files.new)) }
{
    match run_module(alloc, bytes, launch, turn, buffers)? {
        Outcome::Done {
            steps,
            buffers,
            stored,
        } => store_all(
            alloc,
            launch.files.as_slice(),
            buffers.as_slice(),
            stored.as_slice(),
            steps,
            files,
        ),
        Outcome::Trapped(trap) => report_trap(alloc, trap),
        Outcome::Spent => report_spent(alloc, launch.steps),
        Outcome::Misfit { number, arg } => report_launch_rule(alloc, number, arg),
        Outcome::TooMuch => report_launch_rule(alloc, 22, None),
    }
}

// Stores what a complete run leaves. The texts are made first, so that want of memory leaves each file
// as it was.
fn store_all<F: Files>(
    alloc: Global,
    names: &[Text],
    buffers: &[Text],
    stored: &[bool],
    steps: u64,
    files: &mut F,
) -> Result<Report, NoMemory>
    requires names { All IsUtf8 names.now }
    requires distinct { AreDistinct names.now }
    requires buffers { length buffers.now ≡ length names.now }
    requires marks { length stored.now ≡ length names.now }
    ensures ok { IfOk result (λ r. StoresComeTo (F.state files.old) (F.state files.new) names.now (stores_of names.now buffers.now stored.now) steps r.status (string_bytes r.text)) }
    ensures err { OnErr result (F.state files.new ≡ F.state files.old) }
{
    let done = report_done(alloc, steps)?;
    let mut failed = report_files(alloc, names)?;
    match store_buffers(names, buffers, stored, files) {
        Ok(()) => Ok(done),
        Err(at) => Ok(failed.swap_remove(at)),
    }
}

// A report for each name, in case its store fails.
fn report_files(alloc: Global, names: &[Text]) -> Result<Vec<Report>, NoMemory>
    requires { All IsUtf8 names.now }
    ensures { IfOk result (λ rs. AreReports names.now rs.items) }
{
    let mut reports = Vec::new(alloc);
    for name in names {
        reports.push(report_file(alloc, name_of(name))?)?;
    }
    Ok(reports)
}

// Stores the buffers that are marked, in order. An error is the number of the name whose store failed.
fn store_buffers<F: Files>(
    names: &[Text],
    buffers: &[Text],
    stored: &[bool],
    files: &mut F,
) -> Result<(), usize>
    requires names { All IsUtf8 names.now }
    requires distinct { AreDistinct names.now }
    requires buffers { length buffers.now ≡ length names.now }
    requires marks { length stored.now ≡ length names.now }
    ensures { StoresAs (F.state files.old) (F.state files.new) names.now (stores_of names.now buffers.now stored.now) result }
{
    for at in 0..names.len() {
        if stored[at] {
            let stored_now = files.store(name_of(&names[at]), buffers[at].as_slice());
            if stored_now.is_err() {
                return Err(at);
            }
        }
    }
    Ok(())
}
