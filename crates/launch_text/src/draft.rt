//! What the lines so far have said, put together.

ghost use Rattle.std.specs.Prelude.{◌≡◌, ◌<◌, ◌≤◌, ◌^◌, length, IsSome, OnOk, IfOk, IfErr};
ghost use Rattle.std.specs.List.{list_any, position_or_len};
ghost use Rattle.std.specs.Str.{bytes_eq};
ghost use Rattle.launch_text.specs.Answers.{Changes};
ghost use Rattle.launch_text.specs.Drafts.{nothing_said, taken, argument_taken, drafted, has_ordinal, files_with};
ghost use Rattle.launch_text.specs.LaunchText.{with_file, kind_of, IsStopOf};

use crate::launch::{ArgKind, ArgLine, Launch, LaunchStop, Schedule};
use crate::said::{Given, Grid, LineStop, Said};
use clv_place::{List, NoMemory, Text};
use std::alloc::Global;

/// What the lines so far have said, put together.
#[derive(Drop)]
pub struct Draft {
    kernel: Option<Text>,
    global: Option<Grid>,
    local: Option<LocalLine>,
    files: List<Text>,
    args: List<ArgLine>,
    schedule: Option<Schedule>,
    steps: Option<u64>,
}

// The sizes of a group, and the number of the line that gives them.
#[derive(Clone, Copy)]
struct LocalLine {
    grid: Grid,
    line: u32,
}

impl Draft {
    /// Nothing has been said.
    pub fn new(alloc: Global) -> Self
        ensures { result ≡ nothing_said }
    {
        Draft {
            kernel: None,
            global: None,
            local: None,
            files: List::new(alloc),
            args: List::new(alloc),
            schedule: None,
            steps: None,
        }
    }

    /// Takes what the line of a number says, which nothing before may have said.
    pub fn take(&mut self, said: Said, line: u32) -> Result<(), LineStop>
        requires few { length self.old.files < 2 ^ 32 }
        ensures { Changes result self.new (taken self.old line said) }
    {
        match said {
            Said::Nothing => Ok(()),
            Said::Kernel(name) => put(&mut self.kernel, name),
            Said::Global(grid) => put(&mut self.global, grid),
            Said::Local(grid) => put(&mut self.local, LocalLine { grid, line }),
            Said::Argument(ordinal, given) => self.take_argument(ordinal, given),
            Said::Schedule(schedule) => put(&mut self.schedule, schedule),
            Said::Steps(count) => put(&mut self.steps, count),
        }
    }

    fn take_argument(&mut self, ordinal: u32, given: Given) -> Result<(), LineStop>
        requires few { length self.old.files < 2 ^ 32 }
        ensures { Changes result self.new (argument_taken self.old ordinal given) }
    {
        if self.is_given(ordinal) {
            return Err(LineStop::Broken(7));
        }
        let kind = self.kind_of(given)?;
        self.args.push(ArgLine { ordinal, kind })?;
        Ok(())
    }

    // Whether an argument has been given.
    fn is_given(&self, ordinal: u32) -> bool
        ensures { result ≡ list_any (has_ordinal ordinal) self.now.args }
    {
        self.args
            .as_slice()
            .iter()
            .any(|arg| arg.ordinal == ordinal)
    }

    // What an argument is given; a file that has not been mentioned is added.
    fn kind_of(&mut self, given: Given) -> Result<ArgKind, NoMemory>
        requires few { length self.old.files < 2 ^ 32 }
        ensures kind { IfOk result (λ kind. kind ≡ kind_of self.new.files given) }
        ensures added { OnOk result (self.new ≡ record self.old { files = files_with self.old.files given }) }
    {
        match given {
            Given::Buffer(name) => {
                let file = self.file_index(name)?;
                Ok(ArgKind::Buffer { file })
            }
            Given::Local(bytes) => Ok(ArgKind::Local { bytes }),
            Given::Plain(bytes) => Ok(ArgKind::Plain { bytes }),
        }
    }

    // The index of a file, which is added if it has not been mentioned.
    fn file_index(&mut self, name: Text) -> Result<u32, NoMemory>
        requires few { length self.old.files < 2 ^ 32 }
        ensures index { IfOk result (λ index. index ≡ position_or_len (bytes_eq name) self.new.files) }
        ensures added { OnOk result (self.new ≡ record self.old { files = with_file self.old.files name }) }
    {
        let index = self.place_of(&name);
        if index == self.files.len() {
            self.files.push(name)?;
        }
        Ok(index as u32)
    }

    // The index of a file, or the number of files if it has not been mentioned.
    fn place_of(&self, name: &Text) -> usize
        ensures within { result ≤ length self.now.files }
        ensures place { result ≡ position_or_len (bytes_eq name.now) self.now.files }
    {
        let name = name.as_slice();
        let files = self.files.as_slice();
        files
            .iter()
            .position(|file| name == file.as_slice())
            .unwrap_or(files.len())
    }

    /// The launch, where the text has so many lines and all of them have been taken.
    pub fn launch(self, lines: u32) -> Result<Launch, LaunchStop>
        requires few { lines < 2 ^ 31 }
        ensures ok { IfOk result (λ launch. drafted self lines ≡ Ok launch) }
        ensures fault { IfErr result (IsStopOf (drafted self lines)) }
    {
        match (self.kernel, self.global, self.local) {
            (Some(kernel), Some(global), Some(local)) => {
                if global.dims != local.grid.dims {
                    return Err(LaunchStop::Fault {
                        number: 9,
                        line: local.line,
                    });
                }
                let dims = global.dims;
                let (global, local) = (global.sizes, local.grid.sizes);
                Ok(Launch {
                    kernel,
                    dims,
                    global,
                    local,
                    files: self.files,
                    args: self.args,
                    schedule: self.schedule.unwrap_or(Schedule::Robin(1)),
                    steps: self.steps.unwrap_or(100_000_000),
                })
            }
            _ => Err(LaunchStop::Fault {
                number: 8,
                line: lines + 1,
            }),
        }
    }
}

// Puts a value where there is none yet.
fn put<T: Drop>(slot: &mut Option<T>, value: T) -> Result<(), LineStop>
    ensures ok { OnOk result ((slot.old ≡ None) × (slot.new ≡ Some value)) }
    ensures err { IfErr result (λ stop. (stop ≡ LineStop.Broken 7) × IsSome slot.old) }
{
    if slot.is_some() {
        return Err(LineStop::Broken(7));
    }
    *slot = Some(value);
    Ok(())
}
