//! From a text to the launch that it gives.

ghost use Rattle.std.specs.Prelude.{◌≡◌, ◌<◌, ◌^◌, length, IfOk, IfErr};
ghost use Rattle.launch_text.specs.Answers.{Changes, stop_at};
ghost use Rattle.launch_text.specs.Drafts.{line_taken};
ghost use Rattle.launch_text.specs.LaunchText.{launch_of, IsStopOf};
ghost use Rattle.launch_text.specs.Readable.{IsReadable};
ghost use Rattle.launch_text.specs.Said.{line_said};

use crate::draft::Draft;
use crate::launch::{Launch, LaunchStop};
use crate::line::first_line;
use crate::said::{LineStop, line_said};
use std::alloc::Global;

/// The most bytes that a text may have: 64 KiB.
pub const MAX_TEXT: usize = 65_536;

/// The launch that a text of bytes gives. A text that breaks a rule is refused at the first line that
/// breaks one, by the least that this line breaks; one of more than 64 KiB breaks rule 1 at line 1. It
/// also fails for want of memory.
#[tactic(auto, using(crate::proofs::Reading::readings))]
pub fn read_launch(alloc: Global, bytes: &[u8]) -> Result<Launch, LaunchStop>
    ensures ok { IfOk result (λ launch. launch_of bytes.now ≡ Ok launch) }
    ensures readable { IfOk result IsReadable }
    ensures fault { IfErr result (IsStopOf (launch_of bytes.now)) }
{
    if bytes.len() > MAX_TEXT {
        return Err(LaunchStop::Fault { number: 1, line: 1 });
    }
    let mut draft = Draft::new(alloc);
    let mut rest = bytes;
    let mut lines = 0;
    while !rest.is_empty() {
        let (line, behind) = first_line(rest);
        lines += 1;
        match take_line(alloc, &mut draft, line, lines) {
            Ok(()) => rest = behind,
            Err(stop) => return Err(stop_at(stop, lines)),
        }
    }
    draft.launch(lines)
}

// What stops a text at a line.
fn stop_at(stop: LineStop, line: u32) -> LaunchStop
    ensures { result ≡ stop_at stop line }
{
    match stop {
        LineStop::Broken(number) => LaunchStop::Fault { number, line },
        LineStop::NoMemory => LaunchStop::NoMemory,
    }
}

// Takes the line of a number, from 1.
fn take_line(alloc: Global, draft: &mut Draft, line: &[u8], number: u32) -> Result<(), LineStop>
    requires few { length draft.old.files < 2 ^ 32 }
    ensures { Changes result draft.new (line_taken draft.old number (line_said line.now)) }
{
    let said = line_said(alloc, line)?;
    draft.take(said, number)
}
