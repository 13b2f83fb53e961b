//! What a command comes to: a status, and the line that is printed for it.

ghost use Rattle.std.specs.Prelude.{◌≡◌, string_bytes, IfOk, Some, None};
ghost use Rattle.clv_engine.specs.Command.{module_text, source_text, file_text};
ghost use Rattle.clv_engine.specs.RunCommand.{launch_line_text, launch_rule_text, kind_text, trap_text, spent_text, done_text};
ghost use Rattle.run_machine.specs.Machines.{trap_by};

use clv_place::{NoMemory, Offence};
use run_machine::{Trap, TrapKind};
use std::alloc::Global;

/// What a command comes to.
#[derive(Drop)]
pub struct Report {
    pub status: u8,
    /// The line that is printed, its LF included.
    pub text: String,
}

/// The source is refused.
pub fn report_refused(alloc: Global, offence: Offence) -> Result<Report, NoMemory>
    ensures { IfOk result (λ r. (r.status ≡ 1) × (string_bytes r.text ≡ source_text offence)) }
{
    let code = offence.code;
    let line = offence.place.line;
    let col = offence.place.col;
    Ok(Report {
        status: 1,
        text: format!(in alloc; "source {code} {line}:{col}\n")?,
    })
}

/// A file could not be loaded or stored.
pub fn report_file(alloc: Global, name: &str) -> Result<Report, NoMemory>
    ensures { IfOk result (λ r. (r.status ≡ 3) × (string_bytes r.text ≡ file_text name.now)) }
{
    Ok(Report {
        status: 3,
        text: format!(in alloc; "file {name}\n")?,
    })
}

/// A module is stored, of so many words.
pub fn report_module(alloc: Global, words: usize) -> Result<Report, NoMemory>
    ensures { IfOk result (λ r. (r.status ≡ 0) × (string_bytes r.text ≡ module_text words)) }
{
    Ok(Report {
        status: 0,
        text: format!(in alloc; "module {words} words\n")?,
    })
}

/// A rule is broken at a line of a launch text.
pub fn report_launch_line(alloc: Global, number: u8, line: u32) -> Result<Report, NoMemory>
    ensures { IfOk result (λ r. (r.status ≡ 6) × (string_bytes r.text ≡ launch_line_text number line)) }
{
    Ok(Report {
        status: 6,
        text: format!(in alloc; "launch L{number} line {line}\n")?,
    })
}

/// A launch breaks a rule, at an argument where the rule names one.
pub fn report_launch_rule(alloc: Global, number: u8, arg: Option<u32>) -> Result<Report, NoMemory>
    ensures { IfOk result (λ r. (r.status ≡ 6) × (string_bytes r.text ≡ launch_rule_text (record { number = number; argument = arg }))) }
{
    let text = match arg {
        Some(arg) => format!(in alloc; "launch L{number} arg {arg}\n")?,
        None => format!(in alloc; "launch L{number}\n")?,
    };
    Ok(Report { status: 6, text })
}

fn kind_name(kind: TrapKind) -> &'static str
    ensures { result.now ≡ kind_text kind }
{
    match kind {
        TrapKind::Range => "range",
        TrapKind::Divide => "divide",
        TrapKind::Shift => "shift",
        TrapKind::Barrier => "barrier",
        TrapKind::Unreachable => "unreachable",
    }
}

/// An invocation has trapped.
pub fn report_trap(alloc: Global, trap: Trap) -> Result<Report, NoMemory>
    ensures { IfOk result (λ r. (r.status ≡ 7) × (string_bytes r.text ≡ trap_text (trap_by trap))) }
{
    let kind = kind_name(trap.kind);
    let function = trap.function;
    let word = trap.word;
    let item = trap.item;
    Ok(Report {
        status: 7,
        text: format!(in alloc; "trap {kind} function {function} word {word} item {item}\n")?,
    })
}

/// The steps of the budget are made.
pub fn report_spent(alloc: Global, steps: u64) -> Result<Report, NoMemory>
    ensures { IfOk result (λ r. (r.status ≡ 8) × (string_bytes r.text ≡ spent_text steps)) }
{
    Ok(Report {
        status: 8,
        text: format!(in alloc; "spent {steps}\n")?,
    })
}

/// A run is complete, in so many steps.
pub fn report_done(alloc: Global, steps: u64) -> Result<Report, NoMemory>
    ensures { IfOk result (λ r. (r.status ≡ 0) × (string_bytes r.text ≡ done_text steps)) }
{
    Ok(Report {
        status: 0,
        text: format!(in alloc; "done {steps}\n")?,
    })
}
