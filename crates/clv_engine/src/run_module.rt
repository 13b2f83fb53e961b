//! Running a module on a launch.

ghost use Rattle.std.specs.Prelude.{◌≡◌, ◌≤◌, ◌<◌, ◌^◌, Some, IfOk, length};
ghost use Rattle.launch_text.specs.WorkItems.{volume, sizes_of};
ghost use Rattle.launch_text.specs.Readable.{IsReadable};
ghost use Rattle.spv_reflect.specs.Reflection.{rows_of};
ghost use Rattle.clv_engine.specs.RunSteps.{IsRunnable, HasRows, AreBuffers, OutcomeOf, ComesFrom, RunsFrom};

use crate::marks::marks;
use crate::outcome::Outcome;
use clv_place::{List, NoMemory, Text};
use launch_text::Launch;
use run_machine::{Ending, Machine, NewStop};
use spv_binary::{ReadStop, read};
use spv_reflect::{ReflectStop, Reflection, read_reflection};
use spv_types_rules::Checked;
use std::alloc::Global;
use vk_bind::{BindStop, Start, bind};

/// Runs the module that some bytes spell on a launch with its buffers, under turns of so many steps and
/// within the launch's budget.
pub fn run_module(
    alloc: Global,
    bytes: &[u8],
    launch: &Launch,
    turn: u32,
    buffers: List<Text>,
) -> Result<Outcome, NoMemory>
    requires runnable { IsRunnable bytes.now }
    requires readable { IsReadable launch.now }
    requires turn { 1 ≤ turn }
    requires buffers { AreBuffers launch.now.files buffers }
    ensures { IfOk result (OutcomeOf bytes.now launch.now turn buffers) }
{
    match read(alloc, bytes) {
        Ok(module) => run_checked(alloc, Checked::of(module), launch, turn, buffers),
        Err(ReadStop::Fault { .. }) => unreachable!(),
        Err(ReadStop::NoMemory) => Err(NoMemory),
    }
}

// Reads the reflection of a module that has rows.
fn run_checked(
    alloc: Global,
    checked: Checked,
    launch: &Launch,
    turn: u32,
    buffers: List<Text>,
) -> Result<Outcome, NoMemory>
    requires rows { HasRows checked.body }
    requires readable { IsReadable launch.now }
    requires turn { 1 ≤ turn }
    requires buffers { AreBuffers launch.now.files buffers }
    ensures { IfOk result (ComesFrom checked launch.now turn buffers) }
{
    match read_reflection(alloc, &checked) {
        Ok(reflection) => run_reflected(alloc, checked, &reflection, launch, turn, buffers),
        Err(ReflectStop::Fault { .. }) => unreachable!(),
        Err(ReflectStop::NoMemory) => Err(NoMemory),
    }
}

// Binds the launch.
fn run_reflected(
    alloc: Global,
    checked: Checked,
    reflection: &Reflection,
    launch: &Launch,
    turn: u32,
    buffers: List<Text>,
) -> Result<Outcome, NoMemory>
    requires rows { rows_of checked.body ≡ Some reflection.now }
    requires readable { IsReadable launch.now }
    requires turn { 1 ≤ turn }
    requires buffers { AreBuffers launch.now.files buffers }
    ensures { IfOk result (ComesFrom checked launch.now turn buffers) }
{
    match bind(alloc, checked, reflection, launch, buffers) {
        Ok(start) => run_bound(alloc, start, turn, launch.steps),
        Err(BindStop::Fault { number, arg }) => Ok(Outcome::Misfit { number, arg }),
        Err(BindStop::NoMemory) => Err(NoMemory),
    }
}

// Runs the machine.
fn run_bound(alloc: Global, start: Start, turn: u32, budget: u64) -> Result<Outcome, NoMemory>
    requires few { volume (sizes_of start.global) ≤ 16384 }
    requires counted { length start.buffers < 2 ^ 32 }
    requires turn { 1 ≤ turn }
    ensures { IfOk result (RunsFrom start turn budget) }
{
    let stored = marks(
        alloc,
        start.checked.module().body.as_slice(),
        start.bound.as_slice(),
        start.buffers.as_slice(),
    )?;
    let mut machine = match Machine::new(alloc, start) {
        Ok(machine) => machine,
        Err(NewStop::Cells { .. }) => return Ok(Outcome::TooMuch),
        Err(NewStop::NoMemory) => return Err(NoMemory),
    };
    match machine.run(turn, budget)? {
        Ending::Done { steps } => Ok(Outcome::Done {
            steps,
            buffers: machine.buffers(),
            stored,
        }),
        Ending::Trap { trap, .. } => Ok(Outcome::Trapped(trap)),
        Ending::Spent => Ok(Outcome::Spent),
    }
}
