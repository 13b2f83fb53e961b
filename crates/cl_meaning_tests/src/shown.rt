//! Runs of single work-items, as text.

use crate::text::{Given, answers_of, tree_of};
use cl_meaning::{ItemRun, Reference};
use cl_tree::{Event, NodeId, Outcome, Shared, Spot};
use clv_place::NoMemory;
use std::alloc::Global;
use std::test::Fail;

fn object_text(alloc: Global, object: Shared) -> Result<String, NoMemory> {
    let text = match object {
        Shared::Buffer(k) => format!(in alloc; "buffer {k}")?,
        Shared::Constant(k) => format!(in alloc; "constant {k}")?,
        Shared::LocalArgument(k) => format!(in alloc; "argument {k}")?,
        Shared::LocalVariable(k) => format!(in alloc; "local {k}")?,
    };
    Ok(text)
}

fn spot_text(alloc: Global, at: Spot) -> Result<String, NoMemory> {
    let object = object_text(alloc, at.object)?;
    let (offset, bits) = (at.offset, at.bits);
    Ok(format!(in alloc; "{object} {offset} {bits}")?)
}

fn push_numbers(alloc: Global, text: &mut String, numbers: &[u64]) -> Result<(), NoMemory> {
    for number in numbers {
        let number = format!(in alloc; " {number}")?;
        text.push_str(number.as_str())?;
    }
    Ok(())
}

fn push_chain(alloc: Global, text: &mut String, chain: &[NodeId]) -> Result<(), NoMemory> {
    for at in chain {
        let (function, node) = (at.function, at.node);
        let place = format!(in alloc; " {function}.{node}")?;
        text.push_str(place.as_str())?;
    }
    Ok(())
}

fn event_text(alloc: Global, event: &Event) -> Result<String, NoMemory> {
    let text = match event {
        Event::Read { at } => {
            let spot = spot_text(alloc, *at)?;
            format!(in alloc; "; read {spot}")?
        }
        Event::Write { at, value } => {
            let spot = spot_text(alloc, *at)?;
            format!(in alloc; "; write {spot} {value}")?
        }
        Event::Atomic { at, args, .. } => {
            let spot = spot_text(alloc, *at)?;
            let mut text = format!(in alloc; "; atomic {spot}")?;
            push_numbers(alloc, &mut text, args.as_slice())?;
            text
        }
        Event::Barrier { chain } => {
            let mut text = String::from_str(alloc, "; barrier")?;
            push_chain(alloc, &mut text, chain.as_slice())?;
            text
        }
        Event::Free { bits } => format!(in alloc; "; free {bits}")?,
    };
    Ok(text)
}

fn outcome_text(alloc: Global, outcome: &Outcome, steps: u64) -> Result<String, NoMemory> {
    let text = match outcome {
        Outcome::Done => format!(in alloc; "done {steps}")?,
        Outcome::Undefined => format!(in alloc; "undefined {steps}")?,
        Outcome::Running => format!(in alloc; "running {steps}")?,
        Outcome::Asks(event) => {
            let event = event_text(alloc, event)?;
            format!(in alloc; "asks {steps}{event}")?
        }
    };
    Ok(text)
}

fn run_text(alloc: Global, run: &ItemRun) -> Result<String, NoMemory> {
    let mut text = outcome_text(alloc, &run.outcome, run.steps)?;
    text.push_str(" |")?;
    for event in run.events.as_slice() {
        let event = event_text(alloc, event)?;
        text.push_str(event.as_str())?;
    }
    Ok(text)
}

/// What an item of a launch does by these answers, in so many steps: its outcome with the steps made, and behind `|`
/// the events that were answered.
pub(crate) fn shown(
    alloc: Global,
    text: &str,
    given: &str,
    item: u32,
    answers: &str,
    fuel: u64,
) -> Result<String, Fail> {
    let tree = tree_of(alloc, text)?;
    let (launch, _) = Given::read(alloc, given)?.launch(alloc, &tree)?;
    let answers = answers_of(alloc, answers)?;
    let run = Reference::run_item(alloc, &tree, &launch, item, &answers, fuel)?;
    Ok(run_text(alloc, &run)?)
}
