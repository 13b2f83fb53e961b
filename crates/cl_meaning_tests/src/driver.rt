//! The work-items of a launch over shared bytes, in turns of so many events.

use crate::memory::Memory;
use crate::text::{Given, tree_of};
use cl_meaning::{ItemRun, Reference};
use cl_tree::{Answer, Event, NodeId, Outcome, Tree};
use clv_place::{List, NoMemory};
use launch_text::LaunchSizes;
use std::alloc::Global;
use std::test::Fail;

// Where a work-item is: it can go on, waits at a barrier, or has ended.
#[derive(Drop)]
enum Stand {
    Goes,
    Waits(List<NodeId>),
    Done,
}

#[derive(Drop)]
struct Item {
    number: u32,
    group: u32,
    answers: List<Answer>,
    stand: Stand,
}

/// How a launch ended: with these buffers, or at what is undefined.
#[derive(Drop)]
pub(crate) enum End {
    Complete(Vec<Vec<u8>>),
    Undefined,
}

#[derive(Clone, Copy, PartialEq, Eq)]
enum Verdict {
    Defined,
    Undefined,
}

// A launch under way.
#[derive(Drop)]
struct World<'a> {
    alloc: Global,
    tree: &'a Tree,
    launch: &'a LaunchSizes,
    memory: Memory,
}

// No kernel of the tests takes so many steps, nor so many turns.
const FUEL: u64 = 1_000_000;

const TURNS: u32 = 1_000_000;

fn quotient(number: u32, by: u32) -> u32 {
    number.checked_div(by).unwrap_or(0)
}

fn remainder(number: u32, by: u32) -> u32 {
    number.checked_rem(by).unwrap_or(0)
}

// Groups are numbered along x first, then y, then z, as the items are.
fn group_of(launch: &LaunchSizes, number: u32) -> u32 {
    let [width, height, _] = launch.global;
    let [along_x, along_y, along_z] = launch.local;
    let x = quotient(remainder(number, width), along_x);
    let y = quotient(remainder(quotient(number, width), height), along_y);
    let z = quotient(quotient(quotient(number, width), height), along_z);
    let columns = quotient(width, along_x);
    let rows = quotient(height, along_y);
    x.wrapping_add(columns.wrapping_mul(y.wrapping_add(rows.wrapping_mul(z))))
}

fn items_of(alloc: Global, launch: &LaunchSizes) -> Result<Vec<Item>, NoMemory> {
    let [x, y, z] = launch.global;
    let mut items = Vec::new(alloc);
    for number in 0..x.wrapping_mul(y).wrapping_mul(z) {
        items.push(Item {
            number,
            group: group_of(launch, number),
            answers: List::new(alloc),
            stand: Stand::Goes,
        })?;
    }
    Ok(items)
}

fn answered(item: &mut Item, value: u64) -> Result<(), NoMemory> {
    item.answers.push(Answer { value })
}

impl World<'_> {
    fn does(&mut self, item: &mut Item, event: &Event) -> Result<Verdict, NoMemory> {
        match self.memory.does(self.tree, item.group, event)? {
            Some(value) => {
                answered(item, value)?;
                Ok(Verdict::Defined)
            }
            None => Ok(Verdict::Undefined),
        }
    }

    // One event of an item, or its end.
    fn goes_on(&mut self, item: &mut Item) -> Result<Verdict, Fail> {
        let ItemRun { outcome, .. } = Reference::run_item(
            self.alloc,
            self.tree,
            self.launch,
            item.number,
            &item.answers,
            FUEL,
        )?;
        match outcome {
            Outcome::Done => item.stand = Stand::Done,
            Outcome::Asks(Event::Barrier { chain }) => item.stand = Stand::Waits(chain),
            Outcome::Asks(event) => return Ok(self.does(item, &event)?),
            Outcome::Undefined => return Ok(Verdict::Undefined),
            Outcome::Running => return Err("a run without an end".into()),
        }
        Ok(Verdict::Defined)
    }

    fn turn(&mut self, item: &mut Item, events: u32) -> Result<Verdict, Fail> {
        for _event in 0..events {
            if !goes(item) {
                break;
            }
            if self.goes_on(item)? == Verdict::Undefined {
                return Ok(Verdict::Undefined);
            }
        }
        Ok(Verdict::Defined)
    }

    fn round(&mut self, items: &mut Vec<Item>, events: u32) -> Result<Verdict, Fail> {
        for item in items.iter_mut() {
            if self.turn(item, events)? == Verdict::Undefined {
                return Ok(Verdict::Undefined);
            }
        }
        Ok(Verdict::Defined)
    }
}

fn goes(item: &Item) -> bool {
    match item.stand {
        Stand::Goes => true,
        _ => false,
    }
}

fn is_done(item: &Item) -> bool {
    match item.stand {
        Stand::Done => true,
        _ => false,
    }
}

// Whether two items have ended both, or wait at one chain.
fn is_beside(one: &Item, other: &Item) -> bool {
    match (&one.stand, &other.stand) {
        (Stand::Done, Stand::Done) => true,
        (Stand::Waits(here), Stand::Waits(there)) => here.as_slice() == there.as_slice(),
        _ => false,
    }
}

// Whether an item of the group can go on.
fn has_going(items: &[Item], group: u32) -> bool {
    for item in items {
        if item.group == group && goes(item) {
            return true;
        }
    }
    false
}

// Whether those of a group stand where this one does.
fn are_beside(items: &[Item], first: &Item) -> bool {
    for item in items {
        if item.group == first.group && !is_beside(first, item) {
            return false;
        }
    }
    true
}

// A group in which nobody can go on has ended, or it waits at one barrier (OpenCL C 1.2, 6.12.8).
fn judged(items: &[Item]) -> Verdict {
    for item in items {
        if !has_going(items, item.group) && !are_beside(items, item) {
            return Verdict::Undefined;
        }
    }
    Verdict::Defined
}

// Whether the item waits in a group in which nobody can go on.
fn is_released(items: &[Item], item: &Item) -> bool {
    !is_done(item) && !has_going(items, item.group)
}

fn released(alloc: Global, items: &[Item]) -> Result<Vec<bool>, NoMemory> {
    let mut all = Vec::new(alloc);
    for item in items {
        all.push(is_released(items, item))?;
    }
    Ok(all)
}

// The groups whose items wait at one barrier go on.
fn release(alloc: Global, items: &mut Vec<Item>) -> Result<(), NoMemory> {
    let all = released(alloc, items.as_slice())?;
    for (item, is_released) in items.iter_mut().zip(all.as_slice()) {
        if *is_released {
            answered(item, 0)?;
            item.stand = Stand::Goes;
        }
    }
    Ok(())
}

fn all_done(items: &[Item]) -> bool {
    for item in items {
        if !is_done(item) {
            return false;
        }
    }
    true
}

fn run(mut world: World<'_>, events: u32) -> Result<End, Fail> {
    let alloc = world.alloc;
    let mut items = items_of(alloc, world.launch)?;
    for _turn in 0..TURNS {
        if world.round(&mut items, events)? == Verdict::Undefined
            || judged(items.as_slice()) == Verdict::Undefined
        {
            return Ok(End::Undefined);
        }
        if all_done(items.as_slice()) {
            return Ok(End::Complete(world.memory.buffers));
        }
        release(alloc, &mut items)?;
    }
    Err("a launch without an end".into())
}

/// How a launch of a text's first kernel ends, in turns of so many events.
pub(crate) fn ended(alloc: Global, text: &str, given: &str, events: u32) -> Result<End, Fail> {
    let tree = tree_of(alloc, text)?;
    let (launch, buffers) = Given::read(alloc, given)?.launch(alloc, &tree)?;
    let world = World {
        alloc,
        tree: &tree,
        launch: &launch,
        memory: Memory::new(alloc, buffers),
    };
    run(world, events)
}

/// Whether a launch is defined and leaves buffers as described.
pub(crate) fn leaves(
    alloc: Global,
    text: &str,
    given: &str,
    left: &str,
    events: u32,
) -> Result<bool, Fail> {
    match ended(alloc, text, given, events)? {
        End::Complete(buffers) => Ok(buffers == Given::read(alloc, left)?.buffers),
        End::Undefined => Ok(false),
    }
}

/// Whether a launch is defined.
pub(crate) fn is_defined(
    alloc: Global,
    text: &str,
    given: &str,
    events: u32,
) -> Result<bool, Fail> {
    match ended(alloc, text, given, events)? {
        End::Complete(_) => Ok(true),
        End::Undefined => Ok(false),
    }
}
