//! The expansion of a list of tokens, with a stack of the calls whose arguments are being expanded.

ghost use Rattle.std.specs.Prelude.{◌≡◌, IfOk, List, [], ◌∷◌, ◌++◌, Some, slice_get};
ghost use Rattle.cl_macro.specs.Answers.{Answers};
ghost use Rattle.cl_macro.specs.Expansions.{OneVerdict, OneReplacement, Expands, EachExpands, Replaces, call_becomes, before};
ghost use Rattle.cl_macro.specs.Machine.{filled, opened, popped, over, step};
ghost use Rattle.cl_macro.specs.Replacements.{substituted, params_of, body_of};
ghost use Rattle.cl_macro.specs.Tables.{means_of};

use crate::first::first;
use crate::item::{Call, First, Item, Room};
use crate::replace::{replacement, substitute};
use crate::row::Row;
use crate::stack::Stack;
use crate::table::Table;
use clv_place::{NoMemory, Offence, Stop};
use std::alloc::Global;

/// A call that is open: the arguments that are left, those that are done, and what came out before it.
#[derive(Drop)]
pub struct Frame {
    pub call: Call,
    pub left: Stack<Row<Item>>,
    pub done: Row<Row<Item>>,
    pub out: Row<Item>,
}

/// The calls that are open, and what came out and what is to be read within the last one.
#[derive(Drop)]
pub struct State {
    pub frames: Stack<Frame>,
    pub out: Row<Item>,
    pub input: Stack<Item>,
}

/// What a step leads to.
#[derive(Drop)]
pub enum Progress {
    Goes(State),
    Ends(Row<Item>),
    Fails(Offence),
}

// A macro's body with these arguments.
fn filled_body(
    alloc: Global,
    table: &Table,
    at: usize,
    args: &[Row<Item>],
) -> Result<Row<Item>, NoMemory>
    ensures { IfOk result (λ r. r ≡ substituted (params_of (means_of (slice_get table.now at))) args.now [] (body_of (means_of (slice_get table.now at)))) }
{
    match table.meaning(at) {
        None => substitute(alloc, &[], args, &[]),
        Some(m) => match &m.params {
            None => substitute(alloc, &[], args, m.body.as_slice()),
            Some(params) => substitute(alloc, params.as_slice(), args, m.body.as_slice()),
        },
    }
}

// What is to be read on behind a call with these arguments, or 123.
fn filled_call(
    alloc: Global,
    table: &Table,
    call: Call,
    args: &[Row<Item>],
) -> Result<Stack<Item>, Stop>
    ensures { Answers result (λ v. v ≡ before call.beyond (call_becomes table.now call args.now)) }
{
    let Call {
        at,
        place,
        hidden,
        beyond,
    } = call;
    let body = filled_body(alloc, table, at, args)?;
    let items = replacement(alloc, place, &hidden, body.as_slice())?;
    let mut input = beyond;
    input.put(items)?;
    Ok(input)
}

// A call whose arguments are expanded.
fn filled(
    alloc: Global,
    table: &Table,
    frames: Stack<Frame>,
    f: Frame,
) -> Result<Progress, NoMemory>
    ensures { IfOk result (λ p. p ≡ filled frames f.out (before f.call.beyond (call_becomes table.now f.call f.done))) }
{
    let Frame {
        call,
        left: _left,
        done,
        out,
    } = f;
    match filled_call(alloc, table, call, done.as_slice()) {
        Ok(input) => Ok(Progress::Goes(State { frames, out, input })),
        Err(Stop::Out(e)) => Ok(Progress::Fails(e)),
        Err(Stop::NoMemory) => Err(NoMemory),
    }
}

// The next argument of a call, or what follows it.
fn opened(
    alloc: Global,
    table: &Table,
    frames: Stack<Frame>,
    f: Frame,
) -> Result<Progress, NoMemory>
    ensures { IfOk result (λ p. p ≡ opened table.now frames f) }
{
    let mut f = f;
    match f.left.pop() {
        None => filled(alloc, table, frames, f),
        Some(arg) => {
            let mut frames = frames;
            frames.push(f)?;
            Ok(Progress::Goes(State {
                frames,
                out: Row::new(alloc),
                input: Stack::of(alloc, arg)?,
            }))
        }
    }
}

// The end of an argument, or of the whole.
fn popped(
    alloc: Global,
    table: &Table,
    out: Row<Item>,
    frames: Stack<Frame>,
) -> Result<Progress, NoMemory>
    ensures { IfOk result (λ p. p ≡ popped table.now out frames) }
{
    let mut frames = frames;
    match frames.pop() {
        None => Ok(Progress::Ends(out)),
        Some(f) => {
            let mut f = f;
            f.done.push(out)?;
            opened(alloc, table, frames, f)
        }
    }
}

// The offence of one more token.
fn over(room: Room, frames: &Stack<Frame>, out: &Row<Item>) -> Option<Offence>
    ensures { result ≡ over room frames.now out.now }
{
    if frames.is_empty() {
        match room {
            Room::Endless => None,
            Room::Tokens(most, full) => { if out.len() >= most { Some(full) } else { None } }
        }
    } else {
        None
    }
}

fn step(alloc: Global, room: Room, table: &Table, s: State) -> Result<Progress, NoMemory>
    ensures { IfOk result (λ p. p ≡ step room table.now s) }
{
    let State { frames, out, input } = s;
    match first(alloc, table, input)? {
        First::End => popped(alloc, table, out, frames),
        First::Kept(t, input) => match over(room, &frames, &out) {
            Some(full) => Ok(Progress::Fails(full)),
            None => {
                let mut out = out;
                out.push(t)?;
                Ok(Progress::Goes(State { frames, out, input }))
            }
        },
        First::Becomes(input) => Ok(Progress::Goes(State { frames, out, input })),
        First::Bad(e) => Ok(Progress::Fails(e)),
        First::Calls(call, args) => {
            let left = Stack::of(alloc, args)?;
            opened(
                alloc,
                table,
                frames,
                Frame {
                    call,
                    left,
                    done: Row::new(alloc),
                    out,
                },
            )
        }
    }
}

/// The tokens that a list expands to where nothing follows it (C99 6.10.3), or its first offence: 114, 115
/// or 123 as `first` says, or the offence of more tokens than there is room for. It also fails for want of
/// memory.
#[tactic(auto, using(crate::proofs::Leading::leading))]
pub fn expand(
    alloc: Global,
    table: &Table,
    room: Room,
    input: Stack<Item>,
) -> Result<Row<Item>, Stop>
    ensures { Answers result (Expands table.now room input) }
{
    let mut state = State {
        frames: Stack::new(alloc),
        out: Row::new(alloc),
        input,
    };
    for _ in 0..u64::MAX {
        match step(alloc, room, table, state)? {
            Progress::Goes(next) => state = next,
            Progress::Ends(out) => return Ok(out),
            Progress::Fails(e) => return Err(Stop::Out(e)),
        }
    }
    Err(Stop::NoMemory)
}

/// Each of these arguments expanded by itself, from left to right, or the first offence in one of them. It
/// also fails for want of memory.
#[tactic(auto, using(crate::proofs::Each::each_steps))]
pub fn expand_each(
    alloc: Global,
    table: &Table,
    args: Row<Row<Item>>,
) -> Result<Row<Row<Item>>, Stop>
    ensures { Answers result (EachExpands table.now args) }
{
    let mut left = Stack::of(alloc, args)?;
    let mut done = Row::new(alloc);
    while let Some(arg) = left.pop() {
        let input = Stack::of(alloc, arg)?;
        done.push(expand(alloc, table, Room::Endless, input)?)?;
    }
    Ok(done)
}

/// What is to be read on in the place of a call with these arguments: its replacement, and what follows it;
/// or the first offence in an argument, or 123 at the macro's name. It also fails for want of memory.
#[tactic(auto, using(crate::proofs::Each::call_steps))]
pub fn replace_call(
    alloc: Global,
    table: &Table,
    call: Call,
    args: Row<Row<Item>>,
) -> Result<Stack<Item>, Stop>
    ensures { Answers result (Replaces table.now call args) }
{
    let done = expand_each(alloc, table, args)?;
    filled_call(alloc, table, call, done.as_slice())
}

/// A law: each list of tokens has one verdict, so `expand` answers its expansion exactly where it has one,
/// and its first offence exactly where it has one.
#[tactic(auto, using(crate::proofs::Unique::one_verdict))]
pub fn one_verdict()
    ensures { OneVerdict }
{}

/// A law: each call has one verdict, so `replace_call` answers what stands for it exactly where something
/// does.
#[tactic(auto, using(crate::proofs::Unique::one_replacement))]
pub fn one_replacement()
    ensures { OneReplacement }
{}
