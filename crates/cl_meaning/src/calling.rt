//! Calls (C99, 6.5.2.2 and 6.9.1; OpenCL C 1.2, 6.12).

ghost use Rattle.std.specs.Prelude.{◌≡◌, ◌+◌, ◌++◌, ◌∷◌, [], IfOk, List, OnOk, drop, length, map, max, option_copied, reverse, slice_get};
ghost use Rattle.cl_meaning.specs.Effects.{Goes, arguments_on, effect_of, number_on, scalars_on};
ghost use Rattle.cl_meaning.specs.Operations.{scalars_in};
ghost use Rattle.cl_meaning.specs.States.{with_params};
ghost use Rattle.cl_meaning.specs.Statements.{function_tasks};
ghost use Rattle.cl_meaning.specs.Tasks.{Atomic, Enter, Leave, Wait, WorkItem, steps};
ghost use Rattle.cl_meaning.specs.Views.{Comes, around_by, code_by, item_by, memory_by, pointer_in, surroundings_by, tasks_by};
ghost use Rattle.cl_types.specs.declared.types.ClType.{ClType};

use crate::code::Code;
use crate::did::{Did, Then};
use crate::entry::{Entry, Scalar, pattern_at};
use crate::expression::Unfolding;
use crate::grid::{arguments_of, grid_value};
use crate::item::{Around, Caller, Frame, Item, Surroundings};
use crate::layouts::Layouts;
use crate::memory::{Memory, name_in};
use crate::pointer::{Object, Pointer};
use crate::stack::Stack;
use crate::task::{Task, steps};
use cl_tree::{Event, NodeId, Spot};
use cl_types::{Builtin, TypeId};
use clv_place::{List, NoMemory};
use std::alloc::Global;
use std::mem;

// A node before those of the calls that lead there.
fn and_calls(alloc: Global, node: NodeId, calls: &[NodeId]) -> Result<List<NodeId>, NoMemory>
    ensures { IfOk result (λ all. all ≡ node ∷ calls.now) }
{
    let mut all = Vec::new(alloc);
    all.push(node)?;
    all.extend_from_slice(calls)?;
    Ok(List::from_vec(all))
}

// The nodes of a barrier, the outermost first.
#[tactic(auto, using(crate::proofs::Callings::chain_more, crate::proofs::Callings::chain_end))]
fn chain_of(alloc: Global, calls: &[NodeId], node: NodeId) -> Result<List<NodeId>, NoMemory>
    ensures { IfOk result (λ chain. chain ≡ reverse (node ∷ calls.now)) }
{
    let mut chain = List::new(alloc);
    let mut left = calls;
    while let [rest @ .., call] = left {
        chain.push(*call)?;
        left = rest;
    }
    chain.push(node)?;
    Ok(chain)
}

/// The scalars of the newest value.
pub fn newest_scalars(stack: &Stack<Entry>) -> &[Scalar]
    ensures { result.now ≡ scalars_on stack.now }
{
    match stack.top() {
        Some(entry) => entry.scalars(),
        None => &[],
    }
}

// The pointer that a value is.
fn pointer_of(v: &[Scalar]) -> Option<&Pointer>
    ensures { option_copied result ≡ pointer_in v.now }
{
    match v {
        [Scalar::Points(p)] => Some(p),
        _ => None,
    }
}

// The number of the parameter behind this one. No function that memory holds has more parameters.
fn behind(number: u32) -> Result<u32, NoMemory>
    ensures { IfOk result (λ next. next ≡ number + 1) }
{
    match number.checked_add(1) {
        Some(next) => Ok(next),
        None => Err(NoMemory),
    }
}

// The parameters are set from values, in their order.
#[tactic(auto, using(crate::proofs::Callings::next_param))]
fn set_params(
    alloc: Global,
    layouts: &Layouts<'_>,
    memory: &mut Memory,
    calls: &[NodeId],
    types: &[TypeId],
    values: &[Entry],
) -> Result<(), NoMemory>
    ensures { OnOk result (memory_by memory.new ≡ with_params layouts.now calls.now 0 types.now (map scalars_in values.now) (memory_by memory.old)) }
{
    let mut number = 0;
    let mut types_left = types;
    let mut values_left = values;
    while let [ty, later_types @ ..] = types_left {
        let [value, later_values @ ..] = values_left else {
            return Ok(());
        };
        let name = name_in(alloc, calls, true, number)?;
        memory.set(alloc, layouts, &name, *ty, value.scalars())?;
        number = behind(number)?;
        types_left = later_types;
        values_left = later_values;
    }
    Ok(())
}

// The code of a function by its number.
fn code_at(functions: &[Code], function: u32) -> Option<&Code>
    ensures { option_copied result ≡ slice_get functions.now function }
{
    functions.get(function as usize)
}

// What a function does.
fn tasks_of<'a>(s: Surroundings<'a>, code: &'a Code) -> Result<Stack<Task<'a>>, NoMemory>
    ensures { IfOk result (λ todo. tasks_by todo ≡ function_tasks s.entry.types.now (code_by code.now)) }
{
    let mut tasks = Vec::new(s.alloc);
    s.unfolding().function(code, &mut tasks)?;
    let mut todo = Stack::new(s.alloc);
    todo.push_all(tasks)?;
    Ok(todo)
}

// So many steps before other tasks.
#[tactic(auto, using(crate::proofs::Callings::before))]
fn steps_before<'a>(alloc: Global, todo: &mut Stack<Task<'a>>, count: usize) -> Result<(), NoMemory>
    ensures { OnOk result (tasks_by todo.new ≡ steps count ++ tasks_by todo.old) }
{
    let mut tasks = Vec::new(alloc);
    steps(&mut tasks, count)?;
    todo.push_all(tasks)
}

impl<'a> Surroundings<'a> {
    /// How expressions unfold here.
    pub fn unfolding(self) -> Unfolding<'a>
        ensures { result.types.now ≡ self.entry.types.now }
    {
        Unfolding {
            alloc: self.alloc,
            types: self.types,
        }
    }
}

impl<'a> Item<'a> {
    fn node(&self, number: u32) -> NodeId
        ensures { result ≡ record { function = self.now.frame.function; node = number } }
    {
        NodeId {
            function: self.frame.function,
            node: number,
        }
    }

    // What goes on in place of what went on.
    fn turn(&mut self, todo: Stack<Task<'a>>, around: Stack<Around<'a>>, frame: Frame)
        ensures { self.new ≡ record self.old { todo = todo.entry; around = around.entry; frame = frame } }
    {
        drop(mem::replace(&mut self.todo, todo));
        drop(mem::replace(&mut self.around, around));
        drop(mem::replace(&mut self.frame, frame));
    }

    // The call that runs is pending behind another, which begins with nothing around it.
    fn call(
        &mut self,
        alloc: Global,
        todo: Stack<Task<'a>>,
        frame: Frame,
        least: usize,
    ) -> Result<(), NoMemory>
        ensures { OnOk result (self.new ≡ record self.old { todo = todo.entry; around = []; frame = frame; callers = record { todo = self.old.todo; around = self.old.around; frame = self.old.frame; least = least } ∷ self.old.callers }) }
    {
        self.callers.push(Caller {
            todo: mem::replace(&mut self.todo, todo),
            around: mem::replace(&mut self.around, Stack::new(alloc)),
            frame: mem::replace(&mut self.frame, frame),
            least,
        })
    }

    // The callee's own objects are unset but for its parameters.
    #[tactic(auto, using(crate::proofs::Callings::enters_nothing))]
    pub fn enter(
        &mut self,
        s: Surroundings<'a>,
        function: u32,
        number: u32,
        args: usize,
        least: usize,
    ) -> Result<(), NoMemory>
        ensures { OnOk result (effect_of (surroundings_by s.entry) (Enter function number args least) (item_by s.entry.types.now self.old) ≡ Goes (item_by s.entry.types.now self.new)) }
    {
        let Some(code) = code_at(s.functions, function) else {
            return Ok(());
        };
        let calls = and_calls(s.alloc, self.node(number), self.frame.calls.as_slice())?;
        self.memory.unset_own(calls.as_slice());
        let values = self.stack.newest(args);
        let types = code.params.as_slice();
        set_params(
            s.alloc,
            s.types,
            &mut self.memory,
            calls.as_slice(),
            types,
            values,
        )?;
        self.stack.drop_newest(args);
        let todo = tasks_of(s, code)?;
        self.call(s.alloc, todo, Frame { function, calls }, least)
    }

    // Back to a caller, whose node makes the scalars of the result.
    fn go_back(&mut self, alloc: Global, caller: Caller<'a>) -> Result<(), NoMemory>
        ensures { OnOk result ((cs : List ClType) → item_by cs self.new ≡ record (item_by cs self.old) { todo = steps (max caller.entry.least (length (scalars_on self.old.stack))) ++ tasks_by caller.entry.todo; around = map (around_by cs) caller.entry.around; frame = caller.entry.frame }) }
    {
        let Caller {
            todo,
            around,
            frame,
            least,
        } = caller;
        let mut todo = todo;
        let count = newest_scalars(&self.stack).len();
        steps_before(alloc, &mut todo, least.max(count))?;
        self.turn(todo, around, frame);
        Ok(())
    }

    // Nothing is left to do in this call.
    fn finish(&mut self, alloc: Global)
        ensures { self.new ≡ record self.old { todo = []; around = [] } }
    {
        drop(mem::replace(&mut self.todo, Stack::new(alloc)));
        drop(mem::replace(&mut self.around, Stack::new(alloc)));
    }

    // Back to the caller; the kernel ends.
    pub fn leave(&mut self, s: Surroundings<'a>) -> Result<(), NoMemory>
        ensures { OnOk result (effect_of (surroundings_by s.entry) (Leave) (item_by s.entry.types.now self.old) ≡ Goes (item_by s.entry.types.now self.new)) }
    {
        match self.callers.pop() {
            None => {
                self.finish(s.alloc);
                Ok(())
            }
            Some(caller) => self.go_back(s.alloc, caller),
        }
    }

    /// The newest, which is a number.
    pub fn number(&self) -> u64
        ensures { result ≡ number_on self.now.stack }
    {
        match newest_scalars(&self.stack) {
            [Scalar::Pattern(n)] => *n,
            _ => 0,
        }
    }

    pub fn work_item(&mut self, s: Surroundings<'a>, function: Builtin) -> Result<(), NoMemory>
        ensures { OnOk result (effect_of (surroundings_by s.entry) (WorkItem function) (item_by s.entry.types.now self.old) ≡ Goes (item_by s.entry.types.now self.new)) }
    {
        let value = grid_value(s.launch, s.item, function, self.number());
        self.stack.drop_newest(arguments_of(function));
        self.stack.push(Entry::number(s.alloc, value)?)
    }

    // A barrier is told from others by its node and the calls that lead there; its flags are passed.
    pub fn wait(&mut self, s: Surroundings<'a>, number: u32) -> Result<Did, NoMemory>
        ensures { IfOk result (λ did. Comes (effect_of (surroundings_by s.entry) (Wait number) (item_by s.entry.types.now self.old)) did (item_by s.entry.types.now self.new)) }
    {
        let node = self.node(number);
        let chain = chain_of(s.alloc, self.frame.calls.as_slice(), node)?;
        self.stack.drop_newest(1);
        self.stack.push(Entry::void(s.alloc))?;
        Ok(Did::Asks {
            event: Event::Barrier { chain },
            then: Then::Nothing,
        })
    }

    // The first pattern of each of the newest values.
    fn arguments(&self, s: Surroundings<'a>, count: usize) -> Result<List<u64>, NoMemory>
        ensures { IfOk result (λ ns. ns ≡ arguments_on count self.now.stack) }
    {
        let entries = self.stack.newest(count);
        let mut ns = Vec::new(s.alloc);
        for entry in entries {
            ns.push(pattern_at(entry.scalars(), 0))?;
        }
        Ok(List::from_vec(ns))
    }

    // Where an atomic acts, beneath its other arguments.
    #[tactic(auto, using(crate::proofs::Callings::beneath, crate::proofs::Callings::nothing_beneath))]
    fn atomic_pointer(&self, args: usize) -> Option<&Pointer>
        ensures { option_copied result ≡ pointer_in (scalars_on (drop args self.now.stack)) }
    {
        match self.stack.get(args) {
            Some(entry) => pointer_of(entry.scalars()),
            None => None,
        }
    }

    // Atomics act on ints and uints in global and local memory (6.12.11), and give the old value.
    #[tactic(auto, using(crate::proofs::Callings::no_atomic, crate::proofs::Callings::private_atomic, crate::proofs::Callings::atomic_outside, crate::proofs::Callings::atomic_asks))]
    pub fn atomic(
        &mut self,
        s: Surroundings<'a>,
        op: Builtin,
        signed: bool,
        args: usize,
    ) -> Result<Did, NoMemory>
        ensures { IfOk result (λ did. Comes (effect_of (surroundings_by s.entry) (Atomic op signed args) (item_by s.entry.types.now self.old)) did (item_by s.entry.types.now self.new)) }
    {
        let Some(p) = self.atomic_pointer(args) else {
            return Ok(Did::Went);
        };
        let Object::InShared(object) = &p.object else {
            return Ok(Did::Went);
        };
        if !p.is_inside(4) {
            return Ok(Did::Undefined);
        }
        let at = Spot {
            object: *object,
            offset: p.offset,
            bits: 32,
        };
        let event = Event::Atomic {
            op,
            signed,
            at,
            args: self.arguments(s, args)?,
        };
        self.stack.drop_newest(args);
        self.stack.drop_newest(1);
        Ok(Did::Asks {
            event,
            then: Then::Give { bits: 32 },
        })
    }
}
