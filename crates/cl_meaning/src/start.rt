//! What a work-item begins with (OpenCL C 1.2, 6.5 and 6.7).

ghost use Rattle.std.specs.Prelude.{◌≡◌, [], IfOk, List, OnOk};
ghost use Rattle.cl_meaning.specs.Source.{first_item, is_kernel_of, kernel_of, unset, with_argument, with_arguments};
ghost use Rattle.cl_meaning.specs.Views.{item_by, memory_by, surroundings_by};
ghost use Rattle.cl_types.specs.declared.types.ClType.{ClType};

use crate::item::{Frame, Item, Surroundings};
use crate::memory::{Memory, name_in};
use crate::pointer::{Object, Pointer};
use crate::stack::Stack;
use crate::task::{Act, Task};
use cl_tree::{Function, Shared};
use clv_place::{List, NoMemory};
use launch_text::ArgSize;

fn is_kernel_of(name: &[u8], function: &Function) -> bool
    ensures { result ≡ is_kernel_of name.now function.now }
{
    function.kernel && name == function.name.as_slice()
}

// A number. One that 32 bits don't hold is want of memory.
fn number(k: usize) -> Result<u32, NoMemory>
    ensures { IfOk result (λ n. n ≡ k) }
{
    if k <= u32::MAX as usize {
        Ok(k as u32)
    } else {
        Err(NoMemory)
    }
}

/// The number of the kernel of a name; 0 where there is none. One that 32 bits don't hold is want of memory.
#[tactic(auto, using(crate::proofs::Kernels::kernels))]
pub fn kernel_of(name: &[u8], functions: &[Function]) -> Result<u32, NoMemory>
    ensures { IfOk result (λ k. k ≡ kernel_of name.now functions.now) }
{
    for (k, function) in functions.iter().enumerate() {
        if is_kernel_of(name, function) {
            return number(k);
        }
    }
    Ok(0)
}

// A parameter of the kernel: a pointer to the whole of a buffer or of an argument in local memory, or the bytes of a
// plain argument, which are all set.
fn set_argument(
    memory: &mut Memory,
    s: Surroundings<'_>,
    k: u32,
    argument: &ArgSize,
) -> Result<(), NoMemory>
    ensures { OnOk result (memory_by memory.new ≡ with_argument k argument.now (memory_by memory.old)) }
{
    let name = name_in(s.alloc, &[], true, k)?;
    match argument {
        ArgSize::Buffer { file, bytes } => {
            let whole = Pointer::whole_of(Object::InShared(Shared::Buffer(*file)), *bytes);
            memory.point(s.alloc, &name, whole)
        }
        ArgSize::Local { bytes } => {
            let whole = Pointer::whole_of(Object::InShared(Shared::LocalArgument(k)), *bytes);
            memory.point(s.alloc, &name, whole)
        }
        ArgSize::Plain { bytes } => memory.put_bytes(s.alloc, &name, bytes.as_slice()),
    }
}

// Private memory where the arguments are set, and nothing else.
#[tactic(auto, using(crate::proofs::Beginnings::all_arguments))]
fn arguments(s: Surroundings<'_>) -> Result<Memory, NoMemory>
    ensures { IfOk result (λ m. memory_by m ≡ with_arguments 0 s.entry.launch.now.args unset) }
{
    let mut memory = Memory::new(s.alloc);
    for (k, argument) in s.launch.args.as_slice().iter().enumerate() {
        set_argument(&mut memory, s, number(k)?, argument)?;
    }
    Ok(memory)
}

impl<'a> Item<'a> {
    // An item in a function, with nothing to do.
    fn idle(s: Surroundings<'a>, kernel: u32, memory: Memory) -> Item<'a>
        ensures { (cs : List ClType) → item_by cs result ≡ record { todo = []; stack = []; memory = memory_by memory; frame = record { function = kernel; calls = [] }; around = []; callers = [] } }
    {
        Item {
            todo: Stack::new(s.alloc),
            stack: Stack::new(s.alloc),
            memory,
            frame: Frame {
                function: kernel,
                calls: List::new(s.alloc),
            },
            around: Stack::new(s.alloc),
            callers: Stack::new(s.alloc),
        }
    }

    /// What an item begins with. Entering the kernel is a step.
    pub fn first(s: Surroundings<'a>, kernel: u32) -> Result<Item<'a>, NoMemory>
        ensures { IfOk result (λ i. item_by s.entry.types.now i ≡ first_item (surroundings_by s.entry) kernel) }
    {
        let Some(code) = s.functions.get(kernel as usize) else {
            return Ok(Item::idle(s, kernel, Memory::new(s.alloc)));
        };
        let mut item = Item::idle(s, kernel, arguments(s)?);
        let mut tasks = Vec::new(s.alloc);
        tasks.push(Task::Step(Act::Pass))?;
        s.unfolding().function(code, &mut tasks)?;
        item.todo.push_all(tasks)?;
        Ok(item)
    }
}
