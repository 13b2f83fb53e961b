//! The machine before its first step.

ghost use Rattle.std.specs.Prelude.{◌≡◌, ◌+◌, ◌*◌, ◌<◌, ◌≤◌, ◌^◌, ℕ, [], IfOk, IfErr, length, replicate, map, take};
ghost use Rattle.clv_worlds.specs.Worlds.{opening};
ghost use Rattle.launch_text.specs.WorkItems.{volume, sizes_of};
ghost use Rattle.spv_module.specs.Interface.{word_at as first_word};
ghost use Rattle.spv_meaning.specs.Invocation.{place_after as place_behind, run};
ghost use Rattle.run_machine.specs.Views.{body_by, start_by, run_by};
ghost use Rattle.spv_meaning.specs.Cells as cells;
ghost use Rattle.run_machine.specs.Machines.{IsAt, IsStopOf};

use crate::cells::{MAX_CELLS, cells_needed};
use crate::invocation::{Frame, Run};
use crate::launch::body_of;
use crate::machine::Machine;
use crate::stop::NewStop;
use clv_place::{List, NoMemory, Text};
use spv_module::module::Inst;
use spv_module::reading::Said;
use std::alloc::Global;
use vk_bind::Start;

// The place behind a function's line, or behind the last line where there is none.
pub(crate) fn place_after(body: &[Inst], function: u32) -> usize
    ensures at { result ≡ place_behind body.now function }
    ensures within { result ≤ length body.now }
{
    let mut place = 0;
    let mut rest = body;
    while let [inst, others @ ..] = rest {
        place += 1;
        if let Said::Function { id, .. } = inst.says() {
            if id == function {
                return place;
            }
        }
        rest = others;
    }
    place
}

// A copy of each buffer.
fn copies(alloc: Global, buffers: &[Text]) -> Result<Vec<Text>, NoMemory>
    ensures { IfOk result (λ copies. copies.items ≡ buffers.now) }
{
    let mut copies = Vec::new(alloc);
    for buffer in buffers {
        copies.push(Text::from_bytes(alloc, buffer.as_slice())?)?;
    }
    Ok(copies)
}

// So many invocations at the beginning of a function.
#[tactic(auto, using(crate::proofs::Openings::firsts))]
fn firsts(alloc: Global, function: u32, place: usize, count: u32) -> Result<Vec<Run>, NoMemory>
    ensures { IfOk result (λ runs. map run_by runs.items ≡ replicate count (run function place [] [])) }
{
    let mut runs = Vec::new(alloc);
    for made in 0..count {
        let _ = made;
        runs.push(Run::At(Frame {
            function,
            place,
            part: Vec::new(alloc),
            values: Vec::new(alloc),
        }))?;
    }
    Ok(runs)
}

// The number of items.
pub(crate) fn items_of(start: &Start) -> u32
    requires { volume (sizes_of start.now.global) ≤ 16384 }
    ensures { result ≡ volume (sizes_of start.now.global) }
{
    let [x, y, z] = start.global;
    (x as u64 * y as u64 * z as u64) as u32
}

impl Machine {
    // All invocations before their first step, over copies of the buffers.
    #[tactic(auto, using(crate::proofs::Openings::opened))]
    fn opened(alloc: Global, start: Start) -> Result<Machine, NoMemory>
        requires { volume (sizes_of start.global) ≤ 16384 }
        ensures start { IfOk result (λ m. m.start ≡ start) }
        ensures at { IfOk result (λ m. IsAt m (opening (start_by start).buffers)) }
    {
        let buffers = copies(alloc, start.buffers.as_slice())?;
        let place = place_after(body_of(&start), start.function);
        let runs = firsts(alloc, start.function, place, items_of(&start))?;
        Ok(Machine {
            alloc,
            start,
            buffers,
            runs,
        })
    }

    /// The machine with all invocations before their first step, and copies of the buffers; or the number of
    /// cells that the launch needs, exactly where it is over `MAX_CELLS`.
    #[tactic(auto, using(crate::proofs::Counting::limits))]
    pub fn new(alloc: Global, start: Start) -> Result<Machine, NewStop>
        requires { volume (sizes_of start.global) ≤ 16384 }
        ensures start { IfOk result (λ m. m.start ≡ start) }
        ensures at { IfOk result (λ m. IsAt m (opening (start_by start).buffers)) }
        ensures fits { IfOk result (λ m. cells.cells_needed (body_by start) (start_by start) ≤ cells.MAX_CELLS) }
        ensures cells { IfErr result (IsStopOf (body_by start) (start_by start)) }
    {
        let need = cells_needed(&start);
        if need > MAX_CELLS {
            return Err(NewStop::Cells { need });
        }
        Ok(Machine::opened(alloc, start)?)
    }
}
