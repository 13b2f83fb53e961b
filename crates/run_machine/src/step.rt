//! One step of the machine.

ghost use Rattle.std.specs.Prelude.{◌≡◌, ◌+◌, ◌*◌, ◌<◌, ◌≤◌, ◌^◌, ◌++◌, ℕ, [], ◌∷◌, length, IfOk, OnOk, OnErr, slice_get, slice_index_or, slice_set, map};
ghost use Rattle.clv_worlds.specs.Worlds.{opening};
ghost use Rattle.launch_text.specs.WorkItems.{volume, sizes_of, place_in};
ghost use Rattle.spv_module.specs.Interface.{word_at as first_word};
ghost use Rattle.spv_meaning.specs.Invocation.{place_after, run};
ghost use Rattle.run_machine.specs.Views.{body_by, start_by, run_by, frame_by, values_by, value_by, row_of, point_by};
ghost use Rattle.run_machine.specs.Machines.{next_as, HasRoom, Does, IsAt, IsReady, runs_of, write_of, written_by, stepped_by, StandsIn, Steps, RunsTo};
ghost use Rattle.spv_meaning.specs.Schedule.{Invocations};
ghost use Rattle.run_machine.specs.declared.invocation.Run.TheVariants.{Over};

use crate::ending::{Ending, Stepped, Trap};
use crate::invocation::{Frame, Named, Point, Run, Value};
use crate::launch::{Scene, body_of};
use crate::machine::Machine;
use crate::memory::write;
use crate::row::Did;
use crate::spot::Spot;
use clv_place::{List, NoMemory, Text};
use spv_meaning::TrapKind;
use spv_module::size::word_at;
use std::alloc::Global;
use vk_bind::Start;

impl Frame {
    // Behind the instruction, with a value more where there is one. For want of memory the frame is as
    // before.
    #[tactic(auto, using(crate::proofs::Values::newest))]
    fn give(&mut self, id: u32, value: Value) -> Result<(), NoMemory>
        requires { self.old.place + 1 < 2 ^ 64 }
        ensures ok { OnOk result (frame_by self.new ≡ run self.old.function (self.old.place + 1) [] ((id, value_by value) ∷ values_by self.old)) }
        ensures err { OnErr result (frame_by self.new ≡ frame_by self.old) }
    {
        match self.values.push(Named { id, value }) {
            Ok(()) => {
                self.part.clear();
                self.place += 1;
                Ok(())
            }
            Err(_) => Err(NoMemory),
        }
    }

    // Behind the instruction.
    fn pass(&mut self)
        requires { self.old.place + 1 < 2 ^ 64 }
        ensures { frame_by self.new ≡ run self.old.function (self.old.place + 1) [] (values_by self.old) }
    {
        self.part.clear();
        self.place += 1;
    }

    // Into a block, where no value is left.
    fn begin(&mut self)
        requires { self.old.place + 1 < 2 ^ 64 }
        ensures { frame_by self.new ≡ run self.old.function (self.old.place + 1) [] [] }
    {
        self.values.clear();
        self.part.clear();
        self.place += 1;
    }

    // One more scalar of a load.
    fn take(&mut self, scalar: u32) -> Result<(), NoMemory>
        ensures ok { OnOk result (frame_by self.new ≡ run self.old.function self.old.place (self.old.part.items ++ scalar ∷ []) (values_by self.old)) }
        ensures err { OnErr result (frame_by self.new ≡ frame_by self.old) }
    {
        match self.part.push(scalar) {
            Ok(()) => Ok(()),
            Err(_) => Err(NoMemory),
        }
    }
}

// The invocation after what it does. For want of memory it is as before.
fn go(run: &mut Run, did: Did) -> Result<(), NoMemory>
    requires { HasRoom run.old did }
    ensures ok { OnOk result (run_by run.new ≡ next_as run.old did) }
    ensures err { OnErr result (run_by run.new ≡ run_by run.old) }
{
    let Run::At(frame) = run else {
        return Ok(());
    };
    match did {
        Did::Begins => {
            frame.begin();
            Ok(())
        }
        Did::Gives(id, value) => frame.give(id, value),
        Did::Moves(scalar) => frame.take(scalar),
        Did::Writes(_, _) => {
            frame.pass();
            Ok(())
        }
        Did::Returns => {
            *run = Run::Over;
            Ok(())
        }
        Did::Traps(_) => {
            *run = Run::Over;
            Ok(())
        }
    }
}

impl Did {
    // The write, where it is one.
    fn written(&self) -> Option<(Spot, u32)>
        ensures { result ≡ write_of self.now }
    {
        match self {
            Did::Writes(spot, value) => Some((*spot, *value)),
            _ => None,
        }
    }

    // What a step is that isn't a trap.
    fn stepped(&self) -> Stepped
        ensures { result ≡ stepped_by self.now }
    {
        match self {
            Did::Returns => Stepped::Ended,
            _ => Stepped::Went,
        }
    }
}

// Where an item stands in the grid.
fn point(start: &Start, item: u32) -> Point
    requires { item < volume (sizes_of start.now.global) }
    ensures { point_by result ≡ place_in (sizes_of start.now.global) item }
{
    let [x, y, _] = start.global;
    Point {
        x: item % x,
        y: item / x % y,
        z: (item as u64 / (x as u64 * y as u64)) as u32,
    }
}

// What the invocation of an item does next.
fn did(alloc: Global, start: &Start, item: u32, run: &Run) -> Result<Did, NoMemory>
    requires { item < volume (sizes_of start.now.global) }
    ensures does { IfOk result (λ d. Does (body_by start.now) (start_by start.now) item run.now d) }
    ensures room { IfOk result (λ d. HasRoom run.now d) }
{
    let Run::At(frame) = run else {
        return Ok(Did::Returns);
    };
    let scene = Scene {
        start,
        place: point(start, item),
    };
    match body_of(start).get(frame.place) {
        Some(inst) => scene.row(alloc, frame, inst.says()),
        None => Ok(Did::Traps(TrapKind::Unreachable)),
    }
}

impl Machine {
    // A trap of an item's next instruction.
    #[tactic(auto, using(crate::proofs::Words::trapping))]
    fn trap(&self, kind: TrapKind, item: u32) -> Trap
        requires { IsReady self.now item }
        ensures kind { result.kind ≡ kind }
        ensures item { result.item ≡ item }
        ensures at { StandsIn (body_by self.now.start) (slice_index_or self.now.runs.items item Over) result.function result.word }
    {
        let body = body_of(&self.start);
        match &self.runs[item as usize] {
            Run::At(frame) => Trap {
                kind,
                function: frame.function,
                word: word_at(
                    body,
                    if frame.place < body.len() {
                        frame.place
                    } else {
                        body.len()
                    },
                ),
                item,
            },
            Run::Over => Trap {
                kind,
                function: 0,
                word: 0,
                item,
            },
        }
    }

    // Makes what an item does next, which is no trap. For want of memory all is as before.
    #[tactic(auto, using(crate::proofs::Stepping::making))]
    fn make(&mut self, item: u32, did: Did) -> Result<Stepped, NoMemory>
        requires ready { IsReady self.old item }
        requires room { HasRoom (slice_index_or self.old.runs.items item Over) did }
        ensures start { self.new.start ≡ self.old.start }
        ensures runs { OnOk result (runs_of self.new ≡ slice_set (runs_of self.old) item (next_as (slice_index_or self.old.runs.items item Over) did)) }
        ensures buffers { OnOk result (self.new.buffers.items ≡ written_by did self.old.buffers.items) }
        ensures stepped { IfOk result (λ s. s ≡ stepped_by did) }
        ensures refused { OnErr result ((runs_of self.new ≡ runs_of self.old) × (self.new.buffers.items ≡ self.old.buffers.items)) }
    {
        let written = did.written();
        let stepped = did.stepped();
        go(&mut self.runs[item as usize], did)?;
        if let Some((spot, value)) = written {
            write(&mut self.buffers, spot, value);
        }
        Ok(stepped)
    }

    /// One step of an item that hasn't ended: of its own, with the value 0 where it needs one that isn't
    /// specified; or a question, with the buffers' answer. Where its next instruction traps nothing changes,
    /// and for want of memory the machine stands where it stood.
    #[tactic(auto, using(crate::proofs::Stepping::stepping))]
    pub fn step(&mut self, item: u32) -> Result<Stepped, NoMemory>
        requires { IsReady self.old item }
        ensures start { self.new.start ≡ self.old.start }
        ensures stepped { IfOk result (Steps self.old item self.new) }
        ensures refused { OnErr result ((w : Invocations) → IsAt self.old w → IsAt self.new w) }
    {
        let did = did(self.alloc, &self.start, item, &self.runs[item as usize])?;
        match did {
            Did::Traps(kind) => Ok(Stepped::Trapped(self.trap(kind, item))),
            did => self.make(item, did),
        }
    }

    /// The buffers.
    pub fn buffers(self) -> List<Text>
        ensures { result ≡ self.buffers.items }
    {
        List::from_vec(self.buffers)
    }
}
