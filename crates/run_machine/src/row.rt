//! What an instruction does.

ghost use Rattle.std.specs.Prelude.{◌≡◌, ◌^◌, ◌++◌, IfOk, IfSome, Some, option_map};
ghost use Rattle.spv_module.specs.Instructions.{definition_in, ids, words};
ghost use Rattle.spv_module.specs.Readings.{said_by};
ghost use Rattle.spv_meaning.specs.declared.trap.TrapKind.TheVariants.{Unreachable};
ghost use Rattle.spv_meaning.specs.Invocation.{scalar_at, scalars_at, value_at, input_of, chain_reached, chain_spot, chain_trap, giving, loading, storing, extracted, as_scalar, as_pointer, row_by};
ghost use Rattle.run_machine.specs.Views.{given_by, values_by, value_by, chain_by, vec_items, sum_at, row_of, IsBelow};

use crate::chain::{Reached, int_width, reach};
use crate::invocation::{Frame, Value};
use crate::launch::{Scene, body_of};
use crate::spot::Spot;
use clv_place::NoMemory;
use spv_meaning::TrapKind;
use spv_module::lookup::{one_number, pointee};
use spv_module::module::Operand;
use spv_module::reading::Said;
use std::alloc::Global;

/// A step: into a block, with the value of an id, with one more scalar moved, with a write, or out of the
/// entry function; or a trap.
#[derive(Drop)]
pub enum Did {
    Begins,
    Gives(u32, Value),
    Moves(u32),
    Writes(Spot, u32),
    Returns,
    Traps(TrapKind),
}

impl Scene<'_> {
    // The value of an id, where it is a scalar.
    #[tactic(auto, using(crate::proofs::Values::scalars))]
    fn scalar(&self, frame: &Frame, id: u32) -> Option<u32>
        ensures { result ≡ scalar_at (given_by self.now) (values_by frame.now) id }
    {
        match frame.value(id) {
            Some(value) => value.scalar(),
            None => self.constant(id),
        }
    }

    // The values of the ids among operands, where they are scalars.
    #[tactic(auto, using(crate::proofs::Values::scalars))]
    fn scalars(
        &self,
        alloc: Global,
        frame: &Frame,
        operands: &[Operand],
    ) -> Result<Option<Vec<u32>>, NoMemory>
        ensures { IfOk result (λ ns. option_map vec_items ns ≡ scalars_at (given_by self.now) (values_by frame.now) (ids operands.now)) }
    {
        let mut scalars = Vec::new(alloc);
        let mut rest = operands;
        while let [operand, others @ ..] = rest {
            if let Operand::Id(id) = operand {
                let Some(scalar) = self.scalar(frame, *id) else {
                    return Ok(None);
                };
                scalars.push(scalar)?;
            }
            rest = others;
        }
        Ok(Some(scalars))
    }

    // One more scalar of an input variable, or the value of them all.
    fn load(&self, alloc: Global, frame: &Frame, id: u32, pointer: u32) -> Result<Did, NoMemory>
        ensures { IfOk result (λ d. row_of frame.now d ≡ loading frame.now.function frame.now.place frame.now.part.items (values_by frame.now) id (input_of (given_by self.now) (definition_in (given_by self.now).body pointer))) }
    {
        let Some(scalars) = self.input(pointer) else {
            return Ok(Did::Traps(TrapKind::Unreachable));
        };
        let moved = frame.part.len();
        let scalar = if moved < scalars.len() {
            scalars[moved]
        } else {
            0
        };
        if moved < scalars.len() - 1 {
            return Ok(Did::Moves(scalar));
        }
        let mut whole = frame.part.to_vec(alloc)?;
        whole.push(scalar)?;
        Ok(Did::Gives(id, Value::Many(whole)))
    }

    // A scalar of a composite.
    #[tactic(auto, using(crate::proofs::Values::parts))]
    fn extract(&self, frame: &Frame, id: u32, composite: u32, at: &[Operand]) -> Did
        ensures { row_of frame.now result ≡ giving Unreachable frame.now.function frame.now.place (values_by frame.now) id (extracted (value_at (given_by self.now) (values_by frame.now) composite) (words at.now)) }
    {
        let Some(at) = one_number(at) else {
            return Did::Traps(TrapKind::Unreachable);
        };
        let part = match frame.value(composite) {
            Some(value) => value.part(at),
            None => match self.constant(composite) {
                Some(scalar) => Value::One(scalar).part(at),
                None => None,
            },
        };
        match part {
            Some(scalar) => Did::Gives(id, Value::One(scalar)),
            None => Did::Traps(TrapKind::Unreachable),
        }
    }

    // The sum of two numbers of 32 bits.
    fn add(&self, frame: &Frame, id: u32, a: u32, b: u32) -> Did
        ensures { row_of frame.now result ≡ giving Unreachable frame.now.function frame.now.place (values_by frame.now) id (as_scalar (sum_at (given_by self.now) (values_by frame.now) a b)) }
    {
        match (self.scalar(frame, a), self.scalar(frame, b)) {
            (Some(a), Some(b)) => Did::Gives(id, Value::One(a.wrapping_add(b))),
            _ => Did::Traps(TrapKind::Unreachable),
        }
    }

    // A write of a scalar where a pointer points to.
    #[tactic(auto, using(crate::proofs::Values::pointers))]
    fn store(&self, frame: &Frame, pointer: u32, value: u32) -> Did
        ensures { row_of frame.now result ≡ storing frame.now.function frame.now.place (values_by frame.now) (value_at (given_by self.now) (values_by frame.now) pointer) (scalar_at (given_by self.now) (values_by frame.now) value) }
    {
        let scalar = self.scalar(frame, value);
        match frame.value(pointer) {
            Some(Value::PointsAt(at)) => match scalar {
                Some(scalar) => Did::Writes(*at, scalar),
                None => Did::Traps(TrapKind::Unreachable),
            },
            _ => Did::Traps(TrapKind::Unreachable),
        }
    }

    // Where indices come to in the buffer that a variable is bound to.
    fn chain(&self, base: u32, indices: Option<Vec<u32>>) -> Option<(u32, Reached)>
        ensures way { option_map chain_by result ≡ chain_reached (given_by self.now) base (option_map vec_items indices) }
        ensures near { IfSome result (λ c. IsBelow c.1 (2 ^ 100)) }
    {
        let body = body_of(self.start);
        let (buffer, size) = self.buffer(base)?;
        let pointer = pointee(body, base)?;
        let block = pointee(body, pointer)?;
        let indices = indices?;
        Some((buffer, reach(body, size, block, &indices)))
    }

    // The scalar that an access chain points at.
    fn access(
        &self,
        alloc: Global,
        frame: &Frame,
        id: u32,
        base: u32,
        operands: &[Operand],
    ) -> Result<Did, NoMemory>
        ensures { IfOk result (λ d. row_of frame.now d ≡ giving (chain_trap (given_by self.now) base (scalars_at (given_by self.now) (values_by frame.now) (ids operands.now))) frame.now.function frame.now.place (values_by frame.now) id (as_pointer (chain_spot (given_by self.now) base (scalars_at (given_by self.now) (values_by frame.now) (ids operands.now))))) }
    {
        let indices = self.scalars(alloc, frame, operands)?;
        Ok(match self.chain(base, indices) {
            Some((buffer, Reached::Inside { ty, offset })) => {
                match int_width(body_of(self.start), ty) {
                    Some(bits) => Did::Gives(
                        id,
                        Value::PointsAt(Spot {
                            buffer,
                            offset,
                            bits,
                        }),
                    ),
                    None => Did::Traps(TrapKind::Unreachable),
                }
            }
            Some((_, Reached::Beyond)) => Did::Traps(TrapKind::Range),
            _ => Did::Traps(TrapKind::Unreachable),
        })
    }

    /// What an instruction does in an invocation.
    pub fn row(&self, alloc: Global, frame: &Frame, said: Said<'_>) -> Result<Did, NoMemory>
        ensures { IfOk result (λ d. row_of frame.now d ≡ row_by (given_by self.now) frame.now.function frame.now.place frame.now.part.items (values_by frame.now) (Some (said_by said.entry))) }
    {
        match said {
            Said::Label { .. } => Ok(Did::Begins),
            Said::Load { id, pointer, .. } => self.load(alloc, frame, id, pointer),
            Said::Extract {
                id,
                composite,
                at,
                ..
            } => Ok(self.extract(frame, id, composite, at)),
            Said::Add { id, a, b, .. } => Ok(self.add(frame, id, a, b)),
            Said::AccessChain {
                id,
                base,
                indices,
                ..
            } => self.access(alloc, frame, id, base, indices),
            Said::Store { pointer, value } => Ok(self.store(frame, pointer, value)),
            Said::Return => Ok(Did::Returns),
            _ => Ok(Did::Traps(TrapKind::Unreachable)),
        }
    }
}
