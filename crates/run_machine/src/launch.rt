//! Where a run of a module begins.

ghost use Rattle.std.specs.Prelude.{◌≡◌, ◌+◌, ◌<◌, ◌^◌, List, [], ◌∷◌, option_map, option_copied, map, length, slice_get};
ghost use Rattle.launch_text.specs.Rules.{size_of};
ghost use Rattle.spv_module.specs.Instructions.{definition_in, decoration_in};
ghost use Rattle.spv_module.specs.Options.{or_default};
ghost use Rattle.spv_module.specs.declared.enumerant.decoration.TheConstants as deco;
ghost use Rattle.spv_meaning.specs.Invocation.{constant_by, specialised_to, buffer_among, input_of, as_scalar};
ghost use Rattle.run_machine.specs.Views.{body_by, start_by, given_by, buffer_size, bound_by, specialised_by};

use crate::invocation::Point;
use spv_module::enumerant::{built_in, decoration, storage_class};
use spv_module::lookup::{decoration_number, definition, is_at};
use spv_module::module::Inst;
use spv_module::reading::Said;
use vk_bind::{Bound, Spec, Start};

// The value that a SpecId is given.
fn specialised(specs: &[Spec], id: u32) -> Option<u32>
    ensures { result ≡ specialised_to (map specialised_by specs.now) (Some (id ∷ [])) }
{
    let mut rest = specs;
    while let [spec, others @ ..] = rest {
        if spec.id == id {
            return Some(spec.value);
        }
        rest = others;
    }
    None
}

// The buffer that is bound to a variable.
fn buffer_of(body: &[Inst], variable: u32, bound: &[Bound]) -> Option<u32>
    ensures { result ≡ buffer_among body.now variable (map bound_by bound.now) }
{
    let mut rest = bound;
    while let [b, others @ ..] = rest {
        if is_at(body, variable, b.set, b.binding) {
            return Some(b.buffer);
        }
        rest = others;
    }
    None
}

/// The module's instructions.
pub fn body_of(start: &Start) -> &[Inst]
    ensures { result.now ≡ body_by start.now }
{
    start.checked.module().body.as_slice()
}

// The bytes of a buffer.
fn size_of_buffer(start: &Start, buffer: u32) -> Option<usize>
    ensures { result ≡ size_of (start_by start.now).buffers buffer }
{
    match start.buffers.get(buffer as usize) {
        Some(bytes) => Some(bytes.len()),
        None => None,
    }
}

/// What an invocation is given: where the run begins, and its place in the grid.
#[derive(Clone, Copy)]
pub struct Scene<'a> {
    pub start: &'a Start,
    pub place: Point,
}

impl Scene<'_> {
    // The value of a specialisation constant.
    #[tactic(auto, using(crate::proofs::Lookups::specialised))]
    fn specialised_or(&self, id: u32, default: u32) -> u32
        ensures { result ≡ or_default (specialised_to (given_by self.now).start.specialised (decoration_in (given_by self.now).body id deco.SPEC_ID)) default }
    {
        match decoration_number(body_of(self.start), id, decoration::SPEC_ID) {
            Some(number) => match specialised(self.start.specs.as_slice(), number) {
                Some(value) => value,
                None => default,
            },
            None => default,
        }
    }

    /// The value of a constant.
    pub fn constant(&self, id: u32) -> Option<u32>
        ensures { as_scalar result ≡ constant_by (given_by self.now) (definition_in (given_by self.now).body id) }
    {
        match definition(body_of(self.start), id)? {
            Said::Constant { value, .. } => Some(value),
            Said::SpecConstant { id, default, .. } => Some(self.specialised_or(id, default)),
            _ => None,
        }
    }

    /// The scalars of an input variable.
    #[tactic(auto, using(crate::proofs::Lookups::built_in))]
    pub fn input(&self, variable: u32) -> Option<[u32; 3]>
        ensures { result ≡ input_of (given_by self.now) (definition_in (given_by self.now).body variable) }
    {
        match definition(body_of(self.start), variable)? {
            Said::Variable { id, storage, .. } if storage == storage_class::INPUT => {
                match decoration_number(body_of(self.start), id, decoration::BUILT_IN) {
                    Some(built_in::GLOBAL_INVOCATION_ID) => {
                        Some([self.place.x, self.place.y, self.place.z])
                    }
                    _ => None,
                }
            }
            _ => None,
        }
    }

    /// The buffer that a variable is bound to, and how many bytes it has.
    pub fn buffer(&self, variable: u32) -> Option<(u32, usize)>
        ensures { result ≡ buffer_size (given_by self.now) variable }
    {
        let buffer = buffer_of(body_of(self.start), variable, self.start.bound.as_slice())?;
        let size = size_of_buffer(self.start, buffer)?;
        Some((buffer, size))
    }
}
