//! Which buffers of a launch an argument may write: those are stored when the run is complete.

ghost use Rattle.std.specs.Prelude.{◌≡◌, ◌<◌, ◌^◌, IfOk, length};
ghost use Rattle.spv_module.specs.Interface.{variables_in};
ghost use Rattle.vk_bind.specs.Answers.{bounds_from, bound_of};
ghost use Rattle.vk_bind.specs.Binding.{variable_among};
ghost use Rattle.clv_engine.specs.RunCommand.{block_in, is_fixed_in, is_writable, is_marked_by, is_marked};
ghost use Rattle.clv_engine.specs.RunSteps.{marks as marks_of};

use clv_place::{List, NoMemory, Text};
use spv_module::Inst;
use spv_module::enumerant::decoration;
use spv_module::lookup::{is_at, is_decorated, is_member_decorated, pointee};
use spv_module::reading::Said;
use std::alloc::Global;
use vk_bind::Bound;

/// Whether each buffer is bound to a variable that isn't NonWritable, as a whole or as the member of its
/// block (SPIR-V 3.20).
pub fn marks(
    alloc: Global,
    body: &[Inst],
    bound: &[Bound],
    buffers: &[Text],
) -> Result<List<bool>, NoMemory>
    requires { length buffers.now < 2 ^ 32 }
    ensures { IfOk result (λ ms. ms ≡ marks_of body.now (bounds_from bound.now) 0 buffers.now) }
{
    let mut marked = List::new(alloc);
    let mut file = 0;
    for buffer in buffers {
        let _ = buffer;
        marked.push(is_bound(body, bound, file))?;
        file += 1;
    }
    Ok(marked)
}

// Whether the buffer of a number is bound to a variable that may be written.
fn is_bound(body: &[Inst], bound: &[Bound], file: u32) -> bool
    ensures { result ≡ is_marked body.now (bounds_from bound.now) file }
{
    let mut rest = bound;
    while let [b, others @ ..] = rest {
        if binds(body, b, file) {
            return true;
        }
        rest = others;
    }
    false
}

fn binds(body: &[Inst], bound: &Bound, file: u32) -> bool
    ensures { result ≡ is_marked_by body.now file (bound_of bound.now) }
{
    bound.buffer == file && may_write(body, variable_at(body, bound.set, bound.binding))
}

fn may_write(body: &[Inst], variable: Option<u32>) -> bool
    ensures { result ≡ is_writable body.now variable }
{
    match variable {
        None => false,
        Some(variable) => {
            !is_decorated(body, variable, decoration::NON_WRITABLE)
                && !is_fixed(body, block_of(body, variable))
        }
    }
}

// The block that a variable points to.
fn block_of(body: &[Inst], variable: u32) -> Option<u32>
    ensures { result ≡ block_in body.now variable }
{
    let pointer = pointee(body, variable)?;
    pointee(body, pointer)
}

fn is_fixed(body: &[Inst], block: Option<u32>) -> bool
    ensures { result ≡ is_fixed_in body.now block }
{
    match block {
        None => false,
        Some(block) => is_member_decorated(body, block, 0, decoration::NON_WRITABLE),
    }
}

// The first variable of a descriptor set and a binding.
fn variable_at(body: &[Inst], set: u32, binding: u32) -> Option<u32>
    ensures { result ≡ variable_among body.now set binding (variables_in body.now) }
{
    let mut rest = body;
    while let [inst, others @ ..] = rest {
        if let Said::Variable { id, .. } = inst.says() {
            if is_at(body, id, set, binding) {
                return Some(id);
            }
        }
        rest = others;
    }
    None
}
