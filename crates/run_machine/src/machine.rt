//! The machine: all invocations of a launch over its buffers.

ghost use Rattle.std.specs.Prelude.{◌≡◌, ◌<◌, ◌≤◌, ◌^◌, length};
ghost use Rattle.launch_text.specs.WorkItems.{volume, sizes_of};
ghost use Rattle.spv_module.specs.Interface.{word_at as first_word};

use crate::invocation::Run;
use clv_place::Text;
use std::alloc::Global;
use vk_bind::Start;

/// The invocations of a launch, and its buffers.
#[derive(Drop)]
pub struct Machine {
    pub(crate) alloc: Global,
    pub(crate) start: Start,
    pub(crate) buffers: Vec<Text>,
    pub(crate) runs: Vec<Run>,
    ghost has_words: { first_word start.checked.body (length start.checked.body) < 2 ^ 32 },
    ghost has_few: { length runs.items ≤ 16384 },
    ghost has_items: { length runs.items ≡ volume (sizes_of start.global) },
}
