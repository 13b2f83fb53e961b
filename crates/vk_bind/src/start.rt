//! Where a run of a module begins, and why there is no such place.

use clv_place::{List, NoMemory, Text};
use spv_types_rules::Checked;

/// Where a run of a module begins: what a launch gives it.
#[derive(Drop)]
pub struct Start {
    pub checked: Checked,
    /// The id of the kernel's function.
    pub function: u32,
    /// The sizes of the grid in work-items along x, y and z.
    pub global: [u32; 3],
    /// The sizes of a work-group, likewise.
    pub local: [u32; 3],
    /// The number of the launch's buffers.
    pub named: u32,
    /// The bytes of the buffers by their numbers, the launch's first.
    pub buffers: List<Text>,
    /// What the module's buffer variables are bound to.
    pub bound: List<Bound>,
    /// The push constants. No kernel has any so far.
    pub push: Text,
    /// The values of specialisation constants.
    pub specs: List<Spec>,
}

/// A buffer, by its number, bound to a descriptor set and a binding (Vulkan, 14.5).
#[derive(Clone, Copy, PartialEq, Eq, Debug)]
pub struct Bound {
    pub set: u32,
    pub binding: u32,
    pub buffer: u32,
}

/// The value of the specialisation constant of a SpecId (Vulkan, 10.8).
#[derive(Clone, Copy, PartialEq, Eq, Debug)]
pub struct Spec {
    pub id: u32,
    pub value: u32,
}

/// Why a launch isn't bound to a module: it breaks a rule, by its number, at an argument where the rule
/// names one; or want of memory.
///
/// 10. The module has no kernel of that name.
/// 11. An argument without a line, or a line past the arguments.
/// 12. An argument of another kind.
/// 14. A buffer that isn't a positive multiple of the size of its elements, or is over 16 MiB, or at which
///     all buffers together go over 64 MiB.
/// 15. One buffer for two arguments with other elements.
/// 16. One buffer for two arguments, of which one is `restrict`.
/// 18. Work-groups that don't fill the grid.
/// 19. A work-group of over 1,024 work-items, or a grid of over 16,384.
/// 20. Another size of a work-group than the kernel requires.
///
/// Rules 13, 17 and 21 are on plain and local arguments, which no module has so far: what is given to one
/// breaks rule 12 before them.
#[derive(Clone, Copy, PartialEq, Eq, Debug)]
pub enum BindStop {
    Fault { number: u8, arg: Option<u32> },
    NoMemory,
}

impl From<NoMemory> for BindStop {
    ghost use Rattle.std.specs.Prelude.{◌≡◌};
    ghost use Rattle.vk_bind.specs.declared.start.BindStop.TheVariants.{NoMemory as WantOfMemory};

    ghost from_gives = { λ _ s. s ≡ WantOfMemory };

    fn from(_refused: NoMemory) -> Self {
        BindStop::NoMemory
    }
}
