//! Modules that are known to be valid.

ghost use Rattle.std.specs.Prelude.{◌≡◌, []};
ghost use Rattle.spv_module.specs.Interface.{entry_by};
ghost use Rattle.spv_module.specs.Readings.{said_by};
ghost use Rattle.spv_module.specs.Words.{IsSpelled};
ghost use Rattle.spv_types_rules.specs.Kernels as spec;
ghost use Rattle.spv_types_rules.specs.Rules.{IsValid};

use spv_module::reading::Said;
use spv_module::{Inst, Module};
use std::marker::Model;

/// A module that some bytes stand for and in which no rule is broken. A contract sees it as that module.
#[derive(Drop)]
pub struct Checked {
    module: Module,
}

impl Model for Checked {
    ghost use Rattle.spv_module.specs.declared.module.Module.{Module};
    ghost use Rattle.spv_module.specs.Words.{IsSpelled};
    ghost use Rattle.spv_types_rules.specs.Rules.{IsValid};

    ghost Value = { Module };

    ghost view = { λ c. c.module };

    ghost invariant = { λ c. IsSpelled c.module × IsValid c.module.body };
}

impl Checked {
    /// The module, once it is known to be valid. It takes no memory and refuses nothing.
    pub fn of(module: Module) -> Checked
        requires spelled { IsSpelled «module» }
        requires valid { IsValid «module».body }
        ensures { result ≡ «module» }
    {
        Checked { module }
    }

    /// The module, which some bytes stand for and in which no rule is broken (SPIR-V 2.16; Vulkan, A.1).
    pub fn module(&self) -> &Module
        ensures value { result.now ≡ self.now }
        ensures spelled { IsSpelled result.now }
        ensures valid { IsValid result.now.body }
    {
        &self.module
    }

    /// The id of the function of the entry point of a name, and none exactly where no entry point has
    /// the name. It takes no memory.
    pub fn kernel(&self, name: &[u8]) -> Option<u32>
        ensures { result ≡ spec.kernel_in name.now self.now.body }
    {
        kernel_in(self.module.body.as_slice(), name)
    }
}

// The function of the first entry point of a name.
fn kernel_in(body: &[Inst], name: &[u8]) -> Option<u32>
    ensures { result ≡ spec.kernel_in name.now body.now }
{
    let mut rest = body;
    while let [inst, others @ ..] = rest {
        if let Some(function) = named(&inst.says(), name) {
            return Some(function);
        }
        rest = others;
    }
    None
}

// The function of an entry point, if the instruction is one of this name.
fn named(said: &Said, name: &[u8]) -> Option<u32>
    ensures { result ≡ spec.function_named name.now (entry_by (said_by said.now) []) }
{
    match *said {
        Said::EntryPoint {
            function,
            name: its_name,
            ..
        } => {
            if its_name.as_slice() == name {
                Some(function)
            } else {
                None
            }
        }
        _ => None,
    }
}
