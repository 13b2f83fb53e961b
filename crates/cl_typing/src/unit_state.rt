//! What stands at file scope so far.

ghost use Rattle.std.specs.Prelude.{◌≡◌, OnOk};
ghost use Rattle.cl_typing.specs.Units.{empty, size_for, and_size, is_made, and_function};

use crate::function_list::{FunctionList, size_at};
use crate::name_list::NameList;
use cl_scope::Names;
use cl_tree::{ConstantVar, Function};
use clv_place::{List, NoMemory};
use std::alloc::Global;

/// The declarations, the constants, the functions that have a body with their names, and the sizes that functions
/// require with the names of these functions.
#[derive(Drop)]
pub struct UnitState {
    pub env: Names,
    pub constants: List<ConstantVar>,
    pub functions: FunctionList,
    pub defined: NameList,
    pub sized: NameList,
    pub sizes: List<[u32; 3]>,
}

impl UnitState {
    /// Nothing stands there. It takes no memory.
    pub(crate) fn new(alloc: Global) -> UnitState
        ensures { result ≡ empty }
    {
        UnitState {
            env: Names::new(alloc),
            constants: List::new(alloc),
            functions: FunctionList::new(alloc),
            defined: NameList::new(alloc),
            sized: NameList::new(alloc),
            sizes: List::new(alloc),
        }
    }

    /// The size that a function requires.
    pub(crate) fn size_for(&self, name: &[u8]) -> Option<[u32; 3]>
        ensures { result ≡ size_for name.now self.now }
    {
        size_at(self.sizes.as_slice(), self.sized.position(name))
    }

    /// Adds the size that a function requires, where it says one.
    pub(crate) fn add_size(&mut self, name: &[u8], size: Option<[u32; 3]>) -> Result<(), NoMemory>
        ensures { OnOk result (self.new ≡ and_size name.now size self.old) }
    {
        match size {
            None => Ok(()),
            Some(size) => {
                self.sized.add(name)?;
                self.sizes.push(size)
            }
        }
    }

    /// Whether a function of the name has a body.
    pub(crate) fn is_made(&self, name: &[u8]) -> bool
        ensures { result ≡ is_made name.now self.now }
    {
        self.defined.position(name).is_some()
    }

    /// Adds a function that has a body.
    pub(crate) fn add_function(&mut self, function: Function) -> Result<(), NoMemory>
        ensures { OnOk result (self.new ≡ and_function function self.old) }
    {
        self.defined.add(function.name.as_slice())?;
        self.functions.push(function)
    }
}
