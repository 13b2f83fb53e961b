//! Functions that have a body, while a unit is read.

ghost use Rattle.std.specs.Prelude.{◌≡◌, ◌++◌, ◌∷◌, [], map, IfOk, OnOk, OnErr};
ghost use Rattle.cl_tree.specs.Units.{has_kernel};
ghost use Rattle.cl_typing.specs.Units.{size_at, with_size_in};

use crate::name_list::NameList;
use cl_tree::Function;
use clv_place::{List, NoMemory};
use std::alloc::Global;
use std::marker::Model;

/// The size at an index, where there is one.
pub(crate) fn size_at(sizes: &[[u32; 3]], at: Option<usize>) -> Option<[u32; 3]>
    ensures { result ≡ size_at sizes.now at }
{
    match at {
        None => None,
        Some(at) => match sizes.get(at) {
            None => None,
            Some(size) => Some(*size),
        },
    }
}

// A function with the size that it requires: the one that stands where its name does, if any.
fn with_size(function: Function, sized: &NameList, sizes: &[[u32; 3]]) -> Function
    ensures { result ≡ with_size_in sized.now sizes.now function }
{
    let mut function = function;
    let at = sized.position(function.name.as_slice());
    function.required = size_at(sizes, at);
    function
}

/// Functions in text order. A contract sees their list.
#[derive(Drop)]
pub struct FunctionList {
    functions: Vec<Function>,
}

impl Model for FunctionList {
    ghost use Rattle.std.specs.Prelude.{List as ListOf};
    ghost use Rattle.std.specs.Coded.{codes};
    ghost use Rattle.cl_tree.specs.contracts.statement.TStmt as e;
    ghost use Rattle.cl_tree.specs.declared.unit.Function.{Function as AFunction};

    ghost Value = { ListOf AFunction };

    ghost coded = { Prim.hlevel (codes, e.the_row.coded) };

    ghost view = { λ f. f.functions.items };
}

impl FunctionList {
    /// No functions. It takes no memory.
    pub fn new(alloc: Global) -> Self
        ensures { result ≡ [] }
    {
        FunctionList {
            functions: Vec::new(alloc),
        }
    }

    /// Adds a function at the end. For want of memory it changes nothing, and drops the function.
    pub fn push(&mut self, function: Function) -> Result<(), NoMemory>
        ensures ok { OnOk result (self.new ≡ self.old ++ function ∷ []) }
        ensures err { OnErr result (self.new ≡ self.old) }
    {
        self.functions.push(function)?;
        Ok(())
    }

    /// Whether some function is a kernel.
    pub fn has_kernel(&self) -> bool
        ensures { result ≡ has_kernel self.now }
    {
        for function in &self.functions {
            if function.kernel {
                return true;
            }
        }
        false
    }

    /// The functions with the sizes that they require: the one that stands where the function's name does, if any.
    pub fn with_sizes(
        self,
        alloc: Global,
        sized: &NameList,
        sizes: &[[u32; 3]],
    ) -> Result<List<Function>, NoMemory>
        ensures { IfOk result (λ fs. fs ≡ map (with_size_in sized.now sizes.now) self) }
    {
        let mut all = List::new(alloc);
        for function in self.functions {
            all.push(with_size(function, sized, sizes))?;
        }
        Ok(all)
    }
}
