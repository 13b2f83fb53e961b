//! Typed trees of whole units.

ghost use Rattle.std.specs.Prelude.{◌≡◌, true};
ghost use Rattle.cl_tree.specs.Units.{is_unit};

use crate::unit::{ConstantVar, Function};
use cl_types::TypeTable;
use clv_place::List;

/// A unit: its types, the constants at file scope, and the functions that have a body, in text order. Each node is
/// typed by its operands, each name is a number of its lists, and what is declared has a type and an address
/// space that are allowed there; nothing in constant memory is written; atomics act on global and local memory;
/// `break`, `continue`, `return`, conditions and labels stand as they may; and no two functions have one name.
#[derive(Drop)]
pub struct Tree {
    pub types: TypeTable,
    pub constants: List<ConstantVar>,
    pub functions: List<Function>,
    pub ghost typed: { is_unit types constants functions ≡ true },
}
