//! Object programs.

ghost use Rattle.std.specs.Prelude.{◌≡◌, true};
ghost use Rattle.obj_tree.specs.Programs.{is_program};

use crate::object::Where;
use crate::statement::OStmt;
use cl_tree::{ConstantVar, Variable};
use cl_types::{TypeId, TypeTable};
use clv_place::{List, Text};

/// A kernel: its name, its own copy, its parameters and variables in local memory, and the size of group that it
/// requires.
#[derive(Drop)]
pub struct KernelInfo {
    pub name: Text,
    pub copy: u32,
    pub params: List<Variable>,
    pub locals: List<Variable>,
    pub required: Option<[u32; 3]>,
}

/// A function of a kernel, for one choice of the objects that its pointer parameters lead to. There is one list in
/// `pointers` for each pointer parameter. `plain` are the types of the other parameters; `indices` is the number of
/// indices that come with the pointers; and `privates` are the types of the private objects that `pointers` names.
/// `vars` begins with the private variables of the function that are no pointers. A kernel's own copy has the plain
/// arguments as parameters, and its pointers begin with index 0.
#[derive(Drop)]
pub struct Copy {
    pub kernel: u32,
    pub function: u32,
    pub pointers: List<List<Where>>,
    pub plain: List<TypeId>,
    pub indices: u32,
    pub privates: List<TypeId>,
    pub vars: List<TypeId>,
    pub result: TypeId,
    pub body: OStmt,
}

/// An object program: its types, its kernels, the copies that they reach, and the constants of its unit. No parameter,
/// private object or variable of a copy is void or a pointer; each node is typed by its operands; what leads
/// into an object fits the object's type; each number is one of its list; a call is one of another copy of the same
/// kernel, which isn't the kernel's own, and has what that copy takes; nothing in constant memory is written;
/// atomics act on global and local memory; `break`, `continue`, `return`, conditions and labels stand as they may; and no
/// two calls or barriers of a copy come from one node of the text.
#[derive(Drop)]
pub struct Program {
    pub types: TypeTable,
    pub kernels: List<KernelInfo>,
    pub copies: List<Copy>,
    pub constants: List<ConstantVar>,
    pub ghost sound: { is_program types kernels copies constants ≡ true },
}
