//! Variables, constants and functions of a unit.

use crate::statement::TStmt;
use cl_types::{Space, TypeId};
use clv_place::{List, Place, Text};

/// A declared variable, parameter or constant. A parameter without a name has an empty one.
#[derive(Drop)]
pub struct Variable {
    pub name: Text,
    pub ty: TypeId,
    pub space: Space,
    pub place: Place,
}

/// A variable at file scope, with its bytes. Its padding is 0.
#[derive(Drop)]
pub struct ConstantVar {
    pub variable: Variable,
    pub bytes: Text,
}

/// A function that has a body. Its parameters and its variables are in text order.
#[derive(Drop)]
pub struct Function {
    pub name: Text,
    pub place: Place,
    pub kernel: bool,
    pub required: Option<[u32; 3]>,
    pub result: TypeId,
    pub params: List<Variable>,
    pub vars: List<Variable>,
    pub body: TStmt,
}
