//! Declarations, and whole units.

use crate::expression::{Declor, Expr, Qual, Spec};
use crate::statement::Stmt;
use clv_place::{List, Place, Text};

/// A unit: its declarations at file scope, in text order.
#[derive(Drop)]
pub struct Ast {
    pub externals: List<External>,
}

/// A declaration at file scope.
#[derive(Drop)]
pub enum External {
    Typedef {
        spec: Spec,
        name: Declor,
    },
    /// Words of a type alone, as of a struct.
    Struct {
        spec: Spec,
    },
    Constant {
        spec: Spec,
        items: Vec<InitDeclor>,
    },
    /// A function, with its body where it has one.
    Function {
        words: Vec<FWord>,
        spec: Spec,
        name: Text,
        place: Place,
        params: Vec<Param>,
        body: Option<Stmt>,
    },
}

/// A word before a function. `Hint` is an attribute that changes nothing.
#[derive(Drop)]
pub enum FWord {
    Kernel,
    Inline,
    Static,
    /// `reqd_work_group_size`, with its place and what stands in its brackets.
    Required { place: Place, args: Vec<Expr> },
    Hint,
}

/// A parameter. Its place is its name, or its first token where it has none.
#[derive(Drop)]
pub struct Param {
    pub spec: Spec,
    pub star: Option<List<Qual>>,
    pub name: Option<Text>,
    pub place: Place,
}

/// A declared name with its initialiser.
#[derive(Drop)]
pub struct InitDeclor {
    pub name: Declor,
    pub init: Option<Init>,
}

/// An initialiser. The place of braces is the `{`.
#[derive(Drop)]
pub enum Init {
    Value(Expr),
    Braces { place: Place, items: Vec<Init> },
}
