//! The state of a work-item (C99, 6.2.4 and 6.9.1; OpenCL C 1.2, 6.5).

use crate::code::{Code, Expr, Stmt};
use crate::entry::Entry;
use crate::layouts::Layouts;
use crate::memory::Memory;
use crate::stack::Stack;
use crate::task::Task;
use cl_tree::NodeId;
use clv_place::List;
use launch_text::LaunchSizes;
use std::alloc::Global;

/// What an item sees: the types and functions of its unit, the sizes and plain arguments of the launch, and its own
/// number there.
#[derive(Clone, Copy)]
pub struct Surroundings<'a> {
    pub alloc: Global,
    pub types: &'a Layouts<'a>,
    pub functions: &'a [Code],
    pub launch: &'a LaunchSizes,
    pub item: u32,
}

/// The function that runs, and the nodes of the calls that lead there, the innermost first.
#[derive(Drop)]
pub struct Frame {
    pub function: u32,
    pub calls: List<NodeId>,
}

/// A loop or a switch of this call: what is done after `break`; of a loop also what is done after `continue`.
#[derive(Drop)]
pub enum Around<'a> {
    InLoop {
        test: &'a Expr,
        next: Option<&'a Expr>,
        body: &'a [Stmt],
        behind: Stack<Task<'a>>,
    },
    InSwitch {
        behind: Stack<Task<'a>>,
    },
}

/// A call that is pending: what its caller goes on with, and the steps that its node takes at least behind it.
#[derive(Drop)]
pub struct Caller<'a> {
    pub todo: Stack<Task<'a>>,
    pub around: Stack<Around<'a>>,
    pub frame: Frame,
    pub least: usize,
}

/// What is left to do in this call; what was evaluated, the newest first; the private objects; where it is; and the
/// loops and switches around it and the pending calls, the innermost first.
#[derive(Drop)]
pub struct Item<'a> {
    pub todo: Stack<Task<'a>>,
    pub stack: Stack<Entry>,
    pub memory: Memory,
    pub frame: Frame,
    pub around: Stack<Around<'a>>,
    pub callers: Stack<Caller<'a>>,
}
