//! What a work-item does, task by task. A statement that is reached takes one step. A node takes one for each scalar
//! that it makes, copies or passes, and at least one; a place that is named and not read takes one. A call passes its
//! arguments and makes its result; entering a function takes one step, and one for each scalar of its parameters. A
//! value of a scalar type or a pointer is one scalar.

ghost use Rattle.std.specs.Prelude.{◌≡◌, ◌++◌, ◌∷◌, [], OnOk};
ghost use Rattle.cl_meaning.specs.Tasks.{making, quiet, step, steps};
ghost use Rattle.cl_meaning.specs.Views.{act_by, marked, task_by, tasks_by};

use crate::code::{Expr, Section, Stmt};
use crate::operation::Operation;
use crate::wide::WideType;
use cl_types::{BinOp, Builtin, TypeId};
use clv_place::NoMemory;

/// What a task does, mostly to the newest of what was evaluated. `k` counts the scalars of a value, or is a variable's
/// number in its function.
#[derive(Drop)]
pub enum Act<'a> {
    /// Nothing: a statement is reached; a scalar is made, copied or passed, or a place is named.
    Reach,
    Pass,
    Operate(Operation),
    /// The place of a private variable or parameter of so many bytes; of a pointer variable: its pointer; the newest
    /// becomes its pointer, and stays.
    Variable {
        is_param: bool,
        k: u32,
        size: u32,
    },
    Recall {
        is_param: bool,
        k: u32,
    },
    Point {
        is_param: bool,
        k: u32,
    },
    /// Scalar k of a type: read at the place beneath the newest, behind which it is put; of the newest, written at the
    /// place beneath it.
    Read {
        ty: TypeId,
        k: usize,
    },
    Write {
        ty: TypeId,
        k: usize,
    },
    /// Component k of an operator on the two values beneath the newest, behind which it is put.
    Component {
        op: BinOp,
        operands: WideType,
        k: usize,
    },
    /// A call of a function, from the node of this number, with so many arguments; behind it the node takes so many
    /// steps at least; back to the caller.
    Enter {
        function: u32,
        number: u32,
        args: usize,
        least: usize,
    },
    Leave,
    /// Calls of built-in functions: of the grid's sizes and places; of a barrier; atomics, with so many arguments
    /// behind the pointer.
    WorkItem(Builtin),
    Wait {
        number: u32,
    },
    Atomic {
        op: Builtin,
        signed: bool,
        args: usize,
    },
    /// `&&` and `||`: decided by the newest where it is this truth, and else by the other operand; `?:`.
    Unless {
        decided: bool,
        other: &'a Expr,
    },
    Choose {
        on_true: &'a Expr,
        on_false: &'a Expr,
    },
    /// A private variable: unset; set to the newest.
    Unset {
        k: u32,
    },
    Set {
        k: u32,
        ty: TypeId,
    },
    /// By the newest: an arm of `if`; a section of `switch`; the body of a loop, or what is behind it.
    Decide {
        on_true: &'a [Stmt],
        on_false: &'a [Stmt],
    },
    SelectSection(&'a [Section]),
    Test {
        body: &'a [Stmt],
    },
    /// A loop that begins with its test, and one that begins with its body.
    Loop {
        test: &'a Expr,
        next: Option<&'a Expr>,
        body: &'a [Stmt],
    },
    LoopOnce {
        body: &'a [Stmt],
        test: &'a Expr,
    },
    Break,
    Continue,
}

/// A task with its step, or one that takes none: finding a place, deciding where to go on, setting a variable by its
/// declaration, and in a compound assignment all but the writes, whose steps stand for the reading and the making too.
#[derive(Drop)]
pub enum Task<'a> {
    Step(Act<'a>),
    Quiet(Act<'a>),
}

/// Whether a task takes a step.
#[derive(Clone, Copy)]
pub enum Mark {
    Step,
    Quiet,
}

impl Mark {
    /// The act with this mark.
    pub fn task<'a>(self, act: Act<'a>) -> Task<'a>
        ensures { task_by result ≡ marked self (act_by act.entry) }
    {
        match self {
            Mark::Step => Task::Step(act),
            Mark::Quiet => Task::Quiet(act),
        }
    }
}

/// Tasks in the order in which they are done.
pub type Tasks<'a> = Vec<Task<'a>>;

pub fn step<'a>(out: &mut Tasks<'a>, op: Operation) -> Result<(), NoMemory>
    ensures { OnOk result (tasks_by out.new.items ≡ tasks_by out.old.items ++ step op ∷ []) }
{
    out.push(Task::Step(Act::Operate(op)))?;
    Ok(())
}

pub fn quiet<'a>(out: &mut Tasks<'a>, op: Operation) -> Result<(), NoMemory>
    ensures { OnOk result (tasks_by out.new.items ≡ tasks_by out.old.items ++ quiet op ∷ []) }
{
    out.push(Task::Quiet(Act::Operate(op)))?;
    Ok(())
}

pub fn steps<'a>(out: &mut Tasks<'a>, count: usize) -> Result<(), NoMemory>
    ensures { OnOk result (tasks_by out.new.items ≡ tasks_by out.old.items ++ steps count) }
{
    for _step in 0..count {
        out.push(Task::Step(Act::Pass))?;
    }
    Ok(())
}

/// One task makes all scalars of a value, with the first step; the others follow.
pub fn making<'a>(out: &mut Tasks<'a>, count: usize, op: Operation) -> Result<(), NoMemory>
    ensures { OnOk result (tasks_by out.new.items ≡ tasks_by out.old.items ++ making count op) }
{
    step(out, op)?;
    steps(out, count.saturating_sub(1))
}
