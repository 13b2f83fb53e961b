//! Where a work-item goes on (C99, 6.5.13 to 6.5.15 and 6.8).

ghost use Rattle.std.specs.Prelude.{◌≡◌, ◌++◌, ◌∷◌, [], IfOk, List, OnOk, Some, nat_eq, not, option_map, slice_get};
ghost use Rattle.cl_meaning.specs.declared.item.Around.TheVariants as around;
ghost use Rattle.cl_meaning.specs.Controls.{again_of, behind_of, is_loop, switches_from};
ghost use Rattle.cl_meaning.specs.Effects.{Goes, broken, effect_of, from_label, is_case, is_default, looped, number_on, or_else, some_label};
ghost use Rattle.cl_meaning.specs.Statements.{body_tasks, stmts_tasks, switch_tasks, test_tasks};
ghost use Rattle.cl_meaning.specs.Tasks.{Choose, Continue, Decide, Loop, LoopOnce, SelectSection, Test, Unless, quiet};
ghost use Rattle.cl_meaning.specs.Views.{again_by, around_by, expr_by, item_by, sections_by, stmts_by, surroundings_by, tasks_by};
ghost use Rattle.cl_meaning.specs.Values.{Pattern, Value};
ghost use Rattle.cl_meaning.specs.Expressions.{type_of, uses};
ghost use Rattle.cl_meaning.specs.Operations.{Convert};
ghost use Rattle.cl_tree.specs.Constants.{truth};
ghost use Rattle.cl_tree.specs.Shapes.{shape_of};
ghost use Rattle.cl_tree.specs.declared.shape.Shape.TheVariants as shape;
ghost use Rattle.cl_types.specs.declared.types.ClType.{ClType};

use crate::code::{Expr, Label, Section, Stmt};
use crate::entry::Entry;
use crate::item::{Around, Item, Surroundings};
use crate::operation::Operation;
use crate::pointer::alike;
use crate::stack::Stack;
use crate::task::{Task, Tasks, quiet};
use crate::wide::WideShape;
use clv_place::NoMemory;
use std::alloc::Global;
use std::mem;

fn is_case(n: u64, label: Label) -> bool
    ensures { result ≡ is_case n label }
{
    match label {
        Label::Case(Some(m)) => n == m,
        _ => false,
    }
}

fn is_default(label: Label) -> bool
    ensures { result ≡ is_default label }
{
    match label {
        Label::Default => true,
        _ => false,
    }
}

fn has_case(n: u64, labels: &[Label]) -> bool
    ensures { result ≡ some_label (is_case n) labels.now }
{
    for label in labels {
        if is_case(n, *label) {
            return true;
        }
    }
    false
}

fn has_default(labels: &[Label]) -> bool
    ensures { result ≡ some_label is_default labels.now }
{
    for label in labels {
        if is_default(*label) {
            return true;
        }
    }
    false
}

#[tactic(auto, using(crate::proofs::Controls::sections_found))]
fn from_case(n: u64, sections: &[Section]) -> &[Section]
    ensures { sections_by result.now ≡ from_label (is_case n) (sections_by sections.now) }
{
    let mut left = sections;
    while let [section, rest @ ..] = left {
        if has_case(n, section.labels.as_slice()) {
            return left;
        }
        left = rest;
    }
    left
}

#[tactic(auto, using(crate::proofs::Controls::sections_found))]
fn from_default(sections: &[Section]) -> &[Section]
    ensures { sections_by result.now ≡ from_label is_default (sections_by sections.now) }
{
    let mut left = sections;
    while let [section, rest @ ..] = left {
        if has_default(section.labels.as_slice()) {
            return left;
        }
        left = rest;
    }
    left
}

// The section of the case that is this number, or else of `default` (C99, 6.8.4.2).
fn selected(n: u64, sections: &[Section]) -> &[Section]
    ensures { sections_by result.now ≡ or_else (from_label (is_case n) (sections_by sections.now)) (from_label is_default (sections_by sections.now)) }
{
    let case = from_case(n, sections);
    if !case.is_empty() {
        return case;
    }
    from_default(sections)
}

// Tasks as a stack.
fn stacked<'a>(alloc: Global, tasks: Tasks<'a>) -> Result<Stack<Task<'a>>, NoMemory>
    ensures { IfOk result (λ stack. tasks_by stack ≡ tasks_by tasks.entry.items) }
{
    let mut stack = Stack::new(alloc);
    stack.push_all(tasks)?;
    Ok(stack)
}

// The entry of a truth.
fn truth(alloc: Global, b: bool) -> Result<Entry, NoMemory>
    ensures { IfOk result (λ entry. entry ≡ Value (Pattern (truth b) ∷ [])) }
{
    Entry::number(alloc, u64::from(b))
}

fn used_tasks<'a>(s: Surroundings<'a>, e: &'a Expr) -> Result<Tasks<'a>, NoMemory>
    ensures { IfOk result (λ tasks. tasks_by tasks.items ≡ uses s.entry.types.now (expr_by e.now)) }
{
    let mut tasks = Vec::new(s.alloc);
    s.unfolding().used(e, &mut tasks)?;
    Ok(tasks)
}

// The tasks of a value that counts by whether it is 0.
fn truth_tasks<'a>(s: Surroundings<'a>, e: &'a Expr) -> Result<Tasks<'a>, NoMemory>
    ensures { IfOk result (λ tasks. tasks_by tasks.items ≡ uses s.entry.types.now (expr_by e.now) ++ quiet (Convert (shape_of s.entry.types.now (type_of (expr_by e.now))) shape.Bool) ∷ []) }
{
    let mut tasks = used_tasks(s, e)?;
    quiet(
        &mut tasks,
        Operation::Convert {
            from: s.types.shape(e.ty),
            to: WideShape::bool(),
        },
    )?;
    Ok(tasks)
}

fn stmts_tasks<'a>(s: Surroundings<'a>, stmts: &'a [Stmt]) -> Result<Tasks<'a>, NoMemory>
    ensures { IfOk result (λ tasks. tasks_by tasks.items ≡ stmts_tasks s.entry.types.now (stmts_by stmts.now)) }
{
    let mut tasks = Vec::new(s.alloc);
    s.unfolding().stmts(stmts, &mut tasks)?;
    Ok(tasks)
}

// The tasks of a loop from its test on.
fn test_tasks<'a>(
    s: Surroundings<'a>,
    test: &'a Expr,
    body: &'a [Stmt],
) -> Result<Tasks<'a>, NoMemory>
    ensures { IfOk result (λ tasks. tasks_by tasks.items ≡ test_tasks s.entry.types.now (expr_by test.now) (stmts_by body.now)) }
{
    let mut tasks = Vec::new(s.alloc);
    s.unfolding().test(test, body, &mut tasks)?;
    Ok(tasks)
}

// The tasks of a loop from its third part on.
fn again_tasks<'a>(
    s: Surroundings<'a>,
    next: Option<&'a Expr>,
    test: &'a Expr,
    body: &'a [Stmt],
) -> Result<Tasks<'a>, NoMemory>
    ensures { IfOk result (λ tasks. tasks_by tasks.items ≡ again_by s.entry.types.now (expr_by test.now) (option_map (λ e. expr_by e.now) next.entry) (stmts_by body.now)) }
{
    let mut tasks = Vec::new(s.alloc);
    s.unfolding().may_drop(next, &mut tasks)?;
    s.unfolding().test(test, body, &mut tasks)?;
    Ok(tasks)
}

fn body_tasks<'a>(s: Surroundings<'a>, body: &'a [Stmt]) -> Result<Tasks<'a>, NoMemory>
    ensures { IfOk result (λ tasks. tasks_by tasks.items ≡ body_tasks s.entry.types.now (stmts_by body.now)) }
{
    let mut tasks = Vec::new(s.alloc);
    s.unfolding().body(body, &mut tasks)?;
    Ok(tasks)
}

fn switch_tasks<'a>(s: Surroundings<'a>, sections: &'a [Section]) -> Result<Tasks<'a>, NoMemory>
    ensures { IfOk result (λ tasks. tasks_by tasks.items ≡ switch_tasks s.entry.types.now (sections_by sections.now)) }
{
    let mut tasks = Vec::new(s.alloc);
    s.unfolding().sections(sections, &mut tasks)?;
    Ok(tasks)
}

impl<'a> Around<'a> {
    fn behind(self) -> Stack<Task<'a>>
        ensures { result ≡ behind_of self.entry }
    {
        match self {
            Around::InLoop { behind, .. } => behind,
            Around::InSwitch { behind } => behind,
        }
    }

    fn is_loop(&self) -> bool
        ensures { result ≡ is_loop (Some self.now) }
    {
        match self {
            Around::InLoop { .. } => true,
            Around::InSwitch { .. } => false,
        }
    }

    // What a loop does next; a switch does nothing.
    fn again(&self, s: Surroundings<'a>) -> Result<Tasks<'a>, NoMemory>
        ensures { IfOk result (λ tasks. tasks_by tasks.items ≡ again_of (around_by s.entry.types.now self.now)) }
    {
        match self {
            Around::InLoop {
                test,
                next,
                body,
                ..
            } => again_tasks(s, *next, test, body),
            Around::InSwitch { .. } => Ok(Vec::new(s.alloc)),
        }
    }
}

impl<'a> Item<'a> {
    fn is_true(&self) -> bool
        ensures { result ≡ not (nat_eq (number_on self.now.stack) 0) }
    {
        self.number() != 0
    }

    // These tasks before what is to be done.
    fn do_first(&mut self, tasks: Tasks<'a>) -> Result<(), NoMemory>
        ensures { OnOk result (self.new ≡ record self.old { todo = tasks.entry.items ++ self.old.todo }) }
    {
        self.todo.push_all(tasks)?;
        Ok(())
    }

    // The other operand of `&&` or `||` counts by whether it is 0.
    pub fn unless(
        &mut self,
        s: Surroundings<'a>,
        decided: bool,
        other: &'a Expr,
    ) -> Result<(), NoMemory>
        ensures { OnOk result (effect_of (surroundings_by s.entry) (Unless decided (expr_by other.now)) (item_by s.entry.types.now self.old) ≡ Goes (item_by s.entry.types.now self.new)) }
    {
        let holds = self.is_true();
        self.stack.drop_newest(1);
        if alike(decided, holds) {
            self.stack.push(truth(s.alloc, decided)?)?;
            return Ok(());
        }
        self.do_first(truth_tasks(s, other)?)?;
        Ok(())
    }

    pub fn choose(
        &mut self,
        s: Surroundings<'a>,
        on_true: &'a Expr,
        on_false: &'a Expr,
    ) -> Result<(), NoMemory>
        ensures { OnOk result (effect_of (surroundings_by s.entry) (Choose (expr_by on_true.now) (expr_by on_false.now)) (item_by s.entry.types.now self.old) ≡ Goes (item_by s.entry.types.now self.new)) }
    {
        let holds = self.is_true();
        self.stack.drop_newest(1);
        if holds {
            self.do_first(used_tasks(s, on_true)?)?;
            return Ok(());
        }
        self.do_first(used_tasks(s, on_false)?)?;
        Ok(())
    }

    pub fn decide(
        &mut self,
        s: Surroundings<'a>,
        on_true: &'a [Stmt],
        on_false: &'a [Stmt],
    ) -> Result<(), NoMemory>
        ensures { OnOk result (effect_of (surroundings_by s.entry) (Decide (stmts_by on_true.now) (stmts_by on_false.now)) (item_by s.entry.types.now self.old) ≡ Goes (item_by s.entry.types.now self.new)) }
    {
        let holds = self.is_true();
        self.stack.drop_newest(1);
        if holds {
            self.do_first(stmts_tasks(s, on_true)?)?;
            return Ok(());
        }
        self.do_first(stmts_tasks(s, on_false)?)?;
        Ok(())
    }

    // What was to be done is dropped for this.
    fn turn_to(&mut self, todo: Stack<Task<'a>>)
        ensures { self.new ≡ record self.old { todo = todo.entry } }
    {
        drop(mem::replace(&mut self.todo, todo));
    }

    // What is behind the innermost loop or switch.
    pub fn break_off(&mut self)
        ensures { (cs : List ClType) → item_by cs self.new ≡ broken (item_by cs self.old).around (item_by cs self.old) }
    {
        let Some(around) = self.around.pop() else {
            return;
        };
        self.turn_to(around.behind());
    }

    // Whether there is a loop beneath so many others.
    fn is_loop_at(&self, beneath: usize) -> bool
        ensures { result ≡ is_loop (slice_get self.now.around beneath) }
    {
        match self.around.get(beneath) {
            None => false,
            Some(around) => around.is_loop(),
        }
    }

    // How many switches there are inside of the innermost loop, where there is a loop.
    #[tactic(auto, using(crate::proofs::Controls::counting))]
    fn switches_inside(&self) -> Option<usize>
        ensures { result ≡ switches_from 0 self.now.around }
    {
        for count in 0..self.around.len() {
            if self.is_loop_at(count) {
                return Some(count);
            }
        }
        None
    }

    // What the innermost loop does next, switches being passed by.
    pub fn go_on(&mut self, s: Surroundings<'a>) -> Result<(), NoMemory>
        ensures { OnOk result (effect_of (surroundings_by s.entry) (Continue) (item_by s.entry.types.now self.old) ≡ Goes (item_by s.entry.types.now self.new)) }
    {
        let Some(switches) = self.switches_inside() else {
            return Ok(());
        };
        self.around.drop_newest(switches);
        let Some(around) = self.around.top() else {
            return Ok(());
        };
        let todo = stacked(s.alloc, around.again(s)?)?;
        self.turn_to(todo);
        Ok(())
    }

    // A loop that begins with these tasks.
    fn looped(
        &mut self,
        s: Surroundings<'a>,
        begin: Tasks<'a>,
        test: &'a Expr,
        next: Option<&'a Expr>,
        body: &'a [Stmt],
    ) -> Result<(), NoMemory>
        ensures { OnOk result (item_by s.entry.types.now self.new ≡ looped (tasks_by begin.entry.items) (again_by s.entry.types.now (expr_by test.now) (option_map (λ e. expr_by e.now) next.entry) (stmts_by body.now)) (item_by s.entry.types.now self.old)) }
    {
        let begin = stacked(s.alloc, begin)?;
        let behind = mem::replace(&mut self.todo, begin);
        self.around.push(Around::InLoop {
            test,
            next,
            body,
            behind,
        })
    }

    pub fn begin_loop(
        &mut self,
        s: Surroundings<'a>,
        test: &'a Expr,
        next: Option<&'a Expr>,
        body: &'a [Stmt],
    ) -> Result<(), NoMemory>
        ensures { OnOk result (effect_of (surroundings_by s.entry) (Loop (expr_by test.now) (option_map (λ e. expr_by e.now) next.entry) (stmts_by body.now)) (item_by s.entry.types.now self.old) ≡ Goes (item_by s.entry.types.now self.new)) }
    {
        let begin = test_tasks(s, test, body)?;
        self.looped(s, begin, test, next, body)
    }

    pub fn begin_once(
        &mut self,
        s: Surroundings<'a>,
        body: &'a [Stmt],
        test: &'a Expr,
    ) -> Result<(), NoMemory>
        ensures { OnOk result (effect_of (surroundings_by s.entry) (LoopOnce (stmts_by body.now) (expr_by test.now)) (item_by s.entry.types.now self.old) ≡ Goes (item_by s.entry.types.now self.new)) }
    {
        let begin = body_tasks(s, body)?;
        self.looped(s, begin, test, None, body)
    }

    pub fn test(&mut self, s: Surroundings<'a>, body: &'a [Stmt]) -> Result<(), NoMemory>
        ensures { OnOk result (effect_of (surroundings_by s.entry) (Test (stmts_by body.now)) (item_by s.entry.types.now self.old) ≡ Goes (item_by s.entry.types.now self.new)) }
    {
        let holds = self.is_true();
        self.stack.drop_newest(1);
        if !holds {
            self.break_off();
            return Ok(());
        }
        let todo = stacked(s.alloc, body_tasks(s, body)?)?;
        self.turn_to(todo);
        Ok(())
    }

    // A switch in which this is to be done.
    fn switch_to(&mut self, todo: Stack<Task<'a>>) -> Result<(), NoMemory>
        ensures { OnOk result (self.new ≡ record self.old { todo = todo.entry; around = around.InSwitch self.old.todo ∷ self.old.around }) }
    {
        let behind = mem::replace(&mut self.todo, todo);
        self.around.push(Around::InSwitch { behind })?;
        Ok(())
    }

    pub fn select_section(
        &mut self,
        s: Surroundings<'a>,
        sections: &'a [Section],
    ) -> Result<(), NoMemory>
        ensures { OnOk result (effect_of (surroundings_by s.entry) (SelectSection (sections_by sections.now)) (item_by s.entry.types.now self.old) ≡ Goes (item_by s.entry.types.now self.new)) }
    {
        let sections = selected(self.number(), sections);
        self.stack.drop_newest(1);
        if sections.is_empty() {
            return Ok(());
        }
        let todo = stacked(s.alloc, switch_tasks(s, sections)?)?;
        self.switch_to(todo)?;
        Ok(())
    }
}
