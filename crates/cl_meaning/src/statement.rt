//! What a work-item has to do for a statement and for a function (C99, 6.8 and 6.9.1).

ghost use Rattle.cl_meaning.specs.declared.code.Expr.{out-Expr};
ghost use Rattle.std.specs.Prelude.{◌≡◌, ◌++◌, ◌∷◌, [], OnOk, option_map};
ghost use Rattle.cl_meaning.specs.Code.{Expr};
ghost use Rattle.cl_meaning.specs.Expressions.{total, uses};
ghost use Rattle.cl_meaning.specs.Statements.{body_tasks, fallen, function_tasks, sections_tasks, stmt_tasks, stmts_tasks, switch_tasks, test_tasks};
ghost use Rattle.cl_meaning.specs.Tasks.{Decide, Quiet, Reach, SelectSection, Set, Step, steps};
ghost use Rattle.cl_meaning.specs.Views.{act_by, code_by, expr_by, option_by, returned_by, sections_by, stmt_by, stmts_by, tasks_by};

use crate::code::{Code, Expr, Section, Stmt};
use crate::entry::Entry;
use crate::expression::Unfolding;
use crate::operation::Operation;
use crate::task::{Act, Task, Tasks, quiet, steps};
use cl_tree::Shape;
use cl_types::TypeId;
use clv_place::NoMemory;

fn reached<'a>(out: &mut Tasks<'a>) -> Result<(), NoMemory>
    ensures { OnOk result (tasks_by out.new.items ≡ tasks_by out.old.items ++ Step Reach ∷ []) }
{
    out.push(Task::Step(Act::Reach))?;
    Ok(())
}

fn act<'a>(out: &mut Tasks<'a>, act: Act<'a>) -> Result<(), NoMemory>
    ensures { OnOk result (tasks_by out.new.items ≡ tasks_by out.old.items ++ Quiet (act_by act.entry) ∷ []) }
{
    out.push(Task::Quiet(act))?;
    Ok(())
}

fn option_of<'a>(e: &'a Option<Expr>) -> Option<&'a Expr>
    ensures { option_map (λ e. expr_by e.now) result ≡ option_by e.now }
{
    match e {
        None => None,
        Some(e) => Some(e),
    }
}

impl<'t> Unfolding<'t> {
    fn initialised<'a>(self, k: u32, e: &'a Expr, out: &mut Tasks<'a>) -> Result<(), NoMemory>
        ensures { OnOk result (tasks_by out.new.items ≡ tasks_by out.old.items ++ uses self.entry.types.now (expr_by e.now) ++ Quiet (Set k (out-Expr e.now).ty) ∷ []) }
    {
        self.used(e, out)?;
        act(out, Act::Set { k, ty: e.ty })
    }

    // Its test decides.
    fn decided<'a>(
        self,
        test: &'a Expr,
        on_true: &'a [Stmt],
        on_false: &'a [Stmt],
        out: &mut Tasks<'a>,
    ) -> Result<(), NoMemory>
        ensures { OnOk result (tasks_by out.new.items ≡ tasks_by out.old.items ++ uses self.entry.types.now (expr_by test.now) ++ Quiet (Decide (stmts_by on_true.now) (stmts_by on_false.now)) ∷ []) }
    {
        self.used(test, out)?;
        act(out, Act::Decide { on_true, on_false })
    }

    fn switched<'a>(
        self,
        on: &'a Expr,
        sections: &'a [Section],
        out: &mut Tasks<'a>,
    ) -> Result<(), NoMemory>
        ensures { OnOk result (tasks_by out.new.items ≡ tasks_by out.old.items ++ uses self.entry.types.now (expr_by on.now) ++ Quiet (SelectSection (sections_by sections.now)) ∷ []) }
    {
        self.used(on, out)?;
        act(out, Act::SelectSection(sections))
    }

    fn returned<'a>(self, e: &'a Option<Expr>, out: &mut Tasks<'a>) -> Result<(), NoMemory>
        ensures { OnOk result (tasks_by out.new.items ≡ tasks_by out.old.items ++ returned_by self.entry.types.now (option_by e.now)) }
    {
        match e {
            None => quiet(out, Operation::Push(Entry::void(self.alloc)))?,
            Some(e) => self.used(e, out)?,
        }
        act(out, Act::Leave)
    }

    #[cycle(statements)]
    fn stmt<'a>(self, stmt: &'a Stmt, out: &mut Tasks<'a>) -> Result<(), NoMemory>
        ensures { OnOk result (tasks_by out.new.items ≡ tasks_by out.old.items ++ stmt_tasks self.entry.types.now (stmt_by stmt.now)) }
    {
        reached(out)?;
        match stmt {
            Stmt::Block(stmts) => self.stmts(stmts, out),
            Stmt::Declare(k) => act(out, Act::Unset { k: *k }),
            Stmt::Initialise(k, e) => self.initialised(*k, e, out),
            Stmt::Evaluate(e) => self.dropped(e, out),
            Stmt::If {
                test,
                on_true,
                on_false,
            } => self.decided(test, on_true, on_false, out),
            Stmt::While { test, body } => act(
                out,
                Act::Loop {
                    test,
                    next: None,
                    body,
                },
            ),
            Stmt::Do { body, test } => act(out, Act::LoopOnce { body, test }),
            Stmt::For {
                declarations,
                first,
                test,
                next,
                body,
            } => {
                self.stmts(declarations, out)?;
                self.may_drop(option_of(first), out)?;
                let next = option_of(next);
                act(out, Act::Loop { test, next, body })
            }
            Stmt::Switch { on, sections } => self.switched(on, sections, out),
            Stmt::Break => act(out, Act::Break),
            Stmt::Continue => act(out, Act::Continue),
            Stmt::Return(e) => self.returned(e, out),
            Stmt::Empty => Ok(()),
        }
    }

    /// The tasks of statements.
    #[cycle(statements)]
    #[tactic(auto, using(crate::proofs::Unrolled::lists))]
    pub fn stmts<'a>(self, stmts: &'a [Stmt], out: &mut Tasks<'a>) -> Result<(), NoMemory>
        ensures { OnOk result (tasks_by out.new.items ≡ tasks_by out.old.items ++ stmts_tasks self.entry.types.now (stmts_by stmts.now)) }
    {
        for stmt in stmts {
            self.stmt(stmt, out)?;
        }
        Ok(())
    }

    /// The tasks of a loop's body. Its end is as `continue` (C99, 6.8.6.2).
    pub fn body<'a>(self, body: &'a [Stmt], out: &mut Tasks<'a>) -> Result<(), NoMemory>
        ensures { OnOk result (tasks_by out.new.items ≡ tasks_by out.old.items ++ body_tasks self.entry.types.now (stmts_by body.now)) }
    {
        self.stmts(body, out)?;
        act(out, Act::Continue)
    }

    // Each section goes on in the one behind it.
    #[tactic(auto, using(crate::proofs::Unrolled::lists))]
    fn all_sections<'a>(self, sections: &'a [Section], out: &mut Tasks<'a>) -> Result<(), NoMemory>
        ensures { OnOk result (tasks_by out.new.items ≡ tasks_by out.old.items ++ sections_tasks self.entry.types.now (sections_by sections.now)) }
    {
        for section in sections {
            self.stmts(&section.body, out)?;
        }
        Ok(())
    }

    /// The tasks of the sections of a `switch`. Their end is as `break` (C99, 6.8.4.2).
    pub fn sections<'a>(self, sections: &'a [Section], out: &mut Tasks<'a>) -> Result<(), NoMemory>
        ensures { OnOk result (tasks_by out.new.items ≡ tasks_by out.old.items ++ switch_tasks self.entry.types.now (sections_by sections.now)) }
    {
        self.all_sections(sections, out)?;
        act(out, Act::Break)
    }

    /// The tasks of a loop's test.
    pub fn test<'a>(
        self,
        test: &'a Expr,
        body: &'a [Stmt],
        out: &mut Tasks<'a>,
    ) -> Result<(), NoMemory>
        ensures { OnOk result (tasks_by out.new.items ≡ tasks_by out.old.items ++ test_tasks self.entry.types.now (expr_by test.now) (stmts_by body.now)) }
    {
        self.used(test, out)?;
        act(out, Act::Test { body })
    }

    // One step for each scalar of the parameters.
    #[tactic(auto, using(crate::proofs::Unrolled::lists))]
    fn params<'a>(self, params: &[TypeId], out: &mut Tasks<'a>) -> Result<(), NoMemory>
        ensures { OnOk result (tasks_by out.new.items ≡ tasks_by out.old.items ++ steps (total self.entry.types.now params.now)) }
    {
        for ty in params {
            steps(out, self.types.count(*ty))?;
        }
        Ok(())
    }

    // What a function gives that falls off its end.
    fn fallen(self, shape: Shape) -> Entry
        ensures { result ≡ fallen self.entry.types.now shape }
    {
        match shape {
            Shape::Void => Entry::void(self.alloc),
            _ => Entry::Missing,
        }
    }

    /// The tasks of a function behind the step that enters it: one for each scalar of the parameters, and the body.
    pub fn function<'a>(self, code: &'a Code, out: &mut Tasks<'a>) -> Result<(), NoMemory>
        ensures { OnOk result (tasks_by out.new.items ≡ tasks_by out.old.items ++ function_tasks self.entry.types.now (code_by code.now)) }
    {
        self.params(code.params.as_slice(), out)?;
        self.stmt(&code.body, out)?;
        let result = self.types.shape(code.result).shape();
        quiet(out, Operation::Push(self.fallen(result)))?;
        act(out, Act::Leave)
    }
}
