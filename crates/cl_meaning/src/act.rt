//! What comes of a task (C99, 6.5 and 6.8; OpenCL C 1.2, 6.3 and 6.12).

ghost use Rattle.std.specs.Prelude.{◌≡◌, IfOk, OnOk};
ghost use Rattle.cl_meaning.specs.Effects.{Goes, effect_of};
ghost use Rattle.cl_meaning.specs.Tasks.{Operate, Point, Recall, Set, Unset, Variable};
ghost use Rattle.cl_meaning.specs.Views.{Comes, act_by, item_by, surroundings_by};

use crate::calling::newest_scalars;
use crate::did::Did;
use crate::entry::{Entry, Scalar};
use crate::item::{Item, Surroundings};
use crate::memory::name_in;
use crate::operate::operate;
use crate::operation::Operation;
use crate::pointer::{Name, Object, Pointer};
use crate::task::Act;
use cl_types::TypeId;
use clv_place::NoMemory;

impl<'a> Item<'a> {
    // A variable or parameter of the call that runs.
    fn own(&self, s: Surroundings<'a>, is_param: bool, k: u32) -> Result<Name, NoMemory>
        ensures { IfOk result (λ n. n ≡ record { calls = self.now.frame.calls; is_param = is_param; number = k }) }
    {
        name_in(s.alloc, self.frame.calls.as_slice(), is_param, k)
    }

    fn operate(&mut self, s: Surroundings<'a>, op: Operation) -> Result<Did, NoMemory>
        ensures { IfOk result (λ did. Comes (effect_of (surroundings_by s.entry) (Operate op) (item_by s.entry.types.now self.old)) did (item_by s.entry.types.now self.new)) }
    {
        if operate(s.alloc, s.types, op, &mut self.stack)? {
            Ok(Did::Went)
        } else {
            Ok(Did::Undefined)
        }
    }

    fn variable(
        &mut self,
        s: Surroundings<'a>,
        is_param: bool,
        k: u32,
        size: u32,
    ) -> Result<(), NoMemory>
        ensures { OnOk result (effect_of (surroundings_by s.entry) (Variable is_param k size) (item_by s.entry.types.now self.old) ≡ Goes (item_by s.entry.types.now self.new)) }
    {
        let object = Object::InPrivate(self.own(s, is_param, k)?);
        self.stack
            .push(Entry::Place(Pointer::whole_of(object, size), None))
    }

    fn recall(&mut self, s: Surroundings<'a>, is_param: bool, k: u32) -> Result<Did, NoMemory>
        ensures { IfOk result (λ did. Comes (effect_of (surroundings_by s.entry) (Recall is_param k) (item_by s.entry.types.now self.old)) did (item_by s.entry.types.now self.new)) }
    {
        let name = self.own(s, is_param, k)?;
        let Some(p) = self.memory.pointer(&name) else {
            return Ok(Did::Undefined);
        };
        self.stack
            .push(Entry::pointer(s.alloc, p.copied(s.alloc)?)?)?;
        Ok(Did::Went)
    }

    fn point(&mut self, s: Surroundings<'a>, is_param: bool, k: u32) -> Result<(), NoMemory>
        ensures { OnOk result (effect_of (surroundings_by s.entry) (Point is_param k) (item_by s.entry.types.now self.old) ≡ Goes (item_by s.entry.types.now self.new)) }
    {
        let name = self.own(s, is_param, k)?;
        match newest_scalars(&self.stack) {
            [Scalar::Points(p)] => {
                let p = p.copied(s.alloc)?;
                self.memory.point(s.alloc, &name, p)
            }
            _ => Ok(()),
        }
    }

    fn unset(&mut self, s: Surroundings<'a>, k: u32) -> Result<(), NoMemory>
        ensures { OnOk result (effect_of (surroundings_by s.entry) (Unset k) (item_by s.entry.types.now self.old) ≡ Goes (item_by s.entry.types.now self.new)) }
    {
        let name = self.own(s, false, k)?;
        self.memory.unset(&name);
        Ok(())
    }

    fn set(&mut self, s: Surroundings<'a>, k: u32, ty: TypeId) -> Result<(), NoMemory>
        ensures { OnOk result (effect_of (surroundings_by s.entry) (Set k ty) (item_by s.entry.types.now self.old) ≡ Goes (item_by s.entry.types.now self.new)) }
    {
        let name = self.own(s, false, k)?;
        let scalars = newest_scalars(&self.stack);
        self.memory.set(s.alloc, s.types, &name, ty, scalars)?;
        self.stack.drop_newest(1);
        Ok(())
    }

    /// Makes a task, whose mark is off already.
    pub fn make(&mut self, s: Surroundings<'a>, act: Act<'a>) -> Result<Did, NoMemory>
        ensures { IfOk result (λ did. Comes (effect_of (surroundings_by s.entry) (act_by act.entry) (item_by s.entry.types.now self.old)) did (item_by s.entry.types.now self.new)) }
    {
        match act {
            Act::Reach => (),
            Act::Pass => (),
            Act::Operate(op) => return self.operate(s, op),
            Act::Variable { is_param, k, size } => self.variable(s, is_param, k, size)?,
            Act::Recall { is_param, k } => return self.recall(s, is_param, k),
            Act::Point { is_param, k } => self.point(s, is_param, k)?,
            Act::Read { ty, k } => return self.read(s, ty, k),
            Act::Write { ty, k } => return self.write(s, ty, k),
            Act::Component { op, operands, k } => return self.component(op, operands, k),
            Act::Enter {
                function,
                number,
                args,
                least,
            } => self.enter(s, function, number, args, least)?,
            Act::Leave => self.leave(s)?,
            Act::WorkItem(function) => self.work_item(s, function)?,
            Act::Wait { number } => return self.wait(s, number),
            Act::Atomic { op, signed, args } => return self.atomic(s, op, signed, args),
            Act::Unless { decided, other } => self.unless(s, decided, other)?,
            Act::Choose { on_true, on_false } => self.choose(s, on_true, on_false)?,
            Act::Unset { k } => self.unset(s, k)?,
            Act::Set { k, ty } => self.set(s, k, ty)?,
            Act::Decide { on_true, on_false } => self.decide(s, on_true, on_false)?,
            Act::SelectSection(sections) => self.select_section(s, sections)?,
            Act::Test { body } => self.test(s, body)?,
            Act::Loop { test, next, body } => self.begin_loop(s, test, next, body)?,
            Act::LoopOnce { body, test } => self.begin_once(s, body, test)?,
            Act::Break => self.break_off(),
            Act::Continue => self.go_on(s)?,
        }
        Ok(Did::Went)
    }
}
