//! Stacks.

ghost use Rattle.std.specs.Prelude.{◌≡◌, ◌≢◌, MatchBool, List, [], ◌∷◌, ◌++◌, OnOk, OnErr, IfOk, slice_get, option_copied, length, drop};
ghost use Rattle.cl_macro.specs.Ends.{IsFirstOf};

use crate::row::Row;
use clv_place::NoMemory;
use std::alloc::Global;
use std::marker::Model;

/// Items of which the first, the top, can be taken off. A contract sees the list of them, the top first.
#[derive(Drop)]
pub struct Stack<T> {
    items: Vec<T>,
}

impl<T> Model for Stack<T> {
    ghost use Rattle.std.specs.Prelude.{List};
    ghost use Rattle.std.specs.Prelude.{reverse};

    ghost Value = { List T };

    ghost view = { λ s. reverse s.items.items };
}

impl<T: Drop> Stack<T> {
    /// The empty stack. It takes no memory, and keeps the allocator for what is added.
    pub fn new(alloc: Global) -> Self
        ensures { result ≡ [] }
    {
        Stack {
            items: Vec::new(alloc),
        }
    }

    /// A stack of a row's items, of which the first is the top.
    pub fn of(alloc: Global, items: Row<T>) -> Result<Self, NoMemory>
        ensures { IfOk result (λ s. s ≡ items) }
    {
        let mut stack = Stack::new(alloc);
        stack.put(items)?;
        Ok(stack)
    }

    /// The number of items.
    pub fn len(&self) -> usize
        ensures { result ≡ length self.now }
    {
        self.items.len()
    }

    /// Whether there is no item.
    pub fn is_empty(&self) -> bool
        ensures { MatchBool result (self.now ≡ []) (self.now ≢ []) }
    {
        self.items.len() == 0
    }

    /// Puts an item on top. For want of memory it changes nothing, and drops the item.
    #[tactic(auto, using(crate::proofs::Reversed::reversed))]
    pub fn push(&mut self, item: T) -> Result<(), NoMemory>
        ensures ok { OnOk result (self.new ≡ item ∷ self.old) }
        ensures err { OnErr result (self.new ≡ self.old) }
    {
        match self.items.push(item) {
            Ok(()) => Ok(()),
            Err(_) => Err(NoMemory),
        }
    }

    /// Takes the top off, where there is one.
    #[tactic(auto, using(crate::proofs::Reversed::reversed))]
    pub fn pop(&mut self) -> Option<T>
        ensures { IsFirstOf result self.old self.new }
    {
        self.items.pop()
    }

    /// The top, where there is one.
    pub fn peek(&self) -> Option<&T>
        ensures { option_copied result ≡ slice_get self.now 0 }
    {
        self.items.last()
    }

    /// Takes the top off, where there is one, and lets it go.
    pub fn drop_top(&mut self)
        ensures { self.new ≡ drop 1 self.old }
    {
        let _top = self.pop();
    }

    /// Puts a row of items on top, the first one topmost. For want of memory it has put some of them.
    pub fn put(&mut self, items: Row<T>) -> Result<(), NoMemory>
        ensures { OnOk result (self.new ≡ items ++ self.old) }
    {
        let mut items = items;
        while let Some(item) = items.pop() {
            self.push(item)?;
        }
        Ok(())
    }

    /// The items as a row, the top first.
    pub fn into_row(self, alloc: Global) -> Result<Row<T>, NoMemory>
        ensures { IfOk result (λ r. r ≡ self) }
    {
        let mut stack = self;
        let mut items = Row::new(alloc);
        while let Some(item) = stack.pop() {
            items.push(item)?;
        }
        Ok(items)
    }
}
