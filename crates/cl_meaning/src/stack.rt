//! Stacks.

ghost use Rattle.std.specs.Prelude.{◌≡◌, ◌++◌, ◌∷◌, [], OnOk, drop, length, option_copied, reverse, slice_get, take};
ghost use Rattle.cl_meaning.specs.Stacks.{Popped};

use clv_place::NoMemory;
use std::alloc::Global;
use std::marker::Model;

/// Items one on top of another. A contract sees it as the list of its items, the newest first.
#[derive(Drop)]
pub struct Stack<T> {
    items: Vec<T>,
}

impl<T> Model for Stack<T> {
    ghost use Rattle.std.specs.Prelude.{List, reverse};

    ghost Value = { List T };

    ghost view = { λ s. reverse s.items.items };
}

impl<T: Drop> Stack<T> {
    /// The empty stack. It takes no memory, and keeps the allocator for what is added.
    pub fn new(alloc: Global) -> Self
        ensures { result ≡ [] }
    {
        Stack {
            items: Vec::new(alloc),
        }
    }

    /// How many items there are.
    pub fn len(&self) -> usize
        ensures { result ≡ length self.now }
    {
        self.items.len()
    }

    /// Puts an item on top.
    pub fn push(&mut self, item: T) -> Result<(), NoMemory>
        ensures { OnOk result (self.new ≡ item ∷ self.old) }
    {
        self.items.push(item)?;
        Ok(())
    }

    /// Takes the newest item away, where there is one.
    pub fn pop(&mut self) -> Option<T>
        ensures { Popped self.old result self.new }
    {
        self.items.pop()
    }

    /// Items before all others, the first of them on top.
    #[tactic(auto, using(crate::proofs::Newest::on_top))]
    pub fn push_all(&mut self, items: Vec<T>) -> Result<(), NoMemory>
        ensures { OnOk result (self.new ≡ items.items ++ self.old) }
    {
        let mut items = items;
        while let Some(item) = items.pop() {
            self.items.push(item)?;
        }
        Ok(())
    }

    /// Takes so many of the newest away, or all where there are fewer.
    #[tactic(auto, using(crate::proofs::Newest::kept))]
    pub fn drop_newest(&mut self, count: usize)
        ensures { self.new ≡ drop count self.old }
    {
        let kept = self.items.len().saturating_sub(count);
        self.items.truncate(kept);
    }

    /// The newest item.
    pub fn top(&self) -> Option<&T>
        ensures { option_copied result ≡ slice_get self.now 0 }
    {
        self.items.last()
    }

    /// The item beneath so many newer ones.
    pub fn get(&self, beneath: usize) -> Option<&T>
        ensures { option_copied result ≡ slice_get self.now beneath }
    {
        let count = self.items.len();
        if beneath < count {
            Some(&self.items[count - 1 - beneath])
        } else {
            None
        }
    }

    /// So many of the newest items, or all where there are fewer, the newest last.
    #[tactic(auto, using(crate::proofs::Newest::newest_of))]
    pub fn newest(&self, count: usize) -> &[T]
        ensures { result.now ≡ reverse (take count self.now) }
    {
        &self.items[self.items.len().saturating_sub(count)..]
    }
}
