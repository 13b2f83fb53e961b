//! What names mean at a place of the text.

ghost use Rattle.std.specs.Prelude.{◌≡◌, length, option_copied, is_some, IfOk, OnOk, OnErr};
ghost use Rattle.cl_scope.specs.Names.{Env, nothing, entered, left_at, IsLeft, declare, newest, find, find_tag, is_declared, is_tagged, find_function, declared_function};
ghost use Rattle.cl_scope.specs.Scopes.{declared_in, blocks_in, env_of};

use crate::declarations::Declarations;
use crate::functions::Functions;
use crate::scope::{Declared, Scope, Signature};
use clv_place::{List, NoMemory};
use std::alloc::Global;
use std::marker::Model;

/// The declarations of the blocks round a place, of which the newest of each name is found at once, and the
/// functions that were declared before it. A contract sees the declarations of the innermost block and those of
/// the others, each with the newest first, and the functions in their order.
#[derive(Drop)]
pub struct Names {
    declared: Declarations,
    // How many declarations stand outside the innermost block.
    block: usize,
    functions: Functions,
}

impl Model for Names {
    ghost use Rattle.std.specs.Prelude.{◌≤◌, length};
    ghost use Rattle.cl_scope.specs.Names.{Env as AllNames, inner_at, outer_at};

    ghost Value = { AllNames };

    ghost view = { λ n. record { outer = outer_at n.block n.declared; inner = inner_at n.block n.declared; functions = n.functions } };

    ghost invariant = { λ n. n.block ≤ length n.declared };
}

impl Names {
    /// Nothing is declared. It takes no memory.
    pub fn new(alloc: Global) -> Self
        ensures { result ≡ nothing }
    {
        Names {
            declared: Declarations::new(alloc),
            block: 0,
            functions: Functions::new(alloc),
        }
    }

    /// The names of these blocks and functions.
    pub fn of(alloc: Global, scope: &Scope) -> Result<Self, NoMemory>
        ensures { IfOk result (λ n. n ≡ env_of scope.now) }
    {
        let mut names = Names {
            declared: Declarations::new(alloc),
            block: 0,
            functions: Functions::of(alloc, scope.functions.as_slice())?,
        };
        names.enter_all(alloc, scope.blocks.as_slice())?;
        Ok(names)
    }

    // Enters these blocks one within another, with copies of their declarations.
    #[tactic(auto, using(crate::proofs::Blocks::copyings))]
    fn enter_all(&mut self, alloc: Global, blocks: &[List<Declared>]) -> Result<(), NoMemory>
        ensures { OnOk result (self.new ≡ blocks_in blocks.now self.old) }
    {
        for block in blocks {
            let _mark = self.enter();
            self.declare_all(alloc, block.as_slice())?;
        }
        Ok(())
    }

    // Declares copies of these, the oldest first.
    #[tactic(auto, using(crate::proofs::Blocks::copyings))]
    fn declare_all(&mut self, alloc: Global, block: &[Declared]) -> Result<(), NoMemory>
        ensures { OnOk result (self.new ≡ declared_in block.now self.old) }
    {
        for declared in block {
            self.declare(declared.copy(alloc)?)?;
        }
        Ok(())
    }

    /// Enters a block: no name is declared in it yet. The answer is the mark by which the block is left: the
    /// number of declarations outside the block round it.
    pub fn enter(&mut self) -> usize
        ensures block { self.new ≡ entered self.old }
        ensures mark { result ≡ length self.old.outer }
    {
        let mark = self.block;
        self.block = self.declared.len();
        mark
    }

    /// Leaves the innermost block, with the mark that entering it gave: what it hid is found again. It takes no
    /// memory.
    pub fn leave(&mut self, mark: usize)
        // The block that is left takes its declarations with it, and the mark says where the one round it begins.
        ensures left { self.new ≡ left_at mark self.old }
        // With the mark of the block, the names are those before the block again, with the functions of now.
        ensures behind { IsLeft self.old mark self.new }
    {
        self.declared.truncate(self.block);
        self.block = mark.min(self.block);
    }

    /// Declares a name in the innermost block, as its newest declaration. For want of memory it changes nothing,
    /// and drops the declaration.
    pub fn declare(&mut self, declared: Declared) -> Result<(), NoMemory>
        ensures ok { OnOk result (self.new ≡ declare declared self.old) }
        ensures err { OnErr result (self.new ≡ self.old) }
    {
        self.declared.push(declared)
    }

    /// What a name means: its newest declaration that isn't a tag (C99, 6.2.1).
    pub fn find(&self, name: &[u8]) -> Option<&Declared>
        ensures { option_copied result ≡ find self.now name.now }
    {
        self.declared.find(false, name)
    }

    /// The newest struct of a tag (C99, 6.2.1 and 6.2.3).
    pub fn find_tag(&self, name: &[u8]) -> Option<&Declared>
        ensures { option_copied result ≡ find_tag self.now name.now }
    {
        self.declared.find(true, name)
    }

    /// Whether the innermost block itself declares the name, other than as a tag.
    pub fn is_declared(&self, name: &[u8]) -> bool
        ensures { result ≡ is_declared self.now name.now }
    {
        self.has_own(false, name)
    }

    /// Whether the innermost block itself declares a struct of the tag.
    pub fn is_tagged(&self, name: &[u8]) -> bool
        ensures { result ≡ is_tagged self.now name.now }
    {
        self.has_own(true, name)
    }

    // Whether the newest declaration of a tag or another name is one of the innermost block.
    fn has_own(&self, tag: bool, name: &[u8]) -> bool
        ensures { result ≡ is_some (newest tag name.now self.now.inner) }
    {
        match self.declared.place(tag, name) {
            None => false,
            Some(at) => at >= self.block,
        }
    }

    /// The function of a name that was declared first.
    pub fn find_function(&self, name: &[u8]) -> Option<&Signature>
        ensures { option_copied result ≡ find_function self.now name.now }
    {
        self.functions.find(name)
    }

    /// Adds a function behind the others, unless one of its name is there. For want of memory it changes nothing,
    /// and drops the function.
    pub fn add_function(&mut self, function: Signature) -> Result<(), NoMemory>
        ensures ok { OnOk result (self.new ≡ declared_function function self.old) }
        ensures err { OnErr result (self.new ≡ self.old) }
    {
        if self.functions.find(function.name.as_slice()).is_some() {
            return Ok(());
        }
        self.functions.push(function)
    }
}
