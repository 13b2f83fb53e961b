//! Declarations of which the newest can be taken back.

ghost use Rattle.std.specs.Prelude.{◌≡◌, [], ◌∷◌, length, drop, option_copied, OnOk, OnErr};
ghost use Rattle.cl_scope.specs.Names.{newest, outer_at};
ghost use Rattle.cl_scope.specs.Rows.{newest_at};

use crate::scope::Declared;
use crate::spaces::NameSpaces;
use clv_place::NoMemory;
use std::alloc::Global;
use std::marker::Model;

// A declaration, and the index of the one that it hides.
#[derive(Drop)]
struct Row {
    declared: Declared,
    hides: Option<usize>,
}

/// Declarations, the oldest first by their indices from 0, with the newest one of each name found at once. A
/// contract sees the list of them, the newest first.
#[derive(Drop)]
pub struct Declarations {
    rows: Vec<Row>,
    spaces: NameSpaces,
}

impl Model for Declarations {
    ghost use Rattle.std.specs.Prelude.{List, reverse};
    ghost use Rattle.cl_scope.specs.declared.scope.Declared.{Declared as ADeclaration};
    ghost use Rattle.cl_scope.specs.Rows.{declared_by, IsIndexed};

    ghost Value = { List ADeclaration };

    ghost view = { λ d. declared_by (reverse d.rows.items) };

    ghost invariant = { λ d. IsIndexed (reverse d.rows.items) d.spaces };
}

impl Declarations {
    /// No declarations. It takes no memory.
    pub fn new(alloc: Global) -> Self
        ensures { result ≡ [] }
    {
        Declarations {
            rows: Vec::new(alloc),
            spaces: NameSpaces::new(alloc),
        }
    }

    /// The number of declarations.
    pub fn len(&self) -> usize
        ensures { result ≡ length self.now }
    {
        self.rows.len()
    }

    /// The index of the newest declaration of a tag or another name.
    pub fn place(&self, tag: bool, name: &[u8]) -> Option<usize>
        ensures { result ≡ newest_at tag name.now self.now }
    {
        self.spaces.get(tag, name)
    }

    /// The newest declaration of a tag or another name.
    pub fn find(&self, tag: bool, name: &[u8]) -> Option<&Declared>
        ensures { option_copied result ≡ newest tag name.now self.now }
    {
        match self.spaces.get(tag, name) {
            None => None,
            Some(at) => match self.rows.get(at) {
                None => None,
                Some(row) => Some(&row.declared),
            },
        }
    }

    /// Adds a declaration, which hides an older one of its name. For want of memory it changes nothing, and
    /// drops the declaration.
    pub fn push(&mut self, declared: Declared) -> Result<(), NoMemory>
        ensures ok { OnOk result (self.new ≡ declared ∷ self.old) }
        ensures err { OnErr result (self.new ≡ self.old) }
    {
        let tag = declared.kind.is_tag();
        self.spaces.make_room(tag, declared.name.as_slice())?;
        let hides = self.spaces.get(tag, declared.name.as_slice());
        let at = self.rows.len();
        self.rows.push(Row { declared, hides })?;
        let name = self.rows[at].declared.name.as_slice();
        self.spaces.set(tag, name, Some(at));
        Ok(())
    }

    /// Takes the newest declaration back, where there is one, so that what it hid is found again. It takes no
    /// memory.
    pub fn pop(&mut self)
        ensures { self.new ≡ drop 1 self.old }
    {
        if let Some(row) = self.rows.pop() {
            let tag = row.declared.kind.is_tag();
            self.spaces
                .set(tag, row.declared.name.as_slice(), row.hides);
        }
    }

    /// Takes all but the oldest declarations back. It takes no memory.
    #[tactic(auto, using(crate::proofs::Blocks::truncations))]
    pub fn truncate(&mut self, len: usize)
        ensures { self.new ≡ outer_at len self.old }
    {
        while self.len() > len {
            self.pop();
        }
    }
}
