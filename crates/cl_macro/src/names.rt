//! The names that are hidden from a token.

ghost use Rattle.std.specs.Prelude.{◌≡◌, ◌++◌, ◌∷◌, List, [], IfOk, length, option_copied, slice_get};
ghost use Rattle.cl_macro.specs.Names.{has, without, joined, with_name, common, index_from};

use clv_place::{List, NoMemory, Text};
use std::alloc::Global;
use std::marker::Model;
use std::rc::Rc;

/// Names in order, which tokens share. A contract sees the list of them, each a list of bytes.
#[derive(Drop)]
pub struct Names {
    shared: Option<Rc<List<Text>>>,
}

impl Model for Names {
    ghost use Rattle.std.specs.Prelude.{ℕ, List};
    ghost use Rattle.std.specs.Prelude.{[]};
    ghost use Rattle.std.specs.Option.{option_map_or};

    ghost Value = { List (List ℕ) };

    ghost view = { λ n. option_map_or (λ rc. rc.value) n.shared [] };
}

/// Whether a name is among others.
pub fn has(name: &[u8], names: &[Text]) -> bool
    ensures { result ≡ has name.now names.now }
{
    for n in names {
        if n.as_slice() == name {
            return true;
        }
    }
    false
}

/// Where a name stands first among others, from 0.
pub fn index_of(name: &[u8], names: &[Text]) -> Option<usize>
    ensures { result ≡ index_from 0 name.now names.now }
{
    let mut at = 0;
    for n in names {
        if n.as_slice() == name {
            return Some(at);
        }
        at += 1;
    }
    None
}

impl Names {
    /// No names. It takes no memory.
    pub fn none() -> Self
        ensures { result ≡ [] }
    {
        Names { shared: None }
    }

    /// The number of names.
    pub fn len(&self) -> usize
        ensures { result ≡ length self.now }
    {
        self.as_slice().len()
    }

    /// The names as a slice.
    pub fn as_slice(&self) -> &[Text]
        ensures { result.now ≡ self.now }
    {
        match &self.shared {
            Some(names) => names.as_ref().as_slice(),
            None => &[],
        }
    }

    /// The same names, shared.
    pub fn share(&self) -> Result<Self, NoMemory>
        ensures { IfOk result (λ n. n ≡ self.now) }
    {
        match &self.shared {
            Some(names) => Ok(Names {
                shared: Some(names.clone()?),
            }),
            None => Ok(Names { shared: None }),
        }
    }
}

/// The same name.
fn copy(alloc: Global, name: &Text) -> Result<Text, NoMemory>
    ensures { IfOk result (λ t. t ≡ name.now) }
{
    Text::from_bytes(alloc, name.as_slice())
}

// The same names.
fn copies(alloc: Global, names: &[Text]) -> Result<List<Text>, NoMemory>
    ensures { IfOk result (λ l. l ≡ names.now) }
{
    let mut all = List::new(alloc);
    for name in names {
        all.push(copy(alloc, name)?)?;
    }
    Ok(all)
}

impl Names {
    /// The names of a list.
    pub fn of(alloc: Global, names: List<Text>) -> Result<Self, NoMemory>
        ensures { IfOk result (λ n. n ≡ names) }
    {
        Ok(Names {
            shared: Some(Rc::new(alloc, names)?),
        })
    }

    /// These names and one more, unless it is among them.
    pub fn with(&self, alloc: Global, name: &[u8]) -> Result<Self, NoMemory>
        ensures { IfOk result (λ n. n ≡ with_name name.now self.now) }
    {
        if has(name, self.as_slice()) {
            return self.share();
        }
        let mut all = copies(alloc, self.as_slice())?;
        all.push(Text::from_bytes(alloc, name)?)?;
        Names::of(alloc, all)
    }

    /// The names that are also among others.
    pub fn common(&self, alloc: Global, others: &Names) -> Result<Self, NoMemory>
        ensures { IfOk result (λ n. n ≡ common self.now others.now) }
    {
        let mut both = List::new(alloc);
        for name in self.as_slice() {
            if has(name.as_slice(), others.as_slice()) {
                both.push(copy(alloc, name)?)?;
            }
        }
        Names::of(alloc, both)
    }

    /// These names and, behind them, those others that are not among them. Where these are none, the others
    /// are shared.
    #[tactic(auto, using(crate::proofs::Joining::joinings))]
    pub fn joined(&self, alloc: Global, others: &Names) -> Result<Self, NoMemory>
        ensures { IfOk result (λ n. n ≡ joined self.now others.now) }
    {
        if self.len() == 0 {
            let shared = others.share()?;
            return Ok(shared);
        }
        let mut all = copies(alloc, self.as_slice())?;
        for name in others.as_slice() {
            if !has(name.as_slice(), self.as_slice()) {
                all.push(copy(alloc, name)?)?;
            }
        }
        Names::of(alloc, all)
    }
}
