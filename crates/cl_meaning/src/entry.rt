//! What was evaluated (C99, 6.5).

ghost use Rattle.std.specs.Prelude.{◌≡◌, ◌∷◌, [], IfOk, map, slice_index};
ghost use Rattle.cl_meaning.specs.Operations.{scalars_in};
ghost use Rattle.cl_meaning.specs.Values.{Pattern, Points, Value, pattern_in, patterns, patterns_in};

use crate::pointer::Pointer;
use clv_place::{List, NoMemory};
use std::alloc::Global;

/// A number by its pattern, or a pointer.
#[derive(Drop)]
pub enum Scalar {
    Pattern(u64),
    Points(Pointer),
}

/// What was evaluated: a value by its scalars in order, of which one of type void has none; the missing value of a
/// function that fell off its end; or a place, with the components that are selected of a vector there.
#[derive(Drop)]
pub enum Entry {
    Value(List<Scalar>),
    Missing,
    Place(Pointer, Option<List<u8>>),
}

impl Scalar {
    /// A copy of the scalar.
    pub fn copied(&self, alloc: Global) -> Result<Scalar, NoMemory>
        ensures { IfOk result (λ copy. copy ≡ self.now) }
    {
        match self {
            Scalar::Pattern(n) => Ok(Scalar::Pattern(*n)),
            Scalar::Points(p) => Ok(Scalar::Points(p.copied(alloc)?)),
        }
    }

    /// The pattern; 0 of a pointer.
    pub fn pattern(&self) -> u64
        ensures { result ≡ pattern_in self.now }
    {
        match self {
            Scalar::Pattern(n) => *n,
            Scalar::Points(_) => 0,
        }
    }
}

/// A copy of scalars.
pub fn copied_scalars(alloc: Global, scalars: &[Scalar]) -> Result<List<Scalar>, NoMemory>
    ensures { IfOk result (λ copy. copy ≡ scalars.now) }
{
    let mut copies = Vec::new(alloc);
    for scalar in scalars {
        copies.push(scalar.copied(alloc)?)?;
    }
    Ok(List::from_vec(copies))
}

/// A copy of selected components.
pub fn copied_components(alloc: Global, at: &List<u8>) -> Result<List<u8>, NoMemory>
    ensures { IfOk result (λ copy. copy ≡ at.now) }
{
    Ok(List::from_vec(at.as_slice().to_vec(alloc)?))
}

impl Entry {
    /// A copy of the entry.
    pub fn copied(&self, alloc: Global) -> Result<Entry, NoMemory>
        ensures { IfOk result (λ copy. copy ≡ self.now) }
    {
        match self {
            Entry::Value(v) => Ok(Entry::Value(copied_scalars(alloc, v.as_slice())?)),
            Entry::Missing => Ok(Entry::Missing),
            Entry::Place(p, None) => Ok(Entry::Place(p.copied(alloc)?, None)),
            Entry::Place(p, Some(at)) => Ok(Entry::Place(
                p.copied(alloc)?,
                Some(copied_components(alloc, at)?),
            )),
        }
    }

    /// A value without scalars.
    pub fn void(alloc: Global) -> Entry
        ensures { result ≡ Value [] }
    {
        Entry::Value(List::new(alloc))
    }

    /// The value that is a number.
    pub fn number(alloc: Global, n: u64) -> Result<Entry, NoMemory>
        ensures { IfOk result (λ e. e ≡ Value (Pattern n ∷ [])) }
    {
        let mut v = List::new(alloc);
        v.push(Scalar::Pattern(n))?;
        Ok(Entry::Value(v))
    }

    /// The value that is a pointer.
    pub fn pointer(alloc: Global, p: Pointer) -> Result<Entry, NoMemory>
        ensures { IfOk result (λ e. e ≡ Value (Points p ∷ [])) }
    {
        let mut v = List::new(alloc);
        v.push(Scalar::Points(p))?;
        Ok(Entry::Value(v))
    }

    /// The value's scalars; none of what is no value.
    pub fn scalars(&self) -> &[Scalar]
        ensures { result.now ≡ scalars_in self.now }
    {
        match self {
            Entry::Value(v) => v.as_slice(),
            _ => &[],
        }
    }
}

/// The patterns of scalars.
pub fn patterns_in(alloc: Global, scalars: &[Scalar]) -> Result<List<u64>, NoMemory>
    ensures { IfOk result (λ ns. ns ≡ patterns_in scalars.now) }
{
    let mut ns = Vec::new(alloc);
    for scalar in scalars {
        ns.push(scalar.pattern())?;
    }
    Ok(List::from_vec(ns))
}

/// The value that has these patterns.
pub fn value_of(alloc: Global, ns: &[u64]) -> Result<Entry, NoMemory>
    ensures { IfOk result (λ e. e ≡ Value (patterns ns.now)) }
{
    let mut v = Vec::new(alloc);
    for n in ns {
        v.push(Scalar::Pattern(*n))?;
    }
    Ok(Entry::Value(List::from_vec(v)))
}

/// The patterns of the values of entries.
pub fn patterns_of_all(alloc: Global, entries: &[Entry]) -> Result<Vec<List<u64>>, NoMemory>
    ensures { IfOk result (λ nss. nss.items ≡ map patterns_in (map scalars_in entries.now)) }
{
    let mut nss = Vec::new(alloc);
    for entry in entries {
        nss.push(patterns_in(alloc, entry.scalars())?)?;
    }
    Ok(nss)
}

/// The pattern of scalar k; 0 where there is none.
pub fn pattern_at(scalars: &[Scalar], k: usize) -> u64
    ensures { result ≡ slice_index (patterns_in scalars.now) k }
{
    if k < scalars.len() {
        scalars[k].pattern()
    } else {
        0
    }
}
