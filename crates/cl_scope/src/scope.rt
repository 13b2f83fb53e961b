//! Declarations that enclose a place of the text.

ghost use Rattle.std.specs.Prelude.{◌≡◌, IfOk};
ghost use Rattle.cl_scope.specs.Names.{is_tag};

use cl_types::{Space, TypeId};
use clv_place::{List, NoMemory, Text};
use std::alloc::Global;

/// What a declaration declares: a parameter, a variable of a function or a constant of the unit, by its number;
/// the name of a type; or the tag of a struct.
#[derive(Clone, Copy, PartialEq, Eq, Debug)]
pub enum DeclaredKind {
    Param(u32),
    Var(u32),
    Constant(u32),
    Typedef,
    Tag,
}

/// A declaration. `space` of a typedef is private where it names none. An array whose length isn't known yet and
/// a struct whose members aren't yet are incomplete (C99, 6.2.5).
#[derive(Drop)]
pub struct Declared {
    pub name: Text,
    pub ty: TypeId,
    pub space: Space,
    pub readonly: bool,
    pub kind: DeclaredKind,
    pub complete: bool,
}

/// A function that is declared: its number among the functions that have a body in the unit, whether it is one of
/// them, and its type.
#[derive(Drop)]
pub struct Signature {
    pub number: u32,
    pub name: Text,
    pub params: List<TypeId>,
    pub result: TypeId,
    pub kernel: bool,
    pub body: bool,
}

/// The blocks round a place with their declarations, the outermost block first, and the functions that were
/// declared so far. Each list is in the order of the text.
#[derive(Drop)]
pub struct Scope {
    pub blocks: List<List<Declared>>,
    pub functions: List<Signature>,
}

impl DeclaredKind {
    /// Whether it is the tag of a struct, which has a name space of its own (C99, 6.2.3).
    pub fn is_tag(self) -> bool
        ensures { result ≡ is_tag self }
    {
        matches!(self, DeclaredKind::Tag)
    }
}

impl Declared {
    /// The same declaration once more.
    pub fn copy(&self, alloc: Global) -> Result<Declared, NoMemory>
        ensures { IfOk result (λ d. d ≡ self.now) }
    {
        Ok(Declared {
            name: Text::from_bytes(alloc, self.name.as_slice())?,
            ty: self.ty,
            space: self.space,
            readonly: self.readonly,
            kind: self.kind,
            complete: self.complete,
        })
    }
}

// The same types once more.
fn copies(alloc: Global, types: &[TypeId]) -> Result<List<TypeId>, NoMemory>
    ensures { IfOk result (λ copies. copies ≡ types.now) }
{
    let mut copies = List::new(alloc);
    for ty in types {
        copies.push(*ty)?;
    }
    Ok(copies)
}

impl Signature {
    /// The same function once more.
    pub fn copy(&self, alloc: Global) -> Result<Signature, NoMemory>
        ensures { IfOk result (λ s. s ≡ self.now) }
    {
        Ok(Signature {
            number: self.number,
            name: Text::from_bytes(alloc, self.name.as_slice())?,
            params: copies(alloc, self.params.as_slice())?,
            result: self.result,
            kernel: self.kernel,
            body: self.body,
        })
    }
}
