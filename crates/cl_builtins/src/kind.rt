//! Types, as the built-in functions tell them apart.

ghost use Rattle.std.specs.Prelude.{◌≡◌, ◌<◌, length, slice_get};
ghost use Rattle.cl_builtins.specs.Kinds.{int, uint, alike, is_same, element_of, unsigned_of, promoted, usual, integer_in, kind_of};

use cl_types::{ClType, Space, TypeId, TypeTable};

/// An integer scalar or vector type (OpenCL C 1.2, 6.1.1 and 6.1.2): the bits of a component, whether it is
/// signed, and how many there are, which is 1 of a scalar.
#[derive(Clone, Copy, PartialEq, Eq, Debug)]
pub struct Gentype {
    pub bits: u8,
    pub signed: bool,
    pub count: u8,
}

/// A type, as the built-in functions tell types apart.
#[derive(Clone, Copy, PartialEq, Eq, Debug)]
pub enum Kind {
    Void,
    Bool,
    Integers(Gentype),
    /// A pointer to integer scalars: the pointer type itself, and where it leads.
    Pointer {
        own: TypeId,
        space: Space,
        readonly: bool,
        to: Gentype,
    },
    /// Any other type.
    Other(TypeId),
}

fn alike(a: bool, b: bool) -> bool
    ensures { result ≡ alike a b }
{
    if a { b } else { !b }
}

impl Gentype {
    /// The type `int`.
    pub fn int() -> Gentype
        ensures { result ≡ int }
    {
        Gentype {
            bits: 32,
            signed: true,
            count: 1,
        }
    }

    /// The type `uint`.
    pub fn uint() -> Gentype
        ensures { result ≡ uint }
    {
        Gentype {
            bits: 32,
            signed: false,
            count: 1,
        }
    }

    /// Whether two types are one.
    pub fn is_same(self, other: Gentype) -> bool
        ensures { result ≡ is_same self other }
    {
        self.bits == other.bits && alike(self.signed, other.signed) && self.count == other.count
    }

    /// The scalar type of the components.
    pub fn element(self) -> Gentype
        ensures { result ≡ element_of self }
    {
        Gentype { count: 1, ..self }
    }

    /// The unsigned form of the type.
    pub fn unsigned(self) -> Gentype
        ensures { result ≡ unsigned_of self }
    {
        Gentype {
            signed: false,
            ..self
        }
    }

    /// What a scalar is promoted to (C99, 6.3.1.1).
    pub fn promoted(self) -> Gentype
        ensures { result ≡ promoted self }
    {
        if self.bits < 32 { Gentype::int() } else { self }
    }

    /// The type to which the usual arithmetic conversions bring two scalars (C99, 6.3.1.8).
    pub fn usual(self, other: Gentype) -> Gentype
        ensures { result ≡ usual self other }
    {
        let left = self.promoted();
        let right = other.promoted();
        if left.bits < right.bits {
            right
        } else if right.bits < left.bits {
            left
        } else if left.signed {
            right
        } else {
            left
        }
    }
}

// An integer scalar type.
fn integer(types: &TypeTable, t: TypeId) -> Option<Gentype>
    requires { t.0 < length types.now }
    ensures { result ≡ integer_in (slice_get types.now t.0) }
{
    match types.get(t) {
        ClType::Int { bits, signed } => Some(Gentype {
            bits: *bits,
            signed: *signed,
            count: 1,
        }),
        _ => None,
    }
}

impl Kind {
    /// What a type of a table is.
    pub fn of(types: &TypeTable, t: TypeId) -> Kind
        requires { t.0 < length types.now }
        ensures { result ≡ kind_of types.now t }
    {
        types.is_table();
        match types.get(t) {
            ClType::Void => Kind::Void,
            ClType::Bool => Kind::Bool,
            ClType::Int { bits, signed } => Kind::Integers(Gentype {
                bits: *bits,
                signed: *signed,
                count: 1,
            }),
            ClType::Vector { elem, n } => match integer(types, *elem) {
                Some(element) => Kind::Integers(Gentype {
                    count: *n,
                    ..element
                }),
                None => Kind::Other(t),
            },
            ClType::Pointer {
                space,
                to,
                readonly,
                ..
            } => match integer(types, *to) {
                Some(to) => Kind::Pointer {
                    own: t,
                    space: *space,
                    readonly: *readonly,
                    to,
                },
                None => Kind::Other(t),
            },
            _ => Kind::Other(t),
        }
    }
}
