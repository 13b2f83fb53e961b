//! What types are, by what operators ask of them.

ghost use Rattle.std.specs.Prelude.{◌≡◌, ◌<◌, length, slice_get};
ghost use Rattle.cl_tree.specs.Shapes.{shape_of, vector_shape, holds_elements, same_space, is_void, is_bool, is_array, is_struct, is_pointer, is_number, is_vector, is_steppable, arithmetic, rank, takes_value, converts, promoted, relation_type};
ghost use Rattle.cl_builtins.specs.Kinds.{integer_in};

use cl_builtins::Gentype;
use cl_types::{ClType, Space, TypeId, TypeTable};

/// What a type is. Integer scalars and vectors are told by their components; other types by the types of which
/// they are built; a struct by its number alone.
#[derive(Clone, Copy, PartialEq, Eq, Debug)]
pub enum Shape {
    Void,
    Bool,
    Integers(Gentype),
    /// `nested` holds where the elements are arrays.
    Array {
        elem: TypeId,
        len: u32,
        nested: bool,
    },
    Struct,
    Pointer {
        space: Space,
        to: TypeId,
        readonly: bool,
        restricted: bool,
    },
}

// Whether a type is that of an array.
fn holds_elements(types: &TypeTable, t: TypeId) -> bool
    requires { t.0 < length types.now }
    ensures { result ≡ holds_elements (slice_get types.now t.0) }
{
    match types.get(t) {
        ClType::Array { .. } => true,
        _ => false,
    }
}

impl Shape {
    // The shape of a vector of so many components.
    fn vector(types: &TypeTable, elem: TypeId, count: u8) -> Shape
        requires { elem.0 < length types.now }
        ensures { result ≡ vector_shape count (integer_in (slice_get types.now elem.0)) }
    {
        match types.get(elem) {
            ClType::Int { bits, signed } => Shape::Integers(Gentype {
                bits: *bits,
                signed: *signed,
                count,
            }),
            _ => Shape::Void,
        }
    }

    /// What a type of a table is.
    pub fn of(types: &TypeTable, t: TypeId) -> Shape
        requires { t.0 < length types.now }
        ensures { result ≡ shape_of types.now t }
    {
        types.is_table();
        match types.get(t) {
            ClType::Void => Shape::Void,
            ClType::Bool => Shape::Bool,
            ClType::Int { bits, signed } => Shape::Integers(Gentype {
                bits: *bits,
                signed: *signed,
                count: 1,
            }),
            ClType::Vector { elem, n } => Shape::vector(types, *elem, *n),
            ClType::Array { elem, len } => Shape::Array {
                elem: *elem,
                len: *len,
                nested: holds_elements(types, *elem),
            },
            ClType::Struct { .. } => Shape::Struct,
            ClType::Pointer {
                space,
                to,
                readonly,
                restricted,
            } => Shape::Pointer {
                space: *space,
                to: *to,
                readonly: *readonly,
                restricted: *restricted,
            },
        }
    }
}

impl Shape {
    /// Whether it is `void`.
    pub fn is_void(self) -> bool
        ensures { result ≡ is_void self }
    {
        match self {
            Shape::Void => true,
            _ => false,
        }
    }

    /// Whether it is `bool`.
    pub fn is_bool(self) -> bool
        ensures { result ≡ is_bool self }
    {
        match self {
            Shape::Bool => true,
            _ => false,
        }
    }

    /// Whether it is an array.
    pub fn is_array(self) -> bool
        ensures { result ≡ is_array self }
    {
        match self {
            Shape::Array { .. } => true,
            _ => false,
        }
    }

    /// Whether it is a struct.
    pub fn is_struct(self) -> bool
        ensures { result ≡ is_struct self }
    {
        match self {
            Shape::Struct => true,
            _ => false,
        }
    }

    /// Whether it is a pointer.
    pub fn is_pointer(self) -> bool
        ensures { result ≡ is_pointer self }
    {
        match self {
            Shape::Pointer { .. } => true,
            _ => false,
        }
    }

    /// Whether it is an integer scalar or `bool`.
    pub fn is_number(self) -> bool
        ensures { result ≡ is_number self }
    {
        match self {
            Shape::Bool => true,
            Shape::Integers(t) => t.count == 1,
            _ => false,
        }
    }

    /// Whether it is a vector.
    pub fn is_vector(self) -> bool
        ensures { result ≡ is_vector self }
    {
        match self {
            Shape::Integers(t) => t.count != 1,
            _ => false,
        }
    }

    /// Whether `++` and `--` take it: a number, a vector or a pointer.
    pub fn is_steppable(self) -> bool
        ensures { result ≡ is_steppable self }
    {
        match self {
            Shape::Bool => true,
            Shape::Integers(_) => true,
            Shape::Pointer { .. } => true,
            _ => false,
        }
    }

    /// The integer type that a value of arithmetic stands for: of a bool `int` (C99, 6.3.1.1).
    pub fn arithmetic(self) -> Option<Gentype>
        ensures { result ≡ arithmetic self }
    {
        match self {
            Shape::Bool => Some(Gentype::int()),
            Shape::Integers(t) => Some(t),
            _ => None,
        }
    }

    /// The bits that a scalar brings beside a vector; 0 of a bool (OpenCL C 1.2, 6.2.6).
    pub fn rank(self) -> u8
        ensures { result ≡ rank self }
    {
        match self {
            Shape::Integers(t) => t.bits,
            _ => 0,
        }
    }

    /// Whether a value may have it: anything but `void` and an array.
    pub fn takes_value(self) -> bool
        ensures { result ≡ takes_value self }
    {
        match self {
            Shape::Void => false,
            Shape::Array { .. } => false,
            _ => true,
        }
    }

    /// Whether a value of this shape and type converts by itself to a type that is wanted (OpenCL C 1.2, 6.2.1).
    pub fn converts(self, own: TypeId, to: Shape, wanted: TypeId) -> bool
        ensures { result ≡ converts self own to wanted }
    {
        let number = self.is_number() && (to.is_number() || to.is_vector());
        number || (self.takes_value() && own.0 == wanted.0)
    }
}

/// The integer promotions (C99, 6.3.1.1): a scalar with fewer bits than `int` is one. A vector stays.
pub fn promoted(t: Gentype) -> Gentype
    ensures { result ≡ promoted t }
{
    if t.count == 1 && t.bits < 32 {
        Gentype::int()
    } else {
        t
    }
}

/// The type of a relation between values of a type: `int`, or signed components of the same width (OpenCL C 1.2,
/// 6.3.d).
pub fn relation_type(t: Gentype) -> Gentype
    ensures { result ≡ relation_type t }
{
    if t.count == 1 {
        Gentype::int()
    } else {
        Gentype { signed: true, ..t }
    }
}

/// Whether two address spaces are one.
pub fn same_space(a: Space, b: Space) -> bool
    ensures { result ≡ same_space a b }
{
    match (a, b) {
        (Space::Global, Space::Global) => true,
        (Space::Constant, Space::Constant) => true,
        (Space::Local, Space::Local) => true,
        (Space::Private, Space::Private) => true,
        _ => false,
    }
}
