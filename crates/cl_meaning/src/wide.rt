//! Types whose integers have 8, 16, 32 or 64 bits, as all of a table do.

ghost use Rattle.std.specs.Prelude.{◌≡◌, true};
ghost use Rattle.cl_builtins.specs.Kinds.{int};
ghost use Rattle.cl_constants.specs.Widths.{has_width};
ghost use Rattle.cl_common.specs.Types.{is_shift, promoted_in, working};
ghost use Rattle.cl_tree.specs.Constants.{count_in, element_shape, gentype_in};
ghost use Rattle.cl_types.specs.Layout.{is_width};

use cl_builtins::Gentype;
use cl_tree::Shape;
use cl_tree::shape::promoted;
use cl_types::BinOp;
use std::marker::Model;

/// A shape. A contract sees it as that.
#[derive(Clone, Copy)]
pub struct WideShape {
    shape: Shape,
}

impl Model for WideShape {
    ghost use Rattle.std.specs.Prelude.{◌≡◌, true};
    ghost use Rattle.cl_tree.specs.declared.shape.Shape.{Shape as AShape};
    ghost use Rattle.cl_constants.specs.Widths.{has_width};

    ghost Value = { AShape };

    ghost view = { λ w. w.shape };

    ghost invariant = { λ w. has_width w.shape ≡ true };

    ghost inverse = { λ s. record { shape = s } };
}

/// An integer scalar or vector type. A contract sees it as that.
#[derive(Clone, Copy)]
pub struct WideType {
    ty: Gentype,
}

impl Model for WideType {
    ghost use Rattle.std.specs.Prelude.{◌≡◌, true};
    ghost use Rattle.cl_builtins.specs.declared.kind.Gentype.{Gentype as AGentype};
    ghost use Rattle.cl_types.specs.Layout.{is_width};

    ghost Value = { AGentype };

    ghost view = { λ w. w.ty };

    ghost invariant = { λ w. is_width w.ty.bits ≡ true };

    ghost inverse = { λ t. record { ty = t } };
}

impl WideShape {
    /// A shape whose integers have such widths.
    pub fn new(shape: Shape) -> WideShape
        requires { has_width shape ≡ true }
        ensures { result ≡ shape }
    {
        WideShape { shape }
    }

    /// The type `int`.
    pub fn int() -> WideShape
        ensures { result ≡ Shape.Integers int }
    {
        WideShape {
            shape: Shape::Integers(Gentype::int()),
        }
    }

    /// The type `bool`.
    pub fn bool() -> WideShape
        ensures { result ≡ Shape.Bool }
    {
        WideShape { shape: Shape::Bool }
    }

    /// The shape.
    pub fn shape(self) -> Shape
        ensures is { result ≡ self }
        ensures width { has_width result ≡ true }
    {
        self.shape
    }

    /// The integer type; what is no integer counts as `uchar`.
    pub fn gentype(self) -> WideType
        ensures { result ≡ gentype_in self }
    {
        match self.shape {
            Shape::Integers(ty) => WideType { ty },
            _ => WideType {
                ty: Gentype {
                    bits: 8,
                    signed: false,
                    count: 1,
                },
            },
        }
    }

    /// A bool or a narrow integer becomes an `int` (C99, 6.3.1.1).
    pub fn promoted(self) -> WideShape
        ensures { result ≡ promoted_in self }
    {
        match self.shape {
            Shape::Bool => WideShape::int(),
            Shape::Integers(ty) => WideShape {
                shape: Shape::Integers(promoted(ty)),
            },
            _ => self,
        }
    }

    /// The shape of the components of a vector; any other shape stays.
    pub fn element(self) -> WideShape
        ensures { result ≡ element_shape self }
    {
        match self.shape {
            Shape::Integers(ty) => WideShape {
                shape: Shape::Integers(ty.element()),
            },
            _ => self,
        }
    }

    /// How many components a value has.
    pub fn count(self) -> u8
        ensures { result ≡ count_in self }
    {
        match self.shape {
            Shape::Integers(ty) => ty.count,
            _ => 1,
        }
    }

    /// The type in which `a op= b` calculates, where this is that of a.
    pub fn working(self, op: BinOp, right: WideShape) -> WideShape
        ensures { result ≡ working op self right }
    {
        if self.shape.is_vector() {
            self
        } else if is_shift(op) {
            self.promoted()
        } else {
            right
        }
    }
}

fn is_shift(op: BinOp) -> bool
    ensures { result ≡ is_shift op }
{
    match op {
        BinOp::Shl | BinOp::Shr => true,
        _ => false,
    }
}

impl WideType {
    /// The type.
    pub fn ty(self) -> Gentype
        ensures is { result ≡ self }
        ensures width { is_width result.bits ≡ true }
    {
        self.ty
    }

    /// The bits of a component.
    pub fn bits(self) -> u8
        ensures is { result ≡ self.bits }
        ensures width { is_width result ≡ true }
    {
        self.ty.bits
    }
}
