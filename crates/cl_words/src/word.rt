//! The words of types.

ghost use Rattle.std.specs.Prelude.{◌≡◌};
ghost use Rattle.cl_types.specs.Layout.{is_width, is_count};
ghost use Rattle.cl_words.specs.Words.{integers, word_shape, is_sized, is_const, has_const, is_restrict, has_restrict, restrict_behind, with_space, with_qual, qualify, plain, unless_private, named_type};

use cl_ast::expression::{Base, Qual};
use cl_builtins::Gentype;
use cl_rules::{Qualified, Target};
use cl_tree::{Shape, same_space};
use cl_types::Space;
use clv_place::List;

fn is_width(bits: u8) -> bool
    ensures { result ≡ is_width bits }
{
    bits == 8 || bits == 16 || bits == 32 || bits == 64
}

fn is_count(count: u8) -> bool
    ensures { result ≡ is_count count }
{
    count == 2 || count == 3 || count == 4 || count == 8 || count == 16
}

fn integers(bits: u8, signed: bool, count: u8) -> Shape
    ensures { result ≡ integers bits signed count }
{
    if is_width(bits) && (count == 1 || is_count(count)) {
        Shape::Integers(Gentype {
            bits,
            signed,
            count,
        })
    } else {
        Shape::Integers(Gentype::int())
    }
}

/// The type that a word names by itself; none of a name and of a struct.
pub fn word_shape(base: &Base) -> Option<Shape>
    ensures { result ≡ word_shape base.now }
{
    match base {
        Base::Void => Some(Shape::Void),
        Base::Bool => Some(Shape::Bool),
        Base::Int { bits, signed } => Some(integers(*bits, *signed, 1)),
        Base::Vector { bits, signed, n } => Some(integers(*bits, *signed, *n)),
        Base::Sized { signed } => Some(integers(32, *signed, 1)),
        _ => None,
    }
}

/// Whether it is `size_t` or one of its like.
pub fn is_sized(base: &Base) -> bool
    ensures { result ≡ is_sized base.now }
{
    match base {
        Base::Sized { .. } => true,
        _ => false,
    }
}

// ---- qualifiers (C99, 6.7.3)

fn is_const(qual: Qual) -> bool
    ensures { result ≡ is_const qual }
{
    match qual {
        Qual::Const => true,
        _ => false,
    }
}

/// Whether `const` is among them.
pub fn has_const(quals: &[Qual]) -> bool
    ensures { result ≡ has_const quals.now }
{
    for qual in quals {
        if is_const(*qual) {
            return true;
        }
    }
    false
}

fn is_restrict(qual: Qual) -> bool
    ensures { result ≡ is_restrict qual }
{
    match qual {
        Qual::Restrict => true,
        _ => false,
    }
}

/// Whether `restrict` is among them.
pub fn has_restrict(quals: &[Qual]) -> bool
    ensures { result ≡ has_restrict quals.now }
{
    for qual in quals {
        if is_restrict(*qual) {
            return true;
        }
    }
    false
}

/// Of a `*` whether it is `restrict`.
pub fn restrict_behind(star: &Option<List<Qual>>) -> Option<bool>
    ensures { result ≡ restrict_behind star.now }
{
    match star {
        Some(quals) => Some(has_restrict(quals.as_slice())),
        None => None,
    }
}

fn with_space(space: Space, q: Qualified) -> Qualified
    ensures { result ≡ with_space space q }
{
    match q.space {
        Some(own) => Qualified {
            clash: q.clash || !same_space(space, own),
            ..q
        },
        None => Qualified {
            space: Some(space),
            ..q
        },
    }
}

fn with_qual(qual: Qual, q: Qualified) -> Qualified
    ensures { result ≡ with_qual qual q }
{
    match qual {
        Qual::Const => Qualified {
            readonly: true,
            ..q
        },
        Qual::Volatile => q,
        Qual::Restrict => q,
        Qual::Space(space) => with_space(space, q),
    }
}

/// What qualifiers say of a type, besides what it says by itself.
pub fn qualify(quals: &[Qual], q: Qualified) -> Qualified
    ensures { result ≡ qualify quals.now q }
{
    let mut all = q;
    for qual in quals {
        all = with_qual(*qual, all);
    }
    all
}

/// A type without qualifiers.
pub fn plain(t: Target, sized: bool) -> Qualified
    ensures { result ≡ plain t sized }
{
    Qualified {
        ty: t.ty,
        shape: t.shape,
        readonly: false,
        space: None,
        clash: false,
        sized,
    }
}

fn unless_private(space: Space) -> Option<Space>
    ensures { result ≡ unless_private space }
{
    match space {
        Space::Private => None,
        _ => Some(space),
    }
}

/// What a typedef's name says; its address space is private where it names none.
pub fn named_type(t: Target, readonly: bool, space: Space) -> Qualified
    ensures { result ≡ named_type t readonly space }
{
    Qualified {
        ty: t.ty,
        shape: t.shape,
        readonly,
        space: unless_private(space),
        clash: false,
        sized: false,
    }
}
