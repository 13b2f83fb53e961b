//! Declared names.

ghost use Rattle.std.specs.Prelude.{◌≡◌};
ghost use Rattle.cl_rules.specs.Operands.{first_broken};
ghost use Rattle.cl_tree.specs.Shapes.{is_void, is_bool, is_pointer};
ghost use Rattle.cl_words.specs.Words.{length_from, sketch, is_long, is_wrong, some_wrong, is_open, has_lengths, is_no_element, no_declared_type, is_declared_array, is_declared, has_member, member_tests_at};

use crate::word::{has_const, has_restrict};
use cl_ast::expression::Qual;
use cl_rules::{Qualified, Want, first_broken, is_no_pointee, pointer_to};
use cl_tree::Shape;
use cl_types::{Member, Space};
use clv_place::List;

/// A length of an array: a positive constant; none, where one may be missing; or a wrong one, that is another
/// expression or one that is missing.
#[derive(Clone, Copy, PartialEq, Eq, Debug)]
pub enum Length {
    Long(u64),
    Open,
    Wrong,
}

/// What a declared name is: the type before `[`, with what it is, whether it is none that a declaration may have,
/// the lengths behind it, the address space of what is declared, and whether that is const.
#[derive(Drop)]
pub struct Sketch {
    pub of: Want,
    pub shape: Shape,
    pub no_type: bool,
    pub lengths: List<Length>,
    pub space: Option<Space>,
    pub clash: bool,
    pub readonly: bool,
}

/// A length that is written: none where it is no positive constant.
pub fn length_from(number: Option<u64>) -> Length
    ensures { result ≡ length_from number }
{
    match number {
        Some(n) => Length::Long(n),
        None => Length::Wrong,
    }
}

impl Length {
    /// Whether it is wrong (304).
    pub fn is_wrong(self) -> bool
        ensures { result ≡ is_wrong self }
    {
        match self {
            Length::Wrong => true,
            _ => false,
        }
    }

    /// Whether it is written, and right.
    pub fn is_long(self) -> bool
        ensures { result ≡ is_long self }
    {
        match self {
            Length::Long(_) => true,
            _ => false,
        }
    }
}

/// Whether a length is wrong (304).
pub fn some_wrong(lengths: &[Length]) -> bool
    ensures { result ≡ some_wrong lengths.now }
{
    for length in lengths {
        if length.is_wrong() {
            return true;
        }
    }
    false
}

/// Whether the first length is missing.
pub fn is_open(lengths: &[Length]) -> bool
    ensures { result ≡ is_open lengths.now }
{
    match lengths {
        [Length::Open, ..] => true,
        _ => false,
    }
}

fn has_lengths(lengths: &[Length]) -> bool
    ensures { result ≡ has_lengths lengths.now }
{
    match lengths {
        [] => false,
        [_, ..] => true,
    }
}

// Whether no array has elements of this type (303).
fn is_no_element(s: Shape) -> bool
    ensures { result ≡ is_no_element s }
{
    s.is_void() || s.is_bool() || s.is_pointer()
}

impl Sketch {
    /// A declared name behind a type, with the words behind its `*` if it is a pointer, and its lengths (C99, 6.7.5).
    pub fn new(q: Qualified, star: &Option<List<Qual>>, lengths: List<Length>) -> Sketch
        ensures { result ≡ sketch q star.now lengths }
    {
        match star {
            Some(quals) => {
                let shape = pointer_to(q, has_restrict(quals.as_slice()));
                Sketch {
                    of: Want::Of(shape),
                    shape,
                    no_type: is_no_pointee(q.shape),
                    lengths,
                    space: None,
                    clash: q.clash,
                    readonly: has_const(quals.as_slice()),
                }
            }
            None => Sketch {
                of: Want::Type(q.ty),
                shape: q.shape,
                no_type: false,
                lengths,
                space: q.space,
                clash: q.clash,
                readonly: q.readonly,
            },
        }
    }

    /// Whether no declaration may have its type (303).
    pub fn has_no_type(&self) -> bool
        ensures { result ≡ no_declared_type self.now }
    {
        self.no_type || (has_lengths(self.lengths.as_slice()) && is_no_element(self.shape))
    }

    /// Whether an array is declared.
    pub fn is_array(&self) -> bool
        ensures { result ≡ is_declared_array self.now }
    {
        has_lengths(self.lengths.as_slice()) || self.shape.is_array()
    }

    /// Whether `void` is declared.
    pub fn is_void(&self) -> bool
        ensures { result ≡ is_declared is_void self.now }
    {
        !has_lengths(self.lengths.as_slice()) && self.shape.is_void()
    }

    /// Whether `bool` is declared.
    pub fn is_bool(&self) -> bool
        ensures { result ≡ is_declared is_bool self.now }
    {
        !has_lengths(self.lengths.as_slice()) && self.shape.is_bool()
    }

    /// Whether a pointer is declared.
    pub fn is_pointer(&self) -> bool
        ensures { result ≡ is_declared is_pointer self.now }
    {
        !has_lengths(self.lengths.as_slice()) && self.shape.is_pointer()
    }

    /// Whether `void`, `bool` or a pointer is declared, which no member and no element is.
    pub fn is_no_element(&self) -> bool
        ensures { result ≡ is_declared is_no_element self.now }
    {
        !has_lengths(self.lengths.as_slice()) && is_no_element(self.shape)
    }

    /// The least code of a rule that a member breaks (C99, 6.7.2.1): 302 to 304, 326, 501, 502. `repeated` holds where
    /// another has its name, `large` and `deep` where its type is too large or too deep.
    pub fn member_broken(&self, repeated: bool, large: bool, deep: bool) -> Option<u16>
        ensures { result ≡ first_broken (member_tests_at self.now repeated large deep) }
    {
        first_broken(&[
            (302, repeated),
            (303, self.has_no_type() || self.is_no_element()),
            (304, some_wrong(self.lengths.as_slice())),
            (326, self.clash || self.space.is_some()),
            (501, large),
            (502, deep),
        ])
    }
}

/// Whether a member has this name.
pub fn has_member(name: &[u8], members: &[Member]) -> bool
    ensures { result ≡ has_member name.now members.now }
{
    for i in 0..members.len() {
        if name == members[i].name.as_slice() {
            return true;
        }
    }
    false
}
