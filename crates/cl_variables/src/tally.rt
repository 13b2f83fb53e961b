//! What goes wrong with the values of a list.

ghost use Rattle.std.specs.Prelude.{◌≡◌};
ghost use Rattle.cl_rules.specs.Operands.{first_broken};
ghost use Rattle.cl_variables.specs.Initialisers.{clean, only, with, tally_at, is_right, list_tests, takes_whole_at, has_parts};

use cl_rules::{Operand, Target, first_broken, no_pointer, no_value};
use cl_tree::Shape;

/// What goes wrong with values: whether one has no value of the type that is wanted (311), whether one is a pointer
/// that doesn't convert to it (333), and whether one that must be constant isn't (325).
#[derive(Clone, Copy, PartialEq, Eq, Debug)]
pub struct Tally {
    pub no_value: bool,
    pub no_pointer: bool,
    pub varies: bool,
}

impl Tally {
    /// Nothing goes wrong.
    pub(crate) fn clean() -> Tally
        ensures { result ≡ clean }
    {
        Tally::only(false)
    }

    /// Nothing but that a value may not be constant.
    pub(crate) fn only(varies: bool) -> Tally
        ensures { result ≡ only varies }
    {
        Tally {
            no_value: false,
            no_pointer: false,
            varies,
        }
    }

    /// What goes wrong with a value of which a type is wanted.
    pub(crate) fn of(o: Operand, t: Target, varies: bool) -> Tally
        ensures { result ≡ tally_at o t varies }
    {
        Tally {
            no_value: no_value(o, t),
            no_pointer: no_pointer(o, t),
            varies,
        }
    }

    /// What goes wrong with these values or with others.
    pub(crate) fn with(self, other: Tally) -> Tally
        ensures { result ≡ with self other }
    {
        Tally {
            no_value: self.no_value || other.no_value,
            no_pointer: self.no_pointer || other.no_pointer,
            varies: self.varies || other.varies,
        }
    }

    /// Whether each value converts to the type that is wanted.
    pub(crate) fn is_right(self) -> bool
        ensures { result ≡ is_right self }
    {
        !(self.no_value || self.no_pointer)
    }

    /// The least code of a rule that a list of these values breaks: 311, 333, or 324 where it has more items than
    /// there is to fill.
    pub(crate) fn list_broken(self, surplus: bool) -> Option<u16>
        ensures { result ≡ first_broken (list_tests self surplus) }
    {
        first_broken(&[(311, self.no_value), (324, surplus), (333, self.no_pointer)])
    }
}

/// Whether a value stands for a whole part (C99, 6.7.8), which an array, and a struct of another type, isn't filled by.
pub(crate) fn takes_whole(t: Target, o: Operand) -> bool
    ensures { result ≡ takes_whole_at t o }
{
    !t.shape.is_array() && (!t.shape.is_struct() || t.ty.0 == o.facts.ty.0)
}

/// Whether a type has parts that items fill one by one.
pub(crate) fn has_parts(s: Shape) -> bool
    ensures { result ≡ has_parts s }
{
    s.is_array() || s.is_struct()
}
