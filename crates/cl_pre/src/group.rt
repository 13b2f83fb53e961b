//! The groups of conditional directives that are open.

ghost use Rattle.std.specs.Prelude.{◌≡◌, true};
ghost use Rattle.cl_pre.specs.Groups.{opened, nested, behind_else, passed, is_read, top_of};

use cl_macro::stack::Stack;

/// An `#if` that is not ended yet.
#[derive(Clone, Copy, PartialEq, Eq, Debug)]
pub struct Group {
    /// Whether the group round it is read.
    pub outer: bool,
    /// Whether one of its groups so far was read.
    pub taken: bool,
    /// Whether its present group is read.
    pub reading: bool,
    /// Whether its `#else` has come.
    pub after_else: bool,
}

impl Group {
    /// One that begins in a group that is read, by whether its condition holds.
    pub fn opened(holds: bool) -> Self
        ensures { result ≡ opened holds }
    {
        Group {
            outer: true,
            taken: holds,
            reading: holds,
            after_else: false,
        }
    }

    /// One that begins in a group that is skipped.
    pub fn nested() -> Self
        ensures { result ≡ nested }
    {
        Group {
            outer: false,
            taken: true,
            reading: false,
            after_else: false,
        }
    }

    /// The same behind its `#else`.
    pub fn behind_else(self) -> Self
        ensures { result ≡ behind_else self }
    {
        Group {
            outer: self.outer,
            taken: true,
            reading: self.outer && !self.taken,
            after_else: true,
        }
    }

    /// The same behind an `#elif` that is passed over, since a group was taken.
    pub fn passed(self) -> Self
        ensures { result ≡ passed self }
    {
        Group {
            outer: self.outer,
            taken: self.taken,
            reading: false,
            after_else: self.after_else,
        }
    }
}

/// Whether the text is read, and not skipped, within an innermost group.
pub fn is_read(top: Option<Group>) -> bool
    ensures { result ≡ is_read top }
{
    match top {
        Some(group) => group.reading,
        None => true,
    }
}

/// The innermost of open groups.
pub fn top_of(groups: &Stack<Group>) -> Option<Group>
    ensures { result ≡ top_of groups.now }
{
    groups.peek().copied()
}
