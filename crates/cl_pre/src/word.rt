//! The names of directives.

ghost use Rattle.std.specs.Prelude.{◌≡◌};
ghost use Rattle.cl_pre.specs.Words.{word_of, word_of_name, is_defined_word};

use cl_lexer::TokenKind;

/// A directive's name.
#[derive(Clone, Copy, PartialEq, Eq, Debug)]
pub enum Word {
    If,
    Ifdef,
    Ifndef,
    Elif,
    Else,
    Endif,
    Define,
    Undef,
    Error,
    Pragma,
    /// No name, or that of no directive.
    Unknown,
}

impl Word {
    /// The directive of a name (C99 6.10).
    pub fn of_name(name: &[u8]) -> Self
        ensures { result ≡ word_of_name name.now }
    {
        if name == b"if".as_slice() {
            Word::If
        } else if name == b"ifdef".as_slice() {
            Word::Ifdef
        } else if name == b"ifndef".as_slice() {
            Word::Ifndef
        } else if name == b"elif".as_slice() {
            Word::Elif
        } else if name == b"else".as_slice() {
            Word::Else
        } else if name == b"endif".as_slice() {
            Word::Endif
        } else if name == b"define".as_slice() {
            Word::Define
        } else if name == b"undef".as_slice() {
            Word::Undef
        } else if name == b"error".as_slice() {
            Word::Error
        } else if name == b"pragma".as_slice() {
            Word::Pragma
        } else {
            Word::Unknown
        }
    }

    /// The directive that a token behind `#` names.
    pub fn of(kind: &TokenKind) -> Self
        ensures { result ≡ word_of kind.now }
    {
        match kind {
            TokenKind::Name(name) => Word::of_name(name.as_slice()),
            _ => Word::Unknown,
        }
    }
}

/// Whether a name is `defined`, which can name no macro (C99 6.10.8).
pub fn is_defined_word(name: &[u8]) -> bool
    ensures { result ≡ is_defined_word name.now }
{
    name == b"defined".as_slice()
}
