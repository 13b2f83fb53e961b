//! Tokens that are read.

ghost use Rattle.std.specs.Prelude.{◌≡◌, ◌<◌, ◌+◌, ◌^◌, true, length, IfOk, IfErr, MatchBool};
ghost use Rattle.cl_grammar.specs.Symbols.{Mark, makes};
ghost use Rattle.cl_grammar.specs.Items.{EndsIn, IsAt, OtherAt, PlaceAt, TextAt, RefusedAt};
ghost use Rattle.cl_grammar.specs.Lexemes.{resolved};

use cl_grammar::{ExprStop, Lexeme, Terminal, TypeNames, seen};
use clv_place::{NoMemory, Place, Text};
use std::alloc::Global;
use std::marker::Model;

/// Tokens with the typedefs before them. A contract sees them as the tokens of the grammar, where a name that a
/// typedef declared is the name of a type. Indices are of tokens, from 0. What reads a part is refused at the first
/// token at which no such part goes on, and else fails for want of memory alone; `Out` has the index of that token.
#[derive(Drop)]
pub struct Reader<'a> {
    pub(crate) lexemes: &'a [Lexeme],
    names: &'a TypeNames,
}

impl<'a> Model for Reader<'a> {
    ghost use Rattle.std.specs.Prelude.{List};
    ghost use Rattle.cl_grammar.specs.declared.lexeme.Lexeme.{Lexeme as Seen};
    ghost use Rattle.cl_grammar.specs.Lexemes.{resolved};

    ghost Value = { List Seen };

    ghost view = { λ r. resolved r.names.now r.lexemes.now };
}

impl<'a> Reader<'a> {
    /// These tokens behind these typedefs.
    pub fn new(lexemes: &'a [Lexeme], names: &'a TypeNames) -> Self
        ensures { result ≡ resolved names.now lexemes.now }
    {
        Reader { lexemes, names }
    }

    /// What the token at an index from 0 is to the grammar.
    pub fn peek(&self, at: usize) -> Terminal
        requires { at < length self.now }
        ensures stands { IsAt self.now at result }
        ensures room { length self.now < 2 ^ 63 }
    {
        let lexemes = self.lexemes;
        seen(&lexemes[at], self.names)
    }

    /// Where the token at an index stands.
    pub fn place(&self, at: usize) -> Place
        requires { at < length self.now }
        ensures { PlaceAt self.now at result }
    {
        let lexemes = self.lexemes;
        lexemes[at].place
    }

    /// The bytes of the word at an index.
    pub fn text(&self, alloc: Global, at: usize) -> Result<Text, NoMemory>
        requires { at < length self.now }
        ensures { IfOk result (TextAt self.now at) }
    {
        let lexemes = self.lexemes;
        Text::from_bytes(alloc, lexemes[at].text.as_slice())
    }

    /// Whether a token of this terminal stands at an index.
    pub fn is_at(&self, at: usize, terminal: Terminal) -> bool
        requires { at < length self.now }
        ensures stands { MatchBool result (IsAt self.now at terminal) (OtherAt self.now at terminal) }
        ensures room { length self.now < 2 ^ 63 }
    {
        self.peek(at) == terminal
    }

    /// The index behind the token at an index, where that is of this terminal.
    pub fn expect(&self, at: usize, terminal: Terminal) -> Result<usize, ExprStop>
        requires within { at < length self.now }
        requires makes { makes terminal ≡ true }
        ensures next { IfOk result (λ next. next ≡ at + 1) }
        ensures ok { IfOk result (λ next. IsAt self.now at terminal) }
        ensures out { IfErr result (RefusedAt (Mark terminal) self.now at) }
    {
        if self.is_at(at, terminal) {
            Ok(at + 1)
        } else {
            Err(ExprStop::Out { at })
        }
    }
}
