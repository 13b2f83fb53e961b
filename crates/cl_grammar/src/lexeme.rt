//! Tokens as the grammar sees them.

ghost use Rattle.std.specs.Prelude.{◌≡◌, IfOk};
ghost use Rattle.cl_grammar.specs.Lexemes.{lexeme_of, lexemes_of, resolve, terminal_of, text_of};

use crate::mark::terminal_of_mark;
use crate::names::TypeNames;
use crate::terminal::Terminal;
use crate::word::terminal_of_word;
use cl_lexer::{Token, TokenKind};
use clv_place::{List, NoMemory, Place, Text};
use std::alloc::Global;

/// A token: what it is to the grammar before any typedef, the bytes of a word (none for another token), and
/// where it stands.
#[derive(Drop)]
pub struct Lexeme {
    pub terminal: Terminal,
    pub text: Text,
    pub place: Place,
}

impl Lexeme {
    fn from_token(alloc: Global, token: &Token) -> Result<Self, NoMemory>
        ensures { IfOk result (λ l. l ≡ lexeme_of token.now) }
    {
        Ok(Lexeme {
            terminal: terminal_of(&token.kind),
            text: text_of(alloc, &token.kind)?,
            place: token.place,
        })
    }
}

/// All tokens of a text as the grammar sees them, and the end of the text behind them, at its place. It can
/// fail only for want of memory.
pub fn lexemes(alloc: Global, tokens: &[Token], end: Place) -> Result<List<Lexeme>, NoMemory>
    ensures { IfOk result (λ ls. ls ≡ lexemes_of tokens.now end) }
{
    let mut lexemes = List::new(alloc);
    for token in tokens {
        lexemes.push(Lexeme::from_token(alloc, token)?)?;
    }
    lexemes.push(Lexeme {
        terminal: Terminal::End,
        text: Text::new(alloc),
        place: end,
    })?;
    Ok(lexemes)
}

/// What a token is to the grammar where these typedefs stand before it: a name that one of them declared is
/// the name of a type.
pub fn seen(lexeme: &Lexeme, names: &TypeNames) -> Terminal
    ensures { result ≡ (resolve names.now lexeme.now).terminal }
{
    match lexeme.terminal {
        Terminal::Name => match names.get(lexeme.text.as_slice()) {
            Some(vector) => Terminal::TypeName { vector },
            None => Terminal::Name,
        },
        terminal => terminal,
    }
}

fn terminal_of(kind: &TokenKind) -> Terminal
    ensures { result ≡ terminal_of kind.now }
{
    match kind {
        TokenKind::Name(name) => terminal_of_word(name.as_slice()),
        TokenKind::Number { value, ty } => Terminal::Number {
            value: *value,
            ty: *ty,
        },
        TokenKind::Char(value) => Terminal::Number {
            value: u64::from(value.cast_unsigned()),
            ty: 0,
        },
        TokenKind::Mark(number) => terminal_of_mark(*number),
        TokenKind::Rest(_) => Terminal::Stray,
    }
}

fn text_of(alloc: Global, kind: &TokenKind) -> Result<Text, NoMemory>
    ensures { IfOk result (λ text. text ≡ text_of kind.now) }
{
    match kind {
        TokenKind::Name(name) => Text::from_bytes(alloc, name.as_slice()),
        _ => Ok(Text::new(alloc)),
    }
}
