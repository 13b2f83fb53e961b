//! Conditional directives that are not ended.

ghost use Rattle.std.specs.Prelude.{◌≡◌, None};
ghost use Rattle.cl_pre.specs.Unended.{is_hash, word_behind, word_at, opens_group, closes_group, unended_from};

use crate::definition::rest_of;
use crate::word::Word;
use cl_lexer::Token;
use cl_macro::first::{HASH, is_mark};
use clv_place::Place;

// The directive that the first of these tokens names on the same line.
fn word_behind(tokens: &[Token]) -> Word
    ensures { result ≡ word_behind tokens.now }
{
    match tokens {
        [] => Word::Unknown,
        [token, ..] => {
            if token.first {
                Word::Unknown
            } else {
                Word::of(&token.kind)
            }
        }
    }
}

fn is_hash(token: &Token) -> bool
    ensures { result ≡ is_hash token.now }
{
    token.first && is_mark(HASH, &token.kind)
}

fn opens_group(word: Word) -> bool
    ensures { result ≡ opens_group word }
{
    match word {
        Word::If => true,
        Word::Ifdef => true,
        Word::Ifndef => true,
        _ => false,
    }
}

fn closes_group(word: Word) -> bool
    ensures { result ≡ closes_group word }
{
    match word {
        Word::Endif => true,
        _ => false,
    }
}

// The directive that a token begins with those behind it.
fn word_at(token: &Token, behind: &[Token]) -> Word
    ensures { result ≡ word_at token.now behind.now }
{
    if is_hash(token) {
        word_behind(behind)
    } else {
        Word::Unknown
    }
}

/// The place of the `#` of the outermost `#if`, `#ifdef` or `#ifndef` that no `#endif` ends, by the names
/// of the directives alone; none where each is ended.
pub fn unended(tokens: &[Token]) -> Option<Place>
    ensures { result ≡ unended_from None 0 tokens.now }
{
    let mut outermost = None;
    let mut depth: usize = 0;
    let mut at = 0;
    for token in tokens {
        at += 1;
        let word = word_at(token, rest_of(tokens, at));
        if opens_group(word) {
            if depth == 0 {
                outermost = Some(token.place);
            }
            depth += 1;
        } else if closes_group(word) {
            depth = depth.saturating_sub(1);
            if depth == 0 {
                outermost = None;
            }
        }
    }
    outermost
}
