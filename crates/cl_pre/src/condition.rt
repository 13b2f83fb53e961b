//! The conditions of `#if` and `#elif`.

ghost use Rattle.std.specs.Prelude.{◌≡◌, IfOk, List, [], map};
ghost use Rattle.cl_macro.specs.Answers.{Answers};
ghost use Rattle.cl_pre.specs.Conditions.{Holds, asks_defined, is_bracketed, extent_of, asked_of, answer_of, condition_item, goes_with, condition_from, term_of_kind, term_of, held};
ghost use Rattle.cl_pre.specs.Definitions.{is_name, name_of};

use crate::definition::rest_of;
use crate::word::is_defined_word;
use cl_condition::{Judged, Term, judge};
use cl_lexer::{Token, TokenKind};
use cl_macro::expansion::expand;
use cl_macro::first::{CLOSE, OPEN, is_mark};
use cl_macro::item::{Item, Room};
use cl_macro::names::Names;
use cl_macro::replace::fresh;
use cl_macro::row::Row;
use cl_macro::stack::Stack;
use cl_macro::table::Table;
use clv_place::{List, NoMemory, Offence, Place, Stop, Text};
use std::alloc::Global;

// Whether a token is the operator `defined`.
fn asks_defined(token: &Token) -> bool
    ensures { result ≡ asks_defined token.now }
{
    match &token.kind {
        TokenKind::Name(name) => is_defined_word(name.as_slice()),
        _ => false,
    }
}

fn is_name(token: &Token) -> bool
    ensures { result ≡ is_name token.now.kind }
{
    match &token.kind {
        TokenKind::Name(_) => true,
        _ => false,
    }
}

// The bytes of a token that is a name.
fn name_of(token: &Token) -> &[u8]
    ensures { result.now ≡ name_of token.now.kind }
{
    match &token.kind {
        TokenKind::Name(name) => name.as_slice(),
        _ => &[],
    }
}

fn is_bracketed(tokens: &[Token]) -> bool
    ensures { result ≡ is_bracketed tokens.now }
{
    match tokens {
        [a, b, c, ..] => is_mark(OPEN, &a.kind) && is_name(b) && is_mark(CLOSE, &c.kind),
        _ => false,
    }
}

// How many tokens behind `defined` are its operand.
fn extent_of(tokens: &[Token]) -> usize
    ensures { result ≡ extent_of tokens.now }
{
    match tokens {
        [] => 0,
        [token, ..] => {
            if is_name(token) {
                1
            } else if is_bracketed(tokens) {
                3
            } else {
                0
            }
        }
    }
}

// The name that an operand asks for.
fn asked_of(tokens: &[Token]) -> &[u8]
    ensures { result.now ≡ asked_of tokens.now }
{
    match tokens {
        [a, b, ..] => { if is_name(a) { name_of(a) } else { name_of(b) } }
        [a] => name_of(a),
        [] => &[],
    }
}

// What `defined` before these tokens is.
fn answer_of(alloc: Global, table: &Table, tokens: &[Token]) -> TokenKind
    ensures { result ≡ answer_of table.now tokens.now }
{
    if extent_of(tokens) == 0 {
        TokenKind::Rest(Text::new(alloc))
    } else if table.look_up(asked_of(tokens)).is_some() {
        TokenKind::Number { value: 1, ty: 0 }
    } else {
        TokenKind::Number { value: 0, ty: 0 }
    }
}

// A token of a condition, before these.
fn condition_item(
    alloc: Global,
    table: &Table,
    token: &Token,
    behind: &[Token],
) -> Result<Item, NoMemory>
    ensures { IfOk result (λ i. i ≡ condition_item table.now token.now behind.now) }
{
    if !asks_defined(token) {
        return Ok(fresh(alloc, token)?);
    }
    let kind = answer_of(alloc, table, behind);
    Ok(Item {
        token: Token {
            kind,
            place: token.place,
            first: token.first,
            spaced: token.spaced,
        },
        hidden: Names::none(),
        raw: false,
    })
}

// How many tokens behind it go with it.
fn goes_with(token: &Token, behind: &[Token]) -> usize
    ensures { result ≡ goes_with token.now behind.now }
{
    if asks_defined(token) {
        extent_of(behind)
    } else {
        0
    }
}

/// The tokens of a condition, in which `defined` is read before macros are replaced (C99 6.10.1): 1 where
/// its operand names a macro, else 0, and without an operand what stands in no condition. It also fails
/// for want of memory.
pub fn condition_of(alloc: Global, table: &Table, tokens: &[Token]) -> Result<Row<Item>, NoMemory>
    ensures { IfOk result (λ r. r ≡ condition_from table.now [] 0 tokens.now) }
{
    let mut items = Row::new(alloc);
    let mut skips: usize = 0;
    let mut at = 0;
    for token in tokens {
        at += 1;
        if skips > 0 {
            skips -= 1;
        } else {
            let behind = rest_of(tokens, at);
            items.push(condition_item(alloc, table, token, behind)?)?;
            skips = goes_with(token, behind);
        }
    }
    Ok(items)
}

// What a token is in a condition.
fn term_of(kind: &TokenKind) -> Term
    ensures { result ≡ term_of_kind kind.now }
{
    match kind {
        TokenKind::Name(_) => Term::Value {
            bits: 0,
            unsigned: false,
        },
        TokenKind::Number { value, ty } => Term::Value {
            bits: *value,
            unsigned: *ty == 1 || *ty == 3,
        },
        TokenKind::Char(value) => Term::Value {
            bits: (*value as i64).cast_unsigned(),
            unsigned: false,
        },
        TokenKind::Mark(number) => Term::Mark(*number),
        TokenKind::Rest(_) => Term::Stray,
    }
}

fn terms_of(alloc: Global, items: &[Item]) -> Result<List<Term>, NoMemory>
    ensures { IfOk result (λ l. l ≡ map term_of items.now) }
{
    let mut terms = List::new(alloc);
    for item in items {
        terms.push(term_of(&item.token.kind))?;
    }
    Ok(terms)
}

// Whether a condition that is judged so holds.
fn held(place: Place, judged: Judged) -> Result<bool, Stop>
    ensures { Answers result (λ v. v ≡ held place judged) }
{
    match judged {
        Judged::Value { bits, .. } => Ok(bits != 0),
        Judged::Malformed => Err(Stop::Out(Offence { code: 119, place })),
        Judged::DividesByZero => Err(Stop::Out(Offence { code: 120, place })),
    }
}

/// Whether a condition holds, by its tokens in which `defined` is read (C99 6.10.1); or its first offence:
/// that of a macro; 121 where there are over 256 tokens after macros are replaced; 119 where it is
/// malformed; 120 where it divides by zero in an operand that is evaluated. The last three stand at the
/// directive's `#`. It also fails for want of memory.
#[tactic(auto, using(crate::proofs::Steps::conditions))]
pub fn holds(alloc: Global, table: &Table, place: Place, items: Stack<Item>) -> Result<bool, Stop>
    ensures { Answers result (Holds table.now place items) }
{
    let full = Offence { code: 121, place };
    let out = expand(alloc, table, Room::Tokens(256, full), items)?;
    let terms = terms_of(alloc, out.as_slice())?;
    let judged = judge(alloc, terms.as_slice())?;
    held(place, judged)
}
