//! What a `#define` defines.

ghost use Rattle.std.specs.Prelude.{◌≡◌, ◌≤◌, ◌+◌, IfOk, IfSome, is_some, true, length, drop, List, [], Some, None, Ok, Err};
ghost use Rattle.cl_macro.specs.Tables.{look_up};
ghost use Rattle.cl_pre.specs.Definitions.{same_kind, same_kinds, same_names, same_params, same_macro, has_hash, repeats, repeats_any, is_name, name_of, opens_parameters, params_from, params_in, form_of, clashes, defined_as, definition_of, lone_name, code_of};

use crate::predefined::is_predefined;
use crate::word::is_defined_word;
use cl_lexer::{Token, TokenKind};
use cl_macro::first::{CLOSE, COMMA, HASH, OPEN, is_mark};
use cl_macro::macros::{Entry, Macro};
use cl_macro::names::has;
use cl_macro::replace::copy_token;
use cl_macro::table::Table;
use clv_place::{List, NoMemory, Text};
use std::alloc::Global;

/// The parameters of a macro, and how many tokens they take with the `)` behind them.
#[derive(Drop)]
pub struct Parameters {
    pub names: List<Text>,
    pub length: usize,
}

/// The items behind so many.
pub fn rest_of<T>(items: &[T], at: usize) -> &[T]
    ensures { result.now ≡ drop at items.now }
{
    if at < items.len() { &items[at..] } else { &[] }
}

fn same_kind(a: &TokenKind, b: &TokenKind) -> bool
    ensures { result ≡ same_kind a.now b.now }
{
    match (a, b) {
        (TokenKind::Name(a), TokenKind::Name(b)) => a.as_slice() == b.as_slice(),
        (TokenKind::Number { value: v, ty: t }, TokenKind::Number { value: w, ty: u }) => {
            *v == *w && *t == *u
        }
        (TokenKind::Char(a), TokenKind::Char(b)) => *a == *b,
        (TokenKind::Mark(a), TokenKind::Mark(b)) => *a == *b,
        (TokenKind::Rest(a), TokenKind::Rest(b)) => a.as_slice() == b.as_slice(),
        _ => false,
    }
}

/// Whether tokens are the same one by one: numbers are where their values and types are.
#[tactic(auto, using(crate::proofs::Sameness::samenesses))]
pub fn same_kinds(a: &[Token], b: &[Token]) -> bool
    ensures { result ≡ same_kinds a.now b.now }
{
    if a.len() != b.len() {
        return false;
    }
    for at in 0..a.len() {
        if !same_kind(&a[at].kind, &b[at].kind) {
            return false;
        }
    }
    true
}

#[tactic(auto, using(crate::proofs::Sameness::samenesses))]
fn same_names(a: &[Text], b: &[Text]) -> bool
    ensures { result ≡ same_names a.now b.now }
{
    if a.len() != b.len() {
        return false;
    }
    for at in 0..a.len() {
        if a[at].as_slice() != b[at].as_slice() {
            return false;
        }
    }
    true
}

fn same_params(a: &Option<List<Text>>, b: &Option<List<Text>>) -> bool
    ensures { result ≡ same_params a.now b.now }
{
    match (a, b) {
        (None, None) => true,
        (Some(a), Some(b)) => same_names(a.as_slice(), b.as_slice()),
        _ => false,
    }
}

fn same_macro(a: &Macro, b: &Macro) -> bool
    ensures { result ≡ same_macro a.now b.now }
{
    if same_params(&a.params, &b.params) {
        same_kinds(a.body.as_slice(), b.body.as_slice())
    } else {
        false
    }
}

fn has_hash(tokens: &[Token]) -> bool
    ensures { result ≡ has_hash tokens.now }
{
    for token in tokens {
        if is_mark(HASH, &token.kind) {
            return true;
        }
    }
    false
}

fn repeats(names: &[Text]) -> bool
    ensures { result ≡ repeats names.now }
{
    let mut at = 0;
    for name in names {
        at += 1;
        if has(name.as_slice(), rest_of(names, at)) {
            return true;
        }
    }
    false
}

fn repeats_any(params: &Option<List<Text>>) -> bool
    ensures { result ≡ repeats_any params.now }
{
    match params {
        None => false,
        Some(names) => repeats(names.as_slice()),
    }
}

// The name of a token that is one.
fn name_of(kind: &TokenKind) -> Option<&[u8]>
    ensures some { IfSome result (λ n. n.now ≡ name_of kind.now) }
    ensures which { is_some result ≡ is_name kind.now }
{
    match kind {
        TokenKind::Name(name) => Some(name.as_slice()),
        _ => None,
    }
}

// The parameters from the first name on.
fn params_from(alloc: Global, tokens: &[Token]) -> Result<Option<Parameters>, NoMemory>
    ensures { IfOk result (λ p. p ≡ params_from [] true 0 tokens.now) }
{
    let mut names = List::new(alloc);
    let mut wants_name = true;
    let mut length = 0;
    for token in tokens {
        length += 1;
        let kind = &token.kind;
        if wants_name {
            match name_of(kind) {
                Some(name) => names.push(Text::from_bytes(alloc, name)?)?,
                None => return Ok(None),
            }
            wants_name = false;
        } else if is_mark(CLOSE, kind) {
            return Ok(Some(Parameters { names, length }));
        } else if is_mark(COMMA, kind) {
            wants_name = true;
        } else {
            return Ok(None);
        }
    }
    Ok(None)
}

// The parameters behind the `(`; none where they are malformed.
fn params_in(alloc: Global, tokens: &[Token]) -> Result<Option<Parameters>, NoMemory>
    ensures { IfOk result (λ p. p ≡ params_in tokens.now) }
{
    match tokens {
        [] => Ok(None),
        [token, ..] => {
            if is_mark(CLOSE, &token.kind) {
                Ok(Some(Parameters {
                    names: List::new(alloc),
                    length: 1,
                }))
            } else {
                params_from(alloc, tokens)
            }
        }
    }
}

fn opens_parameters(tokens: &[Token]) -> bool
    ensures { result ≡ opens_parameters tokens.now }
{
    match tokens {
        [] => false,
        [token, ..] => is_mark(OPEN, &token.kind) && !token.spaced,
    }
}

// The same tokens.
fn copies(alloc: Global, tokens: &[Token]) -> Result<List<Token>, NoMemory>
    ensures { IfOk result (λ l. l ≡ tokens.now) }
{
    let mut all = List::new(alloc);
    for token in tokens {
        all.push(copy_token(alloc, token)?)?;
    }
    Ok(all)
}

// The macro that the tokens behind its name make; none where its parameters are malformed.
fn form_of(alloc: Global, tokens: &[Token]) -> Result<Option<Macro>, NoMemory>
    ensures { IfOk result (λ m. m ≡ form_of tokens.now) }
{
    if !opens_parameters(tokens) {
        return Ok(Some(Macro {
            params: None,
            body: copies(alloc, tokens)?,
        }));
    }
    let inside = rest_of(tokens, 1);
    match params_in(alloc, inside)? {
        None => Ok(None),
        Some(params) => Ok(Some(Macro {
            params: Some(params.names),
            body: copies(alloc, rest_of(inside, params.length))?,
        })),
    }
}

fn clashes(table: &Table, name: &[u8], m: &Macro) -> bool
    ensures { result ≡ clashes table.now name.now m.now }
{
    if is_predefined(name) {
        return true;
    }
    match table.look_up(name) {
        None => false,
        Some(old) => !same_macro(old, m),
    }
}

// The least code that a definition offends by.
fn code_of(table: &Table, name: &[u8], m: &Macro) -> Option<u16>
    ensures { result ≡ code_of table.now name.now m.now }
{
    if has_hash(m.body.as_slice()) {
        Some(110)
    } else if is_defined_word(name) {
        Some(111)
    } else if repeats_any(&m.params) {
        Some(112)
    } else if clashes(table, name, m) {
        Some(113)
    } else {
        None
    }
}

// A name and its form.
fn defined_as(
    alloc: Global,
    table: &Table,
    name: &[u8],
    tokens: &[Token],
) -> Result<Result<Entry, u16>, NoMemory>
    ensures { IfOk result (λ r. r ≡ defined_as table.now name.now (form_of tokens.now)) }
{
    match form_of(alloc, tokens)? {
        None => Ok(Err(if is_defined_word(name) { 111 } else { 112 })),
        Some(m) => match code_of(table, name, &m) {
            Some(code) => Ok(Err(code)),
            None => Ok(Ok(Entry {
                name: Text::from_bytes(alloc, name)?,
                means: Some(m),
            })),
        },
    }
}

/// What the tokens behind `#define` define (C99 6.10.3), or the least code that they offend by: 110 a `#`
/// or `##` in the replacement, 111 no name or `defined`, 112 a malformed or repeating parameter list, 113
/// a macro that is defined with other tokens, or predefined. Where the parameter list is malformed there
/// is no replacement, and so no 110. It also fails for want of memory.
pub fn definition_of(
    alloc: Global,
    table: &Table,
    tokens: &[Token],
) -> Result<Result<Entry, u16>, NoMemory>
    ensures { IfOk result (λ r. r ≡ definition_of table.now tokens.now) }
{
    match tokens {
        [] => Ok(Err(111)),
        [token, ..] => match name_of(&token.kind) {
            None => Ok(Err(111)),
            Some(name) => defined_as(alloc, table, name, rest_of(tokens, 1)),
        },
    }
}

/// The one name that stands behind `#undef`, `#ifdef` or `#ifndef`, or 111 where no name or `defined`
/// does, or 122 where more follows. It also fails for want of memory.
pub fn lone_name(alloc: Global, tokens: &[Token]) -> Result<Result<Text, u16>, NoMemory>
    ensures { IfOk result (λ r. r ≡ lone_name tokens.now) }
{
    match tokens {
        [] => Ok(Err(111)),
        [token, ..] => match name_of(&token.kind) {
            None => Ok(Err(111)),
            Some(name) => {
                if is_defined_word(name) {
                    Ok(Err(111))
                } else if tokens.len() == 1 {
                    Ok(Ok(Text::from_bytes(alloc, name)?))
                } else {
                    Ok(Err(122))
                }
            }
        },
    }
}
