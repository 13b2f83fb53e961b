//! The verdict on the tokens of a text.

ghost use Rattle.std.specs.Prelude.{◌≡◌, ◌≤◌, ◌||◌, ◌&&◌, ◌-◌, not, nat_le, Some, None, length, take, drop, IfOk};
ghost use Rattle.cl_grammar.specs.Expressions.{is_open};
ghost use Rattle.cl_grammar.specs.Lexemes.{lexemes_of};
ghost use Rattle.cl_grammar.specs.Statements.{is_vector_hint, is_size_name};
ghost use Rattle.cl_grammar.specs.Units.{Judges, code_at, is_attribute, is_stray, is_word, names_no_attribute, place_at, seen_as, stands_refused};
ghost use Rattle.cl_grammar.specs.Weights.{first_over};
ghost use Rattle.cl_parse.specs.Verdicts.{Answers, Among, OneOffence};

use crate::unit::unit;
use crate::word::{is_size_name, is_vector_hint};
use cl_ast::declaration::Ast;
use cl_grammar::{ExprStop, Lexeme, Terminal, first_over, lexemes};
use cl_lexer::Tokens;
use clv_place::{NoMemory, Offence, Place, Stop};
use std::alloc::Global;

/// The tree of the tokens of a text, or its first offence (C99 6.9; OpenCL C 1.2, 6.1 to 6.11): 201 at the first
/// token, or the end, such that no unit begins with the tokens up to it; 203 where that token is a word that
/// is left out, or the name of another attribute; 202 at the first token that raises the weight over 256, where no
/// other offence stands up to it.
pub fn parse(alloc: Global, tokens: &Tokens) -> Result<Ast, Stop>
    ensures { Answers result (Judges tokens.now) }
{
    let all = lexemes(alloc, tokens.list.as_slice(), tokens.end)?;
    let seen = front(all.as_slice(), tokens.list.len());
    match first_over(alloc, seen)? {
        None => light(alloc, tokens, all.as_slice(), seen),
        Some(over) => too_heavy(alloc, tokens, seen, over),
    }
}

/// A law: tokens with an offence have that one, and no tree.
#[tactic(auto, using(crate::proofs::Verdicts::one_offence))]
pub fn one_offence()
    ensures { OneOffence }
{}

// The verdict on tokens that keep the weight.
fn light(alloc: Global, tokens: &Tokens, all: &[Lexeme], seen: &[Lexeme]) -> Result<Ast, Stop>
    requires all { all.now ≡ lexemes_of tokens.now.list tokens.now.end }
    requires seen { seen.now ≡ seen_as tokens.now.list }
    requires light { first_over seen.now ≡ None }
    ensures { Answers result (Judges tokens.now) }
{
    match unit(alloc, tokens.list.as_slice(), tokens.end, all) {
        Ok(ast) => Ok(ast),
        Err(ExprStop::Out { at }) => Err(Stop::Out(offence(tokens, seen, at))),
        Err(ExprStop::NoMemory) => Err(Stop::NoMemory),
    }
}

// The verdict on tokens of which one raises the weight too far: a syntax offence up to that one comes first.
fn too_heavy(alloc: Global, tokens: &Tokens, seen: &[Lexeme], over: usize) -> Result<Ast, Stop>
    requires seen { seen.now ≡ seen_as tokens.now.list }
    requires over { first_over seen.now ≡ Some over }
    ensures { Answers result (Judges tokens.now) }
{
    match offence_among(alloc, tokens, over + 1)? {
        Some(at) => Err(Stop::Out(offence(tokens, seen, at))),
        None => Err(Stop::Out(Offence {
            code: 202,
            place: place_at(tokens, over),
        })),
    }
}

// The index of the syntax offence, if it stands at one of so many tokens: these are read as if the text ended
// behind them.
fn offence_among(alloc: Global, tokens: &Tokens, count: usize) -> Result<Option<usize>, NoMemory>
    requires { count ≤ length tokens.now.list }
    ensures { IfOk result (Among tokens.now.list count) }
{
    let list = front(tokens.list.as_slice(), count);
    let all = lexemes(alloc, list, tokens.end)?;
    match unit(alloc, list, tokens.end, all.as_slice()) {
        Ok(_) => Ok(None),
        Err(ExprStop::Out { at }) => { if at < count { Ok(Some(at)) } else { Ok(None) } }
        Err(ExprStop::NoMemory) => Err(NoMemory),
    }
}

fn front<T>(list: &[T], count: usize) -> &[T]
    requires { count ≤ length list.now }
    ensures { result.now ≡ take count list.now }
{
    &list[..count]
}

fn rest<T>(list: &[T], at: usize) -> &[T]
    requires { at ≤ length list.now }
    ensures { result.now ≡ drop at list.now }
{
    &list[at..]
}

// The syntax offence at a token, or at the end.
fn offence(tokens: &Tokens, seen: &[Lexeme], at: usize) -> Offence
    requires { at ≤ length seen.now }
    ensures code { result.code ≡ code_at seen.now at }
    ensures place { result.place ≡ place_at tokens.now at }
{
    Offence {
        code: code_at(seen, at),
        place: place_at(tokens, at),
    }
}

fn place_at(tokens: &Tokens, at: usize) -> Place
    ensures { result ≡ place_at tokens.now at }
{
    match tokens.list.get(at) {
        Some(token) => token.place,
        None => tokens.end,
    }
}

fn code_at(seen: &[Lexeme], at: usize) -> u16
    requires { at ≤ length seen.now }
    ensures { result ≡ code_at seen.now at }
{
    if stands_refused(rest(seen, at)) || is_other_attribute(seen, at) {
        203
    } else {
        201
    }
}

// Whether a word that is left out stands first.
fn stands_refused(lexemes: &[Lexeme]) -> bool
    ensures { result ≡ stands_refused lexemes.now }
{
    match lexemes {
        [first, ..] => matches!(first.terminal, Terminal::Refused),
        [] => false,
    }
}

// Whether the name of no attribute of the language stands there, behind `__attribute__((`.
fn is_other_attribute(seen: &[Lexeme], at: usize) -> bool
    requires { at ≤ length seen.now }
    ensures { result ≡ (nat_le 3 at && names_no_attribute (drop (at - 3) seen.now)) }
{
    3 <= at && names_no_attribute(rest(seen, at - 3))
}

fn names_no_attribute(lexemes: &[Lexeme]) -> bool
    ensures { result ≡ names_no_attribute lexemes.now }
{
    match lexemes {
        [attribute, outer, inner, name, ..] => {
            is_attribute(attribute.terminal)
                && is_open(outer.terminal)
                && is_open(inner.terminal)
                && is_other_name(name)
        }
        _ => false,
    }
}

fn is_attribute(terminal: Terminal) -> bool
    ensures { result ≡ is_attribute terminal }
{
    matches!(terminal, Terminal::Attribute)
}

fn is_open(terminal: Terminal) -> bool
    ensures { result ≡ is_open terminal }
{
    matches!(terminal, Terminal::OpenParen)
}

// Whether a word that may be a name names no attribute.
fn is_other_name(name: &Lexeme) -> bool
    ensures { result ≡ (is_word name.now && (not (is_stray name.now.terminal) && not (is_vector_hint name.now.text || is_size_name name.now.text))) }
{
    1 <= name.text.len()
        && !matches!(name.terminal, Terminal::Stray)
        && !is_attribute_name(name.text.as_slice())
}

fn is_attribute_name(word: &[u8]) -> bool
    ensures { result ≡ (is_vector_hint word.now || is_size_name word.now) }
{
    is_vector_hint(word) || is_size_name(word)
}
