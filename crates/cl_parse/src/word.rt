//! Words before a function (OpenCL C 1.2, 6.7).

ghost use Rattle.std.specs.Prelude.{◌≡◌, ◌<◌, ◌^◌, true, length, IfOk, IfErr, MatchBool};
ghost use Rattle.cl_ast.specs.declared.declaration.FWord.TheVariants.{Hint as Changeless};
ghost use Rattle.cl_grammar.specs.declared.terminal.Terminal.TheVariants.{Attribute};
ghost use Rattle.cl_grammar.specs.DeclarationSymbols as decl;
ghost use Rattle.cl_grammar.specs.Statements as names;
ghost use Rattle.cl_grammar.specs.Symbols.{D};
ghost use Rattle.cl_grammar.specs.Items.{EndsIn, IsAt, ReadAt, RefusedAt};
ghost use Rattle.cl_parse.specs.Attributes.{is_word as begins, is_static as static_word, BeginsWord, NoWordAt, VectorNameAt, NamedAt, ArgumentsAt, SizeAt, InAttributeAt, OtherWordAt, WordAt, WordRefusedAt};
ghost use Rattle.cl_parse.specs.Readings.{WordsAt};

use crate::params::both;
use cl_ast::declaration::FWord;
use cl_ast::expression::Expr;
use cl_grammar::{ExprStop, Terminal};
use cl_parse_expr::Reader;
use clv_place::NoMemory;
use std::alloc::Global;

// What the name of an attribute asks for.
#[derive(Clone, Copy, PartialEq, Eq, Debug)]
pub enum AttributeName {
    VectorHint,
    Required,
    SizeHint,
    Unknown,
}

// The names of the attributes (OpenCL C 1.2, 6.7.2).
pub fn is_vector_hint(name: &[u8]) -> bool
    ensures { result ≡ names.is_vector_hint name.now }
{
    name == b"vec_type_hint".as_slice()
}

pub fn is_required_size(name: &[u8]) -> bool
    ensures { result ≡ names.is_required_size name.now }
{
    name == b"reqd_work_group_size".as_slice()
}

pub fn is_size_name(name: &[u8]) -> bool
    ensures { result ≡ names.is_size_name name.now }
{
    is_required_size(name) || name == b"work_group_size_hint".as_slice()
}

// A typedef hides the name of a size, but not that of a hint.
fn attribute_at(alloc: Global, reader: &Reader, at: usize) -> Result<AttributeName, NoMemory>
    requires { at < length reader.now }
    ensures { IfOk result (NamedAt reader.now at) }
{
    let text = reader.text(alloc, at)?;
    let name = text.as_slice();
    if is_vector_hint(name) {
        Ok(AttributeName::VectorHint)
    } else if !reader.is_at(at, Terminal::Name) {
        Ok(AttributeName::Unknown)
    } else if !is_size_name(name) {
        Ok(AttributeName::Unknown)
    } else if is_required_size(name) {
        Ok(AttributeName::Required)
    } else {
        Ok(AttributeName::SizeHint)
    }
}

fn is_hint_word(terminal: Terminal) -> bool
    ensures { result ≡ names.hints terminal }
{
    match terminal {
        Terminal::UnsignedInt { bits: _ } => true,
        Terminal::Vector {
            bits: _,
            signed: _,
            n: _,
        } => true,
        Terminal::TypeName { vector: _ } => true,
        _ => false,
    }
}

// The type of a hint: the index behind it.
fn hint(reader: &Reader, at: usize) -> Result<usize, ExprStop>
    requires ends { EndsIn reader.now }
    requires within { at < length reader.now }
    ensures ok { IfOk result (ReadAt (D decl.Hint) reader.now at) }
    ensures out { IfErr result (RefusedAt (D decl.Hint) reader.now at) }
{
    if is_hint_word(reader.peek(at)) {
        Ok(at + 1)
    } else {
        let (_base, next) = reader.integer(at)?;
        Ok(next)
    }
}

// `"vec_type_hint" "(" hint ")" ")" ")"`
fn vector_hint(reader: &Reader, at: usize) -> Result<usize, ExprStop>
    requires ends { EndsIn reader.now }
    requires within { at < length reader.now }
    requires room { length reader.now < 2 ^ 63 }
    requires name { VectorNameAt reader.now at }
    ensures ok { IfOk result (λ next. InAttributeAt reader.now at next Changeless) }
    ensures out { IfErr result (RefusedAt (D decl.InAttribute) reader.now at) }
{
    let inside = reader.expect(at + 1, Terminal::OpenParen)?;
    let close = hint(reader, inside)?;
    let second = reader.expect(close, Terminal::CloseParen)?;
    let third = reader.expect(second, Terminal::CloseParen)?;
    reader.expect(third, Terminal::CloseParen)
}

// `["(" args ")"]`
fn arguments(alloc: Global, reader: &Reader, at: usize) -> Result<(Vec<Expr>, usize), ExprStop>
    requires ends { EndsIn reader.now }
    requires within { at < length reader.now }
    ensures ok { IfOk result (λ t. ArgumentsAt reader.now at t.1 t.0.items) }
    ensures out { IfErr result (RefusedAt (D decl.BehindSize) reader.now at) }
{
    if reader.is_at(at, Terminal::OpenParen) {
        let (args, close) = reader.args(alloc, at + 1)?;
        let next = reader.expect(close, Terminal::CloseParen)?;
        Ok((args, next))
    } else {
        Ok((Vec::new(alloc), at))
    }
}

// `["(" args ")"] ")" ")"`
fn size(alloc: Global, reader: &Reader, at: usize) -> Result<(Vec<Expr>, usize), ExprStop>
    requires ends { EndsIn reader.now }
    requires within { at < length reader.now }
    ensures ok { IfOk result (λ t. SizeAt reader.now at t.1 t.0.items) }
    ensures out { IfErr result (RefusedAt (D decl.BehindSize) reader.now at) }
{
    let (args, close) = arguments(alloc, reader, at)?;
    let second = reader.expect(close, Terminal::CloseParen)?;
    let next = reader.expect(second, Terminal::CloseParen)?;
    Ok((args, next))
}

// What stands behind `__attribute__((`.
fn in_attribute(alloc: Global, reader: &Reader, at: usize) -> Result<(FWord, usize), ExprStop>
    requires ends { EndsIn reader.now }
    requires within { at < length reader.now }
    requires room { length reader.now < 2 ^ 63 }
    ensures ok { IfOk result (λ t. InAttributeAt reader.now at t.1 t.0) }
    ensures out { IfErr result (RefusedAt (D decl.InAttribute) reader.now at) }
{
    let name = attribute_at(alloc, reader, at)?;
    match name {
        AttributeName::VectorHint => {
            let next = vector_hint(reader, at)?;
            Ok((FWord::Hint, next))
        }
        AttributeName::Required => {
            let place = reader.place(at);
            let (args, next) = size(alloc, reader, at + 1)?;
            Ok((FWord::Required { place, args }, next))
        }
        AttributeName::SizeHint => {
            let (_args, next) = size(alloc, reader, at + 1)?;
            Ok((FWord::Hint, next))
        }
        AttributeName::Unknown => Err(ExprStop::Out { at }),
    }
}

// `"__attribute__" "(" "("` and what stands behind.
fn attribute(alloc: Global, reader: &Reader, at: usize) -> Result<(FWord, usize), ExprStop>
    requires ends { EndsIn reader.now }
    requires within { at < length reader.now }
    requires room { length reader.now < 2 ^ 63 }
    requires begins { IsAt reader.now at Attribute }
    ensures ok { IfOk result (λ t. OtherWordAt reader.now at t.1 t.0) }
    ensures out { IfErr result (RefusedAt (D decl.Word) reader.now at) }
{
    let second = reader.expect(at + 1, Terminal::OpenParen)?;
    let inside = reader.expect(second, Terminal::OpenParen)?;
    in_attribute(alloc, reader, inside)
}

fn is_word(terminal: Terminal) -> bool
    ensures { result ≡ begins terminal }
{
    match terminal {
        Terminal::Kernel | Terminal::Inline | Terminal::Static | Terminal::Attribute => true,
        _ => false,
    }
}

fn begins_word(reader: &Reader, at: usize) -> bool
    requires { at < length reader.now }
    ensures { MatchBool result (BeginsWord reader.now at) (NoWordAt reader.now at) }
{
    is_word(reader.peek(at))
}

fn is_static(word: &FWord) -> bool
    ensures { result ≡ static_word word.now }
{
    match word {
        FWord::Static => true,
        _ => false,
    }
}

// The word that begins at an index.
fn word(alloc: Global, reader: &Reader, at: usize) -> Result<(FWord, usize), ExprStop>
    requires ends { EndsIn reader.now }
    requires within { at < length reader.now }
    requires begins { BeginsWord reader.now at }
    ensures ok { IfOk result (λ t. WordAt reader.now at t.1 t.0) }
    ensures out { IfErr result (WordRefusedAt reader.now at) }
{
    if reader.is_at(at, Terminal::Attribute) {
        attribute(alloc, reader, at)
    } else if reader.is_at(at, Terminal::Static) {
        Ok((FWord::Static, at + 1))
    } else if reader.is_at(at, Terminal::Kernel) {
        Ok((FWord::Kernel, at + 1))
    } else {
        Ok((FWord::Inline, at + 1))
    }
}

// Words before a type, and the index of the token behind them. Behind none a type may stand alone, and behind none
// or one `static` variables.
#[derive(Drop)]
pub struct WordList {
    pub list: Vec<FWord>,
    pub lone: bool,
    pub variables: bool,
    pub next: usize,
}

// `{fword}`
pub fn words(alloc: Global, reader: &Reader, at: usize) -> Result<WordList, ExprStop>
    requires ends { EndsIn reader.now }
    requires within { at < length reader.now }
    ensures ok { IfOk result (λ t. WordsAt reader.now at t.next t.list.items t.lone t.variables) }
    ensures out { IfErr result (RefusedAt (D (decl.Words true true)) reader.now at) }
{
    let mut list = Vec::new(alloc);
    let mut lone = true;
    let mut variables = true;
    let mut here = at;
    while begins_word(reader, here) {
        let (another, next) = word(alloc, reader, here)?;
        variables = both(lone, is_static(&another));
        lone = false;
        list.push(another)?;
        here = next;
    }
    Ok(WordList {
        list,
        lone,
        variables,
        next: here,
    })
}
