//! Declarations at file scope (C99 6.9; OpenCL C 1.2, 6.5 and 6.7).

ghost use Rattle.std.specs.Prelude.{◌≡◌, ◌<◌, length, IfOk, IfErr, MatchBool};
ghost use Rattle.cl_grammar.specs.DeclarationSymbols as decl;
ghost use Rattle.cl_grammar.specs.Symbols.{D};
ghost use Rattle.cl_grammar.specs.ExpressionTrees.{SpecTree};
ghost use Rattle.cl_grammar.specs.Items.{between, EndsIn, IsAt, OtherAt, ReadAt, RefusedAt};
ghost use Rattle.cl_grammar.specs.StatementTrees.{ExternalTree};
ghost use Rattle.cl_grammar.specs.declared.terminal.Terminal.TheVariants.{Typedef};
ghost use Rattle.cl_parse.specs.Declaring.{Declares, declared_by};
ghost use Rattle.cl_parse.specs.Readings.{BodyAt, NoBodyAt, EndAt, FunctionAt, CalledAt, NotCalledAt, OnlyFunctionAt, NotFunctionAt, AloneAt, NotAloneAt, BehindTypeAt, ExternalAt, is_plain};

use crate::params::{both, params};
use crate::word::{WordList, words};
use cl_ast::declaration::{External, Param};
use cl_ast::expression::{Declor, Spec};
use cl_ast::statement::Stmt;
use cl_grammar::{ExprStop, Terminal};
use cl_parse_expr::Reader;
use cl_parse_stmt::{block, init_declors};
use clv_place::{Place, Text};
use std::alloc::Global;

/// A declaration at file scope, whether it is a typedef whose name stands for a vector type, and the index of
/// the token behind it.
#[derive(Drop)]
pub struct Declaration {
    pub tree: External,
    pub vector: bool,
    pub next: usize,
}

// A function without its words and its type.
#[derive(Drop)]
struct Called {
    name: Text,
    place: Place,
    params: Vec<Param>,
    body: Option<Stmt>,
    next: usize,
}

// Whether a block stands there, as it may only behind parameters that have names.
fn begins_body(reader: &Reader, named: bool, at: usize) -> bool
    requires { at < length reader.now }
    ensures { MatchBool result (BodyAt reader.now at named) (NoBodyAt reader.now at named) }
{
    named && reader.is_at(at, Terminal::OpenBrace)
}

// `";" | block`
fn behind_params(
    alloc: Global,
    reader: &Reader,
    named: bool,
    at: usize,
) -> Result<(Option<Stmt>, usize), ExprStop>
    requires ends { EndsIn reader.now }
    requires within { at < length reader.now }
    ensures ok { IfOk result (λ t. EndAt reader.now at t.1 named t.0) }
    ensures out { IfErr result (RefusedAt (D (decl.BehindParams named)) reader.now at) }
{
    if begins_body(reader, named, at) {
        let (body, next) = block(alloc, reader, at)?;
        Ok((Some(body), next))
    } else {
        let next = reader.expect(at, Terminal::Semicolon)?;
        Ok((None, next))
    }
}

// `NAME "(" params ")" (";" | block)`
fn function(alloc: Global, reader: &Reader, at: usize) -> Result<Called, ExprStop>
    requires ends { EndsIn reader.now }
    requires within { at < length reader.now }
    ensures ok { IfOk result (λ t. FunctionAt reader.now at t.next t.name t.place t.params.items t.body) }
    ensures out { IfErr result (RefusedAt (D decl.Function) reader.now at) }
{
    let name_end = reader.expect(at, Terminal::Name)?;
    let place = reader.place(at);
    let name = reader.text(alloc, at)?;
    let inside = reader.expect(name_end, Terminal::OpenParen)?;
    let list = params(alloc, reader, inside)?;
    let close_end = reader.expect(list.next, Terminal::CloseParen)?;
    let (body, next) = behind_params(alloc, reader, list.named, close_end)?;
    Ok(Called {
        name,
        place,
        params: list.list,
        body,
        next,
    })
}

// Whether a name and `(` stand there, as only a function has them behind its type.
fn begins_function(reader: &Reader, at: usize) -> bool
    requires ends { EndsIn reader.now }
    requires within { at < length reader.now }
    ensures { MatchBool result (CalledAt reader.now at) (NotCalledAt reader.now at) }
{
    reader.is_at(at, Terminal::Name) && reader.is_at(at + 1, Terminal::OpenParen)
}

// Whether only a function may stand there: as behind words other than one `static`, or because it does.
fn only_function(reader: &Reader, variables: bool, at: usize) -> bool
    requires ends { EndsIn reader.now }
    requires within { at < length reader.now }
    ensures { MatchBool result (OnlyFunctionAt reader.now at variables) (NotFunctionAt reader.now at variables) }
{
    if variables {
        begins_function(reader, at)
    } else {
        true
    }
}

// Whether a type ends there that stands alone, as it may only behind no word.
fn is_type_alone(reader: &Reader, lone: bool, at: usize) -> bool
    requires { at < length reader.now }
    ensures { MatchBool result (AloneAt reader.now at lone) (NotAloneAt reader.now at lone) }
{
    lone && reader.is_at(at, Terminal::Semicolon)
}

// What stands behind the type of a declaration that is no typedef.
fn behind_type(
    alloc: Global,
    reader: &Reader,
    words: WordList,
    spec: Spec,
    at: usize,
) -> Result<(External, usize), ExprStop>
    requires ends { EndsIn reader.now }
    requires within { at < length reader.now }
    ensures ok { IfOk result (λ t. BehindTypeAt reader.now at t.1 words.lone words.variables words.list spec t.0) }
    ensures out { IfErr result (RefusedAt (D (decl.BehindType words.lone words.variables)) reader.now at) }
{
    if only_function(reader, words.variables, at) {
        let called = function(alloc, reader, at)?;
        let tree = External::Function {
            words: words.list,
            spec,
            name: called.name,
            place: called.place,
            params: called.params,
            body: called.body,
        };
        Ok((tree, called.next))
    } else if is_type_alone(reader, words.lone, at) {
        let behind = reader.expect(at, Terminal::Semicolon)?;
        Ok((External::Struct { spec }, behind))
    } else {
        let (items, then) = init_declors(alloc, reader, at)?;
        let next = reader.expect(then, Terminal::Semicolon)?;
        Ok((External::Constant { spec, items }, next))
    }
}

// Whether a declared name stands for what the words of its type name, with no `*` and no length.
fn is_plain(name: &Declor) -> bool
    ensures { result ≡ is_plain name.now }
{
    match name.star {
        None => name.lengths.is_empty(),
        Some(_) => false,
    }
}

// `"typedef" spec declor ";"`
fn typedef(alloc: Global, reader: &Reader, at: usize) -> Result<Declaration, ExprStop>
    requires ends { EndsIn reader.now }
    requires within { at < length reader.now }
    requires begins { IsAt reader.now at Typedef }
    ensures ok { IfOk result (λ t. ExternalAt reader.now at t.next t.tree t.vector) }
    ensures out { IfErr result (RefusedAt (D decl.External) reader.now at) }
{
    let inside = reader.expect(at, Terminal::Typedef)?;
    let words = reader.spec(alloc, inside)?;
    let (name, close) = reader.declor(alloc, words.next)?;
    let next = reader.expect(close, Terminal::Semicolon)?;
    let vector = both(words.vector, is_plain(&name));
    let tree = External::Typedef {
        spec: words.spec,
        name,
    };
    Ok(Declaration { tree, vector, next })
}

// `{fword} spec` and what stands behind.
fn no_typedef(alloc: Global, reader: &Reader, at: usize) -> Result<Declaration, ExprStop>
    requires ends { EndsIn reader.now }
    requires within { at < length reader.now }
    requires other { OtherAt reader.now at Typedef }
    ensures ok { IfOk result (λ t. ExternalAt reader.now at t.next t.tree t.vector) }
    ensures out { IfErr result (RefusedAt (D decl.External) reader.now at) }
{
    let words = words(alloc, reader, at)?;
    let read = reader.spec(alloc, words.next)?;
    let (tree, next) = behind_type(alloc, reader, words, read.spec, read.next)?;
    Ok(Declaration {
        tree,
        vector: false,
        next,
    })
}

/// The declaration that begins at an index. Indices are of tokens, from 0. It is refused at the first token at which
/// no declaration goes on (C99 6.9; OpenCL C 1.2, 6.7).
pub fn external(alloc: Global, reader: &Reader, at: usize) -> Result<Declaration, ExprStop>
    requires ends { EndsIn reader.now }
    requires within { at < length reader.now }
    ensures ok { IfOk result (λ t. ReadAt (D decl.External) reader.now at t.next) }
    ensures declares { IfOk result (λ t. Declares (declared_by t.tree t.vector) (between reader.now at t.next)) }
    ensures tree { IfOk result (λ t. ExternalTree (between reader.now at t.next) t.tree) }
    ensures out { IfErr result (RefusedAt (D decl.External) reader.now at) }
{
    if reader.is_at(at, Terminal::Typedef) {
        typedef(alloc, reader, at)
    } else {
        no_typedef(alloc, reader, at)
    }
}
