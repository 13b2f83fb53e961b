//! Initialisers, and declared names with them.

ghost use Rattle.std.specs.Prelude.{◌≡◌, ◌<◌, length, IfOk, IfErr};
ghost use Rattle.cl_grammar.specs.Items.{EndsIn, RefusedAt, IsAt};
ghost use Rattle.cl_grammar.specs.StatementSymbols.{Init as InitSym, InitDeclor as InitDeclorSym, InitDeclors};
ghost use Rattle.cl_grammar.specs.StatementTrees.{InitTree, InitDeclorTree, InitDeclorTrees};
ghost use Rattle.cl_grammar.specs.Symbols.{S};
ghost use Rattle.cl_grammar.specs.declared.terminal.Terminal.TheVariants as words;
ghost use Rattle.cl_parse_stmt.specs.Readings.{Has};

use cl_ast::declaration::{Init, InitDeclor};
use cl_grammar::{ExprStop, Terminal};
use cl_parse_expr::Reader;
use std::alloc::Global;

// `assign | "{" init {"," init} [","] "}"`
#[tactic(none)]
#[cycle(initialisers)]
fn initialiser(alloc: Global, reader: &Reader, at: usize) -> Result<(Init, usize), ExprStop>
    requires ends { EndsIn reader.now }
    requires within { at < length reader.now }
    ensures ok { IfOk result (λ r. Has InitTree (S InitSym) reader.now at r.1 r.0) }
    ensures out { IfErr result (RefusedAt (S InitSym) reader.now at) }
{
    if reader.is_at(at, Terminal::OpenBrace) {
        braced(alloc, reader, at)
    } else {
        let taken = reader.assign(alloc, at)?;
        Ok((Init::Value(taken.tree), taken.next))
    }
}

// Initialisers in braces. A comma may stand behind the last.
#[tactic(none)]
#[cycle(initialisers)]
fn braced(alloc: Global, reader: &Reader, at: usize) -> Result<(Init, usize), ExprStop>
    requires ends { EndsIn reader.now }
    requires within { at < length reader.now }
    requires opens { IsAt reader.now at words.OpenBrace }
    ensures ok { IfOk result (λ r. Has InitTree (S InitSym) reader.now at r.1 r.0) }
    ensures out { IfErr result (RefusedAt (S InitSym) reader.now at) }
{
    let place = reader.place(at);
    let inside = reader.expect(at, Terminal::OpenBrace)?;
    let mut items = Vec::new(alloc);
    let (first, mut here) = initialiser(alloc, reader, inside)?;
    items.push(first)?;
    while reader.is_at(here, Terminal::Comma) {
        let next = reader.expect(here, Terminal::Comma)?;
        if reader.is_at(next, Terminal::CloseBrace) {
            let end = reader.expect(next, Terminal::CloseBrace)?;
            return Ok((Init::Braces { place, items }, end));
        }
        let (item, behind) = initialiser(alloc, reader, next)?;
        items.push(item)?;
        here = behind;
    }
    let close = reader.expect(here, Terminal::CloseBrace)?;
    Ok((Init::Braces { place, items }, close))
}

// `declor ["=" init]`
#[tactic(none)]
fn init_declor(alloc: Global, reader: &Reader, at: usize) -> Result<(InitDeclor, usize), ExprStop>
    requires ends { EndsIn reader.now }
    requires within { at < length reader.now }
    ensures ok { IfOk result (λ r. Has InitDeclorTree (S InitDeclorSym) reader.now at r.1 r.0) }
    ensures out { IfErr result (RefusedAt (S InitDeclorSym) reader.now at) }
{
    let (name, here) = reader.declor(alloc, at)?;
    if reader.is_at(here, Terminal::Equals) {
        let then = reader.expect(here, Terminal::Equals)?;
        let (init, next) = initialiser(alloc, reader, then)?;
        Ok((
            InitDeclor {
                name,
                init: Some(init),
            },
            next,
        ))
    } else {
        Ok((InitDeclor { name, init: None }, here))
    }
}

/// The declared names at an index, each with its initialiser, if any, and the index behind them (C99 6.7, 6.7.8).
/// Indices are of tokens, from 0. It is refused at the first token at which they don't go on, and else fails for want
/// of memory alone.
#[tactic(none)]
pub fn init_declors(
    alloc: Global,
    reader: &Reader,
    at: usize,
) -> Result<(Vec<InitDeclor>, usize), ExprStop>
    requires ends { EndsIn reader.now }
    requires within { at < length reader.now }
    ensures ok { IfOk result (λ r. Has InitDeclorTrees (S InitDeclors) reader.now at r.1 r.0.items) }
    ensures out { IfErr result (RefusedAt (S InitDeclors) reader.now at) }
{
    let mut items = Vec::new(alloc);
    let (first, mut here) = init_declor(alloc, reader, at)?;
    items.push(first)?;
    while reader.is_at(here, Terminal::Comma) {
        let next = reader.expect(here, Terminal::Comma)?;
        let (item, behind) = init_declor(alloc, reader, next)?;
        items.push(item)?;
        here = behind;
    }
    Ok((items, here))
}
