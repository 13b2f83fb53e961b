//! What a directive does.

ghost use Rattle.std.specs.Prelude.{◌≡◌, IfOk, true, false};
ghost use Rattle.cl_pre.specs.Definitions.{definition_of, lone_name};
ghost use Rattle.cl_pre.specs.Directives.{defines, undefines, tested, elif_of, else_of, endif_of, has_excess, read_by, skipped_by, effect_of};

use crate::condition::condition_of;
use crate::definition::{definition_of, lone_name, rest_of};
use crate::group::{Group, is_read};
use crate::word::Word;
use cl_lexer::Token;
use cl_macro::item::Item;
use cl_macro::macros::Entry;
use cl_macro::row::Row;
use cl_macro::table::Table;
use clv_place::{NoMemory, Text};
use std::alloc::Global;

/// What a directive does.
#[derive(Drop)]
pub enum Effect {
    Nothing,
    /// The table gets an entry.
    Defines(Entry),
    /// A group opens within the others.
    Opens(Group),
    /// The innermost group turns into this one.
    Turns(Group),
    /// The innermost group closes.
    Closes,
    /// A condition is to be judged, for a group that opens.
    Asks(Row<Item>),
    /// A condition is to be judged, for a group that stands for the innermost one.
    AsksAgain(Row<Item>),
    /// It offends by a code, at its `#`.
    Fails(u16),
}

fn undefines(name: Result<Text, u16>) -> Effect
    ensures { result ≡ undefines name }
{
    match name {
        Ok(name) => Effect::Defines(Entry { name, means: None }),
        Err(code) => Effect::Fails(code),
    }
}

fn defines(entry: Result<Entry, u16>) -> Effect
    ensures { result ≡ defines entry }
{
    match entry {
        Ok(entry) => Effect::Defines(entry),
        Err(code) => Effect::Fails(code),
    }
}

fn tested(table: &Table, wanted: bool, name: Result<Text, u16>) -> Effect
    ensures { result ≡ tested table.now wanted name }
{
    match name {
        Ok(name) => {
            let known = table.look_up(name.as_slice()).is_some();
            Effect::Opens(Group::opened(if wanted { known } else { !known }))
        }
        Err(code) => Effect::Fails(code),
    }
}

fn elif_of(
    alloc: Global,
    table: &Table,
    top: Option<Group>,
    tokens: &[Token],
) -> Result<Effect, NoMemory>
    ensures { IfOk result (λ e. e ≡ elif_of table.now top tokens.now) }
{
    match top {
        None => Ok(Effect::Fails(116)),
        Some(group) => {
            if group.after_else {
                Ok(Effect::Fails(116))
            } else if group.taken {
                Ok(Effect::Turns(group.passed()))
            } else {
                Ok(Effect::AsksAgain(condition_of(alloc, table, tokens)?))
            }
        }
    }
}

fn has_excess(group: Group, tokens: &[Token]) -> bool
    ensures { result ≡ has_excess group tokens.now }
{
    group.outer && !tokens.is_empty()
}

fn else_of(top: Option<Group>, tokens: &[Token]) -> Effect
    ensures { result ≡ else_of top tokens.now }
{
    match top {
        None => Effect::Fails(116),
        Some(group) => {
            if group.after_else {
                Effect::Fails(116)
            } else if has_excess(group, tokens) {
                Effect::Fails(122)
            } else {
                Effect::Turns(group.behind_else())
            }
        }
    }
}

fn endif_of(top: Option<Group>, tokens: &[Token]) -> Effect
    ensures { result ≡ endif_of top tokens.now }
{
    match top {
        None => Effect::Fails(116),
        Some(group) => {
            if has_excess(group, tokens) {
                Effect::Fails(122)
            } else {
                Effect::Closes
            }
        }
    }
}

// In a group that is read.
fn read_by(
    alloc: Global,
    word: Word,
    table: &Table,
    top: Option<Group>,
    tokens: &[Token],
) -> Result<Effect, NoMemory>
    ensures { IfOk result (λ e. e ≡ read_by word table.now top tokens.now) }
{
    match word {
        Word::If => Ok(Effect::Asks(condition_of(alloc, table, tokens)?)),
        Word::Ifdef => Ok(tested(table, true, lone_name(alloc, tokens)?)),
        Word::Ifndef => Ok(tested(table, false, lone_name(alloc, tokens)?)),
        Word::Elif => elif_of(alloc, table, top, tokens),
        Word::Else => Ok(else_of(top, tokens)),
        Word::Endif => Ok(endif_of(top, tokens)),
        Word::Define => Ok(defines(definition_of(alloc, table, tokens)?)),
        Word::Undef => Ok(undefines(lone_name(alloc, tokens)?)),
        Word::Error => Ok(Effect::Fails(118)),
        Word::Pragma => Ok(Effect::Nothing),
        Word::Unknown => Ok(Effect::Fails(110)),
    }
}

// In a group that is skipped.
fn skipped_by(
    alloc: Global,
    word: Word,
    table: &Table,
    top: Option<Group>,
    tokens: &[Token],
) -> Result<Effect, NoMemory>
    ensures { IfOk result (λ e. e ≡ skipped_by word table.now top tokens.now) }
{
    match word {
        Word::If => Ok(Effect::Opens(Group::nested())),
        Word::Ifdef => Ok(Effect::Opens(Group::nested())),
        Word::Ifndef => Ok(Effect::Opens(Group::nested())),
        Word::Elif => elif_of(alloc, table, top, tokens),
        Word::Else => Ok(else_of(top, tokens)),
        Word::Endif => Ok(endif_of(top, tokens)),
        Word::Define => Ok(Effect::Nothing),
        Word::Undef => Ok(Effect::Nothing),
        Word::Error => Ok(Effect::Nothing),
        Word::Pragma => Ok(Effect::Nothing),
        Word::Unknown => Ok(Effect::Nothing),
    }
}

/// What the tokens of a line behind its `#` do, within an innermost open group (C99 6.10). It fails for
/// want of memory.
pub fn effect_of(
    alloc: Global,
    table: &Table,
    top: Option<Group>,
    line: &[Token],
) -> Result<Effect, NoMemory>
    ensures { IfOk result (λ e. e ≡ effect_of table.now top line.now) }
{
    match line {
        [] => Ok(Effect::Nothing),
        [token, ..] => {
            let word = Word::of(&token.kind);
            let tokens = rest_of(line, 1);
            if is_read(top) {
                read_by(alloc, word, table, top, tokens)
            } else {
                skipped_by(alloc, word, table, top, tokens)
            }
        }
    }
}
