//! What stands for the use of a macro.

ghost use Rattle.std.specs.Prelude.{◌≡◌, IfOk, Ok, Err, length, ◌++◌, List, []};
ghost use Rattle.cl_macro.specs.Answers.{Answers};
ghost use Rattle.cl_macro.specs.Items.{fresh};
ghost use Rattle.cl_macro.specs.Replacements.{stand_in, substituted, replacement};

use crate::item::Item;
use crate::names::{Names, index_of};
use crate::row::Row;
use cl_lexer::{Token, TokenKind};
use clv_place::{NoMemory, Offence, Place, Stop, Text};
use std::alloc::Global;

/// The most names that may be hidden from a token of a replacement.
pub const MAX_HIDDEN: usize = 64;

/// The same kind of token.
pub fn copy_kind(alloc: Global, kind: &TokenKind) -> Result<TokenKind, NoMemory>
    ensures { IfOk result (λ k. k ≡ kind.now) }
{
    match kind {
        TokenKind::Name(name) => Ok(TokenKind::Name(Text::from_bytes(alloc, name.as_slice())?)),
        TokenKind::Number { value, ty } => Ok(TokenKind::Number {
            value: *value,
            ty: *ty,
        }),
        TokenKind::Char(value) => Ok(TokenKind::Char(*value)),
        TokenKind::Mark(number) => Ok(TokenKind::Mark(*number)),
        TokenKind::Rest(rest) => Ok(TokenKind::Rest(Text::from_bytes(alloc, rest.as_slice())?)),
    }
}

/// The same token.
pub fn copy_token(alloc: Global, token: &Token) -> Result<Token, NoMemory>
    ensures { IfOk result (λ t. t ≡ token.now) }
{
    Ok(Token {
        kind: copy_kind(alloc, &token.kind)?,
        place: token.place,
        first: token.first,
        spaced: token.spaced,
    })
}

/// The token as one that does not stand in the text itself, and from which nothing is hidden.
pub fn fresh(alloc: Global, token: &Token) -> Result<Item, NoMemory>
    ensures { IfOk result (λ i. i ≡ fresh token.now) }
{
    Ok(Item {
        token: copy_token(alloc, token)?,
        hidden: Names::none(),
        raw: false,
    })
}

// The same item.
fn copy_item(alloc: Global, item: &Item) -> Result<Item, NoMemory>
    ensures { IfOk result (λ i. i ≡ item.now) }
{
    Ok(Item {
        token: copy_token(alloc, &item.token)?,
        hidden: item.hidden.share()?,
        raw: item.raw,
    })
}

// These items behind others.
fn append(alloc: Global, front: Row<Item>, items: &[Item]) -> Result<Row<Item>, NoMemory>
    ensures { IfOk result (λ r. r ≡ front ++ items.now) }
{
    let mut all = front;
    for item in items {
        all.push(copy_item(alloc, item)?)?;
    }
    Ok(all)
}

// What stands for a token of a body, behind others.
fn append_stand_in(
    alloc: Global,
    front: Row<Item>,
    params: &[Text],
    args: &[Row<Item>],
    token: &Token,
) -> Result<Row<Item>, NoMemory>
    ensures { IfOk result (λ r. r ≡ front ++ stand_in params.now args.now token.now) }
{
    let mut front = front;
    if let TokenKind::Name(name) = &token.kind {
        if let Some(i) = index_of(name.as_slice(), params) {
            if let Some(arg) = args.get(i) {
                return append(alloc, front, arg.as_slice());
            }
        }
    }
    front.push(fresh(alloc, token)?)?;
    Ok(front)
}

/// A body with arguments in the place of its parameters (C99 6.10.3.1).
pub fn substitute(
    alloc: Global,
    params: &[Text],
    args: &[Row<Item>],
    body: &[Token],
) -> Result<Row<Item>, NoMemory>
    ensures { IfOk result (λ r. r ≡ substituted params.now args.now [] body.now) }
{
    let mut all = Row::new(alloc);
    for token in body {
        all = append_stand_in(alloc, all, params, args, token)?;
    }
    Ok(all)
}

/// A replacement: each item at the place of the macro's name, with names hidden from it beside those
/// before; or 123, where over 64 are. It also fails for want of memory.
pub fn replacement(
    alloc: Global,
    place: Place,
    hidden: &Names,
    items: &[Item],
) -> Result<Row<Item>, Stop>
    ensures { Answers result (λ v. v ≡ replacement place hidden.now [] items.now) }
{
    let mut all = Row::new(alloc);
    for item in items {
        let names = item.hidden.joined(alloc, hidden)?;
        if names.len() > MAX_HIDDEN {
            return Err(Stop::Out(Offence { code: 123, place }));
        }
        let kind = copy_kind(alloc, &item.token.kind)?;
        let token = Token {
            kind,
            place,
            first: item.token.first,
            spaced: item.token.spaced,
        };
        all.push(Item {
            token,
            hidden: names,
            raw: false,
        })?;
    }
    Ok(all)
}
