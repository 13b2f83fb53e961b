//! What stands first in a list of tokens.

ghost use Rattle.std.specs.Prelude.{◌≡◌, IfOk, Ok, Err, Some, length, drop, List, [], ◌<◌, ◌≤◌, ◌+◌};
ghost use Rattle.cl_macro.specs.Items.{is_mark, begins_line, begins_directive};
ghost use Rattle.cl_macro.specs.Names.{with_name, common};
ghost use Rattle.cl_macro.specs.Replacements.{replacement, substituted};
ghost use Rattle.cl_macro.specs.Firsts.{ends, parts, depth_behind, arguments, is_first_empty, takes, starts_open, named, call_of, becomes, use_by, open_name, first};
ghost use Rattle.cl_macro.specs.Tables.{latest};

use crate::item::{Arguments, Call, First, Item};
use crate::macros::Macro;
use crate::names::has;
use crate::replace::{replacement, substitute};
use crate::row::Row;
use crate::stack::Stack;
use crate::table::Table;
use cl_lexer::TokenKind;
use clv_place::{NoMemory, Offence, Stop, Text};
use std::alloc::Global;

/// The number of `#`.
pub const HASH: u8 = 2;
/// The number of `(`.
pub const OPEN: u8 = 8;
/// The number of `)`.
pub const CLOSE: u8 = 9;
/// The number of `,`.
pub const COMMA: u8 = 15;

/// Whether a token is the mark of a number.
pub fn is_mark(number: u8, kind: &TokenKind) -> bool
    ensures { result ≡ is_mark number kind.now }
{
    match kind {
        TokenKind::Mark(mark) => *mark == number,
        _ => false,
    }
}

impl Item {
    /// Whether it is the first token of a line of the text itself.
    pub fn begins_line(&self) -> bool
        ensures { result ≡ begins_line self.now }
    {
        self.raw && self.token.first
    }

    /// Whether it is a `#` that begins a directive (C99 6.10).
    pub fn begins_directive(&self) -> bool
        ensures { result ≡ begins_directive self.now }
    {
        self.begins_line() && is_mark(HASH, &self.token.kind)
    }
}

fn ends(kind: &TokenKind, depth: usize) -> bool
    ensures { result ≡ ends kind.now depth }
{
    is_mark(CLOSE, kind) && depth == 0
}

fn parts(kind: &TokenKind, depth: usize) -> bool
    ensures { result ≡ parts kind.now depth }
{
    is_mark(COMMA, kind) && depth == 0
}

fn depth_behind(kind: &TokenKind, depth: usize, n: usize) -> usize
    requires { depth < n }
    ensures depth { result ≡ depth_behind kind.now depth }
    ensures more { result ≤ depth + 1 }
{
    if is_mark(OPEN, kind) {
        depth + 1
    } else if is_mark(CLOSE, kind) {
        depth.saturating_sub(1)
    } else {
        depth
    }
}

// The arguments up to the `)` that ends them; none where the list or the text before a directive ends
// first.
fn arguments(alloc: Global, inside: Stack<Item>) -> Result<Option<Arguments>, NoMemory>
    ensures { IfOk result (λ r. r ≡ arguments [] [] 0 inside) }
{
    let mut rest = inside;
    let n = rest.len();
    let mut whole = Row::new(alloc);
    let mut now = Row::new(alloc);
    let mut depth: usize = 0;
    while let Some(t) = rest.pop() {
        if t.begins_directive() {
            return Ok(None);
        }
        if ends(&t.token.kind, depth) {
            whole.push(now)?;
            return Ok(Some(Arguments {
                list: whole,
                hidden: t.hidden,
                beyond: rest,
            }));
        }
        if parts(&t.token.kind, depth) {
            whole.push(now)?;
            now = Row::new(alloc);
            depth = 0;
        } else {
            depth = depth_behind(&t.token.kind, depth, n);
            now.push(t)?;
        }
    }
    Ok(None)
}

fn is_first_empty(args: &[Row<Item>]) -> bool
    ensures { result ≡ is_first_empty args.now }
{
    match args {
        [] => false,
        [a, ..] => a.len() == 0,
    }
}

fn takes(params: usize, args: &[Row<Item>]) -> bool
    ensures { result ≡ takes params args.now }
{
    if params == 0 && args.len() == 1 {
        is_first_empty(args)
    } else {
        params == args.len()
    }
}

fn starts_open(rest: &Stack<Item>) -> bool
    ensures { result ≡ starts_open rest.now }
{
    match rest.peek() {
        Some(t) => is_mark(OPEN, &t.token.kind),
        None => false,
    }
}

// A call of a macro, or 115 where its arguments are not ended, or 114 where they are too many or too few.
fn call(
    alloc: Global,
    params: usize,
    at: usize,
    name: &[u8],
    t: &Item,
    inside: Stack<Item>,
) -> Result<First, NoMemory>
    ensures { IfOk result (λ f. f ≡ call_of params at name.now t.now (arguments [] [] 0 inside)) }
{
    let place = t.token.place;
    match arguments(alloc, inside)? {
        None => Ok(First::Bad(Offence { code: 115, place })),
        Some(args) => {
            if takes(params, args.list.as_slice()) {
                let both = t.hidden.common(alloc, &args.hidden)?;
                let hidden = both.with(alloc, name)?;
                Ok(First::Calls(
                    Call {
                        at,
                        place,
                        hidden,
                        beyond: args.beyond,
                    },
                    args.list,
                ))
            } else {
                Ok(First::Bad(Offence { code: 114, place }))
            }
        }
    }
}

// A macro without parameters is replaced.
fn becomes(
    alloc: Global,
    m: &Macro,
    name: &[u8],
    t: &Item,
    rest: Stack<Item>,
) -> Result<First, NoMemory>
    ensures { IfOk result (λ f. f ≡ becomes (replacement t.now.token.place (with_name name.now t.now.hidden) [] (substituted [] [] [] m.now.body)) rest) }
{
    let hidden = t.hidden.with(alloc, name)?;
    let body = substitute(alloc, &[], &[], m.body.as_slice())?;
    match replacement(alloc, t.token.place, &hidden, body.as_slice()) {
        Ok(items) => {
            let mut rest = rest;
            rest.put(items)?;
            Ok(First::Becomes(rest))
        }
        Err(Stop::Out(e)) => Ok(First::Bad(e)),
        Err(Stop::NoMemory) => Err(NoMemory),
    }
}

// A name that names a macro.
fn use_of(
    alloc: Global,
    m: &Macro,
    at: usize,
    name: &[u8],
    t: Item,
    rest: Stack<Item>,
) -> Result<First, NoMemory>
    ensures { IfOk result (λ f. f ≡ use_by at name.now t rest m.now m.now.params) }
{
    match &m.params {
        None => becomes(alloc, m, name, &t, rest),
        Some(params) => {
            if starts_open(&rest) {
                let mut inside = rest;
                inside.drop_top();
                call(alloc, params.len(), at, name, &t, inside)
            } else {
                Ok(First::Kept(t, rest))
            }
        }
    }
}

// A name that is not hidden.
fn named(
    alloc: Global,
    table: &Table,
    name: &[u8],
    t: Item,
    rest: Stack<Item>,
) -> Result<First, NoMemory>
    ensures { IfOk result (λ f. f ≡ named table.now name.now t rest (latest name.now table.now)) }
{
    match table.latest(name) {
        None => Ok(First::Kept(t, rest)),
        Some(at) => match table.meaning(at) {
            None => Ok(First::Kept(t, rest)),
            Some(m) => use_of(alloc, m, at, name, t, rest),
        },
    }
}

// The name of a token that may be replaced.
fn open_name(alloc: Global, t: &Item) -> Result<Option<Text>, NoMemory>
    ensures { IfOk result (λ n. n ≡ open_name t.now) }
{
    match &t.token.kind {
        TokenKind::Name(name) => {
            if has(name.as_slice(), t.hidden.as_slice()) {
                Ok(None)
            } else {
                Ok(Some(Text::from_bytes(alloc, name.as_slice())?))
            }
        }
        _ => Ok(None),
    }
}

/// What stands first in a list of tokens (C99 6.10.3): by the table, a name is replaced unless it is hidden
/// from itself. 114: a macro has the wrong number of arguments; 115: they are not ended before a directive
/// or the end of the list; 123: a token of a replacement has over 64 hidden names. Each stands at the name.
pub fn first(alloc: Global, table: &Table, input: Stack<Item>) -> Result<First, NoMemory>
    ensures { IfOk result (λ f. f ≡ first table.now input) }
{
    let mut rest = input;
    match rest.pop() {
        None => Ok(First::End),
        Some(t) => match open_name(alloc, &t)? {
            None => Ok(First::Kept(t, rest)),
            Some(name) => named(alloc, table, name.as_slice(), t, rest),
        },
    }
}
