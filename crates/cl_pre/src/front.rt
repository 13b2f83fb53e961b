//! What stands first in the rest of a text.

ghost use Rattle.std.specs.Prelude.{◌≡◌, IfOk, List, []};
ghost use Rattle.cl_pre.specs.Fronts.{starts_line, line_from, going, obeyed, text_front, directive_front, starts_directive, passed_front, front_of};
ghost use Rattle.cl_macro.specs.Firsts.{first};

use crate::directive::{Effect, effect_of};
use crate::group::{Group, is_read, top_of};
use cl_lexer::Token;
use cl_macro::first::first;
use cl_macro::item::{Call, First, Item};
use cl_macro::row::Row;
use cl_macro::stack::Stack;
use cl_macro::table::Table;
use clv_place::{NoMemory, Offence, Place};
use std::alloc::Global;

/// What is left of a text: its tokens, within open groups, the innermost first, and the macros so far.
#[derive(Drop)]
pub struct State {
    pub table: Table,
    pub groups: Stack<Group>,
    pub input: Stack<Item>,
}

/// What comes next.
#[derive(Drop)]
pub enum Progress {
    /// Nothing is left.
    Ends,
    /// A token goes out.
    Gives(Token, State),
    Goes(State),
}

/// What stands first.
#[derive(Drop)]
pub enum Front {
    /// What comes next is plain, or an offence.
    Plain(Result<Progress, Offence>),
    /// A call is to be replaced.
    Calls(Table, Stack<Group>, Call, Row<Row<Item>>),
    /// The condition of the directive at a place is to be judged, for a group that opens.
    Asks(Place, Row<Item>, State),
}

/// The tokens of a directive behind its `#`, and what follows its line.
#[derive(Drop)]
pub struct Line {
    pub tokens: Row<Token>,
    pub beyond: Stack<Item>,
}

fn starts_line(input: &Stack<Item>) -> bool
    ensures { result ≡ starts_line input.now }
{
    match input.peek() {
        Some(t) => t.begins_line(),
        None => false,
    }
}

fn line_of(alloc: Global, input: Stack<Item>) -> Result<Line, NoMemory>
    ensures { IfOk result (λ l. l ≡ line_from [] input) }
{
    let mut tokens = Row::new(alloc);
    let mut beyond = input;
    while !starts_line(&beyond) {
        match beyond.pop() {
            None => return Ok(Line { tokens, beyond }),
            Some(t) => tokens.push(t.token)?,
        }
    }
    Ok(Line { tokens, beyond })
}

fn going(table: Table, groups: Stack<Group>, input: Stack<Item>) -> Front
    ensures { result ≡ going table groups input }
{
    Front::Plain(Ok(Progress::Goes(State {
        table,
        groups,
        input,
    })))
}

// An effect, and what follows the directive's line.
fn obeyed(
    alloc: Global,
    table: Table,
    groups: Stack<Group>,
    place: Place,
    input: Stack<Item>,
    effect: Effect,
) -> Result<Front, NoMemory>
    ensures { IfOk result (λ f. f ≡ obeyed table groups place input effect) }
{
    let mut groups = groups;
    match effect {
        Effect::Nothing => Ok(going(table, groups, input)),
        Effect::Defines(entry) => Ok(going(table.with(alloc, entry)?, groups, input)),
        Effect::Opens(group) => {
            groups.push(group)?;
            Ok(going(table, groups, input))
        }
        Effect::Turns(group) => {
            groups.drop_top();
            groups.push(group)?;
            Ok(going(table, groups, input))
        }
        Effect::Closes => {
            groups.drop_top();
            Ok(going(table, groups, input))
        }
        Effect::Asks(items) => Ok(Front::Asks(
            place,
            items,
            State {
                table,
                groups,
                input,
            },
        )),
        Effect::AsksAgain(items) => {
            groups.drop_top();
            Ok(Front::Asks(
                place,
                items,
                State {
                    table,
                    groups,
                    input,
                },
            ))
        }
        Effect::Fails(code) => Ok(Front::Plain(Err(Offence { code, place }))),
    }
}

fn directive_front(
    alloc: Global,
    table: Table,
    groups: Stack<Group>,
    place: Place,
    line: Line,
) -> Result<Front, NoMemory>
    ensures { IfOk result (λ f. f ≡ directive_front table groups place line) }
{
    let top = top_of(&groups);
    let effect = effect_of(alloc, &table, top, line.tokens.as_slice())?;
    obeyed(alloc, table, groups, place, line.beyond, effect)
}

fn text_front(table: Table, groups: Stack<Group>, first: First) -> Front
    ensures { result ≡ text_front table groups first }
{
    match first {
        First::End => Front::Plain(Ok(Progress::Ends)),
        First::Kept(t, input) => Front::Plain(Ok(Progress::Gives(
            t.token,
            State {
                table,
                groups,
                input,
            },
        ))),
        First::Becomes(input) => going(table, groups, input),
        First::Bad(e) => Front::Plain(Err(e)),
        First::Calls(call, args) => Front::Calls(table, groups, call, args),
    }
}

fn starts_directive(input: &Stack<Item>) -> bool
    ensures { result ≡ starts_directive input.now }
{
    match input.peek() {
        Some(t) => t.begins_directive(),
        None => false,
    }
}

// What stands first where no directive does.
fn passed_front(
    alloc: Global,
    table: Table,
    groups: Stack<Group>,
    input: Stack<Item>,
) -> Result<Front, NoMemory>
    ensures { IfOk result (λ f. f ≡ passed_front table groups input) }
{
    if input.is_empty() {
        Ok(Front::Plain(Ok(Progress::Ends)))
    } else if is_read(top_of(&groups)) {
        let found = first(alloc, &table, input)?;
        Ok(text_front(table, groups, found))
    } else {
        let mut rest = input;
        rest.drop_top();
        Ok(going(table, groups, rest))
    }
}

/// What stands first in what is left: a directive is obeyed, a token in a skipped group is passed over, and
/// other tokens are text. It fails for want of memory.
pub fn front_of(alloc: Global, s: State) -> Result<Front, NoMemory>
    ensures { IfOk result (λ f. f ≡ front_of s) }
{
    let State {
        table,
        groups,
        input,
    } = s;
    if starts_directive(&input) {
        let mut rest = input;
        match rest.pop() {
            None => Ok(Front::Plain(Ok(Progress::Ends))),
            Some(t) => {
                let line = line_of(alloc, rest)?;
                directive_front(alloc, table, groups, t.token.place, line)
            }
        }
    } else {
        passed_front(alloc, table, groups, input)
    }
}
