//! The whole of preprocessing.

ghost use Rattle.std.specs.Prelude.{◌≡◌, ◌++◌, IfOk, List, [], map, None};
ghost use Rattle.cl_macro.specs.Answers.{Answers};
ghost use Rattle.cl_macro.specs.Items.{of_text};
ghost use Rattle.cl_pre.specs.Expansion.{Expansion, OneVerdict, Step, Preprocesses, is_before, earlier_of, beginning, most};
ghost use Rattle.cl_pre.specs.Settled.{stop_of};
ghost use Rattle.cl_pre.specs.Unended.{unended_from};

use crate::condition::holds;
use crate::front::{Front, Progress, State, front_of};
use crate::group::Group;
use crate::predefined::predefined;
use crate::unended::unended;
use cl_lexer::{Token, Tokens};
use cl_macro::expansion::replace_call;
use cl_macro::item::Item;
use cl_macro::names::Names;
use cl_macro::replace::copy_token;
use cl_macro::row::Row;
use cl_macro::stack::Stack;
use clv_place::{List, NoMemory, Offence, Place, Stop};
use std::alloc::Global;

/// The most tokens that preprocessing may give.
pub const MAX_RESULT: usize = 262_144;

// What comes next, or the first offence.
#[tactic(auto, using(crate::proofs::Steps::steps))]
fn step(alloc: Global, s: State) -> Result<Progress, Stop>
    ensures { Answers result (Step s) }
{
    match front_of(alloc, s)? {
        Front::Plain(Ok(progress)) => Ok(progress),
        Front::Plain(Err(e)) => Err(Stop::Out(e)),
        Front::Calls(table, groups, call, args) => {
            let input = replace_call(alloc, &table, call, args)?;
            Ok(Progress::Goes(State {
                table,
                groups,
                input,
            }))
        }
        Front::Asks(place, items, rest) => {
            let State {
                table,
                groups,
                input,
            } = rest;
            let holds = holds(alloc, &table, place, Stack::of(alloc, items)?)?;
            let mut groups = groups;
            groups.push(Group::opened(holds))?;
            Ok(Progress::Goes(State {
                table,
                groups,
                input,
            }))
        }
    }
}

// The tokens of the text itself.
fn items_of(alloc: Global, tokens: &[Token]) -> Result<Row<Item>, NoMemory>
    ensures { IfOk result (λ r. r ≡ map of_text tokens.now) }
{
    let mut items = Row::new(alloc);
    for token in tokens {
        items.push(Item {
            token: copy_token(alloc, token)?,
            hidden: Names::none(),
            raw: true,
        })?;
    }
    Ok(items)
}

fn beginning(alloc: Global, tokens: &[Token]) -> Result<State, NoMemory>
    ensures { IfOk result (λ s. s ≡ beginning tokens.now) }
{
    Ok(State {
        table: predefined(alloc)?,
        groups: Stack::new(alloc),
        input: Stack::of(alloc, items_of(alloc, tokens)?)?,
    })
}

// The tokens that what is left gives, or its first offence.
#[tactic(auto, using(crate::proofs::Leading::leading))]
fn preprocess(alloc: Global, whole: State) -> Result<List<Token>, Stop>
    ensures { Answers result (Preprocesses most whole) }
{
    let mut state = whole;
    let mut out = List::new(alloc);
    for _ in 0..u64::MAX {
        match step(alloc, state)? {
            Progress::Ends => return Ok(out),
            Progress::Goes(next) => state = next,
            Progress::Gives(token, next) => {
                if out.len() >= MAX_RESULT {
                    let place = token.place;
                    return Err(Stop::Out(Offence { code: 124, place }));
                }
                out.push(token)?;
                state = next;
            }
        }
    }
    Err(Stop::NoMemory)
}

// Whether an offence comes before another.
fn is_before(d: Offence, e: Offence) -> bool
    ensures { result ≡ is_before d e }
{
    if d.place.line < e.place.line {
        true
    } else if e.place.line < d.place.line {
        false
    } else if d.place.col < e.place.col {
        true
    } else if e.place.col < d.place.col {
        false
    } else {
        d.code < e.code
    }
}

// The first of two offences.
fn earlier_of(d: Offence, e: Offence) -> Offence
    ensures { result ≡ earlier_of d e }
{
    if is_before(d, e) { d } else { e }
}

// Why there is no answer where an `#if` is not ended, and preprocessing stops otherwise.
fn stop_of(missing: Offence, stop: Stop) -> Stop
    ensures { result ≡ stop_of missing stop }
{
    match stop {
        Stop::Out(e) => Stop::Out(earlier_of(missing, e)),
        Stop::NoMemory => Stop::NoMemory,
    }
}

// The answer for the whole, by the `#if` that is not ended and what else is found.
#[tactic(auto, using(crate::proofs::Settling::settling))]
fn settle(
    tokens: &Tokens,
    unended: Option<Place>,
    found: Result<List<Token>, Stop>,
) -> Result<Tokens, Stop>
    requires found { Answers found (Preprocesses most (beginning tokens.now.list)) }
    requires unended { unended ≡ unended_from None 0 tokens.now.list }
    ensures { Answers result (Expansion tokens.now) }
{
    let end = tokens.end;
    match unended {
        None => match found {
            Ok(list) => Ok(Tokens { list, end }),
            Err(stop) => Err(stop),
        },
        Some(place) => {
            let missing = Offence { code: 117, place };
            match found {
                Ok(_) => Err(Stop::Out(missing)),
                Err(stop) => Err(stop_of(missing, stop)),
            }
        }
    }
}

/// The tokens of a text with its directives obeyed and its macros replaced (C99 6.10), or its first
/// offence. A token keeps its kind, and whether it begins a line or stands behind a separator; one that
/// comes from a macro has the place of the outermost macro name in the text. The end stays. The offences
/// stand at the `#` of the directive, but 114, 115 and 123 at the macro's name, and 124 at the token:
/// 110 an unknown or left-out directive, or `#` or `##` in a replacement; 111 the name of a macro is
/// missing, no name, or `defined`; 112 a malformed or repeating parameter list; 113 a macro is defined
/// again with other tokens, or is predefined; 114 the wrong number of arguments; 115 arguments that are not
/// ended before a directive or the end; 116 `#elif`, `#else` or `#endif` without its `#if`; 117 an `#if` is
/// not ended; 118 `#error`; 119 an `#if` expression is malformed; 120 it divides by zero; 121 it has over
/// 256 tokens after its macros are replaced; 122 tokens after the end of a directive; 123 over 64 names are
/// hidden from a replaced token; 124 over 262,144 tokens. The least code of one line, and of the others
/// the one that is met first, but 117 by its place. It also fails for want of memory.
pub fn expand(alloc: Global, tokens: &Tokens) -> Result<Tokens, Stop>
    ensures { Answers result (Expansion tokens.now) }
{
    let unended = unended(tokens.list.as_slice());
    let start = beginning(alloc, tokens.list.as_slice())?;
    let found = preprocess(alloc, start);
    settle(tokens, unended, found)
}

/// A law: each text has one verdict, so `expand` answers its tokens exactly where it has any, and its first
/// offence exactly where it has one.
#[tactic(auto, using(crate::proofs::Unique::one_verdict))]
pub fn one_verdict()
    ensures { OneVerdict }
{
    cl_macro::expansion::one_verdict();
    cl_macro::expansion::one_replacement();
    cl_condition::one_judgement();
}
