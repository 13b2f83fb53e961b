//! Each call once, and macros in small lists of tokens.

use cl_lexer::{Token, TokenKind, lex};
use cl_macro::expansion::{expand, expand_each, one_replacement, one_verdict, replace_call};
use cl_macro::first::{HASH, OPEN, first, is_mark};
use cl_macro::item::{First, Item, Room};
use cl_macro::macros::{Entry, Macro};
use cl_macro::names::{Names, has, index_of};
use cl_macro::replace::{copy_kind, copy_token, fresh, replacement, substitute};
use cl_macro::row::Row;
use cl_macro::stack::Stack;
use cl_macro::table::Table;
use clv_place::{List, NoMemory, Offence, Place, Stop, Text};
use std::alloc::Global;
use std::test::Fail;

#[test]
fn rows_and_stacks_keep_their_items(rt: HostRuntime) -> Result<(), Fail> {
    let mut row = Row::new(rt.alloc());
    row.push(1u8)?;
    row.push(2)?;
    row.push(3)?;
    assert_eq!(rt; row.pop(), Some(3));
    assert_eq!(rt; row.len(), 2);
    assert_eq!(rt; row.as_slice(), [1, 2].as_slice());
    let mut stack = Stack::of(rt.alloc(), row)?;
    assert_eq!(rt; stack.peek().copied(), Some(1));
    stack.push(0)?;
    assert_eq!(rt; stack.pop(), Some(0));
    stack.drop_top();
    let mut more = Row::new(rt.alloc());
    more.push(8)?;
    more.push(9)?;
    stack.put(more)?;
    assert_eq!(rt; stack.len(), 3);
    assert!(rt; !stack.is_empty());
    let list = stack.into_row(rt.alloc())?.into_list();
    assert_eq!(rt; list.as_slice(), [8, 9, 2].as_slice());
    Ok(())
}

fn names_of(alloc: Global, words: &[&[u8]]) -> Result<Names, NoMemory> {
    let mut names = List::new(alloc);
    for word in words {
        names.push(Text::from_bytes(alloc, *word)?)?;
    }
    Names::of(alloc, names)
}

#[test]
fn names_are_joined_once(rt: HostRuntime) -> Result<(), Fail> {
    let ab = names_of(rt.alloc(), &[b"a", b"b"])?;
    let bc = names_of(rt.alloc(), &[b"b", b"c"])?;
    assert!(rt; has(b"b", ab.as_slice()) && !has(b"c", ab.as_slice()));
    assert_eq!(rt; index_of(b"b", ab.as_slice()), Some(1));
    let abc = ab.joined(rt.alloc(), &bc)?;
    assert_eq!(rt; (abc.len(), index_of(b"c", abc.as_slice())), (3, Some(2)));
    assert_eq!(rt; Names::none().joined(rt.alloc(), &bc)?.len(), 2);
    let both = abc.common(rt.alloc(), &bc)?;
    assert_eq!(rt; index_of(b"c", both.as_slice()), Some(1));
    assert_eq!(rt; ab.with(rt.alloc(), b"a")?.len(), 2);
    assert_eq!(rt; ab.with(rt.alloc(), b"d")?.share()?.len(), 3);
    Ok(())
}

// The table with a macro more, or without one of the name.
fn defined(
    alloc: Global,
    table: Table,
    name: &[u8],
    params: Option<List<Text>>,
    body: Option<&[u8]>,
) -> Result<Table, Stop> {
    let name = Text::from_bytes(alloc, name)?;
    let means = match body {
        None => None,
        Some(body) => Some(Macro {
            params,
            body: lex(alloc, body)?.list,
        }),
    };
    Ok(table.with(alloc, Entry { name, means })?)
}

// A list with one name.
fn one_name(alloc: Global, name: &[u8]) -> Result<List<Text>, NoMemory> {
    let mut names = List::new(alloc);
    names.push(Text::from_bytes(alloc, name)?)?;
    Ok(names)
}

#[test]
fn the_last_entry_of_a_name_counts(rt: HostRuntime) -> Result<(), Fail> {
    let table = Table::new(rt.alloc());
    assert_eq!(rt; table.latest(b"a"), None);
    let table = defined(rt.alloc(), table, b"a", None, Some(b"1"))?;
    let table = defined(rt.alloc(), table, b"b", None, Some(b"1 2"))?;
    assert_eq!(rt;
        (table.latest(b"a"), table.latest(b"b")),
        (Some(0), Some(1))
    );
    let table = defined(rt.alloc(), table, b"a", None, None)?;
    assert_eq!(rt; table.latest(b"a"), Some(2));
    assert!(rt; table.look_up(b"a").is_none() && table.meaning(0).is_some());
    assert_eq!(rt; table.look_up(b"b").map(|m| m.body.len()), Some(2));
    Ok(())
}

// The tokens of a text.
fn read(alloc: Global, text: &[u8]) -> Result<Stack<Item>, Stop> {
    let mut items = Row::new(alloc);
    for token in lex(alloc, text)?.list.as_slice() {
        let mut item = fresh(alloc, token)?;
        item.raw = true;
        items.push(item)?;
    }
    Ok(Stack::of(alloc, items)?)
}

// Macros `f(x) f(x+a)`, `a b 1` and `b a f`.
fn macros(alloc: Global) -> Result<Table, Stop> {
    let table = Table::new(alloc);
    let table = defined(
        alloc,
        table,
        b"f",
        Some(one_name(alloc, b"x")?),
        Some(b"f(x+a)"),
    )?;
    let table = defined(alloc, table, b"a", None, Some(b"b 1"))?;
    defined(alloc, table, b"b", None, Some(b"a f"))
}

// Whether these are the names and the marks of a text.
fn spells(alloc: Global, items: &[Item], text: &[u8]) -> Result<bool, Stop> {
    let wanted = lex(alloc, text)?.list;
    if wanted.len() != items.len() {
        return Ok(false);
    }
    let mut at = 0;
    for item in items {
        let same = match (&item.token.kind, wanted.get(at).map(|t| &t.kind)) {
            (TokenKind::Name(a), Some(TokenKind::Name(b))) => a.as_slice() == b.as_slice(),
            (TokenKind::Mark(a), Some(kind)) => is_mark(*a, kind),
            (TokenKind::Number { .. }, Some(TokenKind::Number { .. })) => true,
            _ => false,
        };
        if !same {
            return Ok(false);
        }
        at += 1;
    }
    Ok(true)
}

#[test]
fn macros_are_replaced(rt: HostRuntime) -> Result<(), Fail> {
    let table = macros(rt.alloc())?;
    let table_of: [(&[u8], &[u8]); 5] = [
        (b"f(2) x", b"f(2+a f 1) x"),
        (b"a(3)", b"a f 1(3)"),
        (b"b", b"b 1 f"),
        (b"f\n(f(1))", b"f(f(1+a f 1)+a f 1)"),
        (b"f", b"f"),
    ];
    for (text, wanted) in table_of {
        let out = expand(rt.alloc(), &table, Room::Endless, read(rt.alloc(), text)?)?;
        assert!(rt; spells(rt.alloc(), out.as_slice(), wanted)?, "{text:?}");
    }
    let full = Offence {
        code: 121,
        place: Place { line: 7, col: 8 },
    };
    let room = Room::Tokens(8, full);
    let stop = expand(rt.alloc(), &table, room, read(rt.alloc(), b"f(2) x")?).err();
    assert_eq!(rt; stop, Some(Stop::Out(full)));
    let room = Room::Tokens(9, full);
    let out = expand(rt.alloc(), &table, room, read(rt.alloc(), b"f(2) x")?)?;
    assert_eq!(rt; out.len(), 9);
    one_verdict();
    one_replacement();
    Ok(())
}

// The offence that stands first.
fn offence_in(found: First) -> Option<Offence> {
    match found {
        First::Bad(e) => Some(e),
        First::End => None,
        First::Kept(_token, _rest) => None,
        First::Becomes(_rest) => None,
        First::Calls(_call, _args) => None,
    }
}

// What is to be read on in the place of the call that stands first.
fn read_on(alloc: Global, table: &Table, found: First) -> Result<Stack<Item>, Stop> {
    match found {
        First::Calls(call, args) => replace_call(alloc, table, call, args),
        First::Bad(_offence) => Ok(Stack::new(alloc)),
        First::End => Ok(Stack::new(alloc)),
        First::Kept(_token, rest) => Ok(rest),
        First::Becomes(rest) => Ok(rest),
    }
}

#[test]
fn what_stands_first_is_told(rt: HostRuntime) -> Result<(), Fail> {
    let table = macros(rt.alloc())?;
    let refused: [(&[u8], u16); 3] = [(b" f(1,2)", 114), (b" f(1", 115), (b" f(1\n#)", 115)];
    for (text, code) in refused {
        let place = Place { line: 1, col: 2 };
        let found = first(rt.alloc(), &table, read(rt.alloc(), text)?)?;
        assert_eq!(rt;
            offence_in(found),
            Some(Offence { code, place }),
            "{text:?}"
        );
    }
    let found = first(rt.alloc(), &table, read(rt.alloc(), b"f(a) z")?)?;
    let next = read_on(rt.alloc(), &table, found)?.into_row(rt.alloc())?;
    assert!(rt; spells(rt.alloc(), next.as_slice(), b"f(a f 1+a) z")?);
    let mut args = Row::new(rt.alloc());
    args.push(read(rt.alloc(), b"b")?.into_row(rt.alloc())?)?;
    assert_eq!(rt; expand_each(rt.alloc(), &table, args)?.len(), 1);
    Ok(())
}

#[test]
fn tokens_are_copied(rt: HostRuntime) -> Result<(), Fail> {
    let tokens = lex(rt.alloc(), b"#x 1 'c'")?;
    for token in tokens.list.as_slice() {
        let copy: Token = copy_token(rt.alloc(), token)?;
        assert_eq!(rt; (copy.place, copy.first), (token.place, token.first));
        let is_hash = is_mark(HASH, &copy_kind(rt.alloc(), &copy.kind)?);
        assert_eq!(rt; is_hash, token.first);
    }
    let mut input = read(rt.alloc(), b"#x")?;
    let Some(hash) = input.pop() else {
        return Err(Fail::new("no token"));
    };
    assert!(rt; hash.begins_line() && hash.begins_directive());
    let body = substitute(rt.alloc(), &[], &[], tokens.list.as_slice())?;
    let place = Place { line: 3, col: 4 };
    let items = replacement(rt.alloc(), place, &Names::none(), body.as_slice())?;
    assert_eq!(rt;
        items
            .as_slice()
            .iter()
            .filter(|i| i.token.place == place)
            .count(),
        4
    );
    assert!(rt;
        !items
            .as_slice()
            .iter()
            .any(|i| i.raw || is_mark(OPEN, &i.token.kind))
    );
    Ok(())
}
