//! Each call once, with values that no contract gave.

use crate::{List, NoMemory, Offence, Place, Stop, Text, place_at};
use std::alloc::AllocError;
use std::test::Fail;

#[test]
fn places_of_bytes(rt: HostRuntime) {
    let text = b"ab\n\ncd\r\n";
    let table = [
        (0, 1, 1),
        (1, 1, 2),
        (2, 1, 3),
        (3, 2, 1),
        (4, 3, 1),
        (6, 3, 3),
        (7, 3, 4),
        (8, 4, 1),
    ];
    for (at, line, col) in table {
        assert_eq!(rt; place_at(text, at), Place { line, col }, "at {at}");
    }
}

#[test]
fn lists_keep_their_items(rt: HostRuntime) -> Result<(), Fail> {
    let mut list = List::new(rt.alloc());
    assert!(rt; list.is_empty());
    list.push(5u32)?;
    list.push(7)?;
    assert_eq!(rt; list.len(), 2);
    assert_eq!(rt; list.get(1).copied(), Some(7));
    assert_eq!(rt; list.get(2).copied(), None);
    assert_eq!(rt; list.as_slice(), [5, 7].as_slice());
    let whole = List::from_vec(vec![in rt.alloc(); 1u8, 2]?);
    assert_eq!(rt; whole.as_slice(), [1, 2].as_slice());
    Ok(())
}

#[test]
fn texts_keep_their_bytes(rt: HostRuntime) -> Result<(), Fail> {
    let mut text = Text::new(rt.alloc());
    assert!(rt; text.is_empty());
    text.extend(b"ab")?;
    text.extend(b"c")?;
    assert_eq!(rt; text.len(), 3);
    assert_eq!(rt; text.get(2), Some(b'c'));
    assert_eq!(rt; text.get(3), None);
    assert_eq!(rt; text.as_slice(), b"abc".as_slice());
    text.set(1, b'x');
    assert_eq!(rt; text.as_slice(), b"axc".as_slice());
    text.set(1, b'b');
    let copy = Text::from_bytes(rt.alloc(), text.as_slice())?;
    assert_eq!(rt; copy.as_slice(), b"abc".as_slice());
    let whole = Text::from_vec(vec![in rt.alloc(); b'x']?);
    assert_eq!(rt; whole.as_slice(), b"x".as_slice());
    Ok(())
}

#[test]
fn want_of_memory_is_one_stop(rt: HostRuntime) {
    assert_eq!(rt; Stop::from(NoMemory), Stop::NoMemory);
    assert_eq!(rt; Stop::from(AllocError), Stop::NoMemory);
    assert_eq!(rt; NoMemory::from(AllocError), NoMemory);
    let offence = Offence {
        code: 105,
        place: Place { line: 1, col: 1 },
    };
    assert_ne!(rt; Stop::Out(offence), Stop::NoMemory);
}
