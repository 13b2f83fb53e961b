//! Rows of digits, whose trees are written behind one another: operands first, then their operator.

use cl_precedence::{Operand, grouped, one_grouping};
use clv_place::{NoMemory, Text};
use std::alloc::Global;
use std::test::Fail;

#[derive(Drop)]
struct Written {
    text: Text,
}

impl Operand for Written {
    ghost use Rattle.std.specs.Prelude.{◌≡◌, ◌++◌, ◌∷◌, [], if◌then◌else◌, ◌==◌, ◌||◌};

    type Operator = u8;

    ghost level = { λ operator. if operator == 42 then 3 else if (operator == 43) || (operator == 45) then 2 else 0 };

    ghost Joins = { λ operator left right tree. tree.text ≡ (left.text ++ right.text) ++ operator ∷ [] };

    fn level(operator: u8) -> u8 {
        match operator {
            b'*' => 3,
            b'+' | b'-' => 2,
            _ => 0,
        }
    }

    fn join(
        _alloc: Global,
        operator: u8,
        left: Written,
        right: Written,
    ) -> Result<Written, NoMemory> {
        let Written { mut text } = left;
        text.extend(right.text.as_slice())?;
        text.extend(&[operator])?;
        Ok(Written { text })
    }
}

// The tree of a row of digits and operators that are one byte each.
fn tree_of(alloc: Global, row: &[u8]) -> Result<Text, NoMemory> {
    let mut rest = Vec::new(alloc);
    let mut operator = b'+';
    for byte in row {
        if byte.is_ascii_digit() {
            let text = Text::from_bytes(alloc, &[*byte])?;
            rest.push((operator, Written { text }))?;
        } else {
            operator = *byte;
        }
    }
    let zero = Text::from_bytes(alloc, b"0")?;
    let tree = grouped(alloc, Written { text: zero }, rest)?;
    Ok(tree.text)
}

#[test]
fn tighter_first_and_to_the_left(rt: HostRuntime) -> Result<(), Fail> {
    one_grouping::<Written>();
    let table = [
        ("", "0"),
        ("-1", "01-"),
        ("-1-2", "01-2-"),
        ("-1*2", "012*-"),
        ("*1-2", "01*2-"),
        ("-1*2-3", "012*-3-"),
        ("&1-2*3", "0123*-&"),
        ("*1-2&3", "01*2-3&"),
        ("-1&2-3&4", "01-23-&4&"),
        ("&1-2*3*4-5&6", "0123*4*-5-&6&"),
    ];
    for (row, tree) in table {
        let text = tree_of(rt.alloc(), row.as_bytes())?;
        assert_eq!(rt; text.as_slice(), tree.as_bytes(), "{row}");
    }
    Ok(())
}
