//! Conditions with what the rules of C make of them. A text's words are the terms: numbers, unsigned
//! ones with a `u` behind them, and marks; any other word is a stray one.

use cl_condition::{BinaryOperator, Judged, Term, UnaryOperator, judge, one_judgement};
use clv_place::NoMemory;
use std::alloc::Global;
use std::test::Fail;

// The marks in the order of their bytes.
const MARKS: &str =
    "! != # % %= & && &= ( ) * *= + ++ += , - -- -= -> . / /= : ; < << <<= <= = == > >= >> >>= ? [ ] ^ ^= { | |= || } ~";

// Conditions behind what they come to: the bits of a value, with a `u` where it is unsigned.
const CASES: &str = "7 <- 1 + 2 * 3
9 <- ( 1 + 2 ) * 3
3 <- 10 - 4 - 3
2 <- 100 / 10 / 5
32 <- 1 << 2 << 3
1 <- 7 & 3 == 3
1 <- 1 | 2 ^ 3 & 2
1 <- 1 || 0 && 0
0 <- 3 > 2 > 1
1 <- 2 >= 2 != 1 <= 0
18446744073709551613 <- - 7 / 2
18446744073709551615 <- - 7 % 2
18446744073709551612 <- - 8 >> 1
1 <- 1 << 64
8 <- 1 << 3u
9223372036854775808 <- ( - 9223372036854775807 - 1 ) / - 1
0 <- ( - 9223372036854775807 - 1 ) % - 1
1 <- - 1 < 0
0 <- - 1 < 0u
1 <- 2 == 2u
1 <- ! 0u
18446744073709551612 <- ~ - + - 3
2 <- 1 ? 0 ? 1 : 2 : 3
3 <- 0 ? 1 : 0 ? 2 : 3
2u <- 1 ? 2 : 3u
18446744073709551615u <- 1u - 2
9223372036854775807u <- - 1u >> 1
8u <- 1u << 3
9223372036854775804u <- - 7 / 2u
1u <- 18446744073709551615u + 2
0 <- 0 && 1 / 0
1 <- 1 || 1 % 0
5 <- 0 ? 1 / 0 : 5
5 <- 1 ? 5 : 1 / 0
divides <- 1 / 0
divides <- 1 % 0u
divides <- 1 && 1 / 0
divides <- 0 || 1 / 0
divides <- 1 / 0 && 0
divides <- 1 / 0 ? 1 : 1
divides <- ! ( 1 / 0 )
malformed <- ?
malformed <- 1 2
malformed <- 1 +
malformed <- * 1
malformed <- ( 1
malformed <- 1 )
malformed <- ( )
malformed <- 1 ? 2
malformed <- 1 ? : 2
malformed <- 1 : 2
malformed <- 1 , 2
malformed <- 1 = 2
malformed <- ++ 1
malformed <- 1 + name
malformed <- 0 && ( 1
malformed <- 1 ? 2 : 3 : 4";

fn number(word: &str) -> Option<(u64, bool)> {
    match word.strip_suffix("u") {
        Some(digits) => digits.parse().ok().map(|bits| (bits, true)),
        None => word.parse().ok().map(|bits| (bits, false)),
    }
}

fn term(word: &str) -> Term {
    if let Some((bits, unsigned)) = number(word) {
        return Term::Value { bits, unsigned };
    }
    let mut mark = 0;
    for other in MARKS.split_whitespace() {
        if other == word {
            return Term::Mark(mark);
        }
        mark = mark.wrapping_add(1);
    }
    Term::Stray
}

fn wanted(word: &str) -> Judged {
    match number(word) {
        Some((bits, unsigned)) => Judged::Value { bits, unsigned },
        None if word == "divides" => Judged::DividesByZero,
        None => Judged::Malformed,
    }
}

fn judged(alloc: Global, text: &str) -> Result<Judged, NoMemory> {
    let mut terms = Vec::new(alloc);
    for word in text.split_whitespace() {
        terms.push(term(word))?;
    }
    judge(alloc, &terms)
}

#[test]
fn conditions_by_the_rules_of_c(rt: HostRuntime) -> Result<(), Fail> {
    one_judgement();
    for case in CASES.lines() {
        let (word, text) = case.split_once(" <- ").ok_or("a case without its arrow")?;
        assert_eq!(rt; judged(rt.alloc(), text)?, wanted(word), "{text}");
    }
    Ok(())
}

#[test]
fn operators_by_their_marks(rt: HostRuntime) {
    assert_eq!(rt; UnaryOperator::of_mark(45), Some(UnaryOperator::Complement));
    assert_eq!(rt; UnaryOperator::of_mark(10), None);
    assert_eq!(rt; BinaryOperator::of_mark(10), Some(BinaryOperator::Multiply));
    assert_eq!(rt; BinaryOperator::of_mark(45), None);
    assert_eq!(rt; BinaryOperator::Multiply.level(), 10);
    assert!(rt; BinaryOperator::ShiftLeft.reads_unsigned(true, false));
    assert!(rt; !BinaryOperator::Less.gives_unsigned(true, false));
}
