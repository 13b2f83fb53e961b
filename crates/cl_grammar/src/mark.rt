//! Marks.

ghost use Rattle.std.specs.Prelude.{◌≡◌, ◌<◌};
ghost use Rattle.cl_grammar.specs.Lexemes.{terminal_of_mark};

use crate::terminal::Terminal;
use cl_types::BinOp;

/// How many marks there are.
const MARKS: u8 = 46;

/// The terminal that a mark is, by its number from 0 in the order of the marks' bytes. `#` stands in no sentence, nor
/// does a number that is no mark's.
#[tactic(auto, using(crate::proofs::Marks::no_mark))]
pub fn terminal_of_mark(number: u8) -> Terminal
    ensures { result ≡ terminal_of_mark number }
{
    if number < MARKS {
        meaning(number)
    } else {
        Terminal::Stray
    }
}

#[tactic(auto, unfolding(crate::specs::Lexemes::terminal_of_mark, crate::specs::Lexemes::mark_meanings, cl_lexer::specs::Marks::marks))]
fn meaning(number: u8) -> Terminal
    requires { number < 46 }
    ensures { result ≡ terminal_of_mark number }
{
    match number {
        0 => Terminal::Exclamation,
        1 => Terminal::Infix(BinOp::NotEqual),
        3 => Terminal::Infix(BinOp::Rem),
        4 => Terminal::Compound(BinOp::Rem),
        5 => Terminal::Ampersand,
        6 => Terminal::Infix(BinOp::LogicalAnd),
        7 => Terminal::Compound(BinOp::And),
        8 => Terminal::OpenParen,
        9 => Terminal::CloseParen,
        10 => Terminal::Star,
        11 => Terminal::Compound(BinOp::Mul),
        12 => Terminal::Plus,
        13 => Terminal::Increment,
        14 => Terminal::Compound(BinOp::Add),
        15 => Terminal::Comma,
        16 => Terminal::Minus,
        17 => Terminal::Decrement,
        18 => Terminal::Compound(BinOp::Sub),
        19 => Terminal::Arrow,
        20 => Terminal::Dot,
        21 => Terminal::Infix(BinOp::Div),
        22 => Terminal::Compound(BinOp::Div),
        23 => Terminal::Colon,
        24 => Terminal::Semicolon,
        25 => Terminal::Infix(BinOp::Less),
        26 => Terminal::Infix(BinOp::Shl),
        27 => Terminal::Compound(BinOp::Shl),
        28 => Terminal::Infix(BinOp::LessEqual),
        29 => Terminal::Equals,
        30 => Terminal::Infix(BinOp::Equal),
        31 => Terminal::Infix(BinOp::Greater),
        32 => Terminal::Infix(BinOp::GreaterEqual),
        33 => Terminal::Infix(BinOp::Shr),
        34 => Terminal::Compound(BinOp::Shr),
        35 => Terminal::Question,
        36 => Terminal::OpenBracket,
        37 => Terminal::CloseBracket,
        38 => Terminal::Infix(BinOp::Xor),
        39 => Terminal::Compound(BinOp::Xor),
        40 => Terminal::OpenBrace,
        41 => Terminal::Infix(BinOp::Or),
        42 => Terminal::Compound(BinOp::Or),
        43 => Terminal::Infix(BinOp::LogicalOr),
        44 => Terminal::CloseBrace,
        45 => Terminal::Tilde,
        2 => Terminal::Stray,
        _ => unreachable!(),
    }
}
