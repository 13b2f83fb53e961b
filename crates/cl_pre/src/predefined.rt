//! The predefined macros.

ghost use Rattle.std.specs.Prelude.{◌≡◌, ◌<◌, ◌∷◌, true, IfOk, List, []};
ghost use Rattle.cl_pre.specs.Predefined.{is_predefined, name_at, limit_at, token_of, tokens_of, entry_at, predefined};
ghost use Rattle.cl_pre.specs.declared.predefined.Limit.TheVariants.{Least};

use cl_lexer::{Token, TokenKind};
use cl_macro::first::{CLOSE, OPEN};
use cl_macro::macros::{Entry, Macro};
use cl_macro::table::Table;
use clv_place::{List, NoMemory, Place, Text};
use std::alloc::Global;

/// The number of predefined macros.
pub const COUNT: usize = 25;

/// The number of `-`.
const MINUS: u8 = 16;

/// What a predefined macro stands for.
#[derive(Clone, Copy, PartialEq, Eq, Debug)]
pub enum Limit {
    /// A number and its type, as in a token.
    Number(u64, u8),
    /// One less than the negative of a number of a type.
    Least(u64, u8),
    /// The name `SCHAR_MAX`.
    SignedMax,
    /// The name `SCHAR_MIN`.
    SignedMin,
}

// The name of a predefined macro.
#[tactic(auto, unfolding(crate::specs::Predefined::names))]
fn name_at(i: usize) -> &'static [u8]
    requires { i < 25 }
    ensures { result.now ≡ name_at i }
{
    match i {
        0 => b"__OPENCL_VERSION__",
        1 => b"__OPENCL_C_VERSION__",
        2 => b"CL_VERSION_1_2",
        3 => b"CL_VERSION_1_1",
        4 => b"CL_VERSION_1_0",
        5 => b"__ENDIAN_LITTLE__",
        6 => b"CHAR_BIT",
        7 => b"CHAR_MAX",
        8 => b"CHAR_MIN",
        9 => b"SCHAR_MAX",
        10 => b"SCHAR_MIN",
        11 => b"SHRT_MAX",
        12 => b"SHRT_MIN",
        13 => b"INT_MAX",
        14 => b"INT_MIN",
        15 => b"LONG_MAX",
        16 => b"LONG_MIN",
        17 => b"UCHAR_MAX",
        18 => b"USHRT_MAX",
        19 => b"UINT_MAX",
        20 => b"ULONG_MAX",
        21 => b"CLK_LOCAL_MEM_FENCE",
        22 => b"CLK_GLOBAL_MEM_FENCE",
        23 => b"true",
        24 => b"false",
        _ => unreachable!(),
    }
}

// What a predefined macro stands for.
#[tactic(auto, unfolding(crate::specs::Predefined::limits))]
fn limit_at(i: usize) -> Limit
    requires { i < 25 }
    ensures { result ≡ limit_at i }
{
    match i {
        0 => Limit::Number(120, 0),
        1 => Limit::Number(120, 0),
        2 => Limit::Number(120, 0),
        3 => Limit::Number(110, 0),
        4 => Limit::Number(100, 0),
        5 => Limit::Number(1, 0),
        6 => Limit::Number(8, 0),
        7 => Limit::SignedMax,
        8 => Limit::SignedMin,
        9 => Limit::Number(127, 0),
        10 => Limit::Least(127, 0),
        11 => Limit::Number(32767, 0),
        12 => Limit::Least(32767, 0),
        13 => Limit::Number(2147483647, 0),
        14 => Limit::Least(2147483647, 0),
        15 => Limit::Number(9223372036854775807, 2),
        16 => Limit::Least(9223372036854775807, 2),
        17 => Limit::Number(255, 0),
        18 => Limit::Number(65535, 0),
        19 => Limit::Number(4294967295, 1),
        20 => Limit::Number(18446744073709551615, 3),
        21 => Limit::Number(1, 0),
        22 => Limit::Number(2, 0),
        23 => Limit::Number(1, 0),
        24 => Limit::Number(0, 0),
        _ => unreachable!(),
    }
}

/// Whether a name is that of a predefined macro.
#[tactic(auto, using(crate::proofs::Limits::limit_steps))]
pub fn is_predefined(name: &[u8]) -> bool
    ensures { result ≡ is_predefined name.now }
{
    for i in 0..COUNT {
        if name_at(i) == name {
            return true;
        }
    }
    false
}

fn token_of(spaced: bool, kind: TokenKind) -> Token
    ensures { result ≡ token_of spaced kind }
{
    Token {
        kind,
        place: Place { line: 1, col: 1 },
        first: false,
        spaced,
    }
}

// `(-n - 1)`
fn least(alloc: Global, value: u64, ty: u8) -> Result<List<Token>, NoMemory>
    ensures { IfOk result (λ l. l ≡ tokens_of (Least value ty)) }
{
    let mut tokens = List::new(alloc);
    tokens.push(token_of(true, TokenKind::Mark(OPEN)))?;
    tokens.push(token_of(false, TokenKind::Mark(MINUS)))?;
    tokens.push(token_of(false, TokenKind::Number { value, ty }))?;
    tokens.push(token_of(true, TokenKind::Mark(MINUS)))?;
    tokens.push(token_of(true, TokenKind::Number { value: 1, ty: 0 }))?;
    tokens.push(token_of(false, TokenKind::Mark(CLOSE)))?;
    Ok(tokens)
}

// One token behind a space.
fn single(alloc: Global, kind: TokenKind) -> Result<List<Token>, NoMemory>
    ensures { IfOk result (λ l. l ≡ token_of true kind ∷ []) }
{
    let mut tokens = List::new(alloc);
    tokens.push(token_of(true, kind))?;
    Ok(tokens)
}

fn tokens_of(alloc: Global, limit: Limit) -> Result<List<Token>, NoMemory>
    ensures { IfOk result (λ l. l ≡ tokens_of limit) }
{
    match limit {
        Limit::Number(value, ty) => single(alloc, TokenKind::Number { value, ty }),
        Limit::Least(value, ty) => least(alloc, value, ty),
        Limit::SignedMax => single(
            alloc,
            TokenKind::Name(Text::from_bytes(alloc, b"SCHAR_MAX")?),
        ),
        Limit::SignedMin => single(
            alloc,
            TokenKind::Name(Text::from_bytes(alloc, b"SCHAR_MIN")?),
        ),
    }
}

fn entry_at(alloc: Global, i: usize) -> Result<Entry, NoMemory>
    requires { i < 25 }
    ensures { IfOk result (λ e. e ≡ entry_at i) }
{
    Ok(Entry {
        name: Text::from_bytes(alloc, name_at(i))?,
        means: Some(Macro {
            params: None,
            body: tokens_of(alloc, limit_at(i))?,
        }),
    })
}

/// The table of the predefined macros (OpenCL C 1.2, 6.10 and 6.12.3). It fails for want of memory.
#[tactic(auto, using(crate::proofs::Limits::limit_steps))]
pub fn predefined(alloc: Global) -> Result<Table, NoMemory>
    ensures { IfOk result (λ t. t ≡ predefined) }
{
    let mut table = Table::new(alloc);
    for i in 0..COUNT {
        table = table.with(alloc, entry_at(alloc, i)?)?;
    }
    Ok(table)
}
