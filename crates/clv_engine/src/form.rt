//! The kernels that are compiled so far.

ghost use Rattle.std.specs.Prelude.{◌≡◌, ◌≤◌, IsTrue, ◌↔◌, map, length, take, drop, IfOk, MatchOption, slice_get};
ghost use Rattle.clv_engine.specs.FirstForm.{kind_of, kinds_of, term_tokens};
ghost use Rattle.clv_engine.specs.Forming.{IsFormed, IsNoKernel, token_of, letter_of, AreLetters, head_tokens, end_tokens, IsBody, IsFirstTerm};

use cl_lexer::{Token, TokenKind};
use clv_place::{List, NoMemory};
use std::alloc::Global;

/// The most terms that a sum may have.
pub const MAX_TERMS: usize = 100;

/// The largest literal: 2^31 - 1, the largest int.
pub const MAX_NUMBER: u64 = 2_147_483_647;

/// The numbers of the marks of the form, in the order of all marks' bytes.
pub mod mark {
    pub const OPEN_ROUND: u8 = 8;

    pub const CLOSE_ROUND: u8 = 9;

    pub const STAR: u8 = 10;

    pub const PLUS: u8 = 12;

    pub const SEMICOLON: u8 = 24;

    pub const ASSIGN: u8 = 29;

    pub const OPEN_SQUARE: u8 = 36;

    pub const CLOSE_SQUARE: u8 = 37;

    pub const OPEN_CURLY: u8 = 40;

    pub const CLOSE_CURLY: u8 = 44;
}

/// One term of the sum: `get_global_id(0)`, or a literal that is an int.
#[derive(Clone, Copy, PartialEq, Eq, Debug)]
pub enum Term {
    GlobalId,
    Literal(u32),
}

impl Term {
    // The number of its tokens.
    fn width(self) -> usize
        ensures { result ≡ length (term_tokens self) }
    {
        match self {
            Term::GlobalId => 4,
            Term::Literal(_) => 1,
        }
    }
}

/// A kernel that stores a sum at its own global id. Its name and its argument's are one letter each.
#[derive(Drop)]
pub struct Kernel {
    pub name: u8,
    pub argument: u8,
    pub terms: List<Term>,
}

/// The kernel that tokens are, and none exactly where they are no kernel. Fails only for want of memory.
#[tactic(auto, using(crate::proofs::Kernels::kernels))]
pub fn form(alloc: Global, tokens: &[Token]) -> Result<Option<Kernel>, NoMemory>
    ensures { IfOk result (IsFormed (kinds_of tokens.now)) }
{
    let Some((name, argument)) = letters(tokens) else {
        return Ok(None);
    };
    let head = head(name, argument);
    if !starts_with(tokens, &head) {
        return Ok(None);
    }
    match body(alloc, behind(tokens, head.len()))? {
        Some(terms) => Ok(Some(Kernel {
            name,
            argument,
            terms,
        })),
        None => Ok(None),
    }
}

// The names in `__kernel void K(__global uint *A)`, if they are letters and differ: K is the token at 2, and A at 7.
fn letters(tokens: &[Token]) -> Option<(u8, u8)>
    ensures { MatchOption result (IsNoKernel (kinds_of tokens.now)) (λ r. AreLetters (kinds_of tokens.now) r.0 r.1) }
{
    let name = letter_at(tokens, 2)?;
    let argument = letter_at(tokens, 7)?;
    if name == argument {
        None
    } else {
        Some((name, argument))
    }
}

// The lower-case letter that stands at a place.
fn letter_at(tokens: &[Token], at: usize) -> Option<u8>
    ensures { result ≡ letter_of (slice_get (kinds_of tokens.now) at) }
{
    match &tokens.get(at)?.kind {
        TokenKind::Name(name) => match name.as_slice() {
            [letter] if *letter >= b'a' && *letter <= b'z' => Some(*letter),
            _ => None,
        },
        _ => None,
    }
}

// The tokens before the sum.
fn head(name: u8, argument: u8) -> [Piece; 18]
    ensures { map token_of result ≡ head_tokens name argument }
{
    [
        Piece::Word(b"__kernel"),
        Piece::Word(b"void"),
        Piece::Letter(name),
        Piece::Mark(mark::OPEN_ROUND),
        Piece::Word(b"__global"),
        Piece::Word(b"uint"),
        Piece::Mark(mark::STAR),
        Piece::Letter(argument),
        Piece::Mark(mark::CLOSE_ROUND),
        Piece::Mark(mark::OPEN_CURLY),
        Piece::Letter(argument),
        Piece::Mark(mark::OPEN_SQUARE),
        Piece::Word(b"get_global_id"),
        Piece::Mark(mark::OPEN_ROUND),
        Piece::Zero,
        Piece::Mark(mark::CLOSE_ROUND),
        Piece::Mark(mark::CLOSE_SQUARE),
        Piece::Mark(mark::ASSIGN),
    ]
}

// The tokens behind so many.
fn behind(tokens: &[Token], count: usize) -> &[Token]
    ensures { kinds_of result.now ≡ drop count (kinds_of tokens.now) }
{
    if count <= tokens.len() {
        tokens.split_at(count).1
    } else {
        &[]
    }
}

// The terms of the sum that tokens are before `;}`.
#[tactic(auto, using(crate::proofs::Sums::sums))]
fn body(alloc: Global, tokens: &[Token]) -> Result<Option<List<Term>>, NoMemory>
    ensures { IfOk result (IsBody (kinds_of tokens.now)) }
{
    let mut terms = List::new(alloc);
    let mut rest = tokens;
    for _ in 0..MAX_TERMS {
        let Some(next) = first_term(rest) else {
            return Ok(None);
        };
        terms.push(next)?;
        rest = behind(rest, next.width());
        if is_end(rest) {
            return Ok(Some(terms));
        }
        if !starts_with(rest, &[Piece::Mark(mark::PLUS)]) {
            return Ok(None);
        }
        rest = behind(rest, 1);
    }
    Ok(None)
}

// Whether tokens are `;}`.
fn is_end(tokens: &[Token]) -> bool
    ensures { IsTrue result ↔ (kinds_of tokens.now ≡ end_tokens) }
{
    tokens.len() == 2
        && starts_with(
            tokens,
            &[Piece::Mark(mark::SEMICOLON), Piece::Mark(mark::CLOSE_CURLY)],
        )
}

// The term that tokens begin with.
fn first_term(tokens: &[Token]) -> Option<Term>
    ensures { IsFirstTerm (kinds_of tokens.now) result }
{
    let global_id = [
        Piece::Word(b"get_global_id"),
        Piece::Mark(mark::OPEN_ROUND),
        Piece::Zero,
        Piece::Mark(mark::CLOSE_ROUND),
    ];
    if starts_with(tokens, &global_id) {
        return Some(Term::GlobalId);
    }
    match &tokens.first()?.kind {
        TokenKind::Number { value, ty: 0 } if *value <= MAX_NUMBER => {
            Some(Term::Literal(*value as u32))
        }
        _ => None,
    }
}

// What stands where a kernel leaves no choice.
#[derive(Clone, Copy)]
enum Piece {
    Word(&'static [u8]),
    Letter(u8),
    Zero,
    Mark(u8),
}

impl Piece {
    // Whether a token is this.
    fn is(self, token: &Token) -> bool
        ensures { IsTrue result ↔ (kind_of token.now ≡ token_of self) }
    {
        match (self, &token.kind) {
            (Piece::Word(word), TokenKind::Name(name)) => name.as_slice() == word,
            (Piece::Letter(letter), TokenKind::Name(name)) => {
                name.as_slice() == [letter].as_slice()
            }
            (Piece::Zero, TokenKind::Number { value, ty }) => *value == 0 && *ty == 0,
            (Piece::Mark(mark), TokenKind::Mark(number)) => *number == mark,
            _ => false,
        }
    }
}

// Whether tokens begin with these.
fn starts_with(tokens: &[Token], pieces: &[Piece]) -> bool
    ensures { IsTrue result ↔ (take (length pieces.now) (kinds_of tokens.now) ≡ map token_of pieces.now) }
{
    if tokens.len() < pieces.len() {
        return false;
    }
    for i in 0..pieces.len() {
        if !pieces[i].is(&tokens[i]) {
            return false;
        }
    }
    true
}
