//! From a text to its tokens.

ghost use Rattle.cl_lexer.specs.Answers.{Answers};
ghost use Rattle.cl_lexer.specs.Tokens.{Lexes, OneVerdict};

use crate::byte::rest_of;
use crate::front::{Front, Stage, front_of};
use crate::joined::join;
use crate::token::{Token, Tokens};
use clv_place::{List, Offence, Place, Stop};
use std::alloc::Global;

/// The most bytes that a text may have: 1 MiB.
pub const MAX_TEXT: usize = 1_048_576;

/// The tokens of a text whose lines are joined first (C99 5.1.1.2 and 6.4), or its first offence, from
/// left to right: 101 a byte that no token, comment or separator holds, 102 a comment that is not ended,
/// 103 a malformed number or one with no type, 104 a malformed character literal. Before these comes 105,
/// a text over 1 MiB. It also fails for want of memory.
#[tactic(auto, using(crate::proofs::Reading::readings))]
pub fn lex(alloc: Global, text: &[u8]) -> Result<Tokens, Stop>
    ensures { Answers result (Lexes text.now) }
{
    if text.len() > MAX_TEXT {
        return Err(Stop::Out(Offence {
            code: 105,
            place: Place { line: 1, col: 1 },
        }));
    }
    let joined = join(alloc, text)?;
    let mut list = List::new(alloc);
    let mut stage = Stage::Beginning;
    let mut spaced = false;
    let mut at = 0;
    loop {
        match front_of(alloc, stage, rest_of(&joined.bytes, at))? {
            Front::End => {
                return Ok(Tokens {
                    list,
                    end: joined.end(),
                });
            }
            Front::LineEnd => {
                stage = Stage::Beginning;
                spaced = true;
                at += 1;
            }
            Front::Apart(length) => {
                spaced = true;
                at += length;
            }
            Front::Begins(kind, length) => {
                let next = stage.after(&kind);
                list.push(Token {
                    kind,
                    place: joined.place(at),
                    first: stage.is_beginning(),
                    spaced,
                })?;
                stage = next;
                spaced = false;
                at += length;
            }
            Front::Bad(code) => {
                return Err(Stop::Out(Offence {
                    code,
                    place: joined.place(at),
                }));
            }
        }
    }
}

/// A law: each text has one verdict, so `lex` answers its tokens exactly where it has any, and its first
/// offence exactly where it has one.
#[tactic(auto, using(crate::proofs::Verdicts::one_verdict))]
pub fn one_verdict()
    ensures { OneVerdict }
{}
