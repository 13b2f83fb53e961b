//! The weight of a text: how much it nests and chains.

ghost use Rattle.std.specs.Prelude.{◌≡◌, ◌<◌, ◌≤◌, ◌+◌, [], ◌∷◌, drop, length, sum, IfOk, OnOk, OnErr};
ghost use Rattle.cl_grammar.specs.Weights.{added_by, begins_else, bracketed, cleared, first_over, is_closing, is_else, is_opening, is_parting, raised};

use crate::lexeme::Lexeme;
use crate::terminal::Terminal;
use clv_place::NoMemory;
use std::alloc::Global;
use std::marker::Model;

/// The greatest weight that a text may have.
const MAX_WEIGHT: u32 = 256;

/// The counters of the text and of its open brackets, and their sum. A contract sees them from the innermost
/// bracket's to the text's.
#[derive(Drop)]
struct Counters {
    inner: u32,
    outer: Vec<u32>,
    weight: u32,
}

impl Model for Counters {
    ghost use Rattle.std.specs.Prelude.{◌≡◌, ℕ, ◌+◌, List, ◌∷◌, sum, reverse};

    ghost Value = { List ℕ };

    ghost view = { λ c. c.inner ∷ reverse c.outer.items };

    ghost invariant = { λ c. c.weight ≡ c.inner + sum (reverse c.outer.items) };
}

impl Counters {
    fn new(alloc: Global) -> Self
        ensures { result ≡ 0 ∷ [] }
    {
        Counters {
            inner: 0,
            outer: Vec::new(alloc),
            weight: 0,
        }
    }

    fn weight(&self) -> u32
        ensures { result ≡ sum self.now }
    {
        self.weight
    }

    fn raise(&mut self, terminal: Terminal)
        requires { sum self.old ≤ 256 }
        ensures { self.new ≡ raised terminal self.old }
    {
        let added = added_by(terminal);
        self.inner += added;
        self.weight += added;
    }

    fn bracket(&mut self, terminal: Terminal) -> Result<(), NoMemory>
        ensures ok { OnOk result (self.new ≡ bracketed terminal self.old) }
        ensures light { sum self.new ≤ sum self.old }
    {
        if is_opening(terminal) {
            self.outer.push(self.inner)?;
            self.inner = 0;
        } else if is_closing(terminal) {
            if let Some(counter) = self.outer.pop() {
                self.weight -= self.inner;
                self.inner = counter;
            }
        }
        Ok(())
    }

    fn clear(&mut self)
        ensures cleared { self.new ≡ cleared self.old }
        ensures light { sum self.new ≤ sum self.old }
    {
        self.weight -= self.inner;
        self.inner = 0;
    }
}

/// The index, from 0, of the first token that raises the weight of a text over 256, and none where there is no
/// such token. The text and each open bracket have a counter, 0 at first. An operator, an opening bracket and each
/// of the words `if`, `else`, `for`, `while`, `do`, `switch`, `case`, `default`, `return` and `sizeof` adds one to
/// the counter of the innermost bracket open before it. `,`, `;` and `}` set the counter of the innermost bracket
/// open behind them to 0, unless `else` stands next. The weight is the sum of the counters. It can fail only for
/// want of memory.
#[tactic(auto, using(crate::proofs::Weights::weight_steps))]
pub fn first_over(alloc: Global, lexemes: &[Lexeme]) -> Result<Option<usize>, NoMemory>
    ensures { IfOk result (λ at. at ≡ first_over lexemes.now) }
{
    let mut counters = Counters::new(alloc);
    for at in 0..lexemes.len() {
        let terminal = lexemes[at].terminal;
        counters.raise(terminal);
        if counters.weight() > MAX_WEIGHT {
            return Ok(Some(at));
        }
        counters.bracket(terminal)?;
        if is_parting(terminal) && !begins_else(lexemes, at + 1) {
            counters.clear();
        }
    }
    Ok(None)
}

// Whether `else` stands at an index.
#[tactic(auto, using(crate::proofs::Weights::else_steps))]
fn begins_else(lexemes: &[Lexeme], at: usize) -> bool
    ensures { result ≡ begins_else (drop at lexemes.now) }
{
    match lexemes.get(at) {
        Some(lexeme) => is_else(lexeme.terminal),
        None => false,
    }
}

fn is_else(terminal: Terminal) -> bool
    ensures { result ≡ is_else terminal }
{
    matches!(terminal, Terminal::Else)
}

fn is_opening(terminal: Terminal) -> bool
    ensures { result ≡ is_opening terminal }
{
    matches!(
        terminal,
        Terminal::OpenParen | Terminal::OpenBracket | Terminal::OpenBrace
    )
}

fn is_closing(terminal: Terminal) -> bool
    ensures { result ≡ is_closing terminal }
{
    matches!(
        terminal,
        Terminal::CloseParen | Terminal::CloseBracket | Terminal::CloseBrace
    )
}

fn is_parting(terminal: Terminal) -> bool
    ensures { result ≡ is_parting terminal }
{
    matches!(
        terminal,
        Terminal::Comma | Terminal::Semicolon | Terminal::CloseBrace
    )
}

// What a token adds to the counter of the innermost bracket open before it.
fn added_by(terminal: Terminal) -> u32
    ensures added { result ≡ added_by terminal }
    ensures small { result ≤ 1 }
{
    match terminal {
        Terminal::OpenParen | Terminal::OpenBracket | Terminal::OpenBrace => 1,
        Terminal::Colon | Terminal::Question | Terminal::Dot | Terminal::Arrow => 1,
        Terminal::Increment | Terminal::Decrement | Terminal::Tilde | Terminal::Exclamation => 1,
        Terminal::Ampersand | Terminal::Star | Terminal::Plus | Terminal::Minus => 1,
        Terminal::Infix(_) | Terminal::Equals | Terminal::Compound(_) => 1,
        Terminal::If | Terminal::Else | Terminal::For | Terminal::While | Terminal::Do => 1,
        Terminal::Switch | Terminal::Case | Terminal::Default => 1,
        Terminal::Return | Terminal::Sizeof => 1,
        _ => 0,
    }
}
