//! Units.

ghost use Rattle.std.specs.Prelude.{◌≡◌, ◌<◌, ◌++◌, IfOk, IfErr, OnOk, OnErr, length, []};
ghost use Rattle.cl_grammar.specs.DeclarationSymbols as symbol;
ghost use Rattle.cl_grammar.specs.Items.{EndsIn, RefusedAt};
ghost use Rattle.cl_grammar.specs.Lexemes.{lexemes_of, resolved};
ghost use Rattle.cl_grammar.specs.Symbols.{D};
ghost use Rattle.cl_grammar.specs.Units.{UnitTree, seen_as};
ghost use Rattle.cl_parse.specs.Declaring.{AreNew, declared_by};
ghost use Rattle.cl_parse.specs.UnitReading.{EndsThere, IsReadTo};
ghost use Rattle.cl_parse.specs.Verdicts.{IsRefusal};

use crate::file_scope::{Declaration, external};
use cl_ast::declaration::{Ast, External};
use cl_grammar::{ExprStop, Lexeme, TypeNames};
use cl_lexer::Token;
use cl_parse_expr::Reader;
use clv_place::{List, NoMemory, Place};
use std::alloc::Global;

/// How far a unit was read: the names that its typedefs declared, the trees of its declarations, and the index of
/// the token behind them.
#[derive(Drop)]
pub struct Progress {
    pub names: TypeNames,
    pub externals: List<External>,
    pub at: usize,
}

impl Progress {
    // Reads the declaration that stands next.
    fn go_on(&mut self, alloc: Global, lexemes: &[Lexeme]) -> Result<(), ExprStop>
        requires ends { EndsIn (resolved self.old.names lexemes.now) }
        requires read { IsReadTo lexemes.now self.old }
        ensures read { OnOk result (IsReadTo lexemes.now self.new) }
        ensures ends { OnOk result (EndsThere lexemes.now self.new) }
        ensures forth { OnOk result (self.old.at < self.new.at) }
        ensures out { IfErr result (RefusedAt (D symbol.External) (resolved self.old.names lexemes.now) self.old.at) }
    {
        let read = external(alloc, &Reader::new(lexemes, &self.names), self.at)?;
        declare(&mut self.names, &read)?;
        self.externals.push(read.tree)?;
        self.at = read.next;
        Ok(())
    }
}

// Adds what a declaration declares for the tokens behind it.
fn declare(names: &mut TypeNames, read: &Declaration) -> Result<(), NoMemory>
    requires { AreNew names.old (declared_by read.now.tree read.now.vector) }
    ensures { OnOk result (names.new ≡ names.old ++ declared_by read.now.tree read.now.vector) }
{
    match &read.tree {
        External::Typedef { name, .. } => names.add(name.name.as_slice(), read.vector),
        _ => Ok(()),
    }
}

/// The tree of tokens that are a unit. They are refused at the syntax offence.
pub fn unit(
    alloc: Global,
    tokens: &[Token],
    end: Place,
    lexemes: &[Lexeme],
) -> Result<Ast, ExprStop>
    requires { lexemes.now ≡ lexemes_of tokens.now end }
    ensures tree { IfOk result (λ ast. UnitTree [] (seen_as tokens.now) ast.externals) }
    ensures out { IfErr result (IsRefusal tokens.now) }
{
    let mut progress = Progress {
        names: TypeNames::new(alloc),
        externals: List::new(alloc),
        at: 0,
    };
    progress.go_on(alloc, lexemes)?;
    while progress.at < tokens.len() {
        progress.go_on(alloc, lexemes)?;
    }
    Ok(Ast {
        externals: progress.externals,
    })
}
