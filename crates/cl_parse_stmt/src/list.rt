//! Short lists of statements.

ghost use Rattle.std.specs.Prelude.{◌≡◌, [], ◌∷◌, ◌++◌, IfOk};

use cl_ast::statement::Stmt;
use clv_place::NoMemory;
use std::alloc::Global;

// A list of one statement.
#[tactic(none)]
pub fn one(alloc: Global, only: Stmt) -> Result<Vec<Stmt>, NoMemory>
    ensures { IfOk result (λ v. v.items ≡ only ∷ []) }
{
    let mut stmts = Vec::new(alloc);
    stmts.push(only)?;
    Ok(stmts)
}

// A list with another statement behind it.
#[tactic(none)]
pub fn with(stmts: Vec<Stmt>, last: Stmt) -> Result<Vec<Stmt>, NoMemory>
    ensures { IfOk result (λ v. v.items ≡ stmts.items ++ last ∷ []) }
{
    let mut longer = stmts;
    longer.push(last)?;
    Ok(longer)
}
