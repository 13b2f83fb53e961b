//! Which statements end the list in which they stand.

ghost use Rattle.std.specs.Prelude.{◌≡◌};
ghost use Rattle.cl_typing.specs.Statements.{ends, list_ends};

use cl_ast::statement::{Stmt, StmtNode};

// Whether a statement ends its list, so that nothing behind it is reached. It doesn't look into loops and `switch`.
#[cycle(ends)]
fn ends(s: &Stmt) -> bool
    ensures { result ≡ ends s.now }
{
    match &s.node {
        StmtNode::Block(items) => list_ends(items),
        StmtNode::If { arms, .. } => match arms.as_slice() {
            [first, second] => ends(first) && ends(second),
            _ => false,
        },
        StmtNode::Break => true,
        StmtNode::Continue => true,
        StmtNode::Return(_) => true,
        _ => false,
    }
}

/// Whether some statement of a list ends it.
#[cycle(ends)]
pub(crate) fn list_ends(all: &[Stmt]) -> bool
    ensures { result ≡ list_ends all.now }
{
    for s in all {
        if ends(s) {
            return true;
        }
    }
    false
}
