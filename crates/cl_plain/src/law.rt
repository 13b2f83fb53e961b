//! The law.

ghost use Rattle.cl_plain.specs.Laws.{OneTree};

/// Tokens have one tree: two trees that the grammar gives them differ in nothing but where their lists lie in memory.
pub fn one_tree()
    ensures { OneTree }
{}
