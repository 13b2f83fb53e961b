//! The law.

ghost use Rattle.cl_laws.specs.TypedTrees.{EachTreeIsTyped};

/// A typed tree of an expression is typed by its operands (C99, 6.5; OpenCL C 1.2, 6.3): what a rule makes of operands,
/// each converted to the type that is wanted of it, is what a typed tree has at that node.
#[tactic(auto, using(crate::proofs::EachTree::each_tree_is_typed))]
pub fn typed_trees()
    ensures { EachTreeIsTyped }
{}
