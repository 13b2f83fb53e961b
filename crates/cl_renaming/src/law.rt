//! The law.

ghost use Rattle.cl_renaming.specs.Verdicts.{NeverBoth, NeverTyped, OneOffence, OneTree, RenamedNeverBoth, RenamedNeverTyped, RenamedOffence, RenamedTree};

/// An expression has one verdict, in whichever tables it is judged: one typed tree, but for the numbers of types, or one
/// first offence. This holds between a table and one that has its types by other numbers, whatever is declared; and
/// between any two tables where nothing is.
#[tactic(auto, using(crate::proofs::OneVerdict::one_tree))]
pub fn one_verdict()
    ensures renamed_tree { RenamedTree }
    ensures renamed_no_offence { RenamedNeverBoth }
    ensures renamed_no_tree { RenamedNeverTyped }
    ensures renamed_offence { RenamedOffence }
    ensures tree { OneTree }
    ensures no_offence { NeverBoth }
    ensures no_tree { NeverTyped }
    ensures offence { OneOffence }
{}
