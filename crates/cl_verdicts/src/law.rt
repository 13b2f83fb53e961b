//! The law.

ghost use Rattle.cl_verdicts.specs.Verdicts.{NeverBoth, OneOffence};

/// A unit has a typed tree or a first offence, and never both; and it has one first offence, in whichever table its types
/// are judged, and wherever its tree lies in memory.
pub fn one_verdict()
    ensures no_both { NeverBoth }
    ensures one { OneOffence }
{}
