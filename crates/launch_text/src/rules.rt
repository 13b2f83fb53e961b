//! The rules that a launch keeps for what a kernel takes. They are definitions; there is one law on them.

ghost use Rattle.launch_text.specs.BrokenRule.{NamesOne};

/// Each launch keeps all rules on what a kernel takes, or there is a least rule that it breaks, at a least
/// argument; and trying one rule after another finds it.
pub fn one_rule()
    ensures { NamesOne }
{}
