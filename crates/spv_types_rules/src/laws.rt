//! What is proved of the rules as a whole.

ghost use Rattle.spv_types_rules.specs.Rules.{OneLeastBroken, SomeLeastBroken, ValidIsUnbroken};

/// A module is valid exactly where no instruction of it breaks a rule and it lacks nothing that a rule
/// wants of the whole. So the least broken rule is there to be named wherever a module isn't valid.
#[tactic(auto, using(crate::proofs::Unbroken::valid_is_unbroken))]
pub fn valid_is_unbroken()
    ensures { ValidIsUnbroken }
{}

/// A module has one least broken rule at most, and that is named at one word.
#[tactic(auto, using(crate::proofs::LeastBroken::one_least_broken))]
pub fn one_least_broken()
    ensures { OneLeastBroken }
{}

/// Where a module breaks some rule there is a least one that it breaks, and a word at which that is named.
#[tactic(auto, using(crate::proofs::Least::some_least_broken))]
pub fn some_least_broken()
    ensures { SomeLeastBroken }
{}
