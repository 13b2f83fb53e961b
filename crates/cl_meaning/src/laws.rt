//! What is proved of the meaning as a whole.

ghost use Rattle.cl_meaning.specs.Laws.{CallsChangeCalls, EventsAreTold, GroupsMeetAtOne, LogsTell, MoreAnswers, MoreFuel, OneRun, RunsAreThere, UndefinedStays};

/// Two runs of one item on the same answers and fuel are the same.
pub fn one_run()
    ensures { OneRun }
{}

/// A run with more fuel is the same, or the one with less had none left, and it goes on there.
pub fn more_fuel()
    ensures { MoreFuel }
{}

/// A run with more answers is the same, or the one with fewer stood at a question, and it goes on there.
pub fn more_answers()
    ensures { MoreAnswers }
{}

/// What comes before undefined behaviour doesn't depend on what comes after: a run that comes to it does so with more
/// fuel too, and under all answers that begin with those to its events.
#[tactic(auto, using(crate::proofs::Runs::undefined_stays))]
pub fn undefined_stays()
    ensures { UndefinedStays }
{}

/// An item has a run from each state that it comes to, on all answers and with all fuel: between two steps there are
/// finitely many moves.
#[tactic(auto, using(crate::proofs::Runs::runs_are_there))]
pub fn runs_are_there()
    ensures { RunsAreThere }
{}

/// Entering a function and leaving it alone change where the item is, and which calls are pending.
pub fn calls_change_calls()
    ensures { CallsChangeCalls }
{}

/// The log of each world that a launch comes to says of each item what it has asked, in order. So the events on memory
/// are those of the items, in the order of each.
#[tactic(auto, using(crate::proofs::Meetings::logs_tell, crate::proofs::Meetings::events_are_told))]
pub fn logs_tell()
    ensures log { LogsTell }
    ensures events { EventsAreTold }
{}

/// Each release of a group is a meeting of all its items at one barrier, to which the same calls led.
#[tactic(auto, using(crate::proofs::Meetings::groups_meet_at_one))]
pub fn groups_meet_at_one()
    ensures { GroupsMeetAtOne }
{}
