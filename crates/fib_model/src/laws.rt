//! Laws of runs. Each function does nothing: its contract is the law.

ghost use Rattle.fib_model.specs.Laws.{CountersTellIntervals, OutcomesAreUnique, RulesAreLastVersion, RulesAreLastVersionByCounters, UnheldByNone};

/// The rules are the last version that the commands made, and as many updates were begun as there
/// are versions.
#[tactic(auto, using(crate::proofs::Versions::rules_are_last_version))]
pub fn rules_are_last_version()
    ensures { RulesAreLastVersion }
{}

/// The same where reports are kept by a token and counters.
#[tactic(auto, using(crate::proofs::Versions::rules_are_last_version_by_counters))]
pub fn rules_are_last_version_by_counters()
    ensures { RulesAreLastVersionByCounters }
{}

/// A check of an unlinking passes where no worker holds it, and nowhere else.
pub fn unheld_by_none()
    ensures { UnheldByNone }
{}

/// Where memory isn't refused, the same commands come out in one way: the definitions leave nothing
/// open.
#[tactic(auto, using(crate::proofs::Same::outcomes_are_unique))]
pub fn outcomes_are_unique()
    ensures { OutcomesAreUnique }
{}

/// What a token and counters say of who holds what is what reader intervals say, in every run.
pub fn counters_tell_intervals()
    ensures { CountersTellIntervals }
{}
