//! What holds of each trace, and of each run. The functions do nothing: their contracts are the laws.

ghost use Rattle.interleave.specs.Laws.{TracesAreLawful};
ghost use Rattle.interleave.specs.Runs.{InitialStatesAreSettled, RunsAreLawful};

/// Whatever makes the steps of a trace, in whatever order they come: at rest the words answer by the last
/// version, each lookup answers by a rule list that stood between its first and last read, no group is
/// rewritten within its grace period, and versions never fall.
pub fn traces_are_lawful()
    ensures { TracesAreLawful }
{}

/// A table that was just opened with limits in range is one that a trace may begin with, and what its writer
/// keeps agrees with its steps, of which there are none.
pub fn initial_states_are_settled()
    ensures { InitialStatesAreSettled }
{}

/// Whatever changes a writer makes and whatever deeds its workers do, by whatever schedule: the steps
/// of the run are lawful, of each worker it shows the lookups that it has finished, in order, and after
/// the last change that was answered the groups linked are the blocks of the rules longer than `FIRST`
/// bits.
pub fn runs_are_lawful()
    ensures { RunsAreLawful }
{}
