//! What holds of each trace. Each function does nothing: its contract is the law.

ghost use Rattle.lpm_trace.specs.Laws.{LookupsAreLegal, ReuseIsLawful, RestAnswers};
ghost use Rattle.lpm_trace.specs.Laws.{VersionsNeverFall};
ghost use Rattle.lpm_trace.specs.Laws.{OwnLookupsAreLegal, OwnStepsArePlaced, PlacesNeverFall, TraceGrows};
ghost use Rattle.lpm_trace.specs.Laws.{VersionsNeverFallAtPlaces, PassedIsChecked};
ghost use Rattle.lpm_trace.specs.Laws.{WordsAreEntries};
ghost use Rattle.lpm_trace.specs.Writer.{WriterIsAlone, WriterGoesOn};

/// Each finished lookup answers by the version that its address shows at a moment between its first and
/// its last read of a word. That rule list stood then, and its number lies from `lo` to `hi`.
#[tactic(auto, using(crate::proofs::Promises::lookups_are_legal))]
pub fn lookups_are_legal()
    ensures { LookupsAreLegal }
{}

/// No reader interval holds both a step that unlinks a group and a later store into that group.
#[tactic(auto, using(crate::proofs::Promises::reuse_is_lawful))]
pub fn reuse_is_lawful()
    ensures { ReuseIsLawful }
{}

/// Where no update runs, the words answer by the rules of the last version.
#[tactic(auto, using(crate::proofs::Promises::rest_answers))]
pub fn rest_answers()
    ensures { RestAnswers }
{}

/// The version that an address shows stands at each moment, and never falls. So of two lookups of one
/// address, one after the other, the later one's version can be chosen not less.
pub fn versions_never_fall()
    ensures { VersionsNeverFall }
{}

/// What a worker's own steps leave, by their places, is its state in the trace, and each of its finished
/// lookups is legal at a place. This is the law as a running thread can know it.
pub fn own_lookups_are_legal()
    ensures { OwnLookupsAreLegal }
{}

/// Each of a worker's own steps may come where the writer has made as many steps as its place says: a load
/// of a word, of the sequence or of the token finds what the writer had left there.
#[tactic(auto, using(crate::proofs::Promises::own_steps_are_placed))]
pub fn own_steps_are_placed()
    ensures { OwnStepsArePlaced }
{}

/// The version that an address shows stands at each place, and never falls.
pub fn versions_never_fall_at_places()
    ensures { VersionsNeverFallAtPlaces }
{}

/// The places of a worker's own steps never fall. With the law above, of two lookups of one address by
/// one worker the later one's version can be chosen not less.
pub fn places_never_fall()
    ensures { PlacesNeverFall }
{}

/// A step that may come next makes a trace one longer.
#[tactic(auto, using(crate::proofs::Promises::trace_grows))]
pub fn trace_grows()
    ensures { TraceGrows }
{}

/// Each token up to the greatest that has passed was checked: after it, or a later one, was there, each
/// worker's counter was loaded, and was 0 or at least that token.
#[tactic(auto, using(crate::proofs::Promises::passed_is_checked))]
pub fn passed_is_checked()
    ensures { PassedIsChecked }
{}

/// Each word stays that of an entry that may stand at its place.
#[tactic(auto, using(crate::proofs::Promises::words_are_entries))]
pub fn words_are_entries()
    ensures { WordsAreEntries }
{}

/// The writer's steps of a trace may come one after another by themselves: none looks at what a worker
/// does, but for the counters that it loads.
#[tactic(auto, using(crate::proofs::Promises::writer_is_alone))]
pub fn writer_is_alone()
    ensures { WriterIsAlone }
{}

/// A step that may come next after the writer's own steps makes the trace one longer, where a load finds
/// the worker's counter.
#[tactic(auto, using(crate::proofs::Promises::writer_goes_on))]
pub fn writer_goes_on()
    ensures { WriterGoesOn }
{}
