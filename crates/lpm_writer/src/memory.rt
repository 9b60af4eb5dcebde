//! A memory that one writer changes: words, a sequence, a token, and the workers' counters.
//!
//! Whatever keeps the words, the writer of a table makes the same calls. Each store, and `open_update`,
//! `close_update`, `bump` and `load_counter`, is one step of a trace; the writer's own loads of words are none.
//! `PlainMemory` is the memory of one thread.

ghost use Rattle.std.specs.Prelude.{◌≡◌, ℕ, ◌+◌, ◌^◌, ◌<◌, ◌≤◌, List, ◌∷◌};
ghost use Rattle.lpm_trace.specs.declared.step.WriterStep.{WriterStep};
ghost use Rattle.lpm_trace.specs.declared.step.WriterStep.TheVariants.{StoreFirst, StoreSecond, BeginUpdate, EndUpdate, BumpToken, LoadCounter};
ghost use Rattle.lpm_trace.specs.States.{InitialState, state_after, updates_done_in};
ghost use Rattle.lpm_trace.specs.Writer.{IsWritten, MayStep};
ghost use Rattle.lpm_writer.specs.Plain.{MayBeNext};

use lpm_cells::Cells;
use lpm_trace::RuleChange;

/// The memory of a table, as its writer uses it.
///
/// A memory doesn't hold the list of the writer's steps. An implementation says by `did` from what initial
/// state and by which steps, the newest first, it may have come to what it is, and by `does` what one
/// more step leads to.
pub trait Memory: Cells {
    ghost worker_count: { Self → ℕ };

    ghost newest: { Self → ℕ };

    // from this initial state the writer's steps so far may be these
    ghost did: { Self → InitialState → List WriterStep → Type 0 };

    // the step leads to the second memory
    ghost does: { Self → WriterStep → Self → Type 0 };

    /// How many workers have a counter.
    fn counter_count(&self) -> usize
        ensures { result ≡ worker_count self.now };

    /// The newest token.
    fn token(&self) -> u64
        ensures value { result ≡ newest self.now }
        ensures within { result ≤ 2 ^ 62 };

    /// The update of this change of the rules begins.
    fn open_update(&mut self, change: &RuleChange)
        requires may { MayBeNext did self.old (BeginUpdate change.now) }
        requires few { (c : InitialState) × (steps : List WriterStep) × did self.old c steps
            × (updates_done_in (state_after c steps) < 2 ^ 61) }
        ensures does { does self.old (BeginUpdate change.now) self.new };

    /// The update is done.
    fn close_update(&mut self)
        requires may { MayBeNext did self.old EndUpdate }
        ensures does { does self.old EndUpdate self.new };

    /// Starts a token, which no worker has loaded yet, and returns it.
    fn bump(&mut self) -> u64
        requires low { newest self.old < 2 ^ 62 }
        requires may { MayBeNext did self.old BumpToken }
        ensures value { result ≡ newest self.old + 1 }
        ensures does { does self.old BumpToken self.new };

    /// Loads the counter of a worker, in a check of the token.
    fn load_counter(&mut self, checked: u64, worker: usize) -> u64
        requires worker { worker < worker_count self.old }
        requires may { (counter : ℕ) → MayBeNext did self.old (LoadCounter checked worker counter) }
        ensures does { does self.old (LoadCounter checked worker result) self.new };

    ghost follows: { (m : Self) (s : WriterStep) (z : Self) (c : InitialState) (steps : List WriterStep)
        → does m s z → did m c steps → MayStep c steps s → did z c (s ∷ steps) };

    ghost shows: { (m : Self) (c : InitialState) (steps : List WriterStep) → did m c steps
        → (Self.words m ≡ (state_after c steps).words) × (newest m ≡ (state_after c steps).token)
        × (worker_count m ≡ c.workers) };

    ghost written: { (m : Self) (c : InitialState) (steps : List WriterStep) → did m c steps
        → IsWritten c steps };

    ghost may_first: { (m : Self) (i w : ℕ) → MayBeNext did m (StoreFirst i w)
        → Self.may_set_first m i w };

    ghost may_second: { (m : Self) (i w : ℕ) → MayBeNext did m (StoreSecond i w)
        → Self.may_set_second m i w };

    ghost first_stored: { (m : Self) (i w : ℕ) (z : Self) → Self.sets_first m i w z
        → does m (StoreFirst i w) z };

    ghost second_stored: { (m : Self) (i w : ℕ) (z : Self) → Self.sets_second m i w z
        → does m (StoreSecond i w) z };
}
