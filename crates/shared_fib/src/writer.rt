//! The writer of a running table.

ghost use Rattle.std.specs.Prelude.{ℕ, ◌≡◌, List, take};
ghost use Rattle.fib_model.specs.Outcomes.{Adds, Deletes, Flushes, Frees};
ghost use Rattle.shared_words.specs.Rule.{IsLater};
ghost use Rattle.shared_fib.specs.FreedGroups.{FreesChecked, TakesLeast};
ghost use Rattle.shared_fib.specs.RunningTable.{IsSoundWriter, by_steps, state_by, steps_of};

use crate::{SharedMemory, SharedTable};
use defer_queue::Reclaimed;
use lpm_bits::{Hop, Prefix};
use lpm_limits::Refusal;
use lpm_rules::Put;
use lpm_writer::{ControlState, add_rule, delete_rule, flush_rules, reclaim_groups};
use shared_words::WriterSeat;
use std::marker::Model;

/// The one writer of a running table: what it keeps, and its seat.
///
/// Of its calls only an `add` that grows the rule list takes memory, and only `synchronize` waits. Each
/// change is refused as `Exhausted` where fewer tokens than groups are left, or no version.
///
/// A group that is given up waits in limbo under a token of its own. Whichever call frees it, each worker's
/// counter was loaded after that token was there, and was 0 or at least the token.
///
/// Where a writer is dropped the passes go on, and nobody changes the table any more.
#[derive(Drop)]
pub struct Writer<const FIRST: u32, const SECOND: u32> {
    pub(crate) control: ControlState<FIRST, SECOND>,
    pub(crate) seat: WriterSeat,
}

impl<const FIRST: u32, const SECOND: u32> Model for Writer<FIRST, SECOND> {
    ghost use Rattle.shared_fib.specs.RunningTable.{WriterState, coded_writer, IsSoundWriter, state_by};

    ghost Value = { WriterState };

    ghost coded = { coded_writer };

    ghost view = { λ w. record {
      identity = record { words = w.seat.table; initial = w.seat.view.initial };
      config = w.control.config;
      table = state_by w.control w.seat.view;
    } };

    ghost invariant = { λ w. IsSoundWriter FIRST SECOND w.control w.seat.view };
}

impl<const FIRST: u32, const SECOND: u32> Writer<FIRST, SECOND> {
    // The writer that keeps this control state, and has this seat.
    pub(crate) fn new(control: ControlState<FIRST, SECOND>, seat: WriterSeat) -> Self
        requires { IsSoundWriter FIRST SECOND control seat.view }
        ensures { result ≡ record {
          identity = record { words = seat.table; initial = seat.view.initial };
          config = control.entry.config;
          table = state_by control.entry seat.view;
        } }
    {
        Writer { control, seat }
    }

    // Each command lends the seat to a memory. The last look at the seat is for the proof: only by a use after
    // the loan is it known what came back.

    /// Adds a rule, or gives the prefix's rule another next hop. A rule that is there already stays, and is
    /// `Unchanged`, whatever else holds.
    ///
    /// A rule longer than `FIRST` bits that is the first in its block takes the free group of the least
    /// number. Where none is free, it takes the oldest in limbo, once its check has passed.
    ///
    /// The refusals, in the order of the checks: `Exhausted`; `TooManyRules` and `Memory`, where a new
    /// rule has no room; and `NoGroups`, where a rule longer than `FIRST` bits is the first in its block,
    /// no group is free, and the oldest in limbo is held or there is none. It names the worker that holds
    /// that one.
    pub fn add(
        &mut self,
        table: &SharedTable<FIRST, SECOND>,
        prefix: &Prefix<FIRST, SECOND>,
        hop: Hop,
    ) -> Result<Put, Refusal>
        requires own { self.old.identity ≡ table.now }
        ensures adds { Adds (by_steps table.now.initial) FIRST SECOND self.old.config
            self.old.table prefix.now hop result self.new.table }
        ensures least { TakesLeast table.now.initial self.old.table self.new.table }
        ensures checked { (freed : List ℕ)
            × FreesChecked table.now.initial self.old.table self.new.table freed }
        ensures later { IsLater (steps_of self.old) (steps_of self.new) }
        ensures own { self.new.identity ≡ self.old.identity }
        ensures config { self.new.config ≡ self.old.config }
    {
        let seat = &mut self.seat;
        let mut memory = SharedMemory::new(&table.words, seat);
        let added = add_rule(&mut self.control, &mut memory, prefix, hop);
        memory.into_seat();
        let _ = &*seat;
        added
    }

    /// Deletes the rule of this prefix, and returns its next hop. Its addresses go to the longest rule that
    /// is shorter and covers it, where there is one. A block that loses its last rule longer than `FIRST`
    /// bits gives its group up; where more than the threshold wait in limbo, some are reclaimed first.
    ///
    /// The refusals: `NoSuchRule`, where the prefix has no rule, and else `Exhausted`.
    pub fn delete(
        &mut self,
        table: &SharedTable<FIRST, SECOND>,
        prefix: &Prefix<FIRST, SECOND>,
    ) -> Result<Hop, Refusal>
        requires own { self.old.identity ≡ table.now }
        ensures deletes { Deletes (by_steps table.now.initial) FIRST SECOND self.old.config
            self.old.table prefix.now result self.new.table }
        ensures checked { (freed : List ℕ)
            × FreesChecked table.now.initial self.old.table self.new.table freed }
        ensures later { IsLater (steps_of self.old) (steps_of self.new) }
        ensures own { self.new.identity ≡ self.old.identity }
        ensures config { self.new.config ≡ self.old.config }
    {
        let seat = &mut self.seat;
        let mut memory = SharedMemory::new(&table.words, seat);
        let deleted = delete_rule(&mut self.control, &mut memory, prefix);
        memory.into_seat();
        let _ = &*seat;
        deleted
    }

    /// Deletes all rules, as one version, and returns how many there were. With none nothing changes, and
    /// else `Exhausted` is the only refusal. The groups are given up and reclaimed as by `delete`, one after
    /// another.
    pub fn flush(&mut self, table: &SharedTable<FIRST, SECOND>) -> Result<usize, Refusal>
        requires own { self.old.identity ≡ table.now }
        ensures flushes { Flushes (by_steps table.now.initial) FIRST SECOND self.old.config
            self.old.table result self.new.table }
        ensures checked { (freed : List ℕ)
            × FreesChecked table.now.initial self.old.table self.new.table freed }
        ensures later { IsLater (steps_of self.old) (steps_of self.new) }
        ensures own { self.new.identity ≡ self.old.identity }
        ensures config { self.new.config ≡ self.old.config }
    {
        let seat = &mut self.seat;
        let mut memory = SharedMemory::new(&table.words, seat);
        let flushed = flush_rules(&mut self.control, &mut memory);
        memory.into_seat();
        let _ = &*seat;
        flushed
    }

    /// Frees groups that wait in limbo, from the oldest on: at most `max`, up to the first that a worker
    /// holds. It returns how many were freed, and the worker that stopped it.
    pub fn reclaim(&mut self, table: &SharedTable<FIRST, SECOND>, max: usize) -> Reclaimed
        requires own { self.old.identity ≡ table.now }
        ensures frees { Frees (by_steps table.now.initial) self.old.table max result
            self.new.table }
        ensures checked { FreesChecked table.now.initial self.old.table self.new.table
            (take result.freed self.old.table.limbo) }
        ensures later { IsLater (steps_of self.old) (steps_of self.new) }
        ensures own { self.new.identity ≡ self.old.identity }
        ensures config { self.new.config ≡ self.old.config }
    {
        let seat = &mut self.seat;
        let mut memory = SharedMemory::new(&table.words, seat);
        let reclaimed = reclaim_groups(&mut self.control, &mut memory, max);
        memory.into_seat();
        let _ = &*seat;
        reclaimed
    }
}
