//! A reader of a running table.

ghost use Rattle.std.specs.Prelude.{◌≡◌, ◌<◌, ◌≤◌, ◌↔◌, ℕ, [], ◌∷◌, ◌⊎◌, true, false, IfErr, IfOk, IsErrOf, OnErr, None, Some, Option, List, drop, length, map, min, slice_get, slice_set, take};
ghost use Rattle.std.specs.Arc.{arc_value};
ghost use Rattle.lpm_trace.specs.declared.step.WorkerStep.TheVariants.{LoadOnline, StoreOnline, LoadQuiescent, StoreQuiescent, StoreOffline};
ghost use Rattle.shared_fib.specs.Bursts.{LooksUpBurst};
ghost use Rattle.shared_fib.specs.Passes.{IsBenchOf, IsHistory, IsPassOf, LooksUp, LooksUpAll, Makes};
ghost use Rattle.shared_fib.specs.RunningTable.{hop_or};

use lpm_limits::Refusal;
use lpm_rules::Answer;
use shared_fib::{Bench, Burst, FourHops, Pass, RegisterError, SharedTable};
use std::marker::Model;
use std::sync::Arc;

/// A reader of a running table: the pass of one worker, and the table that it reads. It goes to the
/// worker's thread.
///
/// A reader is handed out offline. It looks up while it is online. Meanwhile it may hold each group that
/// the owner gives up, until it reports: by [`quiescent`](Reader::quiescent), which it makes between its
/// lookups, or by [`offline`](Reader::offline). No call of a reader waits or takes memory, and each lookup
/// has an answer.
///
/// A reader that is dropped goes offline first, so it holds no group then. Its number stays taken: to hand
/// it out again, give the reader back by [`Owner::unregister`](crate::Owner::unregister).
pub struct Reader {
    table: Arc<SharedTable<24, 8>>,
    pub(crate) pass: Pass,
}

impl Model for Reader {
    ghost use Rattle.std.specs.Prelude.{◌≡◌};
    ghost use Rattle.std.specs.Arc.{arc_value};
    ghost use Rattle.shared_fib.specs.Passes.{PassState, coded_pass};

    ghost Value = { PassState };

    ghost coded = { coded_pass };

    ghost view = { λ r. r.pass };

    ghost invariant = { λ r. r.pass.table ≡ arc_value r.table };
}

impl Drop for Reader {
    fn drop(self) {
        let Reader { table, mut pass } = self;
        if pass.is_online() {
            pass.offline(&*table);
        }
    }
}

impl Reader {
    // The reader with this pass.
    pub(crate) fn new(table: Arc<SharedTable<24, 8>>, pass: Pass) -> Self
        requires own { pass.table ≡ arc_value table }
        ensures { result ≡ pass }
    {
        Reader { table, pass }
    }

    // Its pass.
    pub(crate) fn into_pass(self) -> Pass
        ensures { result ≡ self }
    {
        let Reader { table: _, pass } = self;
        pass
    }

    /// The number of its worker.
    pub fn worker(&self) -> usize
        ensures value { result ≡ self.now.worker }
        ensures inside { result < self.now.table.initial.workers }
    {
        self.pass.worker_number()
    }

    /// Does nothing: its contract says what the steps of a reader are, and what it has seen.
    #[inline]
    pub fn history(&self)
        ensures { IsHistory self.now }
    {
        self.pass.history_is_sound();
    }

    /// Whether the reader is online: from a report that it is until one that it is offline.
    #[inline]
    pub fn is_online(&self) -> bool
        ensures { result ≡ self.now.online }
    {
        self.pass.is_online()
    }

    /// The reader is online: from now on it may look up, and may hold each group that is given up. One that
    /// is online already stays as it is.
    #[inline]
    pub fn online(&mut self)
        ensures own { self.new.table ≡ self.old.table }
        ensures steps { self.old.online ≡ false → (token : ℕ) × (first : ℕ) × (last : ℕ)
            × Makes ((StoreOnline token, last) ∷ (LoadOnline token, first) ∷ []) self.old self.new }
        ensures stays { self.old.online ≡ true → self.new ≡ self.old }
        ensures online { self.new.online ≡ true }
    {
        if !self.pass.is_online() {
            self.pass.online(&*self.table);
        }
    }

    /// The reader is offline: it holds no group. One that is offline already stays as it is.
    #[inline]
    pub fn offline(&mut self)
        ensures own { self.new.table ≡ self.old.table }
        ensures steps { self.old.online ≡ true
            → (place : ℕ) × Makes ((StoreOffline, place) ∷ []) self.old self.new }
        ensures stays { self.old.online ≡ false → self.new ≡ self.old }
        ensures offline { self.new.online ≡ false }
    {
        if self.pass.is_online() {
            self.pass.offline(&*self.table);
        }
    }

    /// The reader has ended its lookups so far: it holds no group that was given up before. One that is
    /// offline stays as it is.
    #[inline]
    pub fn quiescent(&mut self)
        ensures own { self.new.table ≡ self.old.table }
        ensures steps { self.old.online ≡ true → (token : ℕ) × (first : ℕ) × (last : ℕ)
            × Makes ((StoreQuiescent token, last) ∷ (LoadQuiescent token, first) ∷ []) self.old self.new }
        ensures stays { self.old.online ≡ false → self.new ≡ self.old }
        ensures online { self.new.online ≡ self.old.online }
    {
        if self.pass.is_online() {
            self.pass.quiescent(&*self.table);
        }
    }

    /// The next hop of the longest rule that covers the address, of a version that stood while its words
    /// were loaded. That version lies from `lo`, how many updates were done when the lookup began, to `hi`,
    /// how many were begun when it ended.
    #[inline]
    pub fn lookup(&mut self, addr: u32) -> Answer
        requires online { self.old.online ≡ true }
        ensures own { self.new.table ≡ self.old.table }
        ensures answer { LooksUp addr result.hop result.lo result.hi self.old self.new }
        ensures online { self.new.online ≡ true }
    {
        self.pass.lookup(&*self.table, addr)
    }

    /// The next hops of four addresses, with `default` for an address that no rule covers, between two
    /// loads of the sequence for all of them.
    #[inline]
    pub fn lookup4(&mut self, addrs: [u32; 4], default: u32) -> FourHops
        requires online { self.old.online ≡ true }
        ensures own { self.new.table ≡ self.old.table }
        ensures answers { (hops : List (Option ℕ))
            × LooksUpAll addrs hops result.lo result.hi self.old self.new
            × (result.hops ≡ map (hop_or default) hops) }
        ensures online { self.new.online ≡ true }
    {
        self.pass.lookup4(&*self.table, addrs, default)
    }

    /// Looks addresses up, and puts their next hops into `hops`, in their order, with `default` for an
    /// address that no rule covers. It answers as many addresses as both lists have room for, and returns
    /// how many those are, with the versions that the answers lie between. What stands behind them in
    /// `hops` stays.
    ///
    /// The addresses are looked up in fours, each by the loads of `lookup4`, and those that are left one by
    /// one.
    #[inline]
    pub fn lookup_bulk(&mut self, addrs: &[u32], default: u32, hops: &mut [u32]) -> Burst
        requires online { self.old.online ≡ true }
        ensures own { self.new.table ≡ self.old.table }
        ensures count { result.count ≡ min (length addrs.now) (length hops.old) }
        ensures answers { (found : List (Option ℕ))
            × LooksUpBurst (take result.count addrs.now) found result.lo result.hi self.old self.new
            × (take result.count hops.new ≡ map (hop_or default) found) }
        ensures len { length hops.new ≡ length hops.old }
        ensures rest { drop result.count hops.new ≡ drop result.count hops.old }
        ensures online { self.new.online ≡ true }
    {
        self.pass.lookup_burst(&*self.table, addrs, default, hops)
    }
}

/// The reader of the worker of this number, out of the bench of the table.
pub(crate) fn reader_of_worker(
    table: &Arc<SharedTable<24, 8>>,
    bench: &mut Bench,
    worker: usize,
) -> Result<Reader, Refusal>
    requires own { IsBenchOf (arc_value table.now) bench.old }
    ensures reader { IfOk result (IsPassOf (arc_value table.now) worker) }
    ensures registered { IfOk result (λ p. (slice_get bench.old worker ≡ Some (Some p))
        × (bench.new ≡ slice_set bench.old worker None)) }
    ensures no_such_worker { IsErrOf result Refusal.NoSuchWorker
        ↔ ((arc_value table.now).initial.workers ≤ worker) }
    ensures taken { IsErrOf result Refusal.Taken ↔ (slice_get bench.old worker ≡ Some None) }
    ensures refusals { IfErr result (λ e. (e ≡ Refusal.NoSuchWorker) ⊎ (e ≡ Refusal.Taken)
        ⊎ (e ≡ Refusal.Memory)) }
    ensures unchanged { OnErr result (bench.new ≡ bench.old) }
    ensures own { IsBenchOf (arc_value table.now) bench.new }
{
    match bench.register(&**table, worker) {
        Ok(pass) => match Arc::try_clone(table) {
            Ok(table) => Ok(Reader::new(table, pass)),
            Err(_) => {
                bench.unregister(&**table, pass);
                Err(Refusal::Memory)
            }
        },
        Err(RegisterError::NoSuchWorker) => Err(Refusal::NoSuchWorker),
        Err(RegisterError::Taken) => Err(Refusal::Taken),
    }
}
