//! The pass of a worker: its reports and its lookups.

ghost use Rattle.std.specs.Prelude.{◌≡◌, ℕ, ◌+◌, ◌^◌, ◌<◌, All, List, Option, map, [], ◌∷◌, true, false};
ghost use Rattle.lpm_trace.specs.declared.step.WorkerStep.TheVariants.{LoadOnline, StoreOnline, LoadQuiescent, StoreQuiescent, StoreOffline, MeetWriter};
ghost use Rattle.lpm_trace.specs.Trace.{worker_by, Offline};
ghost use Rattle.shared_fib.specs.Passes.{IsHistory, LooksUp, LooksUpAll, Makes};
ghost use Rattle.shared_fib.specs.RunningTable.{hop_or, steps_of};

use crate::{SharedTable, Writer};
use lpm_bits::Hop;
use lpm_rules::Answer;
use shared_words::{FourAnswers, WorkerSeat, lookup_address, lookup_four_addresses};
use std::marker::Model;

/// What a lookup of four addresses answers, in their order. Each answer is that of a version from `lo` to
/// `hi`, and no two need be of one version.
#[derive(Clone, Copy, Debug)]
pub struct FourHops {
    /// The next hops of the longest rules that cover the addresses, or the default.
    pub hops: [u32; 4],
    /// How many updates were done when the lookup began.
    pub lo: u64,
    /// How many updates were begun when it ended.
    pub hi: u64,
}

/// The pass of a worker, by which it reports and looks up. A pass keeps what its worker has seen.
///
/// No call of a pass waits or takes memory, and each lookup has an answer.
///
/// A pass that is dropped makes no report. Where it was online, it holds each group given up since its last
/// report, for ever; and its number stays taken. [`Bench::unregister`](crate::Bench::unregister) takes it
/// back.
#[derive(Drop)]
pub struct Pass {
    pub(crate) seat: WorkerSeat,
    pub(crate) is_online: bool,
}

impl Model for Pass {
    ghost use Rattle.shared_fib.specs.RunningTable.{IsPass};
    ghost use Rattle.shared_fib.specs.Passes.{PassState, coded_pass};

    ghost Value = { PassState };

    ghost coded = { coded_pass };

    ghost view = { λ p. record {
      table = record { words = p.seat.table; initial = p.seat.view.initial };
      worker = p.seat.worker;
      online = p.is_online;
      steps = p.seat.view.own_steps;
      writer_steps = p.seat.view.writer_steps;
    } };

    ghost invariant = { λ p. IsPass p.seat.view p.is_online };
}

impl Pass {
    // The pass of a worker that is offline, which has this seat.
    pub(crate) fn new(seat: WorkerSeat) -> Self
        requires offline { (worker_by seat.view.own_steps).phase ≡ Offline }
        ensures { result ≡ record {
          table = record { words = seat.table; initial = seat.view.initial };
          worker = seat.worker;
          online = false;
          steps = seat.view.own_steps;
          writer_steps = seat.view.writer_steps;
        } }
    {
        Pass {
            seat,
            is_online: false,
        }
    }

    /// The number of its worker.
    pub fn worker_number(&self) -> usize
        ensures value { result ≡ self.now.worker }
        ensures inside { result < self.now.table.initial.workers }
    {
        self.seat.number() as usize
    }

    /// Does nothing: its contract says what the steps of a pass are, and what it has seen.
    #[inline]
    pub fn history_is_sound(&self)
        ensures { IsHistory self.now }
    {
        self.seat.view_is_sound();
    }

    /// Whether the pass is online: from a report that it is until one that it is offline.
    #[inline]
    pub fn is_online(&self) -> bool
        ensures { result ≡ self.now.online }
    {
        self.is_online
    }

    /// The worker is online: from now on it may look up, and may hold each group that is given up.
    #[inline]
    pub fn online<const FIRST: u32, const SECOND: u32>(
        &mut self,
        table: &SharedTable<FIRST, SECOND>,
    )
        requires own { self.old.table ≡ table.now }
        requires offline { self.old.online ≡ false }
        ensures own { self.new.table ≡ self.old.table }
        ensures steps { (token : ℕ) × (first : ℕ) × (last : ℕ)
            × Makes ((StoreOnline token, last) ∷ (LoadOnline token, first) ∷ []) self.old self.new }
        ensures online { self.new.online ≡ true }
    {
        shared_words::report_online(&mut self.seat, &table.words);
        self.is_online = true;
    }

    /// The worker is offline: it holds no group.
    #[inline]
    pub fn offline<const FIRST: u32, const SECOND: u32>(
        &mut self,
        table: &SharedTable<FIRST, SECOND>,
    )
        requires own { self.old.table ≡ table.now }
        requires online { self.old.online ≡ true }
        ensures own { self.new.table ≡ self.old.table }
        ensures steps { (place : ℕ) × Makes ((StoreOffline, place) ∷ []) self.old self.new }
        ensures offline { self.new.online ≡ false }
    {
        shared_words::report_offline(&mut self.seat, &table.words);
        self.is_online = false;
    }

    /// Goes offline, where it is online.
    pub(crate) fn leave<const FIRST: u32, const SECOND: u32>(
        &mut self,
        table: &SharedTable<FIRST, SECOND>,
    )
        requires own { self.old.table ≡ table.now }
        ensures own { self.new.table ≡ self.old.table }
        ensures worker { self.new.worker ≡ self.old.worker }
        ensures leaves { self.old.online ≡ true
            → (place : ℕ) × Makes ((StoreOffline, place) ∷ []) self.old self.new }
        ensures stays { self.old.online ≡ false → self.new ≡ self.old }
        ensures offline { self.new.online ≡ false }
    {
        if self.is_online() {
            self.offline(table);
        }
    }

    /// The worker has ended its lookups so far: it holds no group that was given up before.
    #[inline]
    pub fn quiescent<const FIRST: u32, const SECOND: u32>(
        &mut self,
        table: &SharedTable<FIRST, SECOND>,
    )
        requires own { self.old.table ≡ table.now }
        requires online { self.old.online ≡ true }
        ensures own { self.new.table ≡ self.old.table }
        ensures steps { (token : ℕ) × (first : ℕ) × (last : ℕ)
            × Makes ((StoreQuiescent token, last) ∷ (LoadQuiescent token, first) ∷ []) self.old self.new }
        ensures online { self.new.online ≡ true }
    {
        shared_words::report_quiescent(&mut self.seat, &table.words);
    }

    /// The next hop of the longest rule that covers the address, of a version that stood while its words were
    /// loaded. That version lies from `lo`, how many updates were done when the lookup began, to `hi`, how
    /// many were begun when it ended.
    #[inline]
    pub fn lookup<const FIRST: u32, const SECOND: u32>(
        &mut self,
        table: &SharedTable<FIRST, SECOND>,
        addr: u32,
    ) -> Answer
        requires own { self.old.table ≡ table.now }
        requires online { self.old.online ≡ true }
        requires addr { addr < 2 ^ (FIRST + SECOND) }
        ensures own { self.new.table ≡ self.old.table }
        ensures answer { LooksUp addr result.hop result.lo result.hi self.old self.new }
        ensures online { self.new.online ≡ true }
    {
        let found = lookup_address::<FIRST, SECOND, _>(&mut self.seat, &table.words, addr);
        self.seat.view_is_sound();
        found
    }

    /// The next hops of four addresses, with `default` for an address that no rule covers, between two
    /// loads of the sequence for all of them.
    #[inline]
    pub fn lookup4<const FIRST: u32, const SECOND: u32>(
        &mut self,
        table: &SharedTable<FIRST, SECOND>,
        addrs: [u32; 4],
        default: u32,
    ) -> FourHops
        requires own { self.old.table ≡ table.now }
        requires online { self.old.online ≡ true }
        requires addrs { All (λ addr. addr < 2 ^ (FIRST + SECOND)) addrs }
        ensures own { self.new.table ≡ self.old.table }
        ensures answers { (hops : List (Option ℕ))
            × LooksUpAll addrs hops result.lo result.hi self.old self.new
            × (result.hops ≡ map (hop_or default) hops) }
        ensures online { self.new.online ≡ true }
    {
        let [a, b, c, d] = addrs;
        let found = self.four(table, a, b, c, d);
        let [w, x, y, z] = found.hops;
        FourHops {
            hops: [
                number_or(w, default),
                number_or(x, default),
                number_or(y, default),
                number_or(z, default),
            ],
            lo: found.lo,
            hi: found.hi,
        }
    }

    // The answers for four addresses, before the default stands in for a miss.
    #[inline]
    fn four<const FIRST: u32, const SECOND: u32>(
        &mut self,
        table: &SharedTable<FIRST, SECOND>,
        a: u32,
        b: u32,
        c: u32,
        d: u32,
    ) -> FourAnswers
        requires own { self.old.table ≡ table.now }
        requires online { self.old.online ≡ true }
        requires addrs { All (λ addr. addr < 2 ^ (FIRST + SECOND)) (a ∷ b ∷ c ∷ d ∷ []) }
        ensures own { self.new.table ≡ self.old.table }
        ensures answers { LooksUpAll (a ∷ b ∷ c ∷ d ∷ []) result.hops result.lo result.hi
            self.old self.new }
        ensures online { self.new.online ≡ true }
    {
        let words = &table.words;
        let found = lookup_four_addresses::<FIRST, SECOND, _>(&mut self.seat, words, a, b, c, d);
        self.seat.view_is_sound();
        found
    }

    /// Loads the sequence once. Then this pass has seen all that the writer has done. The writer stays as it
    /// was.
    pub fn meet<const FIRST: u32, const SECOND: u32>(
        &mut self,
        table: &SharedTable<FIRST, SECOND>,
        writer: &mut Writer<FIRST, SECOND>,
    )
        requires own { self.old.table ≡ table.now }
        requires writer { writer.old.identity ≡ table.now }
        ensures own { self.new.table ≡ self.old.table }
        ensures step { (number : ℕ) × (place : ℕ)
            × Makes ((MeetWriter number, place) ∷ []) self.old self.new }
        ensures all { self.new.writer_steps ≡ steps_of writer.old }
        ensures same { writer.new ≡ writer.old }
        ensures online { self.old.online ≡ true → self.new.online ≡ true }
        ensures offline { self.old.online ≡ false → self.new.online ≡ false }
    {
        self.seat.meet_writer(&table.words, &mut writer.seat);
    }
}

/// The number of a next hop, or the default where there is none.
#[inline]
pub(crate) fn number_or(hop: Option<Hop>, default: u32) -> u32
    ensures { result ≡ hop_or default hop }
{
    match hop {
        Some(hop) => hop.number(),
        None => default,
    }
}
