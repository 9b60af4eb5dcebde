//! A worker on its way through its script.

ghost use Rattle.std.specs.Prelude.{◌≡◌, ℕ, ◌+◌, ◌*◌, ◌/◌, ◌%◌, ◌^◌, ◌<◌, ◌≤◌, List, [], ◌∷◌, All, map, length, slice_index, vec_len, vec_capacity, IfNone, IfSome, IfOk};
ghost use Rattle.lpm_bits.specs.Widths.{IsShape};
ghost use Rattle.lpm_cells.specs.Words.{HasRoom, IsWords};
ghost use Rattle.lpm_trace.specs.declared.deed.Deed.{Deed};
ghost use Rattle.lpm_trace.specs.declared.shown_step.Kind.TheVariants as kind;
ghost use Rattle.lpm_trace.specs.declared.step.WorkerStep.{WorkerStep};
ghost use Rattle.lpm_trace.specs.declared.step.WorkerStep.TheVariants.{LoadFirst, LoadSecond};
ghost use Rattle.lpm_trace.specs.States.{InitialState, TableState, addresses, done_at};
ghost use Rattle.lpm_trace.specs.Trace.{Worker as TraceWorker, AreBegun, AreAnswered, IsBetweenDeeds, initial_worker, LookingUp};
ghost use Rattle.interleave.specs.Scripts.{IsSound, IsSoundFrom, IsDone};
ghost use Rattle.interleave.specs.Record.{step_of_worker};
ghost use Rattle.interleave.specs.declared.probe.Probe.TheVariants as probe;
ghost use Rattle.interleave.specs.declared.worker.Phase.TheVariants as phase;
ghost use Rattle.interleave.specs.Machine.{Shows, StaysOn, IsNextUnread, IsNextGrouped, IsInRange, IsAt, IsOf, Makes, BeginsDeed, ContinuesDeed, Advances, probes_of, is_online};

use super::finished_lookups::{Seen, note};
use super::probe::{Grouped, Probe, next_in_group, next_unread, set_out};
use super::shared_state::Shared;
use lpm_bits::Shape;
use lpm_cells::{Cells, Entry};
use lpm_trace::{Actor, Deed, Kind, Step};
use std::alloc::{AllocError, Global};

/// What a worker is doing. In the two reports it has loaded a token that it hasn't stored yet.
#[derive(Clone, Copy)]
pub enum Phase {
    Offline,
    ComingOnline(u64),
    Online,
    LookingUp,
    ReportingQuiescent(u64),
}

/// A worker on its way through its script: how far it came, its counter, the report or lookup that
/// goes on. Its script is handed to each step.
#[derive(Drop)]
pub struct Worker {
    /// How many deeds have begun.
    begun: usize,
    counter: u64,
    phase: Phase,
    /// How many updates were done when the lookup began.
    lo: u64,
    /// The addresses of the lookup, at most four.
    probes: Vec<Probe>,
}

/// A step of the worker of this number.
fn shown(number: usize, kind: Kind, index: u64, value: u64) -> Step
    ensures { result ≡ step_of_worker number kind index value }
{
    Step {
        actor: Actor::Worker(number),
        kind,
        index,
        value,
    }
}

impl Worker {
    /// A worker before its first deed: offline.
    pub fn new(alloc: Global) -> Result<Self, AllocError>
        ensures { IfOk result (λ worker. (first second seconds : ℕ) (script : List Deed)
            → IsSound (2 ^ (first + second)) script
            → IsAt first second seconds worker script initial_worker []) }
    {
        let probes = Vec::with_capacity(alloc, 4)?;
        Ok(Worker {
            begun: 0,
            counter: 0,
            phase: Phase::Offline,
            lo: 0,
            probes,
        })
    }

    /// Its counter: the token that it stored last, or 0 while it is offline.
    pub fn counter(&self) -> u64
        ensures { (r : TraceWorker) → Shows self.now r → result ≡ r.counter }
    {
        self.counter
    }

    /// Makes the next step of the script's deeds, the one with the number `now` in the run; none where
    /// all deeds are done. Each call makes one step. The answers of a lookup that ends are noted in
    /// `seen`, where there is room for four.
    pub fn step<const FIRST: u32, const SECOND: u32>(
        &mut self,
        number: usize,
        script: &[Deed],
        shared: &mut Shared<FIRST, SECOND>,
        now: usize,
        seen: &mut Vec<Seen>,
    ) -> Option<Step>
        requires at { (r : TraceWorker) × (own : List WorkerStep)
            × IsAt FIRST SECOND (length shared.old.cells.seconds) self.old script.now r own }
        requires low { shared.old.sequence < 2 ^ 63 }
        requires space { vec_len seen.old + 4 ≤ vec_capacity seen.old }
        ensures same { shared.new ≡ shared.old }
        ensures capacity { vec_capacity seen.old ≤ vec_capacity seen.new }
        ensures unchanged { IfNone result ((self.new ≡ self.old) × (seen.new ≡ seen.old)) }
        ensures ended { IfNone result ((r : TraceWorker) (own : List WorkerStep)
            → IsAt FIRST SECOND (length shared.old.cells.seconds) self.old script.now r own
            → IsDone script.now r own) }
        ensures step { IfSome result (λ step. (c : InitialState) (w : TableState) (r : TraceWorker)
            (own : List WorkerStep)
            → IsOf FIRST SECOND shared.old.cells shared.old.sequence shared.old.token c w
            → IsAt FIRST SECOND (length shared.old.cells.seconds) self.old script.now r own
            → Advances FIRST SECOND (length shared.old.cells.seconds) c w number now script.now r own
            self.new step seen.old.items seen.new.items) }
    {
        let _words = shared.cells.seconds();
        match self.phase {
            Phase::Offline | Phase::Online => match script.get(self.begun) {
                Some(deed) => {
                    self.begun += 1;
                    Some(self.begin(number, *deed, shared))
                }
                None => None,
            },
            Phase::ComingOnline(token) | Phase::ReportingQuiescent(token) => {
                Some(self.store(number, token))
            }
            Phase::LookingUp => Some(self.read_on(number, shared, now, seen)),
        }
    }

    /// Begins a lookup of these addresses.
    fn look_up(&mut self, addrs: &[u32], sequence: u64)
        requires few { length addrs.now ≤ 4 }
        requires room { 4 ≤ vec_capacity self.old.probes }
        ensures begun { self.new.begun ≡ self.old.begun }
        ensures counter { self.new.counter ≡ self.old.counter }
        ensures phase { self.new.phase ≡ phase.LookingUp }
        ensures lo { self.new.lo ≡ done_at sequence }
        ensures probes { self.new.probes.items ≡ map probe.Unread addrs.now }
        ensures room { 4 ≤ vec_capacity self.new.probes }
    {
        self.phase = Phase::LookingUp;
        self.lo = sequence / 2;
        set_out(addrs, &mut self.probes);
    }

    /// Makes the first step of a deed.
    fn begin<const FIRST: u32, const SECOND: u32>(
        &mut self,
        number: usize,
        deed: Deed,
        shared: &Shared<FIRST, SECOND>,
    ) -> Step
        requires room { 4 ≤ vec_capacity self.old.probes }
        requires few { vec_len self.old.probes ≤ 4 }
        ensures begun { self.new.begun ≡ self.old.begun }
        ensures room { 4 ≤ vec_capacity self.new.probes }
        ensures few { vec_len self.new.probes ≤ 4 }
        ensures step { (c : InitialState) (w : TableState) (now : ℕ) (r : TraceWorker) (left : List Deed)
            → IsOf FIRST SECOND shared.now.cells shared.now.sequence shared.now.token c w
            → Shows self.old r → IsBetweenDeeds r.phase
            → IsSoundFrom (addresses c) (is_online r.phase) (deed ∷ left)
            → BeginsDeed c w number now r deed left self.new result }
    {
        match deed {
            Deed::Online => {
                self.phase = Phase::ComingOnline(shared.token);
                shown(number, Kind::LoadToken, 0, shared.token)
            }
            Deed::Offline => {
                self.counter = 0;
                self.phase = Phase::Offline;
                shown(number, Kind::StoreCounter, number as u64, 0)
            }
            Deed::Quiescent => {
                self.phase = Phase::ReportingQuiescent(shared.token);
                shown(number, Kind::LoadToken, 0, shared.token)
            }
            Deed::Lookup(addr) => {
                self.look_up(&[addr], shared.sequence);
                shown(number, Kind::LoadSequence, 0, shared.sequence)
            }
            Deed::Lookup4(addrs) => {
                self.look_up(&addrs, shared.sequence);
                shown(number, Kind::LoadSequence, 0, shared.sequence)
            }
            Deed::Meet => shown(number, Kind::LoadSequence, 0, shared.sequence),
        }
    }

    /// Makes the second step of a report: stores the token that the first loaded.
    fn store(&mut self, number: usize, token: u64) -> Step
        ensures stored { self.new ≡ record self.old { counter = token; phase = phase.Online } }
        ensures shown { result ≡ step_of_worker number kind.StoreCounter number token }
    {
        self.counter = token;
        self.phase = Phase::Online;
        shown(number, Kind::StoreCounter, number as u64, token)
    }

    /// Makes the next step of a lookup that has begun.
    fn read_on<const FIRST: u32, const SECOND: u32>(
        &mut self,
        number: usize,
        shared: &mut Shared<FIRST, SECOND>,
        now: usize,
        seen: &mut Vec<Seen>,
    ) -> Step
        requires shape { IsShape FIRST SECOND }
        requires words { IsWords FIRST SECOND shared.old.cells }
        requires in_range { All (IsInRange (2 ^ (FIRST + SECOND)) SECOND (length shared.old.cells.seconds))
            (probes_of self.old.probes.items) }
        requires space { vec_len seen.old + vec_len self.old.probes ≤ vec_capacity seen.old }
        requires low { shared.old.sequence < 2 ^ 63 }
        ensures same { shared.new ≡ shared.old }
        ensures begun { self.new.begun ≡ self.old.begun }
        ensures room { vec_capacity self.new.probes ≡ vec_capacity self.old.probes }
        ensures few { vec_len self.new.probes ≤ vec_len self.old.probes }
        ensures capacity { vec_capacity seen.old ≤ vec_capacity seen.new }
        ensures step { (c : InitialState) (w : TableState) (r : TraceWorker)
            → IsOf FIRST SECOND shared.old.cells shared.old.sequence shared.old.token c w
            → Shows self.old r → r.phase ≡ LookingUp
            → ContinuesDeed c w number now r self.new result seen.old.items seen.new.items }
    {
        if let Some((place, addr)) = next_unread(&self.probes) {
            return self.read_first(number, place, addr, shared, now);
        }
        match next_in_group(&self.probes) {
            Some(found) => self.read_second(number, &found, shared, now),
            None => self.end(number, shared.sequence, seen),
        }
    }

    /// Reads the first word of the next address.
    fn read_first<const FIRST: u32, const SECOND: u32>(
        &mut self,
        number: usize,
        place: usize,
        addr: u32,
        shared: &mut Shared<FIRST, SECOND>,
        now: usize,
    ) -> Step
        requires shape { IsShape FIRST SECOND }
        requires words { IsWords FIRST SECOND shared.old.cells }
        requires next { IsNextUnread self.old.probes.items place addr }
        requires addr { addr < 2 ^ (FIRST + SECOND) }
        ensures same { shared.new ≡ shared.old }
        ensures stays { StaysOn self.old self.new }
        ensures step { (c : InitialState) (w : TableState) (r : TraceWorker)
            → IsOf FIRST SECOND shared.old.cells shared.old.sequence shared.old.token c w
            → Shows self.old r → r.phase ≡ LookingUp
            → let word = slice_index shared.old.cells.firsts (addr / 2 ^ SECOND) in
            Makes c w number now r (LoadFirst word) self.new result }
    {
        let index = Shape::<FIRST, SECOND>::first_index(addr);
        let word = shared.cells.first(index);
        self.probes[place] = Probe::of_first(addr, word, now);
        shown(number, Kind::LoadFirst, index as u64, word)
    }

    /// Reads the second word of the next address that has a group.
    fn read_second<const FIRST: u32, const SECOND: u32>(
        &mut self,
        number: usize,
        found: &Grouped,
        shared: &mut Shared<FIRST, SECOND>,
        now: usize,
    ) -> Step
        requires shape { IsShape FIRST SECOND }
        requires words { IsWords FIRST SECOND shared.old.cells }
        requires begun { AreBegun (probes_of self.old.probes.items) }
        requires next { IsNextGrouped self.old.probes.items found.now }
        requires group { HasRoom SECOND shared.old.cells.seconds found.now.group }
        ensures same { shared.new ≡ shared.old }
        ensures stays { StaysOn self.old self.new }
        ensures step { (c : InitialState) (w : TableState) (r : TraceWorker)
            → IsOf FIRST SECOND shared.old.cells shared.old.sequence shared.old.token c w
            → Shows self.old r → r.phase ≡ LookingUp
            → let index = found.now.group * 2 ^ SECOND + found.now.addr % 2 ^ SECOND in
            Makes c w number now r (LoadSecond (slice_index shared.old.cells.seconds index)) self.new result }
    {
        let base = (found.group as usize) << SECOND;
        let index = base + Shape::<FIRST, SECOND>::second_index(found.addr);
        let word = shared.cells.second(index);
        self.probes[found.place] = Probe::Answered {
            addr: found.addr,
            word: word as u32,
            first: found.first,
            last: now,
        };
        shown(number, Kind::LoadSecond, index as u64, word)
    }

    /// Loads the sequence: the lookup ends, and its answers are noted.
    fn end(&mut self, number: usize, sequence: u64, seen: &mut Vec<Seen>) -> Step
        requires answered { AreAnswered (probes_of self.old.probes.items) }
        requires space { vec_len seen.old + vec_len self.old.probes ≤ vec_capacity seen.old }
        requires low { sequence < 2 ^ 63 }
        ensures begun { self.new.begun ≡ self.old.begun }
        ensures room { vec_capacity self.new.probes ≡ vec_capacity self.old.probes }
        ensures few { vec_len self.new.probes ≡ 0 }
        ensures capacity { vec_capacity seen.old ≤ vec_capacity seen.new }
        ensures step { (c : InitialState) (w : TableState) (now : ℕ) (r : TraceWorker) → w.sequence ≡ sequence
            → Shows self.old r → r.phase ≡ LookingUp
            → ContinuesDeed c w number now r self.new result seen.old.items seen.new.items }
    {
        note(number, &self.probes, self.lo, (sequence + 1) / 2, seen);
        self.probes.clear();
        self.phase = Phase::Online;
        shown(number, Kind::LoadSequence, 0, sequence)
    }
}
