//! The seat of a worker.

ghost use Rattle.std.specs.Prelude.{◌≡◌, ℕ, ◌+◌, ◌<◌, All};
ghost use Rattle.lpm_cells.specs.Words.{IsLastWord, IsFirstWord};
ghost use Rattle.lpm_trace.specs.declared.step.WorkerStep.TheVariants.{LoadOnline, StoreOnline, LoadQuiescent, StoreQuiescent, StoreOffline, BeginLookup, LoadFirst as FirstLoad, LoadSecond as SecondLoad, EndLookup, MeetWriter};
ghost use Rattle.lpm_trace.specs.States.{addresses};
ghost use Rattle.lpm_trace.specs.Trace.{worker_by, Offline, ComingOnline, Online, LookingUp, ReportingQuiescent, AreBegun, AreAnswered, IsBetweenDeeds};
ghost use Rattle.shared_words.specs.declared.view.Role.TheVariants.{Worker as AsWorker};
ghost use Rattle.shared_words.specs.Layout.{initial_state_of};
ghost use Rattle.shared_words.specs.Seats.{IsOf, IsSound, Gains, IsFirstAt, IsSecondAt};

use crate::initial::InitialContent;
use crate::layout::{Layout, first_at, half};
use crate::trace_rule::{
    Compares, EndsLookup, Hears, LoadsOnline, LoadsQuiescent, Meeting, Notes, Place, StoresOffline,
    StoresOnline, StoresQuiescent, load_as,
};
use crate::words::SharedWords;
use crate::writer::WriterSeat;
use std::marker::{Brand, Model};

/// The seat of the worker of this number. It knows each step that the worker has made.
#[derive(Drop)]
pub struct WorkerSeat {
    // The seat at the table of atomic words.
    pub(crate) place: Place,
    // The worker's number, from 0.
    pub(crate) number: u64,
}

impl Model for WorkerSeat {
    ghost use Rattle.shared_words.specs.Seats.{WorkerAt, coded_worker, IsWorkerSeat};

    ghost Value = { WorkerAt };

    ghost coded = { coded_worker };

    ghost view = { λ s. record {
      table = s.place.table_id;
      worker = s.number;
      view = s.place.me.0;
    } };

    ghost invariant = { λ s. IsWorkerSeat s.number s.place.me };
}

impl WorkerSeat {
    /// The worker's number.
    pub fn number(&self) -> u64
        ensures worker { result ≡ self.now.worker }
        ensures role { self.now.view.role ≡ AsWorker result }
        ensures inside { result < self.now.view.initial.workers }
    {
        self.number
    }

    /// Does nothing: its contract says what the steps of a worker, and those that it has seen of the
    /// writer, are.
    #[inline]
    pub fn view_is_sound(&self)
        ensures { IsSound self.now.view }
    {
        let _ = &self.place;
    }

    /// In a report that the worker is online, loads the token.
    #[inline]
    pub fn load_online<T: InitialContent>(&mut self, table: &SharedWords<T>) -> u64
        requires own { IsOf table.now self.old.table self.old.view }
        requires offline { (worker_by self.old.view.own_steps).phase ≡ Offline }
        ensures own { self.new.table ≡ self.old.table }
        ensures worker { self.new.worker ≡ self.old.worker }
        ensures step { Gains (LoadOnline result) self.old.view self.new.view }
    {
        let at = Layout::TOKEN;
        table.board.shared.load::<LoadsOnline>(&mut self.place, at)
    }

    /// In that report, stores the loaded token into the worker's counter.
    #[inline]
    pub fn store_online<T: InitialContent>(&mut self, table: &SharedWords<T>, token: u64)
        requires own { IsOf table.now self.old.table self.old.view }
        requires loaded { (worker_by self.old.view.own_steps).phase ≡ ComingOnline token }
        ensures own { self.new.table ≡ self.old.table }
        ensures worker { self.new.worker ≡ self.old.worker }
        ensures step { Gains (StoreOnline token) self.old.view self.new.view }
    {
        let at = table.layout.counter_at(self.number as usize);
        let shared = &table.board.shared;
        shared.store::<StoresOnline>(&mut self.place, at, token);
    }

    /// In a quiescent report, loads the token.
    #[inline]
    pub fn load_quiescent<T: InitialContent>(&mut self, table: &SharedWords<T>) -> u64
        requires own { IsOf table.now self.old.table self.old.view }
        requires online { (worker_by self.old.view.own_steps).phase ≡ Online }
        ensures own { self.new.table ≡ self.old.table }
        ensures worker { self.new.worker ≡ self.old.worker }
        ensures step { Gains (LoadQuiescent result) self.old.view self.new.view }
    {
        let shared = &table.board.shared;
        shared.load::<LoadsQuiescent>(&mut self.place, Layout::TOKEN)
    }

    /// In that report, stores the loaded token into the worker's counter.
    #[inline]
    pub fn store_quiescent<T: InitialContent>(&mut self, table: &SharedWords<T>, token: u64)
        requires own { IsOf table.now self.old.table self.old.view }
        requires loaded { (worker_by self.old.view.own_steps).phase ≡ ReportingQuiescent token }
        ensures own { self.new.table ≡ self.old.table }
        ensures worker { self.new.worker ≡ self.old.worker }
        ensures step { Gains (StoreQuiescent token) self.old.view self.new.view }
    {
        let at = table.layout.counter_at(self.number as usize);
        let shared = &table.board.shared;
        shared.store::<StoresQuiescent>(&mut self.place, at, token);
    }

    /// Stores 0 in the worker's counter: it is offline.
    #[inline]
    pub fn store_offline<T: InitialContent>(&mut self, table: &SharedWords<T>)
        requires own { IsOf table.now self.old.table self.old.view }
        requires online { (worker_by self.old.view.own_steps).phase ≡ Online }
        ensures own { self.new.table ≡ self.old.table }
        ensures worker { self.new.worker ≡ self.old.worker }
        ensures step { Gains StoreOffline self.old.view self.new.view }
    {
        let at = table.layout.counter_at(self.number as usize);
        let shared = &table.board.shared;
        shared.store::<StoresOffline>(&mut self.place, at, 0);
    }

    /// Loads the sequence: a lookup of these addresses begins.
    #[inline]
    pub fn begin_lookup<T: InitialContent>(&mut self, table: &SharedWords<T>, addrs: &[u64]) -> u64
        requires own { IsOf table.now self.old.table self.old.view }
        requires online { (worker_by self.old.view.own_steps).phase ≡ Online }
        requires addrs { All (λ a. a < addresses (initial_state_of self.old.view.initial)) addrs.now }
        ensures own { self.new.table ≡ self.old.table }
        ensures worker { self.new.worker ≡ self.old.worker }
        ensures step { Gains (BeginLookup addrs.now result) self.old.view self.new.view }
    {
        let at = Layout::SEQUENCE;
        load_as::<T, Brand, &[u64]>(&table.board, &mut self.place, at, addrs)
    }

    /// Loads the first word of the next address, which lies at place `i`.
    #[inline]
    pub fn load_first<T: InitialContent>(&mut self, table: &SharedWords<T>, i: usize) -> u64
        requires own { IsOf table.now self.old.table self.old.view }
        requires index { i < table.now.layout.firsts }
        requires looking { (worker_by self.old.view.own_steps).phase ≡ LookingUp }
        requires next { IsFirstAt self.old.view.initial.second i
            (worker_by self.old.view.own_steps).probes }
        ensures own { self.new.table ≡ self.old.table }
        ensures worker { self.new.worker ≡ self.old.worker }
        ensures step { Gains (FirstLoad result) self.old.view self.new.view }
        ensures word { IsFirstWord
            (self.old.view.initial.first + self.old.view.initial.second)
            self.old.view.initial.second self.old.view.initial.seconds result }
    {
        let at = first_at(i);
        let shared = load_as::<T, Brand, usize>(&table.board, &mut self.place, at, i);
        half(i, shared)
    }

    /// Loads the second word of the next address that has a group, which lies at place `j`.
    #[inline]
    pub fn load_second<T: InitialContent>(&mut self, table: &SharedWords<T>, j: usize) -> u64
        requires own { IsOf table.now self.old.table self.old.view }
        requires index { j < table.now.layout.seconds }
        requires looking { (worker_by self.old.view.own_steps).phase ≡ LookingUp }
        requires begun { AreBegun (worker_by self.old.view.own_steps).probes }
        requires next { IsSecondAt self.old.view.initial.second j
            (worker_by self.old.view.own_steps).probes }
        ensures own { self.new.table ≡ self.old.table }
        ensures worker { self.new.worker ≡ self.old.worker }
        ensures step { Gains (SecondLoad result) self.old.view self.new.view }
        ensures word { IsLastWord
            (self.old.view.initial.first + self.old.view.initial.second) result }
    {
        let at = table.layout.second_at(j);
        let shared = load_as::<T, Brand, usize>(&table.board, &mut self.place, at, j);
        half(j, shared)
    }

    /// Loads the sequence: the lookup, of which each address has its answer, ends.
    #[inline]
    pub fn end_lookup<T: InitialContent>(&mut self, table: &SharedWords<T>) -> u64
        requires own { IsOf table.now self.old.table self.old.view }
        requires looking { (worker_by self.old.view.own_steps).phase ≡ LookingUp }
        requires answered { AreAnswered (worker_by self.old.view.own_steps).probes }
        ensures own { self.new.table ≡ self.old.table }
        ensures worker { self.new.worker ≡ self.old.worker }
        ensures step { Gains (EndLookup result) self.old.view self.new.view }
    {
        let at = Layout::SEQUENCE;
        table.board.shared.load::<EndsLookup>(&mut self.place, at)
    }

    /// Loads the sequence once. Then this worker has seen all that the writer has done. The writer stays as
    /// it was.
    pub fn meet_writer<T: InitialContent>(
        &mut self,
        table: &SharedWords<T>,
        writer: &mut WriterSeat,
    )
        requires own { IsOf table.now self.old.table self.old.view }
        requires between { IsBetweenDeeds (worker_by self.old.view.own_steps).phase }
        requires writer { IsOf table.now writer.old.table writer.old.view }
        ensures own { self.new.table ≡ self.old.table }
        ensures worker { self.new.worker ≡ self.old.worker }
        ensures step { (number : ℕ) × Gains (MeetWriter number)
            (record self.old.view { heard = writer.old.view.writer_steps })
            self.new.view }
        ensures all { self.new.view.writer_steps ≡ writer.old.view.writer_steps }
        ensures same { writer.new ≡ writer.old }
    {
        let at = Layout::SEQUENCE;
        let shared = &table.board.shared;
        let note = shared.split_seat::<Notes>(&mut writer.place);
        shared.join_seat::<Hears>(&mut self.place, note);
        shared.load::<Meeting>(&mut self.place, at);
        let note = shared.split_seat::<Notes>(&mut self.place);
        shared.join_seat::<Hears>(&mut writer.place, note);
        shared.load::<Compares>(&mut writer.place, at);
    }
}
