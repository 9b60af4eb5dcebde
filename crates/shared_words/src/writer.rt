//! The writer's seat.

ghost use Rattle.std.specs.Prelude.{◌≡◌, ℕ, ◌+◌, ◌<◌, slice_index};
ghost use Rattle.lpm_trace.specs.declared.step.WriterStep.TheVariants.{StoreFirst, StoreSecond, BeginUpdate, EndUpdate, BumpToken, LoadCounter};
ghost use Rattle.shared_words.specs.Rule.{with_one_more, worker_view};
ghost use Rattle.shared_words.specs.Seats.{IsOf, AreLawful, MayFollow, state_of_view, with_step};

use crate::initial::InitialContent;
use crate::layout::{Layout, first_at, half, with_half};
use crate::trace_rule::{BumpsToken, EndsUpdate, Looks, NextWorker, Place, load_as, store_as};
use crate::words::SharedWords;
use crate::worker::WorkerSeat;
use lpm_trace::RuleChange;
use std::marker::{Brand, Model};

/// The seat of the one writer. It knows each step that the writer has made.
#[derive(Drop)]
pub struct WriterSeat {
    // The seat at the table of atomic words.
    pub(crate) place: Place,
}

impl Model for WriterSeat {
    ghost use Rattle.shared_words.specs.Seats.{WriterAt, coded_writer, IsWriterSeat};

    ghost Value = { WriterAt };

    ghost coded = { coded_writer };

    ghost view = { λ s. record { table = s.place.table_id; view = s.place.me.0 } };

    ghost invariant = { λ s. IsWriterSeat s.place.me };
}

impl WriterSeat {
    /// Does nothing: its contract says what the writer's steps are.
    #[inline]
    pub fn steps_are_lawful(&self)
        ensures { AreLawful self.now.view.initial self.now.view.writer_steps }
    {
        let _ = &self.place;
    }

    /// Stores a first word: one store of the shared word in which it stands, beside its neighbour as this
    /// writer left it.
    #[inline]
    pub fn store_first<T: InitialContent>(&mut self, table: &SharedWords<T>, i: usize, word: u64)
        requires own { IsOf table.now self.old.table self.old.view }
        requires may { MayFollow self.old.view (StoreFirst i word) }
        ensures own { self.new.table ≡ self.old.table }
        ensures step { self.new.view ≡ with_step self.old.view (StoreFirst i word) }
    {
        let at = first_at(i);
        let found = table.board.shared.load::<Looks>(&mut self.place, at);
        let shared = with_half(i, found, word);
        store_as::<T, Brand, (usize, u64)>(&table.board, &mut self.place, at, shared, (i, word));
    }

    /// Stores a second word: one store of the shared word in which it stands, beside its neighbour as this
    /// writer left it.
    #[inline]
    pub fn store_second<T: InitialContent>(&mut self, table: &SharedWords<T>, j: usize, word: u64)
        requires own { IsOf table.now self.old.table self.old.view }
        requires may { MayFollow self.old.view (StoreSecond j word) }
        ensures own { self.new.table ≡ self.old.table }
        ensures step { self.new.view ≡ with_step self.old.view (StoreSecond j word) }
    {
        let at = table.layout.second_at(j);
        let found = table.board.shared.load::<Looks>(&mut self.place, at);
        let shared = with_half(j, found, word);
        store_as::<T, Brand, (usize, u64)>(&table.board, &mut self.place, at, shared, (j, word));
    }

    /// Stores the next number of the sequence: the update of this change begins.
    #[inline]
    pub fn begin_update<T: InitialContent>(
        &mut self,
        table: &SharedWords<T>,
        change: &RuleChange,
        number: u64,
    )
        requires own { IsOf table.now self.old.table self.old.view }
        requires next { number ≡ (state_of_view self.old.view).sequence + 1 }
        requires may { MayFollow self.old.view (BeginUpdate change.now) }
        ensures own { self.new.table ≡ self.old.table }
        ensures step { self.new.view ≡ with_step self.old.view (BeginUpdate change.now) }
    {
        let at = Layout::SEQUENCE;
        store_as::<T, Brand, &RuleChange>(&table.board, &mut self.place, at, number, change);
    }

    /// Stores the next number of the sequence: the update is done.
    #[inline]
    pub fn end_update<T: InitialContent>(&mut self, table: &SharedWords<T>, number: u64)
        requires own { IsOf table.now self.old.table self.old.view }
        requires next { number ≡ (state_of_view self.old.view).sequence + 1 }
        requires may { MayFollow self.old.view EndUpdate }
        ensures own { self.new.table ≡ self.old.table }
        ensures step { self.new.view ≡ with_step self.old.view EndUpdate }
    {
        let shared = &table.board.shared;
        shared.store::<EndsUpdate>(&mut self.place, Layout::SEQUENCE, number);
    }

    /// Stores the next token.
    #[inline]
    pub fn bump_token<T: InitialContent>(&mut self, table: &SharedWords<T>, token: u64)
        requires own { IsOf table.now self.old.table self.old.view }
        requires next { token ≡ (state_of_view self.old.view).token + 1 }
        requires may { MayFollow self.old.view BumpToken }
        ensures own { self.new.table ≡ self.old.table }
        ensures step { self.new.view ≡ with_step self.old.view BumpToken }
    {
        let shared = &table.board.shared;
        shared.store::<BumpsToken>(&mut self.place, Layout::TOKEN, token);
    }

    /// Loads the counter of a worker, in a check of the token.
    #[inline]
    pub fn load_worker_counter<T: InitialContent>(
        &mut self,
        table: &SharedWords<T>,
        token: u64,
        worker: usize,
    ) -> u64
        requires own { IsOf table.now self.old.table self.old.view }
        requires worker { worker < table.now.layout.workers }
        requires may { (counter : ℕ) → MayFollow self.old.view (LoadCounter token worker counter) }
        ensures own { self.new.table ≡ self.old.table }
        ensures step { self.new.view ≡ with_step self.old.view (LoadCounter token worker result) }
    {
        let at = table.layout.counter_at(worker);
        load_as::<T, Brand, (u64, usize)>(&table.board, &mut self.place, at, (token, worker))
    }

    /// The first word at place `i`, which this writer alone changes. It is no step.
    #[inline]
    pub fn stored_first<T: InitialContent>(&mut self, table: &SharedWords<T>, i: usize) -> u64
        requires own { IsOf table.now self.old.table self.old.view }
        requires index { i < table.now.layout.firsts }
        ensures same { self.new ≡ self.old }
        ensures value { result ≡ slice_index (state_of_view self.old.view).words.firsts i }
    {
        let at = first_at(i);
        half(i, table.board.shared.load::<Looks>(&mut self.place, at))
    }

    /// The second word at place `j`, which this writer alone changes. It is no step.
    #[inline]
    pub fn stored_second<T: InitialContent>(&mut self, table: &SharedWords<T>, j: usize) -> u64
        requires own { IsOf table.now self.old.table self.old.view }
        requires index { j < table.now.layout.seconds }
        ensures same { self.new ≡ self.old }
        ensures value { result ≡ slice_index (state_of_view self.old.view).words.seconds j }
    {
        let at = table.layout.second_at(j);
        half(j, table.board.shared.load::<Looks>(&mut self.place, at))
    }

    /// The sequence, which this writer alone changes. It is no step.
    #[inline]
    pub fn stored_sequence<T: InitialContent>(&mut self, table: &SharedWords<T>) -> u64
        requires own { IsOf table.now self.old.table self.old.view }
        ensures same { self.new ≡ self.old }
        ensures value { result ≡ (state_of_view self.old.view).sequence }
    {
        let shared = &table.board.shared;
        shared.load::<Looks>(&mut self.place, Layout::SEQUENCE)
    }

    /// The token, which this writer alone changes. It is no step.
    #[inline]
    pub fn stored_token<T: InitialContent>(&mut self, table: &SharedWords<T>) -> u64
        requires own { IsOf table.now self.old.table self.old.view }
        ensures same { self.new ≡ self.old }
        ensures value { result ≡ (state_of_view self.old.view).token }
    {
        let shared = &table.board.shared;
        shared.load::<Looks>(&mut self.place, Layout::TOKEN)
    }

    /// The seat of the next worker, which is offline and has made no step.
    pub fn next_worker<T: InitialContent>(
        &mut self,
        table: &SharedWords<T>,
        number: u64,
    ) -> WorkerSeat
        requires own { IsOf table.now self.old.table self.old.view }
        requires number { self.old.view.made ≡ number }
        requires worker { number < table.now.layout.workers }
        ensures own { self.new.table ≡ self.old.table }
        ensures made { self.new.view ≡ with_one_more self.old.view }
        ensures seat { result.table ≡ self.old.table }
        ensures view { result.view ≡ worker_view self.old.view }
        ensures worker { result.worker ≡ number }
    {
        let place = table.board.shared.split_seat::<NextWorker>(&mut self.place);
        WorkerSeat { place, number }
    }
}
