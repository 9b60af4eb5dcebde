//! The rule of the table, and what each step tells its seat.

ghost use Rattle.std.specs.Prelude.{◌≡◌, ◌<◌};
ghost use mathlib.Core.Option.{none};
ghost use Rattle.atomic_table.specs.Table.{Allows, step};
ghost use Rattle.lpm_trace.specs.declared.step.WriterStep.TheVariants.{EndUpdate, BumpToken};
ghost use Rattle.lpm_trace.specs.declared.step.WorkerStep.TheVariants.{LoadOnline, StoreOnline, LoadQuiescent, StoreQuiescent, StoreOffline, EndLookup, MeetWriter};
ghost use Rattle.shared_words.specs.Rule.{Holds, writer_view, worker_view, with_one_more, note_of, read_note, view_with_note};
ghost use Rattle.shared_words.specs.Seats.{WriterGains, WriterLooks, SeatCompares, WorkerGains};

use crate::initial::InitialContent;
use crate::view::View;
use atomic_table::{Join, Play, Seat, Split, Table, TableRule};
use std::alloc::Global;
use std::marker::Brand;

/// The rule: the words and the views show the end of a trace.
pub struct TraceRule;

impl<T: InitialContent> TableRule<(), View, T> for TraceRule {
    ghost holds = { λ key. Holds (T.initial key) };

    ghost first = { λ key. writer_view (T.initial key) };
}

/// The table of atomic words under this rule.
pub type Board<T> = Table<(), View, T, TraceRule, Global>;

/// A seat at it, with what that seat knows.
pub type Place = Seat<(), View>;

// What a call picks for its step has the step's parts, which the word doesn't tell.
impl Play<(), View> for Brand {
    ghost then = { λ s me n me'. me' ≡ me };
}

/// A load, which is the step that the call picks by what it is told of it. A signature with a const parameter
/// would not let a call pick.
#[inline]
pub fn load_as<T: InitialContent, J: Play<(), View>, A: Copy>(
    board: &Board<T>,
    place: &mut Place,
    at: usize,
    told: A,
) -> u64
    requires own { (place.old.table_id ≡ board.now.shared.table_id)
        × (at < board.now.shared.table_id.words) }
    requires allowed { Allows (Holds (T.initial board.now.shared.key))
        board.now.shared.table_id.slots place.old.id place.old.me at (λ n. n)
        (J.then (step board.now.shared.table_id.slots at 0 0 none) place.old.me) }
    ensures own { place.new.table_id ≡ place.old.table_id }
    ensures gains { J.then (step board.now.shared.table_id.slots at 0 0 none) place.old.me result
        place.new.me }
{
    let _ = told;
    board.shared.load::<J>(place, at)
}

/// A store, which is the step that the call picks by what it is told of it.
#[inline]
pub fn store_as<T: InitialContent, J: Play<(), View>, A: Copy>(
    board: &Board<T>,
    place: &mut Place,
    at: usize,
    number: u64,
    told: A,
)
    requires own { (place.old.table_id ≡ board.now.shared.table_id)
        × (at < board.now.shared.table_id.words) }
    requires allowed { Allows (Holds (T.initial board.now.shared.key))
        board.now.shared.table_id.slots place.old.id place.old.me at (λ _. number)
        (λ _. J.then (step board.now.shared.table_id.slots at number 0 none) place.old.me number) }
    ensures own { place.new.table_id ≡ place.old.table_id }
    ensures gains { J.then (step board.now.shared.table_id.slots at number 0 none) place.old.me number
        place.new.me }
{
    let _ = told;
    board.shared.store::<J>(place, at, number)
}

/// The sequence is stored: the update is done.
pub struct EndsUpdate;

impl Play<(), View> for EndsUpdate {
    ghost then = { λ s me n. WriterGains EndUpdate me };
}

/// The token is stored.
pub struct BumpsToken;

impl Play<(), View> for BumpsToken {
    ghost then = { λ s me n. WriterGains BumpToken me };
}

/// The writer loads a word that it alone changes, which is no step.
pub struct Looks;

impl Play<(), View> for Looks {
    ghost then = { WriterLooks };
}

/// The writer compares what it has heard with its own steps, which is no step.
pub struct Compares;

impl Play<(), View> for Compares {
    ghost then = { SeatCompares };
}

/// In a report that it is online, a worker loads the token.
pub struct LoadsOnline;

impl Play<(), View> for LoadsOnline {
    ghost then = { λ s me n. WorkerGains (LoadOnline n) me };
}

/// In that report, it stores the token.
pub struct StoresOnline;

impl Play<(), View> for StoresOnline {
    ghost then = { λ s me n. WorkerGains (StoreOnline n) me };
}

/// In a quiescent report, a worker loads the token.
pub struct LoadsQuiescent;

impl Play<(), View> for LoadsQuiescent {
    ghost then = { λ s me n. WorkerGains (LoadQuiescent n) me };
}

/// In that report, it stores the token.
pub struct StoresQuiescent;

impl Play<(), View> for StoresQuiescent {
    ghost then = { λ s me n. WorkerGains (StoreQuiescent n) me };
}

/// A worker stores 0: it is offline.
pub struct StoresOffline;

impl Play<(), View> for StoresOffline {
    ghost then = { λ s me n. WorkerGains StoreOffline me };
}

/// A worker loads the sequence: the lookup ends.
pub struct EndsLookup;

impl Play<(), View> for EndsLookup {
    ghost then = { λ s me n. WorkerGains (EndLookup n) me };
}

/// A worker loads the sequence to meet the writer.
pub struct Meeting;

impl Play<(), View> for Meeting {
    ghost then = { λ s me n. WorkerGains (MeetWriter n) me };
}

/// The next worker's seat is cut off the writer's.
pub struct NextWorker;

impl Split<View> for NextWorker {
    ghost left = { with_one_more };

    ghost right = { worker_view };
}

/// A note is cut off a seat.
pub struct Notes;

impl Split<View> for Notes {
    ghost left = { λ v. v };

    ghost right = { note_of };
}

/// A seat takes in a note.
pub struct Hears;

impl Join<View> for Hears {
    ghost both = { view_with_note };

    ghost spent = { read_note };
}
