//! Many addresses, answered by a running table that its writer lets rest meanwhile.

ghost use Rattle.std.specs.Prelude.{◌≡◌, ◌+◌, ◌^◌, ℕ, ◌<◌, ◌↔◌, true, All, IfOk, OnErr, OnOk, IsErrOf};
ghost use Rattle.std.specs.Prelude.{length, map, slice_index_or, vec_len};
ghost use Rattle.lpm_rules.specs.Longest.{AreLongestHops};
ghost use Rattle.shared_words.specs.Rule.{IsLater};
ghost use Rattle.bulk.specs.Pieces.{piece_of};
ghost use Rattle.bulk.specs.Desks.{IsDeskOf, worker_of, EachDesk, IsSameDesk, HaveRoom, HasMet, HasAnswered, AnswersAtRest};

use super::pieces::piece_at;
use super::{BulkError, Desk, Gate};
use lpm_bits::Hop;
use shared_fib::{SharedTable, Writer};
use std::alloc::{AllocError, Global};
use std::thread;
use std::thread::Threads;

/// Makes room at each desk for the hops of its piece.
fn make_room(desks: &mut [Desk], addrs: &[u32]) -> Result<(), AllocError>
    ensures len { length desks.new ≡ length desks.old }
    ensures passes { EachDesk (λ old new. new.pass ≡ old.pass) desks.old desks.new }
    ensures room { OnOk result (HaveRoom addrs.now desks.new) }
{
    let workers = desks.len();
    for number in 0..workers {
        let count = piece_at(addrs, workers, number).len();
        desks[number].hops.resize(count, None)?;
    }
    Ok(())
}

/// Each desk's pass meets the writer.
fn meet_all<const FIRST: u32, const SECOND: u32>(
    table: &SharedTable<FIRST, SECOND>,
    writer: &mut Writer<FIRST, SECOND>,
    desks: &mut [Desk],
)
    requires own { writer.old.identity ≡ table.now }
    requires desks { All (IsDeskOf table.now) desks.old }
    ensures len { length desks.new ≡ length desks.old }
    ensures met { EachDesk (HasMet writer.old) desks.old desks.new }
    ensures same { writer.new ≡ writer.old }
{
    writer.table_rests();
    for number in 0..desks.len() {
        let pass = &mut desks[number].pass;
        pass.meet(table, writer);
        pass.history_is_sound();
    }
}

/// Answers the addresses of a piece, each after the gate. The desk's pass is online meanwhile.
fn answer<G: Gate, const FIRST: u32, const SECOND: u32>(
    table: &SharedTable<FIRST, SECOND>,
    gate: &G,
    number: usize,
    addrs: &[u32],
    desk: &mut Desk,
)
    requires desk { IsDeskOf table.now desk.old }
    requires room { vec_len desk.old.hops ≡ length addrs.now }
    requires addrs { All (λ a. a < 2 ^ (FIRST + SECOND)) addrs.now }
    ensures { HasAnswered addrs.now desk.old desk.new }
{
    let pass = &mut desk.pass;
    let hops = &mut desk.hops;
    pass.online(table);
    for i in 0..addrs.len() {
        gate.at(number, i);
        hops[i] = pass.lookup(table, addrs[i]).hop;
    }
    pass.offline(table);
}

/// Answers the addresses of each piece, on as many threads as there are desks.
fn answer_all<R: Threads + Sync, G: Gate, const FIRST: u32, const SECOND: u32>(
    rt: &R,
    table: &SharedTable<FIRST, SECOND>,
    gate: &G,
    addrs: &[u32],
    desks: &mut [Desk],
)
    requires some { 0 < length desks.old }
    requires desks { All (IsDeskOf table.now) desks.old }
    requires room { HaveRoom addrs.now desks.old }
    requires addrs { All (λ a. a < 2 ^ (FIRST + SECOND)) addrs.now }
    ensures len { length desks.new ≡ length desks.old }
    ensures answers { (k : ℕ) (d : _) → k < length desks.old
        → HasAnswered (piece_of addrs.now (length desks.old) k)
        (slice_index_or desks.old k d) (slice_index_or desks.new k d) }
{
    let workers = desks.len();
    thread::for_each_mut(
        rt,
        desks,
        workers,
        &|number: usize, desk: &mut Desk|
            requires number { number < workers }
            requires desk { IsDeskOf table.now desk.now }
            requires room { vec_len desk.now.hops ≡ length (piece_of addrs.now workers number) }
            requires addrs { All (λ a. a < 2 ^ (FIRST + SECOND)) addrs.now }
            ensures { HasAnswered (piece_of addrs.entry.now workers number) desk.entry.now
                desk.exit.now }
        { answer(table, gate, number, piece_at(addrs, workers, number), desk) },
    );
}

/// The next hop of each address, in the order of the addresses, by the rules that the writer has. Each desk
/// answers a piece, on its own thread.
///
/// The desks' passes are offline before, and are again after. All memory is taken before a thread starts:
/// `Memory` comes only where nothing was answered yet, and no gate was called. Where no further thread can be
/// had, pieces are answered one after another. Each pass has then seen all that it had seen before.
pub fn bulk<R: Threads + Sync, G: Gate, const FIRST: u32, const SECOND: u32>(
    rt: &R,
    alloc: Global,
    table: &SharedTable<FIRST, SECOND>,
    writer: &mut Writer<FIRST, SECOND>,
    desks: &mut [Desk],
    addrs: &[u32],
    gate: &G,
) -> Result<Vec<Option<Hop>>, BulkError>
    requires own { writer.old.identity ≡ table.now }
    requires desks { All (IsDeskOf table.now) desks.old }
    requires addrs { All (λ a. a < 2 ^ (FIRST + SECOND)) addrs.now }
    ensures answers { IfOk result (λ v.
        AreLongestHops (FIRST + SECOND) writer.old.table.rules addrs.now v.items) }
    ensures workers { IsErrOf result BulkError.NoWorkers ↔ (length desks.old ≡ 0) }
    ensures same { writer.new ≡ writer.old }
    ensures desks { All (IsDeskOf table.now) desks.new }
    ensures numbers { map worker_of desks.new ≡ map worker_of desks.old }
    ensures passes { EachDesk IsSameDesk desks.old desks.new }
    ensures unanswered { OnErr result
        (EachDesk (λ old new. new.pass ≡ old.pass) desks.old desks.new) }
{
    if desks.is_empty() {
        return Err(BulkError::NoWorkers);
    }
    make_room(desks, addrs)?;
    let mut joined = Vec::with_capacity(alloc, addrs.len())?;
    table.has_widths();
    // By the first meeting of the writer with each pass, a lookup is made after all that the writer has done; by
    // the second one, it has done nothing since.
    meet_all(table, writer, desks);
    answer_all(rt, table, gate, addrs, desks);
    meet_all(table, writer, desks);
    for desk in &*desks {
        if joined.extend_from_slice(&desk.hops).is_err() {
            unreachable!();
        }
    }
    Ok(joined)
}
