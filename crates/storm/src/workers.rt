//! The workers of a storm, and what their threads do.

ghost use Rattle.std.specs.Prelude.{◌≡◌, ◌+◌, ◌*◌, ◌^◌, ◌<◌, ◌≤◌, ◌++◌, [], All, IsTrue, true, length, map, vec_len, vec_capacity};
ghost use Rattle.storm.specs.Workers.{IsOver, IsReadyFor, HoldsItsAnswers, number_of, times};

use bulk::Gate;
use lpm_rules::Answer;
use shared_fib::{Pass, SharedTable};
use std::sync::atomic::{AtomicBool, Ordering};

/// A worker of a storm: its pass, and the answers that it got, each beside its address. A worker has room
/// for all of them before its thread starts.
#[derive(Drop)]
pub struct Worker {
    pub pass: Pass,
    pub answers: Vec<(u32, Answer)>,
    /// Whether it came to the end of the last round. It ends early only where it was told to stop.
    pub is_done: bool,
}

/// What each worker of a storm is to look up. It looks at `stop` before each lookup, and ends early where
/// that is set.
#[derive(Clone, Copy)]
pub struct Lookups<'a, const FIRST: u32, const SECOND: u32> {
    pub table: &'a SharedTable<FIRST, SECOND>,
    /// The addresses, in their order.
    pub addrs: &'a [u32],
    /// How often all of them are looked up.
    pub rounds: usize,
    /// The number of the worker.
    pub number: usize,
    pub stop: &'a AtomicBool,
}

/// Looks all addresses up once, each after the gate. The number of the lookup before them is `from`. Whether
/// it came to the end.
fn look_once<G: Gate, const FIRST: u32, const SECOND: u32>(
    lookups: &Lookups<'_, FIRST, SECOND>,
    gate: &G,
    from: usize,
    worker: &mut Worker,
) -> bool
    requires own { worker.old.pass.table ≡ lookups.now.table.now }
    requires online { worker.old.pass.online ≡ true }
    requires addrs { All (λ a. a < 2 ^ (FIRST + SECOND)) lookups.now.addrs.now }
    requires room { vec_len worker.old.answers + length lookups.now.addrs.now
        ≤ vec_capacity worker.old.answers }
    requires numbers { from + length lookups.now.addrs.now < 2 ^ 64 }
    requires told { HoldsItsAnswers lookups.now.table.now worker.old }
    ensures own { worker.new.pass.table ≡ worker.old.pass.table }
    ensures online { worker.new.pass.online ≡ true }
    ensures seat { number_of worker.new ≡ number_of worker.old }
    ensures told { HoldsItsAnswers lookups.now.table.now worker.new }
    ensures whole { IsTrue result → map (λ x. x.0) worker.new.answers.items
        ≡ map (λ x. x.0) worker.old.answers.items ++ lookups.now.addrs.now }
    ensures capacity { vec_capacity worker.old.answers ≤ vec_capacity worker.new.answers }
{
    for i in 0..lookups.addrs.len() {
        if lookups.stop.load(Ordering::SeqCst) {
            return false;
        }
        gate.at(lookups.number, from + i);
        let addr = lookups.addrs[i];
        let answer = worker.pass.lookup(lookups.table, addr);
        worker.pass.history_is_sound();
        worker.answers.push_reserved((addr, answer));
    }
    true
}

/// Looks all addresses up, round after round, with a report after each. Whether it came to the end.
fn look_rounds<G: Gate, const FIRST: u32, const SECOND: u32>(
    lookups: &Lookups<'_, FIRST, SECOND>,
    gate: &G,
    worker: &mut Worker,
) -> bool
    requires own { worker.old.pass.table ≡ lookups.now.table.now }
    requires online { worker.old.pass.online ≡ true }
    requires addrs { All (λ a. a < 2 ^ (FIRST + SECOND)) lookups.now.addrs.now }
    requires told { HoldsItsAnswers lookups.now.table.now worker.old }
    requires empty { worker.old.answers.items ≡ [] }
    requires room { lookups.now.rounds * length lookups.now.addrs.now ≤ vec_capacity worker.old.answers }
    ensures own { worker.new.pass.table ≡ worker.old.pass.table }
    ensures online { worker.new.pass.online ≡ true }
    ensures seat { number_of worker.new ≡ number_of worker.old }
    ensures told { HoldsItsAnswers lookups.now.table.now worker.new }
    ensures whole { IsTrue result
        → map (λ x. x.0) worker.new.answers.items ≡ times lookups.now.rounds lookups.now.addrs.now }
{
    for round in 0..lookups.rounds {
        if !look_once(lookups, gate, round * lookups.addrs.len(), worker) {
            return false;
        }
        worker.pass.quiescent(lookups.table);
    }
    true
}

/// What the thread of a worker does: it goes online, looks all addresses up, round after round with a
/// report of a quiescent state after each, and goes offline.
pub fn work<G: Gate, const FIRST: u32, const SECOND: u32>(
    lookups: &Lookups<'_, FIRST, SECOND>,
    gate: &G,
    mut worker: Worker,
) -> Worker
    requires ready { IsReadyFor lookups.now.table.now
        (lookups.now.rounds * length lookups.now.addrs.now) worker }
    requires addrs { All (λ a. a < 2 ^ (FIRST + SECOND)) lookups.now.addrs.now }
    ensures over { IsOver lookups.now.table.now lookups.now.addrs.now lookups.now.rounds result }
    ensures seat { number_of result ≡ number_of worker }
{
    worker.pass.online(lookups.table);
    worker.is_done = look_rounds(lookups, gate, &mut worker);
    worker.pass.offline(lookups.table);
    worker
}
