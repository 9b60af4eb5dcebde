//! The writer of a storm, and what its thread does.

ghost use Rattle.std.specs.Prelude.{◌≡◌, ◌<◌, ◌≤◌, ◌++◌, ◌∷◌, [], All, length, vec_len, vec_capacity};
ghost use Rattle.fib_model.specs.Outcomes.{Does};
ghost use Rattle.shared_fib.specs.RunningTable.{initial_state};
ghost use Rattle.storm.specs.Writer.{HasMade, IsForWriter, by_own_steps};

use bulk::Gate;
use fib_model::{Order, Outcome};
use lpm_limits::{Config, Refusal};
use shared_fib::{SharedTable, Writer};
use std::sync::atomic::{AtomicBool, Ordering};

/// What the writer of a storm is to do. It looks at `stop` before each command, and ends early where
/// that is set.
#[derive(Clone, Copy)]
pub struct Updates<'a, const FIRST: u32, const SECOND: u32> {
    pub table: &'a SharedTable<FIRST, SECOND>,
    /// The limits that the table was opened with.
    pub limits: Config,
    /// The commands, in their order. None is a report of a worker.
    pub orders: &'a [Order<FIRST, SECOND>],
    pub stop: &'a AtomicBool,
}

/// The writer of a storm, with what came of each of its commands so far. It has room for all of them before
/// the first is made.
#[derive(Drop)]
pub struct Recorder<const FIRST: u32, const SECOND: u32> {
    pub writer: Writer<FIRST, SECOND>,
    pub outcomes: Vec<Outcome>,
}

/// Does a command, which is no report.
fn execute<const FIRST: u32, const SECOND: u32>(
    table: &SharedTable<FIRST, SECOND>,
    writer: &mut Writer<FIRST, SECOND>,
    order: &Order<FIRST, SECOND>,
) -> Outcome
    requires own { writer.old.identity ≡ table.now }
    requires order { IsForWriter order.now }
    ensures does { Does (by_own_steps table.now.initial) FIRST SECOND writer.old.config
        writer.old.table order.now result writer.new.table }
    ensures own { writer.new.identity ≡ writer.old.identity }
    ensures config { writer.new.config ≡ writer.old.config }
{
    match order {
        Order::Add(prefix, hop) => match writer.add(table, prefix, *hop) {
            Ok(put) => return Outcome::Put(put),
            Err(refusal) => return Outcome::Refused(refusal),
        },
        Order::Del(prefix) => match writer.delete(table, prefix) {
            Ok(hop) => return Outcome::Deleted(hop),
            Err(refusal) => return Outcome::Refused(refusal),
        },
        Order::Flush => match writer.flush(table) {
            Ok(count) => return Outcome::Flushed(count),
            Err(refusal) => return Outcome::Refused(refusal),
        },
        Order::Reclaim(max) => return Outcome::Reclaimed(writer.reclaim(table, *max)),
        Order::Online(_) | Order::Offline(_) | Order::Quiescent(_) => unreachable!(),
    }
}

/// Notes what came of a command.
fn note(outcomes: &mut Vec<Outcome>, outcome: &Outcome)
    requires room { vec_len outcomes.old < vec_capacity outcomes.old }
    ensures items { outcomes.new.items ≡ outcomes.old.items ++ outcome.now ∷ [] }
    ensures capacity { vec_capacity outcomes.old ≤ vec_capacity outcomes.new }
{
    outcomes.push_reserved(*outcome);
}

/// Makes the next command of the plan, and notes what came of it.
fn record<const FIRST: u32, const SECOND: u32>(
    updates: &Updates<'_, FIRST, SECOND>,
    recorder: &mut Recorder<FIRST, SECOND>,
    index: usize,
) -> Outcome
    requires made { HasMade updates.now.table.now updates.now.limits updates.now.orders.now
        recorder.old.outcomes.items recorder.old.writer }
    requires index { index < length updates.now.orders.now }
    requires next { vec_len recorder.old.outcomes ≡ index }
    requires room { index < vec_capacity recorder.old.outcomes }
    requires orders { All IsForWriter updates.now.orders.now }
    ensures made { HasMade updates.now.table.now updates.now.limits updates.now.orders.now
        recorder.new.outcomes.items recorder.new.writer }
    ensures outcomes { recorder.new.outcomes.items ≡ recorder.old.outcomes.items ++ result ∷ [] }
    ensures capacity { vec_capacity recorder.old.outcomes ≤ vec_capacity recorder.new.outcomes }
{
    let outcome = execute(updates.table, &mut recorder.writer, &updates.orders[index]);
    recorder.writer.table_rests();
    note(&mut recorder.outcomes, &outcome);
    outcome
}

/// What the thread of the writer does: it makes the commands, each after the gate. There the writer's number
/// is that after all workers of the table, and the first command is number 0. It ends early where it is told
/// to stop, and where a command wants memory that isn't there; then it tells the workers to stop.
pub fn change_all<G: Gate, const FIRST: u32, const SECOND: u32>(
    updates: &Updates<'_, FIRST, SECOND>,
    gate: &G,
    mut recorder: Recorder<FIRST, SECOND>,
) -> Recorder<FIRST, SECOND>
    requires made { HasMade updates.now.table.now updates.now.limits updates.now.orders.now
        recorder.outcomes.items recorder.writer }
    requires new { vec_len recorder.outcomes ≡ 0 }
    requires room { length updates.now.orders.now ≤ vec_capacity recorder.outcomes }
    requires orders { All IsForWriter updates.now.orders.now }
    ensures made { HasMade updates.now.table.now updates.now.limits updates.now.orders.now
        result.outcomes.items result.writer }
{
    for index in 0..updates.orders.len() {
        if updates.stop.load(Ordering::SeqCst) {
            return recorder;
        }
        gate.at(updates.limits.workers, index);
        let outcome = record(updates, &mut recorder, index);
        if outcome == Outcome::Refused(Refusal::Memory) {
            updates.stop.store(true, Ordering::SeqCst);
            return recorder;
        }
    }
    recorder
}
