//! A storm on its table, to its report.

ghost use Rattle.std.specs.Prelude.{◌≡◌, ℕ, ◌+◌, ◌^◌, ◌<◌, ◌≤◌, All, IfOk, IfErr, IfSome, None, Some, false, true, length, slice_get, slice_set, vec_len, vec_capacity};
ghost use Rattle.lpm_rules.specs.RuleMap.{rules_of};
ghost use Rattle.shared_fib.specs.Passes.{IsBenchOf, IsFullBench};
ghost use Rattle.shared_fib.specs.RunningTable.{initial_writer};
ghost use Rattle.bulk.specs.Desks.{IsAtBench};
ghost use Rattle.storm.specs.Writer.{HasMade, IsForWriter};
ghost use Rattle.storm.specs.Workers.{AreInSeats, IsOver, IsReadyFor, IsUnused, number_of};
ghost use Rattle.storm.specs.Storm.{EndsStorm, HasMadeAll, IsInRange, answer_count, limits_of, most_answers, IsStorm};

use crate::plan::{Plan, StormError};
use crate::results::{count_refused, count_wrong_answers, history_of, meet_all, report_of, settle};
use crate::threads::run_threads;
use crate::workers::Worker;
use crate::writer::Recorder;
use audit::StormReport;
use bulk::Gate;
use lpm_limits::Config;
use shared_fib::{Bench, Pass, SharedTable, Writer};
use std::alloc::{AllocError, Global};
use std::sync::Wait;
use std::sync::atomic::AtomicBool;
use std::thread::Threads;

/// A worker whose pass waits at the bench, with room for so many answers.
fn seat<const FIRST: u32, const SECOND: u32>(
    alloc: Global,
    table: &SharedTable<FIRST, SECOND>,
    bench: &mut Bench,
    number: usize,
    room: usize,
) -> Result<Worker, AllocError>
    requires own { IsBenchOf table.now bench.old }
    requires pass { IsUnused bench.old number }
    ensures ready { IfOk result (IsReadyFor table.now room) }
    ensures seat { IfOk result (λ w. number_of w ≡ number) }
    ensures own { IsBenchOf table.now bench.new }
    ensures taken { IfOk result (λ _. bench.new ≡ slice_set bench.old number None) }
{
    let answers = Vec::with_capacity(alloc, room)?;
    let Ok(pass) = bench.register(table, number) else {
        unreachable!();
    };
    Ok(Worker {
        pass,
        answers,
        is_done: false,
    })
}

/// The workers that look up, each with room for so many answers.
fn seat_all<const FIRST: u32, const SECOND: u32>(
    alloc: Global,
    table: &SharedTable<FIRST, SECOND>,
    bench: &mut Bench,
    count: usize,
    room: usize,
) -> Result<Vec<Worker>, AllocError>
    requires full { IsFullBench table.now bench.old }
    requires count { count ≤ table.now.initial.workers }
    ensures ready { IfOk result (λ v. All (IsReadyFor table.now room) v.items) }
    ensures seats { IfOk result (λ v. AreInSeats v.items) }
    ensures len { IfOk result (λ v. vec_len v ≡ count) }
    ensures own { IfOk result (λ _. IsBenchOf table.now bench.new) }
    ensures others { IfOk result (λ _. (k : ℕ) → count ≤ k → k < table.now.initial.workers
        → IsAtBench bench.new k) }
    ensures seated { IfOk result (λ _. (k : ℕ) → k < count → slice_get bench.new k ≡ Some None) }
{
    let mut workers = Vec::with_capacity(alloc, count)?;
    for number in 0..count {
        workers.push_reserved(seat(alloc, table, bench, number, room)?);
    }
    Ok(workers)
}

/// The pass of the worker that is stuck, where there is one. It is online.
fn seat_stuck<const FIRST: u32, const SECOND: u32>(
    table: &SharedTable<FIRST, SECOND>,
    bench: &mut Bench,
    plan: &Plan<'_, FIRST, SECOND>,
) -> Option<Pass>
    requires own { IsBenchOf table.now bench.old }
    requires pass { plan.now.has_stuck_worker ≡ true → IsAtBench bench.old plan.now.config.workers }
    ensures online { IfSome result (λ p. (p.table ≡ table.now) × (p.online ≡ true)) }
    ensures seated { plan.now.has_stuck_worker ≡ true
        → bench.new ≡ slice_set bench.old plan.now.config.workers None }
    ensures same { plan.now.has_stuck_worker ≡ false → bench.new ≡ bench.old }
{
    if !plan.has_stuck_worker {
        return None;
    }
    let Ok(mut pass) = bench.register(table, plan.config.workers) else {
        unreachable!();
    };
    pass.online(table);
    Some(pass)
}

/// The writer of a table that was just opened, with room for what comes of all commands of the plan.
fn begin<const FIRST: u32, const SECOND: u32>(
    alloc: Global,
    table: &SharedTable<FIRST, SECOND>,
    limits: Config,
    plan: &Plan<'_, FIRST, SECOND>,
    writer: Writer<FIRST, SECOND>,
) -> Result<Recorder<FIRST, SECOND>, AllocError>
    requires new { writer ≡ initial_writer table.now limits (rules_of plan.now.rules.now) }
    requires token { table.now.initial.token ≡ limits.first_token }
    requires workers { table.now.initial.workers ≡ limits.workers }
    ensures made { IfOk result (λ r. HasMade table.now limits plan.now.orders.now
        r.outcomes.items r.writer) }
    ensures rules { IfOk result (λ _. table.now.initial.rules ≡ rules_of plan.now.rules.now) }
    ensures none { IfOk result (λ r. vec_len r.outcomes ≡ 0) }
    ensures room { IfOk result (λ r. length plan.now.orders.now ≤ vec_capacity r.outcomes) }
{
    table.has_widths();
    writer.table_rests();
    let outcomes = Vec::with_capacity(alloc, plan.orders.len())?;
    Ok(Recorder { writer, outcomes })
}

/// What came of a storm whose threads have ended.
fn finish<R: Threads + Wait + Sync, const FIRST: u32, const SECOND: u32>(
    rt: &R,
    alloc: Global,
    table: &SharedTable<FIRST, SECOND>,
    plan: &Plan<'_, FIRST, SECOND>,
    workers: &mut [Worker],
    recorder: &mut Recorder<FIRST, SECOND>,
    answers: usize,
) -> Result<StormReport, StormError>
    requires made { HasMadeAll plan.now table.now
        recorder.old.outcomes.items recorder.old.writer }
    requires over { All (IsOver table.now plan.now.addrs.now plan.now.rounds) workers.old }
    requires done { All (λ w. w.is_done ≡ true) workers.old }
    requires seats { AreInSeats workers.old }
    requires len { length workers.old ≡ plan.now.config.workers }
    requires some { 0 < plan.now.config.workers }
    requires answers { (answers ≡ answer_count plan.now) × (answers ≤ most_answers) }
    requires addrs { All (λ a. a < 2 ^ (FIRST + SECOND)) plan.now.addrs.now }
    ensures storm { IfOk result (IsStorm plan.now) }
    ensures wrong { IfOk result (λ r. r.wrong ≡ 0) }
    ensures limbo { IfOk result (λ r. r.table.limbo ≡ 0) }
    ensures versions { IfOk result (λ r. r.table.versions ≤ length plan.now.orders.now) }
    ensures failure { IfErr result (EndsStorm plan.now) }
{
    let writer = &mut recorder.writer;
    meet_all(table, writer, workers, plan.addrs, plan.rounds);
    let Ok(()) = settle(rt, table, writer) else {
        return Err(StormError::Exhausted);
    };
    let history = history_of(alloc, plan.rules, plan.orders, &recorder.outcomes)?;
    let wrong = count_wrong_answers(rt, alloc, &history, plan.rules.len(), workers)?;
    Ok(StormReport {
        answers: answers as u64,
        refused: count_refused(&recorder.outcomes),
        wrong,
        table: report_of(table, &mut recorder.writer),
    })
}

/// Runs a storm on a table that was just opened with the limits and the rules of the plan. It starts a thread
/// for each worker and one for the writer. Each worker goes online, looks all addresses up, round after round
/// with a report of a quiescent state after each, and goes offline. The writer makes the commands meanwhile.
/// When all have ended, it synchronizes and reclaims all that waits, and every answer is held against the
/// versions of the rules, of which those of the plan are version 0. None is wrong, and nothing waits in limbo
/// then. The report counts the versions that the commands made.
///
/// Worker `k` calls the gate as `at(k, i)` directly before its lookup `i`, from 0 over all rounds. The writer,
/// whose number is that after all workers of the table, calls it directly before its command `i`. A stuck
/// worker calls none.
///
/// The limits are those of [`Plan::table_limits`], which refuses a plan that can't be run. All room for answers
/// is made before a thread starts. Want of memory, in a thread too, and a thread that can't be started end all
/// threads. `Exhausted` comes where fewer tokens than groups are left in the end.
///
/// Of the writer and the passes that a storm takes none comes back: nobody changes the table then, and the
/// numbers of those passes stay taken.
pub fn run<R: Threads + Wait + Sync, G: Gate, const FIRST: u32, const SECOND: u32>(
    rt: &R,
    alloc: Global,
    plan: &Plan<'_, FIRST, SECOND>,
    table: &SharedTable<FIRST, SECOND>,
    writer: Writer<FIRST, SECOND>,
    bench: &mut Bench,
    gate: &G,
) -> Result<StormReport, StormError>
    requires in_range { IsInRange plan.now }
    requires new { writer ≡ initial_writer table.now (limits_of plan.now) (rules_of plan.now.rules.now) }
    requires token { table.now.initial.token ≡ plan.now.config.first_token }
    requires workers { table.now.initial.workers ≡ (limits_of plan.now).workers }
    requires full { IsFullBench table.now bench.old }
    requires orders { All IsForWriter plan.now.orders.now }
    requires addrs { All (λ a. a < 2 ^ (FIRST + SECOND)) plan.now.addrs.now }
    ensures storm { IfOk result (IsStorm plan.now) }
    ensures wrong { IfOk result (λ r. r.wrong ≡ 0) }
    ensures limbo { IfOk result (λ r. r.table.limbo ≡ 0) }
    ensures versions { IfOk result (λ r. r.table.versions ≤ length plan.now.orders.now) }
    ensures failure { IfErr result (EndsStorm plan.now) }
    ensures seated { IfOk result (λ _. (worker : ℕ) → worker < (limits_of plan.now).workers
        → slice_get bench.new worker ≡ Some None) }
{
    let limits = plan.limits();
    let Some(answers) = plan.answers() else {
        unreachable!();
    };
    let stop = AtomicBool::new(false);
    let recorder = begin(alloc, table, limits, plan, writer)?;
    let room = plan.rounds * plan.addrs.len();
    let workers = seat_all(alloc, table, bench, plan.config.workers, room)?;
    let stuck = seat_stuck(table, bench, plan);
    let (mut workers, mut recorder) = run_threads(
        rt,
        alloc,
        table,
        limits,
        plan.orders,
        plan.addrs,
        plan.rounds,
        &stop,
        gate,
        workers,
        recorder,
    )?;
    if let Some(mut pass) = stuck {
        pass.offline(table);
    }
    let workers = workers.as_mut_slice();
    finish(rt, alloc, table, plan, workers, &mut recorder, answers)
}
