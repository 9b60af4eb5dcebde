//! The threads of a storm.
//!
//! The closure of a thread captures plain references and numbers, so the functions here hand them on one by
//! one.

ghost use Rattle.std.specs.Prelude.{◌≡◌, ◌≢◌, ◌⊎◌, ◌+◌, ◌*◌, ◌^◌, ◌<◌, ◌≤◌, All, IfErr, IfOk, IfSome, IsTrue, length, true, vec_capacity, vec_len};
ghost use Rattle.std.specs.Thread.{IsSync};
ghost use Rattle.storm.specs.Writer.{HasMade, IsForWriter};
ghost use Rattle.storm.specs.Workers.{AreInSeats, EachAt, IsOver, IsReadyFor, number_of};
ghost use Rattle.storm.specs.Threads.{AreLookups, AreUpdates};

use crate::plan::StormError;
use crate::workers::{Lookups, Worker, work};
use crate::writer::{Recorder, Updates, change_all};
use bulk::Gate;
use fib_model::{Order, Outcome};
use lpm_limits::{Config, Refusal};
use shared_fib::SharedTable;
use std::alloc::{AllocError, Global};
use std::sync::Wait;
use std::sync::atomic::{AtomicBool, Ordering};
use std::thread;
use std::thread::{Promise, PromisedHandle, Scope, Threads};

impl<'a, const FIRST: u32, const SECOND: u32> Promise<Worker> for Lookups<'a, FIRST, SECOND> {
    ghost kept_by = { λ p r. IsOver p.table.now p.addrs.now p.rounds r
        × (number_of r ≡ p.number) };
}

impl<'a, const FIRST: u32, const SECOND: u32> Promise<Recorder<FIRST, SECOND>>
    for Updates<'a, FIRST, SECOND> {
    ghost kept_by = { λ p r. HasMade p.table.now p.limits p.orders.now
        r.outcomes.items r.writer };
}

type WorkerHandle<'s, const FIRST: u32, const SECOND: u32> = PromisedHandle<
    Worker,
    Lookups<'s, FIRST, SECOND>,
>;

type WriterHandle<'s, const FIRST: u32, const SECOND: u32> = PromisedHandle<
    Recorder<FIRST, SECOND>,
    Updates<'s, FIRST, SECOND>,
>;

/// Starts the thread of a worker.
fn start_worker<'s, E, G: Gate, const FIRST: u32, const SECOND: u32>(
    scope: &Scope<'s, E>,
    table: &'s SharedTable<FIRST, SECOND>,
    addrs: &'s [u32],
    rounds: usize,
    stop: &'s AtomicBool,
    gate: &'s G,
    number: usize,
    worker: Worker,
) -> Option<WorkerHandle<'s, FIRST, SECOND>>
    requires ready { IsReadyFor table.now (rounds * length addrs.now) worker }
    requires seat { number_of worker ≡ number }
    requires addrs { All (λ a. a < 2 ^ (FIRST + SECOND)) addrs.now }
    ensures lookups { IfSome result (λ h. AreLookups table.now addrs.now rounds h.promise) }
    ensures number { IfSome result (λ h. h.promise.number ≡ number) }
{
    let promise = Lookups {
        table,
        addrs,
        rounds,
        number,
        stop,
    };
    let started = scope.spawn_with(
        promise,
        move || -> Worker
            requires ready { IsReadyFor table.now (rounds * length addrs.now) worker }
            requires seat { number_of worker ≡ number }
            requires addrs { All (λ a. a < 2 ^ (FIRST + SECOND)) addrs.now }
            ensures over { IsOver table.entry.now addrs.entry.now rounds result }
            ensures seat { number_of result ≡ number }
        {
            let lookups = Lookups {
                table,
                addrs,
                rounds,
                number,
                stop,
            };
            work(&lookups, gate, worker)
        },
    );
    match started {
        Ok(handle) => Some(handle),
        Err(_) => None,
    }
}

/// Starts the thread of the writer.
fn start_writer<'s, E, G: Gate, const FIRST: u32, const SECOND: u32>(
    scope: &Scope<'s, E>,
    table: &'s SharedTable<FIRST, SECOND>,
    limits: Config,
    orders: &'s [Order<FIRST, SECOND>],
    stop: &'s AtomicBool,
    gate: &'s G,
    recorder: Recorder<FIRST, SECOND>,
) -> Option<WriterHandle<'s, FIRST, SECOND>>
    requires made { HasMade table.now limits orders.now
        recorder.outcomes.items recorder.writer }
    requires new { vec_len recorder.outcomes ≡ 0 }
    requires room { length orders.now ≤ vec_capacity recorder.outcomes }
    requires orders { All IsForWriter orders.now }
    ensures { IfSome result (λ h. AreUpdates table.now limits orders.now h.promise) }
{
    let promise = Updates {
        table,
        limits,
        orders,
        stop,
    };
    let started = scope.spawn_with(
        promise,
        move || -> Recorder<FIRST, SECOND>
            requires made { HasMade table.now limits orders.now
                recorder.outcomes.items recorder.writer }
            requires new { vec_len recorder.outcomes ≡ 0 }
            requires room { length orders.now ≤ vec_capacity recorder.outcomes }
            requires orders { All IsForWriter orders.now }
            ensures { HasMade table.entry.now limits orders.entry.now
                result.outcomes.items result.writer }
        {
            let updates = Updates {
                table,
                limits,
                orders,
                stop,
            };
            change_all(&updates, gate, recorder)
        },
    );
    match started {
        Ok(handle) => Some(handle),
        Err(_) => None,
    }
}

/// Starts the threads of the workers, which are numbered from 0. Whether all were started.
fn start_workers<'s, E, G: Gate, const FIRST: u32, const SECOND: u32>(
    scope: &Scope<'s, E>,
    table: &'s SharedTable<FIRST, SECOND>,
    addrs: &'s [u32],
    rounds: usize,
    stop: &'s AtomicBool,
    gate: &'s G,
    workers: Vec<Worker>,
    handles: &mut Vec<WorkerHandle<'s, FIRST, SECOND>>,
) -> bool
    requires workers { All (IsReadyFor table.now (rounds * length addrs.now)) workers.items }
    requires seats { AreInSeats workers.items }
    requires addrs { All (λ a. a < 2 ^ (FIRST + SECOND)) addrs.now }
    requires none { vec_len handles.old ≡ 0 }
    requires room { vec_len workers ≤ vec_capacity handles.old }
    ensures promises { All (λ h. AreLookups table.now addrs.now rounds h.promise) handles.new.items }
    ensures numbers { EachAt (λ k h. h.promise.number ≡ k) handles.new.items }
    ensures most { vec_len handles.new ≤ vec_len workers }
    ensures all { IsTrue result → vec_len handles.new ≡ vec_len workers }
{
    let mut number = 0usize;
    for worker in workers {
        match start_worker(scope, table, addrs, rounds, stop, gate, number, worker) {
            Some(handle) => handles.push_reserved(handle),
            None => return false,
        }
        number += 1;
    }
    true
}

/// Joins the threads of the workers.
fn join_workers<'s, R: Threads, const FIRST: u32, const SECOND: u32>(
    rt: &R,
    table: &SharedTable<FIRST, SECOND>,
    addrs: &[u32],
    rounds: usize,
    handles: Vec<WorkerHandle<'s, FIRST, SECOND>>,
    mut ended: Vec<Worker>,
) -> Vec<Worker>
    requires handles { All (λ h. AreLookups table.now addrs.now rounds h.promise) handles.items }
    requires numbers { EachAt (λ k h. h.promise.number ≡ k) handles.items }
    requires none { vec_len ended ≡ 0 }
    requires room { vec_len handles ≤ vec_capacity ended }
    ensures over { All (IsOver table.now addrs.now rounds) result.items }
    ensures seats { AreInSeats result.items }
    ensures len { vec_len result ≡ vec_len handles.entry }
{
    let _ = table;
    let _ = addrs;
    let _ = rounds;
    for handle in handles {
        ended.push_reserved(handle.join(rt));
    }
    ended
}

/// What the threads of a storm gave back. Without a writer one of them couldn't be started.
#[derive(Drop)]
pub struct Ended<const FIRST: u32, const SECOND: u32> {
    pub workers: Vec<Worker>,
    pub recorder: Option<Recorder<FIRST, SECOND>>,
}

/// Starts all threads in a scope, and joins them. Where one couldn't be started, those that run are told to
/// stop.
fn run_in<'s, E, R: Threads + Sync, G: Gate, const FIRST: u32, const SECOND: u32>(
    scope: &Scope<'s, E>,
    rt: &'s R,
    alloc: Global,
    table: &'s SharedTable<FIRST, SECOND>,
    limits: Config,
    orders: &'s [Order<FIRST, SECOND>],
    addrs: &'s [u32],
    rounds: usize,
    stop: &'s AtomicBool,
    gate: &'s G,
    workers: Vec<Worker>,
    recorder: Recorder<FIRST, SECOND>,
    ended: Vec<Worker>,
) -> Result<Ended<FIRST, SECOND>, AllocError>
    requires workers { All (IsReadyFor table.now (rounds * length addrs.now)) workers.items }
    requires seats { AreInSeats workers.items }
    requires addrs { All (λ a. a < 2 ^ (FIRST + SECOND)) addrs.now }
    requires made { HasMade table.now limits orders.now
        recorder.outcomes.items recorder.writer }
    requires new { vec_len recorder.outcomes ≡ 0 }
    requires outcomes { length orders.now ≤ vec_capacity recorder.outcomes }
    requires orders { All IsForWriter orders.now }
    requires none { vec_len ended ≡ 0 }
    requires room { vec_len workers ≤ vec_capacity ended }
    ensures over { IfOk result (λ e. All (IsOver table.now addrs.now rounds) e.workers.items) }
    ensures seats { IfOk result (λ e. AreInSeats e.workers.items) }
    ensures all { IfOk result (λ e. IfSome e.recorder (λ r. vec_len e.workers ≡ vec_len workers)) }
    ensures made { IfOk result (λ e. IfSome e.recorder (λ r.
        HasMade table.now limits orders.now r.outcomes.items r.writer)) }
{
    let mut handles = Vec::with_capacity(alloc, workers.len())?;
    let mut changed = None;
    if start_workers(
        scope,
        table,
        addrs,
        rounds,
        stop,
        gate,
        workers,
        &mut handles,
    ) {
        let started = start_writer(scope, table, limits, orders, stop, gate, recorder);
        if let Some(handle) = started {
            changed = Some(handle.join(rt));
        }
    }
    if changed.is_none() {
        stop.store(true, Ordering::SeqCst);
    }
    let workers = join_workers(rt, table, addrs, rounds, handles, ended);
    Ok(Ended {
        workers,
        recorder: changed,
    })
}

/// Starts all threads, and joins them. The errors are want of memory, in a thread or for their handles, and
/// that a thread couldn't be started. Either ends all threads.
pub fn run_threads<'a, R: Threads + Wait + Sync, G: Gate, const FIRST: u32, const SECOND: u32>(
    rt: &'a R,
    alloc: Global,
    table: &'a SharedTable<FIRST, SECOND>,
    limits: Config,
    orders: &'a [Order<FIRST, SECOND>],
    addrs: &'a [u32],
    rounds: usize,
    stop: &'a AtomicBool,
    gate: &'a G,
    workers: Vec<Worker>,
    recorder: Recorder<FIRST, SECOND>,
) -> Result<(Vec<Worker>, Recorder<FIRST, SECOND>), StormError>
    requires workers { All (IsReadyFor table.now (rounds * length addrs.now)) workers.items }
    requires seats { AreInSeats workers.items }
    requires addrs { All (λ a. a < 2 ^ (FIRST + SECOND)) addrs.now }
    requires made { HasMade table.now limits orders.now
        recorder.outcomes.items recorder.writer }
    requires new { vec_len recorder.outcomes ≡ 0 }
    requires outcomes { length orders.now ≤ vec_capacity recorder.outcomes }
    requires orders { All IsForWriter orders.now }
    ensures over { IfOk result (λ r. All (IsOver table.now addrs.now rounds) r.0.items) }
    ensures seats { IfOk result (λ r. AreInSeats r.0.items) }
    ensures done { IfOk result (λ r. All (λ w. w.is_done ≡ true) r.0.items) }
    ensures len { IfOk result (λ r. vec_len r.0 ≡ vec_len workers) }
    ensures made { IfOk result (λ r. HasMade table.now limits orders.now
        r.1.outcomes.items r.1.writer) }
    ensures all { IfOk result (λ r. vec_len r.1.outcomes ≡ length orders.now) }
    ensures had_memory { IfOk result (λ r.
        All (λ o. o ≢ Outcome.Refused Refusal.Memory) r.1.outcomes.items) }
    ensures failure { IfErr result (λ e. (e ≡ StormError.Memory) ⊎ (e ≡ StormError.NoThread)) }
{
    let ended = Vec::with_capacity(alloc, workers.len())?;
    let Ended { workers, recorder } = thread::scope(
        thread::scope_env(),
        rt,
        |scope| -> Result<Ended<FIRST, SECOND>, AllocError>
            requires sync { IsSync R.row }
            requires workers { All (IsReadyFor table.now (rounds * length addrs.now)) workers.items }
            requires seats { AreInSeats workers.items }
            requires addrs { All (λ a. a < 2 ^ (FIRST + SECOND)) addrs.now }
            requires made { HasMade table.now limits orders.now
                recorder.outcomes.items recorder.writer }
            requires new { vec_len recorder.outcomes ≡ 0 }
            requires outcomes { length orders.now ≤ vec_capacity recorder.outcomes }
            requires orders { All IsForWriter orders.now }
            requires none { vec_len ended ≡ 0 }
            requires room { vec_len workers ≤ vec_capacity ended }
            ensures over { IfOk result (λ e.
                All (IsOver table.entry.now addrs.entry.now rounds) e.workers.items) }
            ensures seats { IfOk result (λ e. AreInSeats e.workers.items) }
            ensures all { IfOk result (λ e.
                IfSome e.recorder (λ r. vec_len e.workers ≡ vec_len workers)) }
            ensures made { IfOk result (λ e. IfSome e.recorder (λ r.
                HasMade table.entry.now limits orders.entry.now
                r.outcomes.items r.writer)) }
        {
            run_in(
                scope, rt, alloc, table, limits, orders, addrs, rounds, stop, gate, workers,
                recorder, ended,
            )
        },
    )?;
    let Some(recorder) = recorder else {
        return Err(StormError::NoThread);
    };
    if !is_whole(orders, &recorder) || !are_done(&workers) {
        return Err(StormError::Memory);
    }
    Ok((workers, recorder))
}

/// Whether all commands were made, and none of them wanted memory that wasn't there.
fn is_whole<const FIRST: u32, const SECOND: u32>(
    orders: &[Order<FIRST, SECOND>],
    recorder: &Recorder<FIRST, SECOND>,
) -> bool
    ensures all { IsTrue result → vec_len recorder.now.outcomes ≡ length orders.now }
    ensures had_memory { IsTrue result
        → All (λ o. o ≢ Outcome.Refused Refusal.Memory) recorder.now.outcomes.items }
{
    recorder.outcomes.len() == orders.len()
        && recorder
            .outcomes
            .iter()
            .all(|outcome| *outcome != Outcome::Refused(Refusal::Memory))
}

/// Whether each worker came to its end.
fn are_done(workers: &[Worker]) -> bool
    ensures { IsTrue result → All (λ w. w.is_done ≡ true) workers.now }
{
    workers.iter().all(|worker| worker.is_done)
}
