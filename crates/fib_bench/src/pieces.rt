//! Many addresses answered in pieces, on one thread and on four.

use crate::figures::{Hundredths, hundredths_of_nanos, nanos, ratio};
use anyhow::Result;
use bulk::{Gate, Open, bulk_plain};
use fib::Fib;
use std::io;
use std::rt::Clock;
use std::sync::atomic::{AtomicU64, Ordering};
use std::thread::Threads;
use std::time::{Duration, Instant};

/// How often the addresses are answered by each number of workers; the least time counts.
const ROUNDS: usize = 25;

/// The number of workers beside one.
const WORKERS: usize = 4;

/// Prints what it takes to answer the addresses with one worker and with four, each lookup in
/// nanoseconds: the whole call, in which room is made, the pieces are answered and the answers are
/// joined; and the answering alone, from the first address of a piece to the last.
pub(crate) fn print_pieces<R: Clock + Print + AllocGlobal + Threads + Sync>(
    rt: &R,
    table: &Fib<24, 8>,
    addrs: &[u32],
) -> Result<()> {
    let whole = Call {
        part: Part::Whole,
        table,
        addrs,
        workers: 1,
    };
    print_part(rt, "bulk", whole)?;
    let part = Part::Answering;
    print_part(rt, "answering alone", Call { part, ..whole })
}

/// What is timed of a call that answers many addresses.
#[derive(Clone, Copy)]
enum Part {
    /// All of it.
    Whole,
    /// From the first address of a piece to the last address of a piece.
    Answering,
}

/// A call in which so many workers answer the addresses, and what is timed of it.
#[derive(Clone, Copy)]
struct Call<'a> {
    part: Part,
    table: &'a Fib<24, 8>,
    addrs: &'a [u32],
    workers: usize,
}

impl<'a> Call<'a> {
    /// The same call by so many workers.
    fn by(self, workers: usize) -> Self {
        Call { workers, ..self }
    }
}

/// Prints the least times of one worker and of four.
fn print_part<R: Clock + Print + AllocGlobal + Threads + Sync>(
    rt: &R,
    what: &str,
    call: Call<'_>,
) -> Result<()> {
    let one = least(rt, call.by(1))?;
    let more = least(rt, call.by(WORKERS))?;
    Ok(print_least(rt, what, one, more)?)
}

/// Prints these times of one worker and of four, in hundredths of nanoseconds for each address.
fn print_least<R: Print>(rt: &R, what: &str, one: u64, more: u64) -> io::Result<()> {
    let ratio = Hundredths(ratio(one, more));
    let (one, more) = (Hundredths(one), Hundredths(more));
    println!(rt;
        "{what}, 1 worker: {one} ns each\n{what}, {WORKERS} workers: {more} ns each\nratio, {what}: {ratio}"
    )
}

/// The nanoseconds for each address, in hundredths, of the least time of these calls.
fn least<R: Clock + AllocGlobal + Threads + Sync>(rt: &R, call: Call<'_>) -> Result<u64> {
    let mut least = Duration::MAX;
    for _ in 0..ROUNDS {
        least = least.min(time_of(rt, call)?);
    }
    Ok(hundredths_of_nanos(least, call.addrs.len()))
}

/// The time of one call, as a whole or in part.
fn time_of<R: Clock + AllocGlobal + Threads + Sync>(rt: &R, call: Call<'_>) -> Result<Duration> {
    let Call { table, addrs, .. } = call;
    match call.part {
        Part::Whole => time_of_call(rt, table, addrs, call.workers, &Open),
        Part::Answering => {
            let piece = addrs.len() / call.workers.max(1);
            let watch = Stopwatch {
                rt,
                start: Instant::now(rt)?,
                last: piece.saturating_sub(1),
                began: AtomicU64::new(u64::MAX),
                ended: AtomicU64::new(0),
            };
            time_of_call(rt, table, addrs, call.workers, &watch)?;
            Ok(watch.time())
        }
    }
}

/// The time of one call, each address of which is answered after the gate.
fn time_of_call<R: Clock + AllocGlobal + Threads + Sync, G: Gate>(
    rt: &R,
    table: &Fib<24, 8>,
    addrs: &[u32],
    workers: usize,
    gate: &G,
) -> Result<Duration> {
    let start = Instant::now(rt)?;
    let _hops = bulk_plain(rt, rt.alloc(), table, workers, addrs, gate)?;
    Ok(start.elapsed(rt)?)
}

/// A gate that notes when the first piece begins and when the last one comes to its last address.
/// Times are nanoseconds from the start.
#[derive(Drop)]
struct Stopwatch<'a, R> {
    rt: &'a R,
    start: Instant,
    last: usize,
    began: AtomicU64,
    ended: AtomicU64,
}

impl<R: Clock> Stopwatch<'_, R> {
    /// The time until now, or none where the clock can't be read.
    fn now(&self) -> Option<u64> {
        Some(nanos(self.start.elapsed(self.rt).ok()?))
    }

    /// The time in which pieces were answered.
    fn time(&self) -> Duration {
        let began = self.began.load(Ordering::SeqCst);
        let ended = self.ended.load(Ordering::SeqCst);
        Duration::from_nanos(ended.saturating_sub(began))
    }
}

impl<R: Clock + Sync> Gate for Stopwatch<'_, R> {
    fn at(&self, _piece: usize, i: usize) {
        if i == 0 {
            if let Some(now) = self.now() {
                self.began.fetch_min(now, Ordering::SeqCst);
            }
        }
        if i == self.last {
            if let Some(now) = self.now() {
                self.ended.fetch_max(now, Ordering::SeqCst);
            }
        }
    }
}
