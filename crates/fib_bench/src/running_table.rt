//! A running table: lookups by passes and changes by its writer, at rest and at once.

ghost use Rattle.std.specs.Prelude.{◌≡◌, ◌<◌, ℕ, IfOk, IsTrue, OnOk, length, vec_len};
ghost use Rattle.fib_model.specs.Counters.{by_counters};
ghost use Rattle.shared_fib.specs.Passes.{IsBenchOf};

use crate::changes::{Change, print_changes, time_changes};
use crate::crowd::print_at_once;
use crate::figures::{Hundredths, hundredths_of_millis, hundredths_of_nanos, nanos, ratio};
use crate::lookups::{ASCENDING, Addresses};
use crate::passes::{Changer, Reader, Way};
use crate::routes::Route;
use crate::turns::{Compared, Turns, compare};
use anyhow::{Result, ensure};
use fib::Fib;
use shared_fib::{Bench, SharedTable, Writer, go_live};
use std::alloc::Global;
use std::io;
use std::rt::Clock;
use std::thread::Threads;
use std::time::{Duration, Instant};

/// How many workers the table has.
pub(crate) const WORKERS: usize = 4;

/// How often a pass and the other table are timed.
const TURNS: Turns = Turns {
    count: 45,
    alternate: true,
};

/// The routes of a table, and addresses with any bits.
#[derive(Drop)]
pub(crate) struct Drawn {
    pub(crate) routes: Vec<Route>,
    pub(crate) addrs: Vec<u32>,
}

/// Adds these routes to the table, and returns the time when they are there. It is an error if a worker is
/// online.
pub(crate) fn add_offline<R: Clock>(
    rt: &R,
    table: &mut Fib<24, 8>,
    routes: &[Route],
) -> Result<Instant>
    ensures { OnOk result ((worker : ℕ) → worker < table.new.config.workers
        → ¬ by_counters.is_online table.new.table.readers worker) }
{
    time_changes(rt, table, Change::Add, routes)?;
    ensure!(is_offline(table), "a worker is online");
    Ok(Instant::now(rt)?)
}

/// Goes on with the table, of which no worker is online, as a running one, and prints what that, its lookups
/// and its changes take, its lookups beside those of the other, which has the same routes. Going live is
/// timed from the start, which was noted just now.
pub(crate) fn print_running<R: Clock + Print + AllocGlobal + Threads + Sync>(
    rt: &R,
    start: Instant,
    table: Fib<24, 8>,
    other: &mut Fib<24, 8>,
    drawn: &Drawn,
) -> Result<()>
    requires offline { (worker : ℕ) → worker < table.config.workers
        → ¬ by_counters.is_online table.table.readers worker }
{
    let (table, writer, mut bench) = go_live(rt.alloc(), table)?;
    print_gone_live(rt, start, &table, writer, &mut bench, other, drawn)
}

/// Prints what the lookups and changes of a table take that has gone live, and how long that took from the
/// start.
fn print_gone_live<R: Clock + Print + AllocGlobal + Threads + Sync>(
    rt: &R,
    start: Instant,
    table: &SharedTable<24, 8>,
    writer: Writer<24, 8>,
    bench: &mut Bench,
    other: &mut Fib<24, 8>,
    drawn: &Drawn,
) -> Result<()>
    requires own { IsBenchOf table.now bench.old }
    requires writer { writer.identity ≡ table.now }
{
    let mut changer = Changer::new(table, writer, other);
    print_live(rt, start, table, &mut changer, bench, drawn)
}

/// Prints how long it took from the start until the table runs, and what its lookups, by a pass for each
/// worker, and its changes take.
fn print_live<R: Clock + Print + AllocGlobal + Threads + Sync>(
    rt: &R,
    start: Instant,
    table: &SharedTable<24, 8>,
    changer: &mut Changer<'_>,
    bench: &mut Bench,
    drawn: &Drawn,
) -> Result<()>
    requires own { IsBenchOf table.now bench.old }
{
    print_going_live(rt, start)?;
    let mut readers = readers_of(rt.alloc(), table, bench)?;
    print_readers(rt, readers.as_mut_slice(), changer, drawn)
}

/// Prints how long it took from the start until now.
fn print_going_live<R: Clock + Print>(rt: &R, start: Instant) -> io::Result<()> {
    let going_live = Hundredths(hundredths_of_millis(start.elapsed(rt)?));
    println!(rt; "going live: {going_live} ms")
}

/// Prints what lookups by these readers and changes by the writer take, one after the other and at once.
fn print_readers<R: Clock + Print + AllocGlobal + Threads + Sync>(
    rt: &R,
    readers: &mut [Reader<'_>],
    changer: &mut Changer<'_>,
    drawn: &Drawn,
) -> Result<()>
    requires { 0 < length readers.old }
{
    let addrs = drawn.addrs.as_slice();
    let routes = drawn.routes.as_slice();
    let reader = &mut readers[0];
    print_random(rt, reader, changer.apart, Addresses::Listed(addrs))?;
    print_ascending(rt, reader, changer.apart)?;
    print_changes(rt, &mut changer.running, routes, ", running")?;
    print_at_once(rt, readers, changer, routes, addrs)
}

/// Whether no worker of the table is online.
fn is_offline(table: &Fib<24, 8>) -> bool
    ensures { IsTrue result → (worker : ℕ) → worker < table.now.config.workers
        → ¬ by_counters.is_online table.now.table.readers worker }
{
    let workers = table.config().workers;
    for worker in 0..workers {
        if table.is_online(worker) {
            return false;
        }
    }
    true
}

/// The workers of a table.
fn readers_of<'a>(
    alloc: Global,
    table: &'a SharedTable<24, 8>,
    bench: &mut Bench,
) -> Result<Vec<Reader<'a>>>
    requires own { IsBenchOf table.now bench.old }
    ensures { IfOk result (λ readers. vec_len readers ≡ 4) }
{
    let mut readers = Vec::with_capacity(alloc, WORKERS)?;
    for worker in 0..WORKERS {
        readers.push_reserved(Reader::new(table, bench, worker)?);
    }
    Ok(readers)
}

/// Prints what the lookups of one pass at these addresses take, one by one and by fours, while nothing
/// changes, beside those of the other table.
fn print_random<R: Clock + Print + AllocGlobal>(
    rt: &R,
    reader: &mut Reader<'_>,
    other: &Fib<24, 8>,
    addresses: Addresses<'_>,
) -> Result<()> {
    let count = addresses.count();
    // The words that one way has just read are in the caches for the other: each has rounds of its own.
    let single = in_turns(rt, reader, other, addresses, Way::Single)?;
    let fours = in_turns(rt, reader, other, addresses, Way::Fours)?;
    print_beside(rt, "pass, random", count, single.second, single.first)?;
    let by_fours = "pass by fours, random";
    Ok(print_beside(rt, by_fours, count, fours.second, single.second)?)
}

/// Prints what the lookups of one pass at ascending addresses take, beside those of the other table.
fn print_ascending<R: Clock + Print + AllocGlobal>(
    rt: &R,
    reader: &mut Reader<'_>,
    other: &Fib<24, 8>,
) -> Result<()> {
    let Compared { first, second, .. } = in_turns(rt, reader, other, ASCENDING, Way::Single)?;
    print_beside(rt, "pass, ascending", ASCENDING.count(), second, first)?;
    let more = hundredths_of_nanos(second.saturating_sub(first), ASCENDING.count());
    println!(rt; "difference, pass, ascending: {} ns each", Hundredths(more))?;
    Ok(())
}

/// Prints what so many lookups take, each in nanoseconds, and how often that is what the others take.
fn print_beside<R: Print>(
    rt: &R,
    what: &str,
    count: usize,
    lookups: Duration,
    others: Duration,
) -> io::Result<()> {
    let each = Hundredths(hundredths_of_nanos(lookups, count));
    let times = Hundredths(ratio(nanos(lookups), nanos(others)));
    println!(rt; "{what}: {each} ns each\nratio, {what}: {times}")
}

/// What the lookups at these addresses take in the other table, and by the pass in this way.
fn in_turns<R: Clock + AllocGlobal>(
    rt: &R,
    reader: &mut Reader<'_>,
    other: &Fib<24, 8>,
    addresses: Addresses<'_>,
    way: Way,
) -> Result<Compared> {
    reader.way = way;
    let mut other = other;
    compare(rt, &mut other, reader, addresses, TURNS)
}
