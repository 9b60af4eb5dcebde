//! Lookups by several passes at once, beside a writer that changes the table.

use crate::figures::{Hundredths, each_second, hundredths_of_nanos, nanos, ratio};
use crate::passes::{Changer, Reader, Whose};
use crate::rounds::{AtOnce, COMPARED, Rounds, of_piece};
use crate::routes::{Route, by_length};
use anyhow::Result;
use std::io;
use std::rt::Clock;
use std::sync::atomic::{AtomicBool, Ordering};
use std::thread::{Threads, for_each_mut, join_mut};
use std::time::{Duration, Instant};

/// What is changed while passes look up: the name of these changes, the table, and the routes.
#[derive(Clone, Copy)]
struct Changes<'a> {
    name: &'a str,
    whose: Whose,
    routes: &'a [Route],
}

impl<'a> Changes<'a> {
    fn new(name: &'a str, whose: Whose, routes: &'a [Route]) -> Self {
        Changes {
            name,
            whose,
            routes,
        }
    }
}

/// How often the passes look up without changes and beside each kind of changes, in turns.
const TURNS: usize = 15;

/// How many passes look up at once, and how they are called.
const CROWDS: [(usize, &str); 4] = [
    (1, "1 pass"),
    (2, "2 passes"),
    (3, "3 passes"),
    (4, "4 passes"),
];

/// Prints what the lookups of 1 to 4 passes take at once: while nothing changes, while the writer changes
/// routes of up to 24 bits, and longer ones, and while a table is changed that no pass reads.
pub(crate) fn print_at_once<R: Clock + Print + AllocGlobal + Threads + Sync>(
    rt: &R,
    readers: &mut [Reader<'_>],
    changer: &mut Changer<'_>,
    routes: &[Route],
    addrs: &[u32],
) -> Result<()> {
    let routes = by_length(rt.alloc(), routes)?;
    let all = [
        Changes::new("no changes", Whose::Running, &[]),
        Changes::new("short changes", Whose::Running, &routes.short),
        Changes::new("long changes", Whose::Running, &routes.long),
        Changes::new("changes apart", Whose::Apart, &routes.short),
    ];
    print_crowds(rt, readers, changer, &all, addrs)
}

/// Prints what the lookups of each number of passes take at once, beside each kind of changes.
fn print_crowds<R: Clock + Print + AllocGlobal + Threads + Sync>(
    rt: &R,
    readers: &mut [Reader<'_>],
    changer: &mut Changer<'_>,
    all: &[Changes<'_>; 4],
    addrs: &[u32],
) -> Result<()> {
    for i in 0..CROWDS.len() {
        let (count, passes) = CROWDS[i];
        print_passes(rt, passes, count, readers, changer, all, addrs)?;
    }
    Ok(())
}

/// Prints what the lookups of so many passes take at once, beside each kind of changes.
fn print_passes<R: Clock + Print + AllocGlobal + Threads + Sync>(
    rt: &R,
    passes: &str,
    count: usize,
    readers: &mut [Reader<'_>],
    changer: &mut Changer<'_>,
    all: &[Changes<'_>; 4],
    addrs: &[u32],
) -> Result<()> {
    let count = readers.len().min(count);
    let found = measure_in_turns(rt, &mut readers[..count], changer, all, addrs)?;
    Ok(print_crowd(rt, passes, count, all, &found, addrs.len())?)
}

/// Prints what so many lookups by each of these passes took beside each kind of changes.
fn print_crowd<R: Print>(
    rt: &R,
    passes: &str,
    count: usize,
    all: &[Changes<'_>; 4],
    found: &[AtOnce; 4],
    addrs: usize,
) -> io::Result<()> {
    for i in 0..4 {
        print_speed(rt, passes, all[i].name, &found[i], count, addrs)?;
        if i > 0 {
            print_beside(rt, passes, all[i], &found[i], found)?;
        }
    }
    Ok(())
}

/// Prints how much slower the lookups are beside these changes than beside none and beside those apart, and
/// how many changes were made a second. What was found without changes stands first, what was found apart
/// last.
fn print_beside<R: Print>(
    rt: &R,
    passes: &str,
    changes: Changes<'_>,
    beside: &AtOnce,
    found: &[AtOnce; 4],
) -> io::Result<()> {
    print_slowdown(rt, passes, changes.name, beside, &found[0], "")?;
    if let Whose::Running = changes.whose {
        let to = " to changes apart";
        print_slowdown(rt, passes, changes.name, beside, &found[3], to)?;
    }
    print_changes(rt, passes, changes.name, beside)
}

/// Prints the nanoseconds that a lookup takes where so many passes look so many addresses up at once, by the
/// least and the median round and by the median piece, and how many lookups they make a second together until
/// the last has ended.
fn print_speed<R: Print>(
    rt: &R,
    passes: &str,
    changes: &str,
    at_once: &AtOnce,
    count: usize,
    addrs: usize,
) -> io::Result<()> {
    let each = Hundredths(hundredths_of_nanos(at_once.mean, addrs));
    let round = Hundredths(hundredths_of_nanos(at_once.median_round, addrs));
    let piece = Hundredths(of_piece(at_once.median_piece));
    let speed = each_second(at_once.last, addrs.saturating_mul(count));
    println!(rt;
        "{passes}, {changes}: {each} ns each\n\
         {passes}, {changes}, median round: {round} ns each\n\
         {passes}, {changes}, median piece: {piece} ns each\n\
         {passes}, {changes}: {speed} lookups a second"
    )
}

/// Prints how much slower the lookups are than beside other changes: with the waiting for a core, and by
/// pieces, of which most have none.
fn print_slowdown<R: Print>(
    rt: &R,
    passes: &str,
    changes: &str,
    beside: &AtOnce,
    other: &AtOnce,
    to: &str,
) -> io::Result<()> {
    let (times, others) = (beside.compared(), other.compared());
    for i in 0..COMPARED.len() {
        let slower = Hundredths(ratio(nanos(times[i]), nanos(others[i])));
        println!(rt; "{}{to}, {passes}, {changes}: {slower}", COMPARED[i])?;
    }
    Ok(())
}

/// Prints how many changes were made a second beside the passes.
fn print_changes<R: Print>(rt: &R, passes: &str, changes: &str, beside: &AtOnce) -> io::Result<()> {
    let made = usize::try_from(beside.made).unwrap_or(usize::MAX);
    let speed = each_second(beside.total, made);
    println!(rt; "{changes} beside {passes}: {speed} a second")
}

/// Lets each reader look all addresses up beside each kind of changes in turns, so that whatever else
/// slows the machine for a while slows each kind.
fn measure_in_turns<R: Clock + AllocGlobal + Threads + Sync>(
    rt: &R,
    readers: &mut [Reader<'_>],
    changer: &mut Changer<'_>,
    all: &[Changes<'_>; 4],
    addrs: &[u32],
) -> Result<[AtOnce; 4]> {
    let mut rounds = [
        Rounds::new(rt.alloc()),
        Rounds::new(rt.alloc()),
        Rounds::new(rt.alloc()),
        Rounds::new(rt.alloc()),
    ];
    measure_rounds(rt, readers, changer, all, &mut rounds, addrs)?;
    Ok([
        rounds[0].at_once(),
        rounds[1].at_once(),
        rounds[2].at_once(),
        rounds[3].at_once(),
    ])
}

/// Lets each reader look all addresses up in each turn, once beside each kind of changes.
fn measure_rounds<R: Clock + Threads + Sync>(
    rt: &R,
    readers: &mut [Reader<'_>],
    changer: &mut Changer<'_>,
    all: &[Changes<'_>; 4],
    rounds: &mut [Rounds; 4],
    addrs: &[u32],
) -> Result<()> {
    for turn in 0..TURNS * 4 {
        let kind = turn % 4;
        measure_round(rt, readers, changer, all[kind], &mut rounds[kind], addrs)?;
    }
    Ok(())
}

/// Lets each reader look all addresses up once beside these changes.
fn measure_round<R: Clock + Threads + Sync>(
    rt: &R,
    readers: &mut [Reader<'_>],
    changer: &mut Changer<'_>,
    changes: Changes<'_>,
    rounds: &mut Rounds,
    addrs: &[u32],
) -> Result<()> {
    changer.made = 0;
    let last = look_up_beside(rt, readers, changer, changes, addrs)?;
    Ok(rounds.add(readers, addrs.len(), last, changer.made)?)
}

/// How long it takes until each reader has looked all addresses up beside these changes.
fn look_up_beside<R: Clock + Threads + Sync>(
    rt: &R,
    readers: &mut [Reader<'_>],
    changer: &mut Changer<'_>,
    changes: Changes<'_>,
    addrs: &[u32],
) -> io::Result<Duration> {
    let is_over = AtomicBool::new(false);
    let (_, last) = join_mut(
        rt,
        &mut || changer.change_until(changes.whose, changes.routes, &is_over),
        &mut || look_up_and_tell(rt, addrs, &is_over, readers),
    );
    last
}

/// How long it takes until each reader has looked all addresses up. Then it tells that they are over.
fn look_up_and_tell<R: Clock + Threads + Sync>(
    rt: &R,
    addrs: &[u32],
    is_over: &AtomicBool,
    readers: &mut [Reader<'_>],
) -> io::Result<Duration> {
    let start = Instant::now(rt);
    let threads = readers.len().max(1);
    for_each_mut(
        rt,
        readers,
        threads,
        &|_: usize, reader: &mut Reader<'_>| reader.add_timed(rt, addrs),
    );
    is_over.store(true, Ordering::SeqCst);
    start?.elapsed(rt)
}
