//! The workers and the writer of a running table.

ghost use Rattle.std.specs.Prelude.{◌≡◌, length, true, false};
ghost use Rattle.shared_fib.specs.Passes.{IsBenchOf};

use crate::changes::{Change, Changeable, change_twice};
use crate::lookups::{Addresses, Side, ascending, number_of};
use crate::routes::Route;
use anyhow::Result;
use fib::Fib;
use lpm_limits::Refusal;
use shared_fib::{Bench, Pass, SharedTable, Writer};
use std::io;
use std::rt::Clock;
use std::sync::atomic::{AtomicBool, Ordering};
use std::time::{Duration, Instant};

/// After how many lookups a worker reports that it is quiescent.
const BETWEEN_REPORTS: usize = 1024;

/// How many lookups of a worker beside others are timed together: so few that most pieces have no wait for a
/// core in them.
pub(crate) const PIECE: usize = 8_192;

/// How many pieces of one list a worker can time.
const PIECES: usize = 512;

/// How many addresses a worker looks up together.
#[derive(Clone, Copy)]
pub(crate) enum Way {
    /// One.
    Single,
    /// Four, where they are listed. Those past the last four are left out.
    Fours,
}

/// A worker, in which way it looks addresses up alone, and how long it took to look them up beside others: all,
/// and each piece of them. It is online while it looks up, and offline else.
#[derive(Drop)]
pub(crate) struct Reader<'a> {
    table: &'a SharedTable<24, 8>,
    pass: Pass,
    pub(crate) way: Way,
    // The sum of the next hops that it has found beside others.
    sum: u64,
    pub(crate) took: Duration,
    pieces: [Duration; PIECES],
    ghost own: { pass.table ≡ table.now },
    ghost offline: { pass.online ≡ false },
}

impl<'a> Reader<'a> {
    /// The worker of this number.
    pub(crate) fn new(
        table: &'a SharedTable<24, 8>,
        bench: &mut Bench,
        worker: usize,
    ) -> Result<Reader<'a>>
        requires own { IsBenchOf table.now bench.old }
        ensures own { IsBenchOf table.now bench.new }
    {
        let pass = bench.register(table, worker)?;
        Ok(Reader {
            table,
            pass,
            way: Way::Single,
            sum: 0,
            took: Duration::ZERO,
            pieces: [Duration::ZERO; PIECES],
        })
    }

    /// How long each piece took where it looked so many addresses up. What is left of them isn't among these.
    pub(crate) fn times_of_pieces(&self, addrs: usize) -> &[Duration] {
        &self.pieces[..PIECES.min(addrs / PIECE)]
    }

    /// Looks these addresses up, reports now and then that the worker is quiescent, and notes how long it
    /// took, as a whole and each piece: the greatest time where the clock can't be read.
    pub(crate) fn add_timed<R: Clock>(&mut self, rt: &R, addrs: &[u32]) {
        let start = Instant::now(rt);
        self.pass.online(self.table);
        let found = sum_by_pieces(rt, self.table, &mut self.pass, addrs, &mut self.pieces);
        self.pass.offline(self.table);
        self.sum = self.sum.wrapping_add(found);
        self.took = time_since(rt, start);
    }
}

impl<'a> Side for Reader<'a> {
    fn sum(&mut self, addresses: Addresses<'_>) -> u64 {
        let (table, pass) = (self.table, &mut self.pass);
        pass.online(table);
        let sum = match (addresses, self.way) {
            (Addresses::Listed(addrs), Way::Single) => sum_of(table, pass, addrs),
            (Addresses::Listed(addrs), Way::Fours) => sum_by_fours(table, pass, addrs),
            (Addresses::Ascending(from, to), _) => sum_ascending(table, pass, from, to),
        };
        pass.offline(table);
        sum
    }
}

/// The sum of the next hops of these addresses, with a report now and then that the worker is quiescent. It
/// notes how long each piece took: the greatest time where the clock can't be read. What is left behind the
/// last piece is looked up and not timed.
fn sum_by_pieces<R: Clock>(
    rt: &R,
    table: &SharedTable<24, 8>,
    pass: &mut Pass,
    addrs: &[u32],
    pieces: &mut [Duration],
) -> u64
    requires own { pass.old.table ≡ table.now }
    requires online { pass.old.online ≡ true }
    ensures own { pass.new.table ≡ table.now }
    ensures online { pass.new.online ≡ true }
{
    let mut sum = 0u64;
    let mut left = addrs;
    for took in pieces.iter_mut() {
        let (piece, rest) = left.split_at(left.len().min(PIECE));
        let start = Instant::now(rt);
        sum = sum.wrapping_add(sum_reporting(table, pass, piece));
        *took = time_since(rt, start);
        left = rest;
    }
    sum.wrapping_add(sum_reporting(table, pass, left))
}

/// The time from then until now, the greatest where the clock can't be read.
fn time_since<R: Clock>(rt: &R, start: io::Result<Instant>) -> Duration {
    match start {
        Ok(start) => start.elapsed(rt).unwrap_or(Duration::MAX),
        Err(_) => Duration::MAX,
    }
}

/// The sum of the next hops of these addresses, with a report now and then that the worker is quiescent.
fn sum_reporting(table: &SharedTable<24, 8>, pass: &mut Pass, addrs: &[u32]) -> u64
    requires own { pass.old.table ≡ table.now }
    requires online { pass.old.online ≡ true }
    ensures own { pass.new.table ≡ table.now }
    ensures online { pass.new.online ≡ true }
{
    let mut sum = 0u64;
    for some in addrs.chunks(BETWEEN_REPORTS) {
        sum = sum.wrapping_add(sum_of(table, pass, some));
        pass.quiescent(table);
    }
    sum
}

/// The sum of the next hops of these addresses, looked up one by one.
#[inline(never)]
fn sum_of(table: &SharedTable<24, 8>, pass: &mut Pass, addrs: &[u32]) -> u64
    requires own { pass.old.table ≡ table.now }
    requires online { pass.old.online ≡ true }
    ensures own { pass.new.table ≡ table.now }
    ensures online { pass.new.online ≡ true }
{
    let mut sum = 0u64;
    for addr in addrs {
        let hop = pass.lookup(table, *addr).hop;
        sum = sum.wrapping_add(number_of(hop));
    }
    sum
}

/// The sum of the next hops of the ascending addresses from this place on, before that one.
#[inline(never)]
fn sum_ascending(table: &SharedTable<24, 8>, pass: &mut Pass, from: u32, to: u32) -> u64
    requires own { pass.old.table ≡ table.now }
    requires online { pass.old.online ≡ true }
    ensures own { pass.new.table ≡ table.now }
    ensures online { pass.new.online ≡ true }
{
    let mut sum = 0u64;
    for place in from..to {
        let hop = pass.lookup(table, ascending(place)).hop;
        sum = sum.wrapping_add(number_of(hop));
    }
    sum
}

/// The sum of the next hops of these addresses, looked up four at once. Those past the last four are left
/// out.
#[inline(never)]
fn sum_by_fours(table: &SharedTable<24, 8>, pass: &mut Pass, addrs: &[u32]) -> u64
    requires own { pass.old.table ≡ table.now }
    requires online { pass.old.online ≡ true }
    ensures own { pass.new.table ≡ table.now }
    ensures online { pass.new.online ≡ true }
{
    let mut sum = 0u64;
    for four in addrs.chunks_exact(4) {
        sum = sum.wrapping_add(sum_of_four(table, pass, four));
    }
    sum
}

/// The sum of the next hops of these four addresses.
#[inline]
fn sum_of_four(table: &SharedTable<24, 8>, pass: &mut Pass, four: &[u32]) -> u64
    requires own { pass.old.table ≡ table.now }
    requires online { pass.old.online ≡ true }
    requires four { length four.now ≡ 4 }
    ensures own { pass.new.table ≡ table.now }
    ensures online { pass.new.online ≡ true }
{
    let four = [four[0], four[1], four[2], four[3]];
    let [a, b, c, d] = pass.lookup4(table, four, 0).hops;
    u64::from(a) + u64::from(b) + u64::from(c) + u64::from(d)
}

/// Which table is changed while passes look up.
#[derive(Clone, Copy)]
pub(crate) enum Whose {
    /// Theirs, by its writer.
    Running,
    /// One that they don't read.
    Apart,
}

/// A running table, and its writer.
#[derive(Drop)]
pub(crate) struct Running<'a> {
    table: &'a SharedTable<24, 8>,
    writer: Writer<24, 8>,
    ghost own: { writer.identity ≡ table.now },
}

impl<'a> Changeable for Running<'a> {
    fn change(&mut self, what: Change, route: &Route) -> Result<(), Refusal> {
        if let Change::Add = what {
            self.writer.add(self.table, &route.prefix, route.hop)?;
        } else {
            self.writer.delete(self.table, &route.prefix)?;
        }
        Ok(())
    }
}

/// A running table, a table of one thread with the same routes, and how many changes were made of either.
#[derive(Drop)]
pub(crate) struct Changer<'a> {
    pub(crate) running: Running<'a>,
    pub(crate) apart: &'a mut Fib<24, 8>,
    pub(crate) made: u64,
}

impl<'a> Changer<'a> {
    /// The running table with its writer, and the other one. No change was made.
    pub(crate) fn new(
        table: &'a SharedTable<24, 8>,
        writer: Writer<24, 8>,
        apart: &'a mut Fib<24, 8>,
    ) -> Changer<'a>
        requires { writer.identity ≡ table.now }
    {
        Changer {
            running: Running { table, writer },
            apart,
            made: 0,
        }
    }

    /// Deletes these routes and adds them again, each in turn, until the lookups are over.
    fn change_all(&mut self, whose: Whose, routes: &[Route], is_over: &AtomicBool) {
        for route in routes {
            if is_over.load(Ordering::SeqCst) {
                break;
            }
            let made = match whose {
                Whose::Running => change_twice(&mut self.running, route),
                Whose::Apart => change_twice(self.apart, route),
            };
            self.made = self.made.saturating_add(made);
        }
    }

    /// Changes these routes again and again, until the lookups are over. With no routes it doesn't wait.
    pub(crate) fn change_until(&mut self, whose: Whose, routes: &[Route], is_over: &AtomicBool) {
        for _ in 0..u64::MAX {
            if routes.is_empty() || is_over.load(Ordering::SeqCst) {
                break;
            }
            self.change_all(whose, routes, is_over);
        }
    }
}
