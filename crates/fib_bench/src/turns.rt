//! Two sides that answer the same lookups, timed in turns.

use crate::lookups::{Addresses, Side};
use anyhow::{Result, ensure};
use std::io;
use std::rt::Clock;
use std::time::{Duration, Instant};

/// The times of two sides.
type Times = [Duration; 2];

/// What the lookups of two sides take at the same addresses, and the sum of the numbers of the next hops.
#[derive(Clone, Copy)]
pub(crate) struct Compared {
    pub(crate) first: Duration,
    pub(crate) second: Duration,
    pub(crate) sum: u64,
}

/// How often two sides are timed, and whether they go first in turn: whoever does finds the addresses out of
/// the caches.
#[derive(Clone, Copy)]
pub(crate) struct Turns {
    pub(crate) count: usize,
    pub(crate) alternate: bool,
}

/// Lets both sides look these addresses up in turns. For each piece of the addresses the least times count.
pub(crate) fn compare<R: Clock + AllocGlobal, S: Side, T: Side>(
    rt: &R,
    one: &mut S,
    other: &mut T,
    addresses: Addresses<'_>,
    turns: Turns,
) -> Result<Compared> {
    let mut least = vec![in rt.alloc(); [Duration::MAX; 2]; addresses.pieces()]?;
    let sum = take_turns(rt, one, other, addresses, turns, &mut least)?;
    let [first, second] = whole(&least);
    Ok(Compared { first, second, sum })
}

/// The same, which lowers the least times of each piece. It returns the sum of the next hops.
fn take_turns<R: Clock, S: Side, T: Side>(
    rt: &R,
    one: &mut S,
    other: &mut T,
    addresses: Addresses<'_>,
    turns: Turns,
    least: &mut [Times],
) -> Result<u64> {
    let mut sum = 0u64;
    for turn in 0..turns.count {
        let is_other_first = turns.alternate && turn % 2 == 1;
        sum = take_turn(rt, one, other, addresses, is_other_first, least)?;
    }
    Ok(sum)
}

/// Takes each piece of the addresses once with both sides, one after the other, so that whatever else slows
/// the machine for a while slows both. It returns the sum of the next hops.
fn take_turn<R: Clock, S: Side, T: Side>(
    rt: &R,
    one: &mut S,
    other: &mut T,
    addresses: Addresses<'_>,
    is_other_first: bool,
    least: &mut [Times],
) -> Result<u64> {
    let mut sum = 0u64;
    let mut left = addresses;
    for least in least.iter_mut() {
        let (piece, rest) = left.split();
        let found = time_piece(rt, one, other, piece, is_other_first, &mut sum)?;
        *least = [least[0].min(found[0]), least[1].min(found[1])];
        left = rest;
    }
    Ok(sum)
}

/// How long the lookups of a piece take by either side, of which the other may go first.
fn time_piece<R: Clock, S: Side, T: Side>(
    rt: &R,
    one: &mut S,
    other: &mut T,
    piece: Addresses<'_>,
    is_other_first: bool,
    sum: &mut u64,
) -> Result<Times> {
    if !is_other_first {
        return time_both(rt, one, other, piece, sum);
    }
    let [second, first] = time_both(rt, other, one, piece, sum)?;
    Ok([first, second])
}

/// How long the lookups of a piece take by the side that goes first and by the other. The next hops, which
/// have to have the same sum, are added to the sum.
fn time_both<R: Clock, S: Side, T: Side>(
    rt: &R,
    one: &mut S,
    other: &mut T,
    piece: Addresses<'_>,
    sum: &mut u64,
) -> Result<Times> {
    let (first, found) = timed(rt, one, piece)?;
    let (second, same) = timed(rt, other, piece)?;
    ensure!(found == same, "the sums of the next hops differ");
    *sum = sum.wrapping_add(found);
    Ok([first, second])
}

/// How long the side's lookups take, and the sum of their next hops.
fn timed<R: Clock, S: Side>(
    rt: &R,
    side: &mut S,
    addresses: Addresses<'_>,
) -> io::Result<(Duration, u64)> {
    let start = Instant::now(rt)?;
    let sum = side.sum(addresses);
    Ok((start.elapsed(rt)?, sum))
}

/// The sum of the least times of all pieces by each side.
fn whole(pieces: &[Times]) -> Times {
    let mut sum = [Duration::ZERO; 2];
    for [first, second] in pieces {
        sum = [
            sum[0].saturating_add(*first),
            sum[1].saturating_add(*second),
        ];
    }
    sum
}
