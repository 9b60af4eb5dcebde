//! What lookups and changes of a table of one thread take.

use crate::changes::{Change, print_changes, time_both};
use crate::figures::{Hundredths, each_second, hundredths_of_millis, hundredths_of_nanos, ratio};
use crate::lookups::{ASCENDING, Addresses, Kind, draw_addresses};
use crate::pieces::print_pieces;
use crate::routes::{Route, deep_blocks, default_route, full_block};
use crate::turns::{Compared, Turns, compare};
use crate::words::Words;
use anyhow::Result;
use fib::Fib;
use rand_core::Rng;
use std::io;
use std::rt::Clock;
use std::thread::Threads;

/// How often the table and the plain words are timed.
const TURNS: Turns = Turns {
    count: 15,
    alternate: false,
};

/// Routes are added and then deleted.
const ADDITIONS: [Change; 2] = [Change::Add, Change::Delete];

/// Prints the size of a table of one thread that has these routes, and what its lookups and changes take.
pub(crate) fn print_alone<R: Clock + Print + AllocGlobal + Threads + Sync, G: Rng>(
    rt: &R,
    table: &mut Fib<24, 8>,
    routes: &[Route],
    random: &mut G,
) -> Result<()> {
    let rules = table.rules();
    let in_use = table.counts().in_use;
    println!(rt; "routes: {rules}\ngroups in use: {in_use}")?;
    print_all_lookups(rt, table, routes, random)?;
    print_changes(rt, table, routes, "")?;
    print_default_route(rt, table)?;
    print_full_block(rt, table)
}

/// Prints what lookups take at addresses of each kind; deep ones only where a route is deep.
fn print_all_lookups<R: Clock + Print + AllocGlobal + Threads + Sync, G: Rng>(
    rt: &R,
    table: &Fib<24, 8>,
    routes: &[Route],
    random: &mut G,
) -> Result<()> {
    let blocks = deep_blocks(rt.alloc(), routes)?;
    let words = Words::new(rt.alloc(), table, blocks.as_slice())?;
    print_each_kind(rt, table, &words, blocks.as_slice(), random)
}

/// Prints what lookups take at addresses of each kind. Each of these blocks, given by its first address,
/// has a deep route.
fn print_each_kind<R: Clock + Print + AllocGlobal + Threads + Sync, G: Rng>(
    rt: &R,
    table: &Fib<24, 8>,
    words: &Words,
    blocks: &[u32],
    random: &mut G,
) -> Result<()> {
    print_drawn(rt, Kind::Random, table, words, blocks, random)?;
    print_lookups(rt, "ascending", table, words, ASCENDING)?;
    if blocks.is_empty() {
        return Ok(());
    }
    print_drawn(rt, Kind::Deep, table, words, blocks, random)?;
    print_drawn(rt, Kind::HalfDeep, table, words, blocks, random)
}

/// Prints what lookups take at addresses that are drawn; of those with any bits one by one and in pieces.
fn print_drawn<R: Clock + Print + AllocGlobal + Threads + Sync, G: Rng>(
    rt: &R,
    kind: Kind,
    table: &Fib<24, 8>,
    words: &Words,
    blocks: &[u32],
    random: &mut G,
) -> Result<()> {
    let addrs = draw_addresses(rt.alloc(), random, kind, blocks)?;
    print_lookups(rt, kind.name(), table, words, Addresses::Listed(&addrs))?;
    if let Kind::Random = kind {
        print_pieces(rt, table, &addrs)?;
    }
    Ok(())
}

/// Prints what the table takes beside the plain words, each lookup in nanoseconds.
fn print_lookups<R: Clock + Print + AllocGlobal>(
    rt: &R,
    kind: &str,
    table: &Fib<24, 8>,
    words: &Words,
    addresses: Addresses<'_>,
) -> Result<()> {
    let (mut one, mut other) = (table, words);
    let compared = compare(rt, &mut one, &mut other, addresses, TURNS)?;
    Ok(print_compared(rt, kind, compared, addresses.count())?)
}

/// Prints what so many lookups took in the table and in the plain words.
fn print_compared<R: Print>(
    rt: &R,
    kind: &str,
    compared: Compared,
    count: usize,
) -> io::Result<()> {
    let table = hundredths_of_nanos(compared.first, count);
    let words = hundredths_of_nanos(compared.second, count);
    let (ratio, sum) = (Hundredths(ratio(table, words)), compared.sum);
    let (table, words) = (Hundredths(table), Hundredths(words));
    println!(rt;
        "lookups, {kind}: {table} ns each\n\
         plain words, {kind}: {words} ns each\n\
         ratio, {kind}: {ratio}\n\
         checksum, {kind}: {sum}"
    )
}

/// Adds a default route and deletes it again.
fn print_default_route<R: Clock + Print>(rt: &R, table: &mut Fib<24, 8>) -> Result<()> {
    let [adding, deleting] = time_both(rt, table, ADDITIONS, &[default_route()?])?;
    let adding = Hundredths(hundredths_of_millis(adding));
    let deleting = Hundredths(hundredths_of_millis(deleting));
    println!(rt;
        "addition of a default route: {adding} ms\ndeletion of a default route: {deleting} ms"
    )?;
    Ok(())
}

/// Adds a route of 32 bits for each address of a block, and deletes them again.
fn print_full_block<R: Clock + Print + AllocGlobal>(rt: &R, table: &mut Fib<24, 8>) -> Result<()> {
    let routes = full_block(rt.alloc())?;
    print_block_changes(rt, table, routes.as_slice())
}

/// Adds all routes of a full block, and deletes them again.
fn print_block_changes<R: Clock + Print>(
    rt: &R,
    table: &mut Fib<24, 8>,
    routes: &[Route],
) -> Result<()> {
    let [adding, deleting] = time_both(rt, table, ADDITIONS, routes)?;
    let adding = each_second(adding, routes.len());
    let deleting = each_second(deleting, routes.len());
    println!(rt;
        "additions, full block: {adding} a second\ndeletions, full block: {deleting} a second"
    )?;
    Ok(())
}
