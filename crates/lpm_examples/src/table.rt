//! The table step by step, as a program calls it.

use anyhow::{Result, ensure};
use fib::Fib;
use lpm_bits::{Hop, Prefix};
use lpm_limits::Config;
use std::alloc::Global;
use std::net::Ipv4Addr;

/// A table for IPv4: 24 bits of an address choose a word of the first table, 8 bits one of a group.
type Table = Fib<24, 8>;

/// The worker that looks addresses up.
const WORKER: usize = 0;

/// Opens a table, changes it, and looks addresses up.
pub(crate) fn show_table<R: Print>(rt: &R, alloc: Global) -> Result<()> {
    // Open a table of 4 groups, with 1 worker and the other limits as they are by default.
    let limits = Config {
        groups: 4,
        workers: 1,
        ..Config::default()
    };
    let mut table = Table::open(alloc, limits)?;
    use_table(rt, &mut table)
}

fn use_table<R: Print>(rt: &R, table: &mut Table) -> Result<()> {
    // The worker goes online before its first lookup.
    go_online(table)?;
    add_routes(table)?;
    look_up(rt, table)?;
    delete_and_reclaim(rt, table)
}

fn add_routes(table: &mut Table) -> Result<()> {
    // The default route covers every address.
    add_route(table, [0, 0, 0, 0], 0, 1)?;

    // A longer route comes before a shorter one.
    add_route(table, [10, 0, 0, 0], 8, 2)?;

    // A route of more than 24 bits needs a group, for the 256 addresses around it.
    add_route(table, [10, 1, 2, 64], 26, 3)
}

fn look_up<R: Print>(rt: &R, table: &Table) -> Result<()> {
    // A lookup returns the next hop of the longest route that covers the address.
    print_lookup(rt, table, [192, 0, 2, 1])?;
    print_lookup(rt, table, [10, 9, 8, 7])?;
    print_lookup(rt, table, [10, 1, 2, 65])?;
    print_counts(rt, table)
}

fn delete_and_reclaim<R: Print>(rt: &R, table: &mut Table) -> Result<()> {
    // Delete the route of 26 bits: its group is unlinked, and waits in limbo.
    table.delete(&prefix([10, 1, 2, 64], 26)?)?;
    print_lookup(rt, table, [10, 1, 2, 65])?;
    print_counts(rt, table)?;

    // Reclaim at most 16 groups: none is freed, since the worker may still read the one in limbo.
    println!(rt; "{:?}", table.reclaim(16))?;

    // The worker has ended its lookups, and reports a quiescent state.
    end_lookups(table)?;

    // Reclaim again: no worker holds the group, so it is freed.
    println!(rt; "{:?}", table.reclaim(16))?;
    print_counts(rt, table)
}

/// From now on the worker may hold each group that is unlinked.
fn go_online(table: &mut Table) -> Result<()> {
    ensure!(WORKER < table.config().workers, "no such worker");
    ensure!(!table.is_online(WORKER), "the worker is online already");
    table.online(WORKER);
    Ok(())
}

/// From now on the worker holds no group that was unlinked before.
fn end_lookups(table: &mut Table) -> Result<()> {
    ensure!(WORKER < table.config().workers, "no such worker");
    ensure!(table.is_online(WORKER), "the worker is offline");
    table.quiescent(WORKER);
    Ok(())
}

/// Adds the route of this length that covers the address, with the next hop of this number.
fn add_route(table: &mut Table, addr: [u8; 4], len: u32, hop: u32) -> Result<()> {
    table.add(&prefix(addr, len)?, Hop::new(hop)?)?;
    Ok(())
}

/// The prefix of this length that covers the address.
fn prefix(addr: [u8; 4], len: u32) -> Result<Prefix<24, 8>> {
    Ok(Prefix::new(u32::from_be_bytes(addr), len)?)
}

fn print_lookup<R: Print>(rt: &R, table: &Table, addr: [u8; 4]) -> Result<()> {
    let text = Ipv4Addr::from(addr);
    match table.lookup(u32::from_be_bytes(addr)) {
        Some(hop) => println!(rt; "{text}: next hop {}", hop.number())?,
        None => println!(rt; "{text}: no route")?,
    }
    Ok(())
}

/// Prints how many groups are in use, wait in limbo and are free.
fn print_counts<R: Print>(rt: &R, table: &Table) -> Result<()> {
    println!(rt; "{:?}", table.counts())?;
    Ok(())
}
