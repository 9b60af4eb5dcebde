//! What the calls do with a table of one thread.

ghost use Rattle.std.specs.Prelude.{◌≡◌, ◌+◌, MatchResult};
ghost use Rattle.lpm_limits.specs.Limits.{IsConfig};
ghost use Rattle.fib.specs.Fib.{initial_fib};
ghost use Rattle.saxiko_c.specs.Status.{status_of};
ghost use Rattle.saxiko_c.specs.Table.{AddsRule, Counts, DeletesRule, Finds, FindsAll, FlushesRules, FreesGroups, Gets, IsCounted, IsUnopened, Stores};

use crate::handle::boxed;
use crate::records::SaxikoCounts;
use crate::status::{EINVAL, ENOENT, ENOMEM, of_add, of_refusal};
use fib::Fib;
use lpm_bits::{Hop, Prefix};
use lpm_limits::{Config, Refusal};
use lpm_writer::OpenError;
use std::alloc::Global;

pub(crate) fn open_table(alloc: Global, config: Config) -> Result<Box<Fib<24, 8>>, i32>
    ensures { MatchResult result (λ b. (b.value ≡ initial_fib config) × IsConfig config)
        (IsUnopened config) }
{
    match Fib::open(alloc, config) {
        Ok(fib) => boxed(alloc, fib),
        Err(OpenError::BadConfig) => Err(EINVAL),
        Err(OpenError::Memory) => Err(ENOMEM),
    }
}

pub(crate) fn add_in_table(fib: &mut Fib<24, 8>, addr: u32, depth: u8, hop: u32) -> i32
    ensures { AddsRule addr depth hop fib.old result fib.new }
{
    match (Prefix::new(addr, u32::from(depth)), Hop::new(hop)) {
        (Ok(prefix), Ok(hop)) => of_add(fib.add(&prefix, hop)),
        _ => EINVAL,
    }
}

/// Stores the next hop of the rule that was deleted.
pub(crate) fn store_deleted(deleted: Result<Hop, Refusal>, hop: &mut u32) -> i32
    ensures stores { Stores deleted hop.old hop.new }
    ensures status { result ≡ status_of deleted }
{
    match deleted {
        Ok(deleted) => {
            *hop = deleted.number();
            0
        }
        Err(refusal) => of_refusal(refusal),
    }
}

pub(crate) fn delete_in_table(fib: &mut Fib<24, 8>, addr: u32, depth: u8, hop: &mut u32) -> i32
    ensures { DeletesRule addr depth hop.old hop.new fib.old result fib.new }
{
    match Prefix::new(addr, u32::from(depth)) {
        Ok(prefix) => store_deleted(fib.delete(&prefix), hop),
        Err(_) => EINVAL,
    }
}

pub(crate) fn flush_table(fib: &mut Fib<24, 8>, rules: &mut usize) -> i32
    ensures { FlushesRules rules.old rules.new fib.old result fib.new }
{
    match fib.flush() {
        Ok(flushed) => {
            *rules = flushed;
            0
        }
        Err(refusal) => of_refusal(refusal),
    }
}

pub(crate) fn reclaim_in_table(fib: &mut Fib<24, 8>, max: usize, freed: &mut usize) -> i32
    ensures { FreesGroups max freed.new fib.old result fib.new }
{
    let reclaimed = fib.reclaim(max);
    *freed = reclaimed.freed;
    0
}

#[inline]
pub(crate) fn find_hop(fib: &Fib<24, 8>, addr: u32, hop: &mut u32) -> i32
    ensures { Finds addr hop.old hop.new fib.now result }
{
    match fib.lookup(addr) {
        Some(found) => {
            *hop = found.number();
            0
        }
        None => ENOENT,
    }
}

pub(crate) fn get_in_table(fib: &Fib<24, 8>, addr: u32, depth: u8, hop: &mut u32) -> i32
    ensures { Gets addr depth hop.old hop.new fib.now.table.rules result }
{
    match Prefix::new(addr, u32::from(depth)) {
        Ok(prefix) => match fib.get(&prefix) {
            Some(found) => {
                *hop = found.number();
                0
            }
            None => ENOENT,
        },
        Err(_) => EINVAL,
    }
}

#[inline]
pub(crate) fn lookup_all(fib: &Fib<24, 8>, addrs: &[u32], hops: &mut [u32], default: u32) -> i32
    ensures { FindsAll default addrs.now hops.old hops.new fib.now result }
{
    if addrs.len() != hops.len() {
        return EINVAL;
    }
    let _ = fib.lookup_bulk(addrs, default, hops);
    0
}

pub(crate) fn count(fib: &Fib<24, 8>) -> SaxikoCounts
    ensures { IsCounted fib.now.table fib.now.config.groups fib.now.table.readers.token result }
{
    let groups = fib.counts();
    SaxikoCounts {
        rules: fib.rules() as u64,
        versions: fib.versions(),
        token: fib.token(),
        groups_in_use: groups.in_use as u64,
        groups_waiting: groups.limbo as u64,
        groups_free: groups.free as u64,
    }
}
