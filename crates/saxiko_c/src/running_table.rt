//! What the calls do with a running table.

ghost use Rattle.std.specs.Prelude.{◌≡◌, ⊤, MatchResult, true, false};
ghost use Rattle.shared_fib.specs.RunningTable.{Rests, hop_or, token_of};
ghost use Rattle.saxiko_c.specs.Grace.{AsksAtRest, AtRest};
ghost use Rattle.saxiko_c.specs.Loads.{IsLoadedRunning, IsUnloaded};
ghost use Rattle.saxiko_c.specs.RunningTable.{AddsTo, Counts, DeletesFrom, Finds, FindsAllIn, FindsAllWithin, FindsBetween, FindsIn, FindsWithin, Flushes, FreesHeld, GivesBack, GoesOffline, GoesOnline, IsInitialWithoutRules, IsRegistered, IsUnregistered, Quiesces};
ghost use Rattle.saxiko_c.specs.Table.{Gets, IsCounted, IsUnopened};

use crate::bursts::{find_all, find_all_within};
use crate::handle::boxed;
use crate::load::read;
use crate::owner::Owner;
use crate::records::{SaxikoCounts, SaxikoHeld, SaxikoRoute, SaxikoSpan};
use crate::stage::Stage;
use crate::status::{
    EAGAIN, EALREADY, EBUSY, EINVAL, ENOENT, ENOMEM, ENOSPC, EPERM, of_add, of_refusal,
};
use crate::table::store_deleted;
use lpm_bits::{Hop, Prefix};
use lpm_limits::{Config, Refusal};
use lpm_writer::OpenError;
use saxiko::Reader;
use std::alloc::Global;

pub(crate) fn open_owner(alloc: Global, config: Config) -> Result<Box<Owner>, i32>
    ensures { MatchResult result (λ b. IsInitialWithoutRules config b.value) (IsUnopened config) }
{
    match saxiko::Owner::open(alloc, config) {
        Ok(owner) => boxed(alloc, Owner::new(owner)),
        Err(OpenError::BadConfig) => Err(EINVAL),
        Err(OpenError::Memory) => Err(ENOMEM),
    }
}

/// A running table with the rules of these routes: of those of one prefix the last counts.
pub(crate) fn load_owner(
    alloc: Global,
    config: Config,
    routes: &[SaxikoRoute],
    bad: &mut usize,
) -> Result<Box<Owner>, i32>
    ensures { MatchResult result
        (λ b. (bad.new ≡ bad.old) × IsLoadedRunning config routes.now b.value)
        (λ status. IsUnloaded config routes.now bad.old bad.new status) }
{
    let rules = read(alloc, routes, bad)?;
    match saxiko::Owner::load(alloc, config, &rules) {
        Ok(Some(owner)) => boxed(alloc, Owner::new(owner)),
        Ok(None) => Err(ENOSPC),
        Err(OpenError::BadConfig) => Err(EINVAL),
        Err(OpenError::Memory) => Err(ENOMEM),
    }
}

pub(crate) fn add_by_writer(owner: &mut Owner, addr: u32, depth: u8, hop: u32) -> i32
    ensures { AtRest (AddsTo addr depth hop) ⊤ owner.old result owner.new }
{
    let Stage::AtRest(running) = &mut owner.stage else {
        return EAGAIN;
    };
    match (Prefix::new(addr, u32::from(depth)), Hop::new(hop)) {
        (Ok(prefix), Ok(hop)) => of_add(running.add(&prefix, hop)),
        _ => EINVAL,
    }
}

pub(crate) fn delete_by_writer(owner: &mut Owner, addr: u32, depth: u8, hop: &mut u32) -> i32
    ensures { AtRest (DeletesFrom addr depth hop.old hop.new) (hop.new ≡ hop.old)
        owner.old result owner.new }
{
    let Stage::AtRest(running) = &mut owner.stage else {
        return EAGAIN;
    };
    match Prefix::new(addr, u32::from(depth)) {
        Ok(prefix) => store_deleted(running.delete(&prefix), hop),
        Err(_) => EINVAL,
    }
}

pub(crate) fn flush_by_writer(owner: &mut Owner, rules: &mut usize) -> i32
    ensures { AtRest (Flushes rules.old rules.new) (rules.new ≡ rules.old)
        owner.old result owner.new }
{
    let Stage::AtRest(running) = &mut owner.stage else {
        return EAGAIN;
    };
    match running.flush() {
        Ok(flushed) => {
            *rules = flushed;
            0
        }
        Err(refusal) => of_refusal(refusal),
    }
}

/// Returns 1 where a reader holds the next group that waits.
pub(crate) fn reclaim_by_writer(
    owner: &mut Owner,
    max: usize,
    freed: &mut usize,
    held: &mut SaxikoHeld,
) -> i32
    ensures { AtRest (FreesHeld max freed.new held.old held.new)
        ((freed.new ≡ freed.old) × (held.new ≡ held.old)) owner.old result owner.new }
{
    let Stage::AtRest(running) = &mut owner.stage else {
        return EAGAIN;
    };
    let reclaimed = running.reclaim(max);
    *freed = reclaimed.freed;
    match reclaimed.stopped {
        Some(busy) => {
            *held = SaxikoHeld {
                reader: busy.worker as u64,
                counter: busy.counter,
            };
            1
        }
        None => 0,
    }
}

pub(crate) fn get_by_writer(owner: &Owner, addr: u32, depth: u8, hop: &mut u32) -> i32
    ensures { AsksAtRest (λ o. Gets addr depth hop.old hop.new o.writer.table.rules)
        (hop.new ≡ hop.old) owner.now result }
{
    let Stage::AtRest(running) = &owner.stage else {
        return EAGAIN;
    };
    match Prefix::new(addr, u32::from(depth)) {
        Ok(prefix) => match running.get(&prefix) {
            Some(found) => {
                *hop = found.number();
                0
            }
            None => ENOENT,
        },
        Err(_) => EINVAL,
    }
}

fn count(running: &mut saxiko::Owner) -> SaxikoCounts
    ensures counted { IsCounted running.old.writer.table running.old.writer.config.groups
        (token_of running.old.writer) result }
    ensures rests { Rests running.old.writer }
    ensures same { running.new ≡ running.old }
{
    running.at_rest();
    let groups = running.counts();
    SaxikoCounts {
        rules: running.rules() as u64,
        versions: running.versions(),
        token: running.token(),
        groups_in_use: groups.in_use as u64,
        groups_waiting: groups.limbo as u64,
        groups_free: groups.free as u64,
    }
}

pub(crate) fn store_counts(owner: &mut Owner, counts: &mut SaxikoCounts) -> i32
    ensures counted { AsksAtRest (Counts counts.new) (counts.new ≡ counts.old) owner.old result }
    ensures same { owner.new ≡ owner.old }
{
    let Stage::AtRest(running) = &mut owner.stage else {
        return EAGAIN;
    };
    *counts = count(running);
    0
}

/// The reader of this number. Where there is no memory for it, its number is free again.
pub(crate) fn boxed_reader(
    alloc: Global,
    owner: &mut Owner,
    number: usize,
) -> Result<Box<Reader>, i32>
    ensures { MatchResult result (λ b. IsRegistered number owner.old b.value owner.new)
        (λ status. IsUnregistered number owner.old status owner.new) }
{
    match owner.register_reader(number) {
        Ok(reader) => match Box::new(alloc, reader) {
            Ok(boxed) => Ok(boxed),
            Err(failed) => {
                owner.unregister_reader(failed.value);
                Err(ENOMEM)
            }
        },
        Err(Refusal::NoSuchWorker) => Err(EINVAL),
        Err(Refusal::Taken) => Err(EBUSY),
        Err(_) => Err(ENOMEM),
    }
}

/// Takes the reader back: it is offline then.
pub(crate) fn put_back(owner: &mut Owner, reader: Reader) -> i32
    requires own { reader.table ≡ owner.old.writer.identity }
    ensures { GivesBack reader owner.old result owner.new }
{
    owner.unregister_reader(reader);
    0
}

pub(crate) fn go_online(reader: &mut Reader) -> i32
    ensures { GoesOnline reader.old result reader.new }
{
    if reader.is_online() {
        return EALREADY;
    }
    reader.online();
    0
}

pub(crate) fn go_offline(reader: &mut Reader) -> i32
    ensures { GoesOffline reader.old result reader.new }
{
    if !reader.is_online() {
        return EPERM;
    }
    reader.offline();
    0
}

#[inline]
pub(crate) fn quiesce(reader: &mut Reader) -> i32
    ensures { Quiesces reader.old result reader.new }
{
    if !reader.is_online() {
        return EPERM;
    }
    reader.quiescent();
    0
}

#[inline]
fn find_online(reader: &mut Reader, addr: u32, hop: &mut u32) -> i32
    requires online { reader.old.online ≡ true }
    ensures { Finds addr hop.old hop.new reader.old result reader.new }
{
    match reader.lookup(addr).hop {
        Some(found) => {
            *hop = found.number();
            0
        }
        None => ENOENT,
    }
}

#[inline]
pub(crate) fn find_hop(reader: &mut Reader, addr: u32, hop: &mut u32) -> i32
    ensures { FindsIn addr hop.old hop.new reader.old result reader.new }
{
    if !reader.is_online() {
        return EPERM;
    }
    find_online(reader, addr, hop)
}

/// Stores the next hop, and the versions that the answer lies between.
#[inline]
fn find_within(reader: &mut Reader, addr: u32, hop: &mut u32, span: &mut SaxikoSpan) -> i32
    requires online { reader.old.online ≡ true }
    ensures { FindsBetween addr hop.old hop.new span.new reader.old result reader.new }
{
    let answer = reader.lookup(addr);
    *span = SaxikoSpan {
        lo: answer.lo,
        hi: answer.hi,
    };
    match answer.hop {
        Some(found) => {
            *hop = found.number();
            0
        }
        None => ENOENT,
    }
}

#[inline]
pub(crate) fn lookup_within(
    reader: &mut Reader,
    addr: u32,
    hop: &mut u32,
    span: &mut SaxikoSpan,
) -> i32
    ensures { FindsWithin addr hop.old hop.new span.old span.new reader.old result reader.new }
{
    if !reader.is_online() {
        return EPERM;
    }
    find_within(reader, addr, hop, span)
}

/// The number of a next hop, or the default where there is none.
#[inline]
pub(crate) fn number_or(hop: Option<Hop>, default: u32) -> u32
    ensures { result ≡ hop_or default hop }
{
    match hop {
        Some(hop) => hop.number(),
        None => default,
    }
}

/// Looks up as many addresses as there are next hops, whatever version each answer is of.
pub(crate) fn lookup_all(reader: &mut Reader, addrs: &[u32], hops: &mut [u32], default: u32) -> i32
    ensures { FindsAllIn default addrs.now hops.old hops.new reader.old result reader.new }
{
    if !reader.is_online() {
        return EPERM;
    }
    if addrs.len() != hops.len() {
        return EINVAL;
    }
    find_all(reader, addrs, hops, default);
    0
}

/// The same, and stores the versions that the answers lie between.
pub(crate) fn lookup_all_within(
    reader: &mut Reader,
    addrs: &[u32],
    hops: &mut [u32],
    default: u32,
    span: &mut SaxikoSpan,
) -> i32
    ensures { FindsAllWithin default addrs.now hops.old hops.new span.old span.new reader.old result
        reader.new }
{
    if !reader.is_online() {
        return EPERM;
    }
    if addrs.len() != hops.len() {
        return EINVAL;
    }
    find_all_within(reader, addrs, hops, default, span);
    0
}
