//! The running table.

use super::{assert_at, limits, two_rules};
use saxiko::{Owner, Put, Reader, Refusal};
use std::process::Abort;
use test_support::{hop, prefix};

// The reader finds the rule while it holds the rule's group.
fn add_and_delete(rt: &impl Abort, owner: &mut Owner, reader: &mut Reader) {
    let (prefix, hop) = (prefix(0x0a01_8080, 25), hop(7));
    let added = owner.add(&prefix, hop);
    assert_at(rt, "added", added, Ok(Put::Added));
    reader.online();
    let answer = reader.lookup(0x0a01_8081);
    let found = (answer.hop, answer.lo, answer.hi);
    assert_at(rt, "found", found, (Some(hop), 1, 1));
    let deleted = [owner.delete(&prefix), owner.delete(&prefix)];
    let wanted = [Ok(hop), Err(Refusal::NoSuchRule)];
    assert_at(rt, "deleted", deleted, wanted);
    assert_at(rt, "held", owner.reclaim(1).freed, 0);
}

#[test]
fn a_reader_holds_a_group_until_it_is_dropped(rt: HostRuntime) {
    let mut owner = Owner::open(rt.alloc(), limits()).expect(&rt, "open");
    let mut reader = owner.register(1).expect(&rt, "register");
    add_and_delete(&rt, &mut owner, &mut reader);
    drop(reader);
    assert_at(&rt, "free", owner.reclaim(1).freed, 1);
    drop(owner);
}

static ADDRS: [u32; 6] = [
    0x0a01_8081,
    0x0b00_0000,
    0x0a00_0000,
    0x0a01_8080,
    0x0a01_807f,
    0x0c00_0000,
];

// These addresses are answered in one burst, by this version: the first hops become these.
fn assert_burst(
    rt: &impl Abort,
    reader: &mut Reader,
    hops: &mut [u32; 8],
    row: (&[u32], u32, u64),
    wanted: [u32; 8],
) {
    let (addrs, miss, version) = row;
    reader.online();
    let burst = reader.lookup_bulk(addrs, miss, hops);
    let found = (burst.count, burst.lo, burst.hi);
    assert_at(rt, "burst", found, (addrs.len(), version, version));
    assert_at(rt, "hops", *hops, wanted);
}

fn look_up(rt: &impl Abort, owner: &mut Owner, reader: &mut Reader) {
    let mut hops = [7u32; 8];
    let first = [2, 9, 1, 2, 1, 9, 7, 7];
    assert_burst(rt, reader, &mut hops, (&ADDRS, 9, 0), first);
    let found = owner.lookup_rule(0x0a01_8081);
    let [long, _] = two_rules();
    assert_at(rt, "rule", found, Some(long));
    let wide = prefix(0x0a00_0000, 8);
    let put = owner.insert(&wide, hop(2));
    assert_at(rt, "put", put, Ok(Some(hop(1))));
    let second = [2, 8, 1, 2, 1, 9, 7, 7];
    assert_burst(rt, reader, &mut hops, (&ADDRS[4..], 8, 1), second);
}

#[test]
fn a_burst_is_answered_between_two_versions(rt: HostRuntime) {
    let opened = Owner::load(rt.alloc(), limits(), &two_rules());
    let mut owner = opened.expect(&rt, "open").expect(&rt, "fits");
    let mut reader = owner.register(0).expect(&rt, "register");
    look_up(&rt, &mut owner, &mut reader);
    drop(reader);
    drop(owner);
}

#[test]
fn a_reader_is_handed_out_once(rt: HostRuntime) {
    let mut owner = Owner::open(rt.alloc(), limits()).expect(&rt, "open");
    let reader = owner.register(1).expect(&rt, "register");
    let refused = [owner.register(1).err(), owner.register(2).err()];
    let wanted = [Some(Refusal::Taken), Some(Refusal::NoSuchWorker)];
    assert_at(&rt, "refused", refused, wanted);
    owner.unregister(reader);
    assert_at(&rt, "again", owner.register(1).is_ok(), true);
    drop(owner);
}
