//! The table of one thread.

use super::{assert_at, limits, two_rules};
use saxiko::{Hop, ParseError, Prefix, Put, Refusal, Rule, Table};
use std::alloc::Global;
use std::convert::AsStr;
use std::net::Ipv4Addr;
use std::process::Abort;
use test_support::{hop, prefix};

fn add_and_delete(rt: &impl Abort, table: &mut Table) {
    let (prefix, hop) = (prefix(0x0a01_8080, 9), hop(7));
    let added = table.add(&prefix, hop);
    assert_at(rt, "added", added, Ok(Put::Added));
    let hops = [table.lookup(0x0a00_0001), table.lookup(0x0a80_0001)];
    assert_at(rt, "hops", hops, [Some(hop), None]);
    assert_at(rt, "rule", table.get(&prefix), Some(hop));
    let deleted = [table.delete(&prefix), table.delete(&prefix)];
    let wanted = [Ok(hop), Err(Refusal::NoSuchRule)];
    assert_at(rt, "deleted", deleted, wanted);
    assert_at(rt, "gone", table.lookup(0x0a00_0001), None);
}

#[test]
fn a_table_answers(rt: HostRuntime) {
    let mut table = Table::open(rt.alloc(), limits()).expect(&rt, "open");
    add_and_delete(&rt, &mut table);
    drop(table);
}

static ADDRS: [u32; 3] = [0x0a01_8081, 0x0b00_0000, 0x0a00_0000];

fn look_up(rt: &impl Abort, table: &Table, rules: &[Rule; 2]) {
    let [long, wide] = *rules;
    let found = [
        table.lookup_rule(0x0a01_8081),
        table.lookup_rule(0x0a01_807f),
        table.lookup_rule(0x0b00_0000),
    ];
    assert_at(rt, "rules", found, [Some(long), Some(wide), None]);
    let mut hops = [7u32; 5];
    let count = table.lookup_bulk(&ADDRS, 9, &mut hops);
    assert_at(rt, "hops", (count, hops), (3, [2, 9, 1, 7, 7]));
}

#[test]
fn a_table_of_rules_answers_in_bulk(rt: HostRuntime) {
    let rules = two_rules();
    let opened = Table::load(rt.alloc(), limits(), &rules);
    let table = opened.expect(&rt, "open").expect(&rt, "fits");
    look_up(&rt, &table, &rules);
    drop(table);
}

// Texts of no prefix, and why.
static NO_PREFIXES: [(&str, ParseError); 4] = [
    ("10.1.2.3", ParseError::NoSlash),
    ("10.1.2/8", ParseError::BadAddress),
    ("10.1.2.3/33", ParseError::BadLength),
    ("10.1.2.3/+8", ParseError::BadLength),
];

fn assert_written(rt: &impl Abort, alloc: Global, prefix: Prefix, text: &str) {
    let found = prefix.to_string(alloc).expect(rt, "memory");
    assert_at(rt, "text", found.as_str(), text);
}

#[test]
fn texts_are_read_and_written(rt: HostRuntime) {
    let kept = prefix(0x0a01_0200, 25);
    assert_at(&rt, "read", "10.1.2.3/25".parse::<Prefix>(), Ok(kept));
    assert_written(&rt, rt.alloc(), kept, "10.1.2.0/25");
    for (text, error) in &NO_PREFIXES {
        assert_at(&rt, *text, text.parse::<Prefix>(), Err(*error));
    }
    let hops = ["7".parse::<Hop>(), "16777216".parse::<Hop>()];
    let wanted = [Ok(hop(7)), Err(ParseError::BadHop)];
    assert_at(&rt, "hops", hops, wanted);
}

#[test]
fn prefixes_are_of_addresses(rt: HostRuntime) {
    let found = Prefix::of_ipv4(Ipv4Addr::new(10, 1, 2, 3), 25).ok();
    let kept = prefix(0x0a01_0200, 25);
    assert_at(&rt, "prefix", found, Some(kept));
    let past = Prefix::of_ipv4(Ipv4Addr::BROADCAST, 33).is_err();
    let found = (kept.to_ipv4() == Ipv4Addr::new(10, 1, 2, 0), past);
    assert_at(&rt, "address, length", found, (true, true));
}
