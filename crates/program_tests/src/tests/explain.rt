//! What explains an answer: the rules that cover an address.

use super::asserts::assert_at;
use super::cases::assert_ends;
use super::fakes::whole;
use lpm_commands::covering_rules;
use lpm_rules::{Rule, Rules};
use std::alloc::Global;
use std::process::Abort;
use std::test::Fail;
use test_support::{Plain, rule_of};

// Rules of addresses of eight bits: bits, length and next hop.
static RULES: [Plain; 6] = [
    (0xa0, 3, 1),
    (0x00, 0, 2),
    (0xa6, 8, 3),
    (0xa0, 4, 4),
    (0xb0, 4, 5),
    (0xa4, 6, 6),
];

// An address, and the lengths and next hops of the rules that cover it.
static COVERED: [(u32, &[(u32, u32)]); 5] = [
    (0xa6, &[(8, 3), (6, 6), (4, 4), (3, 1), (0, 2)]),
    (0xa7, &[(6, 6), (4, 4), (3, 1), (0, 2)]),
    (0xa8, &[(4, 4), (3, 1), (0, 2)]),
    (0xbf, &[(4, 5), (3, 1), (0, 2)]),
    (0xff, &[(0, 2)]),
];

fn put_all(rt: &impl Abort, rules: &mut Rules<4, 4>) {
    for plain in &RULES {
        let new = rule_of::<4, 4>(*plain).expect(rt, "a rule");
        rules.put(&new.prefix, new.hop).expect(rt, "room");
    }
}

// The rules are those of these lengths and next hops, and each is a prefix of the address.
fn assert_rules(rt: &impl Abort, addr: u32, found: &[Rule<4, 4>], wanted: &[(u32, u32)]) {
    assert_at(rt, addr, found.len(), wanted.len());
    for (got, (len, hop)) in found.iter().zip(wanted) {
        assert_at(rt, addr, Some(*got), rule_of((addr, *len, *hop)));
    }
}

#[test]
fn all_rules_that_cover(rt: HostRuntime) {
    let mut rules = Rules::new(rt.alloc(), 6);
    put_all(&rt, &mut rules);
    for (addr, wanted) in &COVERED {
        let found = covering_rules(rt.alloc(), &rules, *addr).expect(&rt, "memory");
        assert_rules(&rt, *addr, &found, wanted);
    }
}

#[test]
fn no_rule_covers(rt: HostRuntime) {
    let rules = Rules::<4, 4>::new(rt.alloc(), 6);
    let found = covering_rules(rt.alloc(), &rules, 0xa6).expect(&rt, "memory");
    assert_rules(&rt, 0xa6, &found, &[]);
}

// How many routes the file has.
const MANY: u32 = 100_000;

// A route for each block from 1.0.0.0 on, with its number as the next hop.
fn many_routes(alloc: Global) -> Result<Vec<u8>, Fail> {
    let mut bytes = Vec::new(alloc);
    for number in 0..MANY {
        let block = number.saturating_add(65_536);
        let (a, b, c) = (block / 65_536, block / 256 % 256, block % 256);
        let line = format!(in alloc; "{a}.{b}.{c}.0/24 {number}\n")?;
        bytes.extend_from_slice(line.as_bytes())?;
    }
    Ok(bytes)
}

const AMONG_MANY: &str = "address 1.0.0.255\nhop 0\nrule 1.0.0.0/24\ntbl24 65536 0x61000000\n\
    address 2.134.159.0\nhop 99999\nrule 2.134.159.0/24\ntbl24 165535 0x6101869f\n";

#[test]
fn explains_among_many_routes(rt: HostRuntime) -> Result<(), Fail> {
    let routes = many_routes(rt.alloc())?;
    let files = [("r", routes.as_slice())];
    let line = "lpmtool explain r 1.0.0.255 2.134.159.0";
    assert_ends(&rt, line, line, &whole(&files), (0, AMONG_MANY, ""))
}
