ghost use Rattle.lpm_bits.specs.Widths.{IsShape};

use super::asserts::assert_at;
use audit::{TableCounts, expect, report_text};
use lpm_bits::Hop;
use lpm_rules::{Put, Rule, Rules};
use std::alloc::Global;
use std::process::Abort;
use test_support::{FOUR, FOUR_NUMBERS, MANY, Plain, THREE, block, hop_number, other_hop, rule_of};

fn put_rule(rt: &impl Abort, rules: &mut Rules<24, 8>, plain: Plain) {
    let Rule { prefix, hop } = rule_of::<24, 8>(plain).expect(rt, "a rule");
    assert_at(rt, plain, rules.put(&prefix, hop), Ok(Put::Added));
}

fn put_three(rt: &impl Abort, rules: &mut Rules<24, 8>) {
    for plain in &THREE {
        put_rule(rt, rules, *plain);
    }
}

#[test]
fn expects_the_longest(rt: HostRuntime) {
    let mut rules = Rules::new(rt.alloc(), 3);
    put_three(&rt, &mut rules);
    let hops = expect(&rt, rt.alloc(), &rules, &FOUR).expect(&rt, "memory");
    assert_at(&rt, "place", other_hop(&hops, &FOUR_NUMBERS), None);
    let none = expect(&rt, rt.alloc(), &rules, &[]).expect(&rt, "memory");
    assert_at(&rt, "no addresses", none.len(), 0);
}

// Puts in a rule for each block, with its number as the next hop.
fn put_many(rt: &impl Abort, rules: &mut Rules<24, 8>) {
    for number in 0..MANY {
        put_rule(rt, rules, (block(number), 24, number));
    }
}

// The last address of each block.
fn last_addresses(rt: &impl Abort, alloc: Global) -> Vec<u32> {
    let mut addrs = Vec::new(alloc);
    for number in 0..MANY {
        addrs.push(block(number) | 255).expect(rt, "memory");
    }
    addrs
}

// The last address of each block has its number as the next hop.
fn assert_numbers(rt: &impl Abort, hops: &[Option<Hop>]) {
    assert_at(rt, "hops", hops.len(), MANY as usize);
    for (hop, number) in hops.iter().zip(0..MANY) {
        assert_at(rt, number, hop_number(*hop), Some(number));
    }
}

#[test]
fn expects_many(rt: HostRuntime) {
    let mut rules = Rules::new(rt.alloc(), MANY as usize);
    put_many(&rt, &mut rules);
    let addrs = last_addresses(&rt, rt.alloc());
    let hops = expect(&rt, rt.alloc(), &rules, &addrs).expect(&rt, "memory");
    assert_numbers(&rt, &hops);
}

#[test]
fn reports_six_lines(rt: HostRuntime) {
    let report = TableCounts {
        rules: 3,
        versions: 18_446_744_073_709_551_615,
        in_use: 1,
        limbo: 20,
        free: 235,
        token: 0,
    };
    let text = report_text(rt.alloc(), &report).expect(&rt, "memory");
    let lines = b"rules 3\nversions 18446744073709551615\nin use 1\nlimbo 20\nfree 235\ntoken 0\n";
    assert_at(&rt, "lines", text.as_slice() == lines.as_slice(), true);
}
