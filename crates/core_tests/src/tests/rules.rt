ghost use Rattle.std.specs.Prelude.{◌<◌};

use super::asserts::{assert_at, assert_shown};
use super::bits::covers_plainly;
use lpm_bits::Prefix;
use lpm_rules::{NoSuchRule, Put, RuleFault, Rules};
use std::process::Abort;
use test_support::{hop, hop_number};

type Small = Rules<4, 4>;

type SmallPrefix = Prefix<4, 4>;

// A rule of a small table as plain numbers.
#[derive(Clone, Copy, Debug, PartialEq, Eq)]
struct SmallRule {
    bits: u32,
    len: u32,
    hop: u32,
}

fn covers(rule: &SmallRule, addr: u32) -> bool {
    covers_plainly(8, rule.bits, rule.len, addr)
}

fn is_of(rule: &SmallRule, prefix: &SmallPrefix) -> bool {
    rule.bits == prefix.bits() && rule.len == prefix.len()
}

fn plain_get(rules: &[SmallRule], prefix: &SmallPrefix) -> Option<u32> {
    for rule in rules {
        if is_of(rule, prefix) {
            return Some(rule.hop);
        }
    }
    None
}

// The longest of the rules that are shorter than `limit` and cover the address.
fn plain_longest(rules: &[SmallRule], limit: u32, addr: u32) -> Option<SmallRule> {
    let mut longest: Option<SmallRule> = None;
    for rule in rules {
        let is_longer = match longest {
            Some(other) => other.len < rule.len,
            None => true,
        };
        if is_longer && rule.len < limit && covers(rule, addr) {
            longest = Some(*rule);
        }
    }
    longest
}

fn plain_hop(rules: &[SmallRule], addr: u32) -> Option<u32> {
    Some(plain_longest(rules, 9, addr)?.hop)
}

// How many rules longer than 4 bits lie in the block.
fn plain_deep(rules: &[SmallRule], block: u32) -> usize {
    let mut count: usize = 0;
    for rule in rules {
        if rule.len > 4 && rule.bits / 16 == block {
            count = count.saturating_add(1);
        }
    }
    count
}

fn plain_cover(rules: &Small, prefix: &SmallPrefix) -> Option<SmallRule> {
    let rule = rules.cover(prefix)?;
    Some(SmallRule {
        bits: rule.prefix.bits(),
        len: rule.prefix.len(),
        hop: rule.hop.number(),
    })
}

// The rule of the table at the prefix, and its cover.
fn assert_rule(rt: &impl Abort, rules: &Small, plain: &[SmallRule], prefix: &SmallPrefix) {
    let (bits, len) = (prefix.bits(), prefix.len());
    let found = (hop_number(rules.get(prefix)), plain_cover(rules, prefix));
    let plainly = (plain_get(plain, prefix), plain_longest(plain, len, bits));
    assert_at(rt, ("rule, cover", bits, len), found, plainly);
}

// Every address, and every prefix.
fn assert_rules(rt: &impl Abort, rules: &Small, plain: &[SmallRule]) {
    for addr in 0..256u32 {
        let hop = hop_number(rules.longest(addr));
        assert_at(rt, ("longest", addr), hop, plain_hop(plain, addr));
        for len in 0..9u32 {
            let prefix = SmallPrefix::new(addr, len).expect(rt, "a length");
            assert_rule(rt, rules, plain, &prefix);
        }
    }
}

// Every block.
fn assert_blocks(rt: &impl Abort, rules: &Small, plain: &[SmallRule]) {
    let mut blocks = 0usize;
    for block in 0..16u32 {
        let place = block as usize;
        let deep = plain_deep(plain, block);
        let found = (rules.deep_in(place), rules.is_deep(place));
        assert_at(rt, ("deep", block), found, (deep, deep > 0));
        if deep > 0 {
            blocks = blocks.saturating_add(1);
        }
    }
    assert_at(rt, "deep blocks", rules.deep_blocks(), blocks);
}

fn assert_same(rt: &impl Abort, rules: &Small, plain: &[SmallRule]) {
    assert_at(rt, "rules", rules.len(), plain.len());
    assert_rules(rt, rules, plain);
    assert_blocks(rt, rules, plain);
}

// Prefixes of all lengths, with many in one block and some more than once.
fn some_prefix(rt: &impl Abort, i: u32) -> SmallPrefix
    requires { i < 1000 }
{
    SmallPrefix::new((i * 37 + i / 3) % 64 * 3, i * 5 % 9).expect(rt, "a length")
}

// The list without the rule of the prefix.
fn plain_remove(plain: &mut Vec<SmallRule>, prefix: &SmallPrefix) {
    plain.retain(|rule| !is_of(rule, prefix));
}

// What comes of a rule that is put into a list of at most so many.
fn plain_put(
    rt: &impl Abort,
    plain: &mut Vec<SmallRule>,
    max: usize,
    prefix: &SmallPrefix,
    hop: u32,
) -> Result<Put, RuleFault> {
    let put = match plain_get(plain, prefix) {
        Some(old) if old == hop => Put::Unchanged,
        Some(_) => Put::Replaced,
        None if plain.len() >= max => return Err(RuleFault::TooManyRules),
        None => Put::Added,
    };
    plain_remove(plain, prefix);
    let rule = SmallRule {
        bits: prefix.bits(),
        len: prefix.len(),
        hop,
    };
    plain.push(rule).expect(rt, "room");
    Ok(put)
}

// How many rules the table and the list have room for.
const MOST_RULES: usize = 24;

fn put_all(rt: &impl Abort, rules: &mut Small, plain: &mut Vec<SmallRule>) {
    for i in 0..60u32 {
        let prefix = some_prefix(rt, i);
        let put = rules.put(&prefix, hop(i % 7));
        let plainly = plain_put(rt, plain, MOST_RULES, &prefix, i % 7);
        assert_at(rt, ("put", i), put, plainly);
        if i % 6 == 5 {
            assert_same(rt, rules, plain);
        }
    }
}

fn remove_all(rt: &impl Abort, rules: &mut Small, plain: &mut Vec<SmallRule>) {
    for i in 0..40u32 {
        let prefix = some_prefix(rt, i);
        let removed = hop_number(rules.remove(&prefix).ok());
        assert_at(rt, ("remove", i), removed, plain_get(plain, &prefix));
        plain_remove(plain, &prefix);
        if i % 6 == 5 {
            assert_same(rt, rules, plain);
        }
    }
}

// The list is filled up, and emptied again.
fn put_and_remove(rt: &impl Abort, rules: &mut Small, plain: &mut Vec<SmallRule>) {
    assert_same(rt, rules, plain);
    put_all(rt, rules, plain);
    assert_at(rt, "full", rules.is_full(), true);
    remove_all(rt, rules, plain);
    let cleared = rules.clear();
    assert_at(
        rt,
        "cleared",
        (cleared, rules.is_empty()),
        (plain.len(), true),
    );
    assert_same(rt, rules, &[]);
}

#[test]
fn plain_search_agrees(rt: HostRuntime) {
    let mut rules = Small::new(rt.alloc(), MOST_RULES);
    let mut plain: Vec<SmallRule> = Vec::new(rt.alloc());
    put_and_remove(&rt, &mut rules, &mut plain);
}

#[test]
fn texts_of_the_faults(rt: HostRuntime) {
    let alloc = rt.alloc();
    assert_shown(&rt, alloc, &RuleFault::TooManyRules, "too many rules");
    assert_shown(&rt, alloc, &RuleFault::Memory, "out of memory");
    assert_shown(&rt, alloc, &NoSuchRule, "no such rule");
}
