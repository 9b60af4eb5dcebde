//! 300,000 rules of blocks that follow each other, of which one in ten is the rule of half a block.

use super::rule_lists::{Plain, rule_of};
use lpm_limits::Config;
use lpm_rules::Rule;
use std::alloc::Global;

/// How many rules, and blocks.
pub const MANY: u32 = 300_000;

/// All limits are as great as they can be, but that the rules just fit.
pub const MANY_LIMITS: Config = Config {
    rules: MANY as usize,
    groups: 65_536,
    workers: 2_048,
    threshold: 65_536,
    reclaim_max: 65_536,
    first_token: 1,
};

// Whether the rule of this number is that of half a block. One in ten is.
fn is_half(number: u32) -> bool {
    number % 10 == 9
}

/// The first address of the block of this number: they follow each other from 1.0.0.0 on.
pub fn block(number: u32) -> u32 {
    number.saturating_add(65_536).wrapping_mul(256)
}

/// The rule of this number, which is its next hop's too, as plain numbers.
pub fn many_plain(number: u32) -> Plain {
    let len = if is_half(number) { 25 } else { 24 };
    (block(number), len, number)
}

/// The rules, which are in the order of their prefixes. `None` without memory.
pub fn many_rules(alloc: Global) -> Option<Vec<Rule<24, 8>>> {
    let mut rules = Vec::new(alloc);
    for number in 0..MANY {
        rules.push(rule_of(many_plain(number))?).ok()?;
    }
    Some(rules)
}

/// The next hop in the second half of the block of this number. The first half has the number itself.
pub fn second_half(number: u32) -> Option<u32> {
    if is_half(number) { None } else { Some(number) }
}
