//! Lists of rules, written as plain numbers or drawn.
ghost use Rattle.std.specs.Prelude.{◌↔◌, IsTrue};
ghost use Rattle.lpm_bits.specs.Widths.{IsShape};
ghost use Rattle.lpm_rules.specs.RuleMap.{AreInOrder};

use lpm_bits::{Hop, Prefix, Shape};
use lpm_rules::{Rule, place_of};
use std::alloc::Global;

/// A rule as plain numbers: the bits of its prefix, its length and its next hop.
pub type Plain = (u32, u32, u32);

/// The next hop of this number, or of its last 24 bits where it has more.
pub fn hop(number: u32) -> Hop {
    Hop::new(number % 16_777_216).unwrap()
}

/// The prefix of these numbers, each cut to what an address has: the last bits, and the greatest length.
pub fn prefix<const FIRST: u32, const SECOND: u32>(bits: u32, len: u32) -> Prefix<FIRST, SECOND>
    requires { IsShape FIRST SECOND }
{
    let addr = (u64::from(bits) % (1u64 << (FIRST + SECOND))) as u32;
    Prefix::new(addr, len.min(FIRST + SECOND)).unwrap()
}

/// The prefix of these numbers. `None` where there is none: bits past those of an address, or a length past their
/// number.
pub fn prefix_of<const FIRST: u32, const SECOND: u32>(
    bits: u32,
    len: u32,
) -> Option<Prefix<FIRST, SECOND>>
    requires { IsShape FIRST SECOND }
{
    if !Shape::<FIRST, SECOND>::is_addr(bits) {
        return None;
    }
    Prefix::new(bits, len).ok()
}

/// The rule of these numbers. `None` where there is none: bits past those of an address, a length past their
/// number, or a next hop past 24 bits.
pub fn rule_of<const FIRST: u32, const SECOND: u32>(plain: Plain) -> Option<Rule<FIRST, SECOND>>
    requires { IsShape FIRST SECOND }
{
    let (bits, len, number) = plain;
    let prefix = prefix_of(bits, len)?;
    let hop = Hop::new(number).ok()?;
    Some(Rule { prefix, hop })
}

/// The rules of these numbers, in their order. `None` where one is no rule, and without memory.
pub fn rules_of<const FIRST: u32, const SECOND: u32>(
    alloc: Global,
    plain: &[Plain],
) -> Option<Vec<Rule<FIRST, SECOND>>>
    requires { IsShape FIRST SECOND }
{
    let mut rules = Vec::new(alloc);
    for numbers in plain {
        rules.push(rule_of(*numbers)?).ok()?;
    }
    Some(rules)
}

/// Whether the rules are in the order of their prefixes: by the bits, and of those with the same bits by the
/// length. Rules of one prefix may follow one another.
pub fn are_in_order<const FIRST: u32, const SECOND: u32>(rules: &[Rule<FIRST, SECOND>]) -> bool
    ensures { IsTrue result ↔ AreInOrder rules.now }
{
    let mut last = 0;
    for rule in rules {
        let place = place_of(rule);
        if place < last {
            return false;
        }
        last = place;
    }
    true
}

/// The next of a fixed list of numbers without a pattern, below 65,536.
pub fn draw(seed: &mut u32) -> u32 {
    *seed = seed.wrapping_mul(1_103_515_245).wrapping_add(12_345);
    *seed >> 16
}

/// What rules are drawn from: the first bits, those that vary, and how many lengths, of which the greatest is
/// that of an address.
pub type Drawing = (u32, u32, u32);

fn drawn_rule(seed: &mut u32, drawing: Drawing, most: u32, number: u32) -> Plain {
    let (first, varied, lengths) = drawing;
    let drawn = draw(seed) << 16 | draw(seed);
    let len = most.saturating_sub(draw(seed) % lengths.max(1));
    (first | (drawn & varied), len, number)
}

/// Draws so many rules, each of its own next hop. `None` as by `rules_of`.
pub fn drawn_rules<const FIRST: u32, const SECOND: u32>(
    alloc: Global,
    seed: &mut u32,
    drawing: Drawing,
    count: u32,
) -> Option<Vec<Rule<FIRST, SECOND>>>
    requires { IsShape FIRST SECOND }
{
    let mut rules = Vec::new(alloc);
    for number in 0..count {
        let plain = drawn_rule(seed, drawing, FIRST + SECOND, number);
        rules.push(rule_of(plain)?).ok()?;
    }
    Some(rules)
}

// The first and the last address of the rule, and those before and after them, round the ends of 32 bits.
fn edges<const FIRST: u32, const SECOND: u32>(rule: &Rule<FIRST, SECOND>) -> [u32; 4]
    requires { IsShape FIRST SECOND }
{
    let first = rule.prefix.bits();
    let host = FIRST + SECOND - rule.prefix.len();
    let last = first | ((1u64 << host) - 1) as u32;
    [first.wrapping_sub(1), first, last, last.wrapping_add(1)]
}

/// Numbers at which tables of the rules are compared: the first so many, and those at the ends of each rule. A few
/// may be past the addresses. `None` without memory.
pub fn probes<const FIRST: u32, const SECOND: u32>(
    alloc: Global,
    first: u32,
    rules: &[Rule<FIRST, SECOND>],
) -> Option<Vec<u32>>
    requires { IsShape FIRST SECOND }
{
    let mut addrs = Vec::new(alloc);
    for addr in 0..first {
        addrs.push(addr).ok()?;
    }
    for rule in rules {
        addrs.extend_from_slice(&edges(rule)).ok()?;
    }
    Some(addrs)
}

/// The number of the next hop, where there is one.
pub fn hop_number(hop: Option<Hop>) -> Option<u32> {
    match hop {
        Some(hop) => Some(hop.number()),
        None => None,
    }
}

/// The first place at which the next hops don't have these numbers, none for a miss; where one list is longer, the
/// end of the other counts. `None` where they have them all.
pub fn other_hop(hops: &[Option<Hop>], numbers: &[Option<u32>]) -> Option<usize> {
    for (place, number) in numbers.iter().enumerate() {
        match hops.get(place) {
            Some(hop) if hop_number(*hop) == *number => {}
            _ => return Some(place),
        }
    }
    if hops.len() == numbers.len() {
        None
    } else {
        Some(numbers.len())
    }
}
