//! The versions of the rules, and what they answer.

use super::InitialState;
use super::initial::power_of_two;
use super::moment::Moment;
use lpm_trace::Step;

/// A rule: the bits of its prefix, how many of them count, and the number of its next hop.
#[derive(Clone, Copy, Debug, PartialEq, Eq)]
pub struct PlainRule {
    pub bits: u32,
    pub len: u32,
    pub hop: u32,
}

impl PlainRule {
    /// Whether it is of the prefix of these bits and this length.
    pub(crate) fn is_of(&self, bits: u32, len: u32) -> bool {
        self.bits == bits && self.len == len
    }
}

/// The rules of each version. Version 0 comes before the first update, and has none.
pub type Versions = Vec<Vec<PlainRule>>;

/// Whether a rule covers an address: their first bits are the same.
fn covers(initial: &InitialState, rule: &PlainRule, addr: u32) -> bool {
    match initial.width().checked_sub(rule.len) {
        Some(rest) => {
            let size = power_of_two(rest);
            u64::from(addr).checked_div(size) == u64::from(rule.bits).checked_div(size)
        }
        None => false,
    }
}

/// The next hop of the longest rule that covers an address; none for a miss.
fn longest_hop(initial: &InitialState, rules: &[PlainRule], addr: u32) -> Option<u32> {
    let mut best = None;
    // One more than the length of the best rule, or 0.
    let mut least: u32 = 0;
    for rule in rules {
        if least <= rule.len && covers(initial, rule, addr) {
            best = Some(rule.hop);
            least = rule.len.saturating_add(1);
        }
    }
    best
}

/// Whether a version answers this to an address.
pub(crate) fn is_answer(
    initial: &InitialState,
    versions: &Versions,
    version: usize,
    addr: u32,
    hop: Option<u32>,
) -> bool {
    match versions.get(version) {
        Some(rules) => hop == longest_hop(initial, rules, addr),
        None => false,
    }
}

/// The version that an address shows after this many steps: that of the updates done until its
/// answer has changed in the update that runs, and that of the updates begun from that store on.
pub fn version_at(initial: &InitialState, steps: &[Step], moment: usize, addr: u32) -> usize {
    Moment::new(initial, steps, moment).version(addr)
}
