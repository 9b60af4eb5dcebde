//! A walk over the rules in the order of their prefixes.

ghost use Rattle.std.specs.Prelude.{◌≡◌, ℕ, ◌+◌, ◌≤◌, ◌↔◌};
ghost use Rattle.std.specs.BTreeMap.Range.{IsFromStart};
ghost use Rattle.std.specs.Ordering.{nat_cmp};
ghost use Rattle.lpm_rules.specs.RuleMap.{ComesAfter, IsEarlier, IsNextOfLength, IsNextRule};

use crate::{Rule, Rules, place_of};
use lpm_bits::Prefix;
use std::ops::Bound;

impl<const FIRST: u32, const SECOND: u32> Rules<FIRST, SECOND> {
    /// The rule that comes next after a prefix in the order of prefixes, whether the prefix has a
    /// rule or not; the first rule for `None`. It looks up one key for each length, and takes no
    /// memory.
    pub fn next_after(&self, after: Option<Prefix<FIRST, SECOND>>) -> Option<Rule<FIRST, SECOND>>
        ensures { IsNextRule self.now.rules after.entry result }
    {
        let _ = &self.lengths;
        let mut next = None;
        for len in 0..=FIRST + SECOND {
            next = earlier(next, self.next_of_length(&after, len));
        }
        next
    }

    // The rule of this length that comes next after a prefix.
    fn next_of_length(
        &self,
        after: &Option<Prefix<FIRST, SECOND>>,
        len: u32,
    ) -> Option<Rule<FIRST, SECOND>>
        requires { len ≤ FIRST + SECOND }
        ensures { IsNextOfLength len self.now.rules after.now result }
    {
        let _ = &self.lengths;
        let start = first_bits(after, len);
        let length = self.of_length(len);
        let (bits, hop) = length.range((start, Bound::Unbounded)).next()?;
        let prefix = Prefix::new(*bits, len).ok()?;
        Some(Rule { prefix, hop: *hop })
    }
}

// Where the bits begin of the prefixes of a length that come after a prefix.
fn first_bits<const FIRST: u32, const SECOND: u32>(
    after: &Option<Prefix<FIRST, SECOND>>,
    len: u32,
) -> Bound<u32>
    requires { len ≤ 32 }
    ensures { (bits : ℕ) → IsFromStart nat_cmp result bits
        ↔ ComesAfter after.now (record { bits = bits; len = len }) }
{
    match after {
        Some(prefix) if prefix.len() < len => Bound::Included(prefix.bits()),
        Some(prefix) => Bound::Excluded(prefix.bits()),
        None => Bound::Unbounded,
    }
}

// The one of two rules that comes earlier in the order of prefixes.
fn earlier<const FIRST: u32, const SECOND: u32>(
    one: Option<Rule<FIRST, SECOND>>,
    other: Option<Rule<FIRST, SECOND>>,
) -> Option<Rule<FIRST, SECOND>>
    ensures { IsEarlier one.entry other.entry result }
{
    match (one, other) {
        (Some(one), Some(other)) if place_of(&one) <= place_of(&other) => Some(one),
        (_, Some(other)) => Some(other),
        (one, None) => one,
    }
}
