//! The order of rules by their prefixes.

ghost use Rattle.std.specs.Prelude.{◌≡◌, ◌^◌, ◌≤◌, IfOk, length};
ghost use Rattle.lpm_sweep.specs.Keys.{AreKeys};
ghost use Rattle.lpm_rules.specs.RuleMap.{AreInOrder, rules_of};
ghost use Rattle.lpm_sweep.specs.ListOrder.{AreReordered};

use lpm_rules::{Rule, place_of};
use std::alloc::{AllocError, Global};

/// The greatest number of rules that [`in_order`] sorts: 2^26.
///
/// It sorts numbers of 64 bits, of which 38 tell the prefix and 26 where the rule stands.
pub const MOST_SORTED: usize = 1 << 26;

/// The number by which each rule is sorted: that of its prefix, and then where it stands.
fn keys_of<const FIRST: u32, const SECOND: u32>(
    alloc: Global,
    rules: &[Rule<FIRST, SECOND>],
) -> Result<Vec<u64>, AllocError>
    requires { length rules.now ≤ 2 ^ 26 }
    ensures { IfOk result (λ v. AreKeys rules.now v.items) }
{
    let mut keys = Vec::with_capacity(alloc, rules.len())?;
    for index in 0..rules.len() {
        keys.push(place_of(&rules[index]) * MOST_SORTED as u64 + index as u64)?;
    }
    Ok(keys)
}

/// A copy of the rules in the order of their prefixes: by the bits, and of those with the same bits
/// by the length. Those of one prefix keep their order, so the last rule of a prefix is still its
/// last.
///
/// At most [`MOST_SORTED`] rules. `AllocError` where memory is short.
pub fn in_order<const FIRST: u32, const SECOND: u32>(
    alloc: Global,
    rules: &[Rule<FIRST, SECOND>],
) -> Result<Vec<Rule<FIRST, SECOND>>, AllocError>
    requires few { length rules.now ≤ 2 ^ 26 }
    ensures ordered { IfOk result (λ v. AreInOrder v.items) }
    ensures reordered { IfOk result (λ v. AreReordered rules.now v.items) }
    ensures same { IfOk result (λ v. rules_of v.items ≡ rules_of rules.now) }
{
    let mut keys = keys_of(alloc, rules)?;
    keys.sort_unstable();
    let mut sorted = Vec::with_capacity(alloc, keys.len())?;
    for key in &keys {
        sorted.push(rules[(*key % MOST_SORTED as u64) as usize])?;
    }
    Ok(sorted)
}
