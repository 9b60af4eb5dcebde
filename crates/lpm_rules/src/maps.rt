//! The rules of a list in a map for each length.

ghost use Rattle.std.specs.Prelude.{◌≡◌, ◌+◌, IfOk, []};
ghost use Rattle.std.specs.BTreeMap.{IsFromIterResult};
ghost use Rattle.std.specs.Ordering.{nat_cmp};
ghost use Rattle.lpm_rules.specs.RuleMap.{AllNetworks, rules_of};
ghost use Rattle.lpm_rules.specs.Changes.{ArePairs, AreCollected};

use crate::Rule;
use lpm_bits::Hop;
use std::alloc::{AllocError, Global};
use std::array;
use std::collections::BTreeMap;

/// The bits and hops of the rules of each length, in their order.
pub(crate) fn pairs_by_length<const FIRST: u32, const SECOND: u32>(
    alloc: Global,
    rules: &[Rule<FIRST, SECOND>],
) -> Result<[Vec<(u32, Hop)>; 33], AllocError>
    ensures pairs { IfOk result (λ lists. ArePairs rules.now lists) }
    ensures networks { IfOk result (λ _. AllNetworks (FIRST + SECOND) (rules_of rules.now)) }
{
    let mut lists = array::from_fn(
        |_len: usize| -> Vec<(u32, Hop)>
            ensures { result.items ≡ [] }
        { Vec::new(alloc) },
    );
    for rule in rules {
        let bits = rule.prefix.bits();
        let list = &mut lists[rule.prefix.len() as usize];
        list.push((bits, rule.hop))?;
    }
    Ok(lists)
}

// A map with these pairs. Of two with the same bits the last counts.
fn map_of(alloc: Global, pairs: &[(u32, Hop)]) -> Result<BTreeMap<u32, Hop>, AllocError>
    ensures { IfOk result (λ m. IsFromIterResult nat_cmp pairs.now m) }
{
    pairs.iter().copied().collect(alloc)
}

/// A map for each list of pairs.
pub(crate) fn maps_by_length(
    alloc: Global,
    lists: &[Vec<(u32, Hop)>; 33],
) -> Result<[BTreeMap<u32, Hop>; 33], AllocError>
    ensures { IfOk result (λ maps. AreCollected lists.now maps) }
{
    let mut maps = array::from_fn(
        |_len: usize| -> BTreeMap<u32, Hop>
            ensures { result.entries ≡ [] }
        { BTreeMap::new(alloc) },
    );
    for len in 0..33 {
        maps[len] = map_of(alloc, lists[len].as_slice())?;
    }
    Ok(maps)
}
