//! The order of prefixes, and how many prefixes the rules of a list have.

ghost use Rattle.std.specs.Prelude.{◌≡◌, ◌^◌, ◌<◌, ◌≤◌};
ghost use Rattle.std.specs.FinMap as map;
ghost use Rattle.lpm_rules.specs.RuleMap.{AreInOrder, place, rules_of};

use crate::Rule;

/// Where the prefix of the rule stands in the order of prefixes: by its bits, and of those with the
/// same bits by its length. Less than 2^38.
#[inline]
pub fn place_of<const FIRST: u32, const SECOND: u32>(rule: &Rule<FIRST, SECOND>) -> u64
    ensures value { result ≡ place rule.now.prefix }
    ensures bound { result < 2 ^ 38 }
    ensures len { rule.now.prefix.len ≤ 32 }
{
    u64::from(rule.prefix.bits()) * 64 + u64::from(rule.prefix.len())
}

/// How many different prefixes the rules have, which are in the order of their prefixes: as many
/// as a rule list holds after all of them were put in.
///
/// It looks at each rule once, and takes no memory.
pub fn count_rules<const FIRST: u32, const SECOND: u32>(rules: &[Rule<FIRST, SECOND>]) -> usize
    requires { AreInOrder rules.now }
    ensures { result ≡ map.len (rules_of rules.now) }
{
    if rules.is_empty() {
        return 0;
    }
    let mut count = 1;
    let mut last = place_of(&rules[0]);
    for index in 1..rules.len() {
        let place = place_of(&rules[index]);
        if place == last {
            continue;
        }
        last = place;
        count += 1;
    }
    count
}
