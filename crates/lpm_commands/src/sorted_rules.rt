//! The rules of routes in the order of their prefixes, and how many groups these need.
ghost use Rattle.std.specs.Prelude.{◌≡◌, ◌^◌, ◌<◌, ◌≤◌, ◌↔◌, IsTrue, IfOk, length, map, take};
ghost use Rattle.lpm_rules.specs.RuleMap.{AreInOrder, prefix_at, rules_of};
ghost use Rattle.fib_model.specs.Outcomes.{groups_in_use};
ghost use Rattle.lpm_commands.specs.Load.{rule_of, rules_of_routes};
ghost use Rattle.lpm_commands.specs.FilledTable.{BringsGroup};

use lpm_rules::Rule;
use lpm_sweep::in_order;
use route_text::Route;
use std::alloc::{AllocError, Global};

/// The rules of the routes in the order of their prefixes, in which those of one prefix stand
/// together and keep their order. So the last rule of a prefix is still its last.
///
/// At most `lpm_sweep::MOST_SORTED` routes.
pub fn rules_in_order(alloc: Global, routes: &[Route]) -> Result<Vec<Rule<24, 8>>, AllocError>
    requires { length routes.now ≤ 2 ^ 26 }
    ensures ordered { IfOk result (λ v. AreInOrder v.items) }
    ensures same { IfOk result (λ v. rules_of v.items ≡ rules_of_routes routes.now) }
{
    let rules = rule_list(alloc, routes)?;
    in_order(alloc, &rules)
}

/// The rules of the routes, in the order of the routes.
pub fn rule_list(alloc: Global, routes: &[Route]) -> Result<Vec<Rule<24, 8>>, AllocError>
    ensures { IfOk result (λ v. v.items ≡ map rule_of routes.now) }
{
    let mut rules = Vec::with_capacity(alloc, routes.len())?;
    for route in routes {
        rules.push(Rule {
            prefix: route.prefix,
            hop: route.hop,
        })?;
    }
    Ok(rules)
}

/// How many groups the rules need, which are in the order of their prefixes: as many as there are blocks
/// with a rule longer than 24 bits.
pub fn count_groups(rules: &[Rule<24, 8>]) -> usize
    requires { AreInOrder rules.now }
    ensures { result ≡ groups_in_use 24 8 (rules_of rules.now) }
{
    let mut count = 0usize;
    for index in 0..rules.len() {
        count += usize::from(begins_block(rules, index));
    }
    count
}

// Whether the rule is longer than 24 bits, and none such lies in its block before it. That would be the
// one just before, since the rules are in order.
fn begins_block(rules: &[Rule<24, 8>], index: usize) -> bool
    requires sorted { AreInOrder rules.now }
    requires within { index < length rules.now }
    ensures { IsTrue result
        ↔ BringsGroup (rules_of (take index rules.now)) (prefix_at rules.now index) }
{
    let prefix = &rules[index].prefix;
    if prefix.len() <= 24 {
        return false;
    }
    if index == 0 {
        return true;
    }
    let before = &rules[index - 1].prefix;
    if before.bits() >> 8 != prefix.bits() >> 8 {
        return true;
    }
    before.len() <= 24
}
