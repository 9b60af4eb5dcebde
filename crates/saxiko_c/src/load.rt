//! Tables that open with the routes of a list.

ghost use Rattle.std.specs.Prelude.{◌≡◌, ◌+◌, ◌^◌, ◌≤◌, MatchOption, MatchResult, length, map};
ghost use Rattle.lpm_limits.specs.Limits.{IsConfig};
ghost use Rattle.saxiko_c.specs.Loads.{AreReadable, IsBadRoute, IsLoaded, IsUnloaded, IsUnread, rule_of};

use crate::handle::boxed;
use crate::records::SaxikoRoute;
use crate::status::{E2BIG, EDOM, EINVAL, ENOMEM, ENOSPC};
use fib::Fib;
use lpm_bits::{Hop, Prefix};
use lpm_limits::Config;
use lpm_rules::Rule;
use lpm_sweep::MOST_SORTED;
use lpm_writer::OpenError;
use std::alloc::Global;

/// The rule of a route; none where it is none.
fn one_rule(route: SaxikoRoute) -> Option<Rule<24, 8>>
    ensures { MatchOption result (IsBadRoute route)
        (λ rule. (rule ≡ rule_of route) × (¬ IsBadRoute route)) }
{
    match (
        Prefix::new(route.addr, u32::from(route.depth)),
        Hop::new(route.hop),
    ) {
        (Ok(prefix), Ok(hop)) => Some(Rule { prefix, hop }),
        _ => None,
    }
}

/// The rules of routes, in their order, of no more than can be sorted. Where one is none, `bad` is the
/// place of the first such.
pub(crate) fn read(
    alloc: Global,
    routes: &[SaxikoRoute],
    bad: &mut usize,
) -> Result<Vec<Rule<24, 8>>, i32>
    ensures { MatchResult result
        (λ v. (v.items ≡ map rule_of routes.now) × AreReadable routes.now × (bad.new ≡ bad.old))
        (λ status. IsUnread routes.now bad.old bad.new status) }
{
    if routes.len() > MOST_SORTED {
        return Err(E2BIG);
    }
    let Ok(mut rules) = Vec::with_capacity(alloc, routes.len()) else {
        return Err(ENOMEM);
    };
    for index in 0..routes.len() {
        let Some(rule) = one_rule(routes[index]) else {
            *bad = index;
            return Err(EDOM);
        };
        if rules.push(rule).is_err() {
            return Err(ENOMEM);
        }
    }
    Ok(rules)
}

/// A table with the rules of these routes: of those of one prefix the last counts.
pub(crate) fn load_table(
    alloc: Global,
    config: Config,
    routes: &[SaxikoRoute],
    bad: &mut usize,
) -> Result<Box<Fib<24, 8>>, i32>
    ensures { MatchResult result
        (λ b. IsLoaded config routes.now bad.old bad.new b.value)
        (λ status. IsUnloaded config routes.now bad.old bad.new status) }
{
    let rules = read(alloc, routes, bad)?;
    match Fib::load(alloc, config, &rules) {
        Ok(Some(fib)) => boxed(alloc, fib),
        Ok(None) => Err(ENOSPC),
        Err(OpenError::BadConfig) => Err(EINVAL),
        Err(OpenError::Memory) => Err(ENOMEM),
    }
}
