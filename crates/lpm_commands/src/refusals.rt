//! The rules that the routes of a file make in a table, and which route the table refuses, told without
//! a table.
ghost use Rattle.std.specs.Prelude.{◌≡◌, ◌≢◌, ◌+◌, ◌^◌, ◌<◌, ◌≤◌, ◌↔◌, IsTrue, IfOk, IfErr, Some, length};
ghost use Rattle.std.specs.FinMap.{get, len};
ghost use Rattle.lpm_limits.specs.Limits.{IsConfig};
ghost use Rattle.lpm_rules.specs.RuleMap.{with_rule};
ghost use Rattle.fib_model.specs.Outcomes.{groups_in_use, AreSufficient};
ghost use Rattle.fib_model.specs.Counters.{initial_by_counters};
ghost use Rattle.lpm_commands.specs.Load.{EndsLoading, IsLoaded};
ghost use Rattle.lpm_commands.specs.FilledTable.{BringsGroup, Refuses};

use lpm_files::Failure;
use lpm_limits::{Config, Refusal};
use lpm_rules::{Put, Rules};
use route_text::Route;
use std::alloc::Global;

/// Rules, and how many of the routes that made them changed a rule.
#[derive(Drop)]
pub struct Made {
    pub rules: Rules<24, 8>,
    pub versions: u64,
}

/// The rules of the routes, and how many of these changed a rule: those of a table of these limits into
/// which they are put one after another. Or what the first refused route ends the run with, or `Memory`
/// where the rule list can't grow.
///
/// It keeps the rules alone, and no words: it takes time and memory for the routes, however many
/// words they would store.
pub fn made_of<'a>(
    alloc: Global,
    path: &'a str,
    routes: &[Route],
    config: Config,
) -> Result<Made, Failure<'a>>
    requires { IsConfig config }
    ensures max { IfOk result (λ m. m.rules.max ≡ config.rules) }
    ensures loaded { IfOk result (λ m. IsLoaded config routes.now
        (record (initial_by_counters config) { rules = m.rules.rules; updates_begun = m.versions })) }
    ensures fits { IfOk result (λ m. AreSufficient 24 8 config m.rules.rules) }
    ensures versions { IfOk result (λ m. m.versions ≤ length routes.now) }
    ensures failure { IfErr result (EndsLoading config path.entry.now routes.now) }
{
    let lasts = config.first_token + config.groups as u64 <= Config::FIRST_TOKEN.last;
    if lasts || routes.is_empty() {
        return made_with_tokens(alloc, path, routes, config);
    }
    Err(refused(path, routes[0].line, Refusal::Exhausted))
}

/// What the first of the routes that a table of these limits refuses ends the run with, where they
/// are put in one after another. `Memory` where none is refused.
pub fn first_refusal<'a>(
    alloc: Global,
    path: &'a str,
    routes: &[Route],
    config: Config,
) -> Failure<'a>
    requires { IsConfig config }
    ensures { EndsLoading config path.entry.now routes.now result }
{
    match made_of(alloc, path, routes, config) {
        Ok(_) => Failure::Memory,
        Err(failure) => failure,
    }
}

// What `made_of` returns, where the tokens last.
fn made_with_tokens<'a>(
    alloc: Global,
    path: &'a str,
    routes: &[Route],
    config: Config,
) -> Result<Made, Failure<'a>>
    requires tokens { 0 < length routes.now → config.first_token + config.groups ≤ 2 ^ 62 }
    ensures max { IfOk result (λ m. m.rules.max ≡ config.rules) }
    ensures loaded { IfOk result (λ m. IsLoaded config routes.now
        (record (initial_by_counters config) { rules = m.rules.rules; updates_begun = m.versions })) }
    ensures fits { IfOk result (λ m. AreSufficient 24 8 config m.rules.rules) }
    ensures versions { IfOk result (λ m. m.versions ≤ length routes.now) }
    ensures failure { IfErr result (EndsLoading config path.entry.now routes.now) }
{
    let mut rules = Rules::new(alloc, config.rules);
    let mut versions = 0;
    let mut in_use = 0;
    for (index, route) in routes.iter().enumerate() {
        match put_route(&mut rules, in_use, route, config.groups) {
            Ok((groups, done)) => {
                in_use = groups;
                versions += versions_by(done);
            }
            Err(refusal) => return Err(refused(path, route.line, refusal)),
        }
    }
    Ok(Made { rules, versions })
}

// How many versions an accepted route makes.
fn versions_by(put: Put) -> u64
    ensures unchanged { put ≡ Put.Unchanged → result ≡ 0 }
    ensures changed { put ≢ Put.Unchanged → result ≡ 1 }
    ensures one { result ≤ 1 }
{
    match put {
        Put::Unchanged => 0,
        Put::Added | Put::Replaced => 1,
    }
}

// Puts the rule of a route into the list of a table that has so many groups, and returns how many
// of them are in use then, and what it did; or why the table refuses it.
fn put_route(
    rules: &mut Rules<24, 8>,
    in_use: usize,
    route: &Route,
    groups: usize,
) -> Result<(usize, Put), Refusal>
    requires most { len rules.old.rules ≤ rules.old.max }
    requires in_use { in_use ≡ groups_in_use 24 8 rules.old.rules }
    requires few { in_use ≤ groups }
    ensures put { IfOk result
        (λ r. rules.new ≡ with_rule rules.old route.now.prefix route.now.hop) }
    ensures most { IfOk result (λ r. len rules.new.rules ≤ rules.new.max) }
    ensures in_use { IfOk result (λ r. r.0 ≡ groups_in_use 24 8 rules.new.rules) }
    ensures few { IfOk result (λ r. r.0 ≤ groups) }
    ensures unchanged { IfOk result (λ r. (r.1 ≡ Put.Unchanged)
        ↔ (get rules.old.rules route.now.prefix ≡ Some route.now.hop)) }
    ensures refuses { IfErr result (Refuses groups rules.old route.now.prefix) }
{
    let more = usize::from(brings_group(rules, route));
    let done = rules.put(&route.prefix, route.hop)?;
    if more > groups - in_use {
        return Err(Refusal::NoGroups { oldest: None });
    }
    Ok((in_use + more, done))
}

// Whether the route is longer than 24 bits, and none such lies in its block yet.
fn brings_group(rules: &Rules<24, 8>, route: &Route) -> bool
    ensures { IsTrue result ↔ BringsGroup rules.now.rules route.now.prefix }
{
    route.prefix.len() > 24 && !rules.is_deep((route.prefix.bits() >> 8) as usize)
}

/// What a refusal of the route on this line ends the run with.
pub fn refused(path: &str, line: usize, refusal: Refusal) -> Failure<'_>
    ensures memory { refusal ≡ Refusal.Memory → result ≡ Failure.Memory }
    ensures other { refusal ≢ Refusal.Memory
        → result ≡ Failure.RefusedRoute path.entry line refusal }
{
    if refusal == Refusal::Memory {
        return Failure::Memory;
    }
    Failure::RefusedRoute {
        path,
        line,
        refusal,
    }
}
