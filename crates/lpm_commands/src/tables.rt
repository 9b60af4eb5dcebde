//! A table of the routes of a file.
ghost use Rattle.std.specs.Prelude.{◌≡◌, ◌+◌, ◌^◌, ◌<◌, ◌≤◌, IsTrue, IfOk, IfErr, IfSome, OnOk, length, map, take, drop};
ghost use Rattle.std.specs.FinMap.{len};
ghost use Rattle.lpm_limits.specs.Limits.{IsConfig, IsIn, groups_range};
ghost use Rattle.lpm_rules.specs.RuleMap.{RuleMap, AreInOrder, rules_of, with_rules};
ghost use Rattle.qsbr.specs.Counters.{Registry};
ghost use Rattle.fib_model.specs.State.{State};
ghost use Rattle.fib_model.specs.Outcomes.{AreSufficient};
ghost use Rattle.shared_fib.specs.Passes.{IsFullBench};
ghost use Rattle.shared_fib.specs.RunningTable.{initial_writer};
ghost use Rattle.lpm_commands.specs.Load.{IsLoaded, EndsLoading, rule_of, rules_of_routes};
ghost use Rattle.lpm_commands.specs.FilledTable.{IsEnough, long_routes, IsFilled};

use crate::refusals::{Made, first_refusal, made_of, refused};
use crate::sorted_rules::{count_groups, rules_in_order};
use fib::Fib;
use lpm_bits::Prefix;
use lpm_files::Failure;
use lpm_limits::{Config, Refusal};
use lpm_rules::{Rule, count_rules};
use lpm_sweep::MOST_SORTED;
use lpm_writer::OpenError;
use route_text::Route;
use shared_fib::{Bench, SharedTable, Writer, go_live, open_sorted};
use std::alloc::Global;

// For how many routes words are loaded ahead.
const AHEAD: usize = 64;

/// A table with the routes put in one after another, of which the first refused one ends the run.
///
/// It opens with the rules of the first 2^26 routes, as the version that these make. So the words that
/// are stored for them are those of the table, whatever the file repeats.
pub fn load<'a>(
    alloc: Global,
    path: &'a str,
    routes: &[Route],
    config: Config,
) -> Result<Fib<24, 8>, Failure<'a>>
    requires { IsConfig config }
    ensures config { IfOk result (λ fib. fib.config ≡ config) }
    ensures loaded { IfOk result (λ fib. IsLoaded config routes.now fib.table) }
    ensures failure { IfErr result (EndsLoading config path.entry.now routes.now) }
{
    let count = routes.len().min(MOST_SORTED);
    let mut table = open_loaded(alloc, path, &routes[..count], config)?;
    add_from(&mut table, path, routes, count)?;
    Ok(table)
}

// The table of routes, at most as many as can be sorted, or the first refused one. It opens with their
// rules, as the version that they make.
fn open_loaded<'a>(
    alloc: Global,
    path: &'a str,
    routes: &[Route],
    config: Config,
) -> Result<Fib<24, 8>, Failure<'a>>
    requires limits { IsConfig config }
    requires few { length routes.now ≤ 2 ^ 26 }
    ensures config { IfOk result (λ fib. fib.config ≡ config) }
    ensures loaded { IfOk result (λ fib. IsLoaded config routes.now fib.table) }
    ensures failure { IfErr result (EndsLoading config path.entry.now routes.now) }
{
    let Made { rules, versions } = made_of(alloc, path, routes, config)?;
    let Ok(sorted) = rules_in_order(alloc, routes) else {
        return Err(Failure::Memory);
    };
    match Fib::of_rules(alloc, config, rules, versions, &sorted) {
        Ok(Some(table)) => Ok(table),
        Ok(None) | Err(OpenError::BadConfig) => unreachable!(),
        Err(OpenError::Memory) => Err(Failure::Memory),
    }
}

// Puts the routes from this place on into a table of those before it, one after another.
fn add_from<'a>(
    table: &mut Fib<24, 8>,
    path: &'a str,
    routes: &[Route],
    from: usize,
) -> Result<(), Failure<'a>>
    requires within { from ≤ length routes.now }
    requires before { IsLoaded table.old.config (take from routes.now) table.old.table }
    ensures config { table.new.config ≡ table.old.config }
    ensures loaded { OnOk result (IsLoaded table.old.config routes.now table.new.table) }
    ensures failure { IfErr result (EndsLoading table.old.config path.entry.now routes.now) }
{
    let mut next = from;
    for index in from..routes.len() {
        if index >= next {
            next = index.saturating_add(prefetch_next(table, &routes[index..]));
        }
        let route = &routes[index];
        match table.add(&route.prefix, route.hop) {
            Ok(_) => {}
            Err(refusal) => return Err(refused(path, route.line, refusal)),
        }
    }
    Ok(())
}

/// A running table with its one writer, and with the passes of its workers.
#[derive(Drop)]
pub struct Running {
    pub table: SharedTable<24, 8>,
    pub writer: Writer<24, 8>,
    pub bench: Bench,
}

/// A running table with the rules of the routes, and with no more groups than these can need, so it is
/// for lookups alone. `config.groups` is the most. No pass is handed out yet.
///
/// A running table has words for each group, needed or not: fewer groups take less memory and time.
/// It opens with the rules in the order of their prefixes, so each word is stored once, whatever the
/// file repeats. Only the rules of routes behind the first 2^26 are added one after another. The routes
/// are dropped before the words are copied. Where the rules are refused, the first refused route of the
/// file is told without a table.
pub fn open_for_lookups<'a>(
    alloc: Global,
    path: &'a str,
    routes: Vec<Route>,
    config: Config,
) -> Result<Running, Failure<'a>>
    requires { IsConfig config }
    ensures workers { IfOk result (λ r. r.table.initial.workers ≡ config.workers) }
    ensures own { IfOk result (λ r. r.writer.identity ≡ r.table) }
    ensures full { IfOk result (λ r. IsFullBench r.table r.bench) }
    ensures rules { IfOk result (λ r. r.writer.table.rules ≡ rules_of_routes routes.items) }

    // The routes make a table in the order of the file too.
    ensures loads { IfOk result (λ _. (table : State Registry)
        × IsLoaded config routes.items table) }
    ensures failure { IfErr result (EndsLoading config path.entry.now routes.items) }
{
    let groups = groups_for(&routes, config);
    let limits = Config { groups, ..config };
    if routes.len() > MOST_SORTED {
        return open_and_add(alloc, path, routes, limits);
    }
    let Some(rules) = fitting_rules(alloc, &routes, limits) else {
        return Err(first_refusal(alloc, path, &routes, limits));
    };
    drop(routes);
    match open_sorted(alloc, limits, rules) {
        Ok(Some((table, writer, bench))) => Ok(Running {
            table,
            writer,
            bench,
        }),
        Ok(None) | Err(OpenError::BadConfig) => unreachable!(),
        Err(OpenError::Memory) => Err(Failure::Memory),
    }
}

/// A running table with the rules of the routes and with all groups, so that it can be changed, and how many of
/// the routes made a version. No pass is handed out yet.
///
/// The rules are version 0 of the running table, which counts its versions from there. A table of one thread
/// is loaded, as [`load`] says, and goes live. So the words of the first 2^26 routes are stored once, whatever
/// the file repeats.
pub fn open_for_changes<'a>(
    alloc: Global,
    path: &'a str,
    routes: &[Route],
    config: Config,
) -> Result<(Running, u64), Failure<'a>>
    requires { IsConfig config }
    ensures opened { IfOk result (λ r.
        r.0.writer ≡ initial_writer r.0.table config (rules_of_routes routes.now)) }
    ensures token { IfOk result (λ r. r.0.table.initial.token ≡ config.first_token) }
    ensures workers { IfOk result (λ r. r.0.table.initial.workers ≡ config.workers) }
    ensures full { IfOk result (λ r. IsFullBench r.0.table r.0.bench) }
    ensures loaded { IfOk result (λ r. (table : State Registry)
        × IsLoaded config routes.now table × (table.updates_begun ≡ r.1)) }
    ensures few { IfOk result (λ r. r.1 ≤ length routes.now) }
    ensures failure { IfErr result (EndsLoading config path.entry.now routes.now) }
{
    let fib = load(alloc, path, routes, config)?;
    let versions = fib.versions();
    let (table, writer, bench) = go_live(alloc, fib)?;
    let running = Running {
        table,
        writer,
        bench,
    };
    Ok((running, versions))
}

// The running table of more routes: a table of one thread opens with the rules of the first 2^26, the
// others are added, and it goes live then.
fn open_and_add<'a>(
    alloc: Global,
    path: &'a str,
    routes: Vec<Route>,
    config: Config,
) -> Result<Running, Failure<'a>>
    requires { IsConfig config }
    ensures workers { IfOk result (λ r. r.table.initial.workers ≡ config.workers) }
    ensures own { IfOk result (λ r. r.writer.identity ≡ r.table) }
    ensures full { IfOk result (λ r. IsFullBench r.table r.bench) }
    ensures rules { IfOk result (λ r. r.writer.table.rules ≡ rules_of_routes routes.items) }
    ensures loads { IfOk result (λ _. (table : State Registry)
        × IsLoaded config routes.items table) }
    ensures failure { IfErr result (EndsLoading config path.entry.now routes.items) }
{
    let Some(fib) = load_in_order(alloc, &routes, config) else {
        return Err(first_refusal(alloc, path, &routes, config));
    };
    drop(routes);
    let (table, writer, bench) = go_live(alloc, fib)?;
    Ok(Running {
        table,
        writer,
        bench,
    })
}

// A table with the rules of the routes, which opens with those of the first 2^26 routes. None where a
// rule is refused, or memory; which route it was isn't told, since another may be the first of the
// file.
fn load_in_order(alloc: Global, routes: &[Route], config: Config) -> Option<Fib<24, 8>>
    requires { IsConfig config }
    ensures config { IfSome result (λ fib. fib.config ≡ config) }
    ensures rules { IfSome result (λ fib. fib.table.rules ≡ rules_of_routes routes.now) }
    ensures filled { IfSome result (λ fib. IsFilled config fib.table) }
{
    let (first, later) = routes.split_at(routes.len().min(MOST_SORTED));
    let Some(mut table) = open_with(alloc, first, config) else {
        return None;
    };
    let Ok(()) = add_pieces(alloc, &mut table, later) else {
        return None;
    };
    Some(table)
}

// A table that opens with the rules of routes, at most as many as can be sorted. None where they don't
// fit, where the tokens don't last for them, or for want of memory.
fn open_with(alloc: Global, routes: &[Route], config: Config) -> Option<Fib<24, 8>>
    requires limits { IsConfig config }
    requires few { length routes.now ≤ 2 ^ 26 }
    ensures config { IfSome result (λ fib. fib.config ≡ config) }
    ensures rules { IfSome result (λ fib. fib.table.rules ≡ rules_of_routes routes.now) }
    ensures filled { IfSome result (λ fib. IsFilled config fib.table) }
{
    let Some(rules) = fitting_rules(alloc, routes, config) else {
        return None;
    };
    let Ok(table) = Fib::of_sorted(alloc, config, &rules) else {
        return None;
    };
    table
}

// The rules of routes in the order of their prefixes, at most as many as can be sorted. None where they
// don't fit, where the tokens don't last for them, or for want of memory.
fn fitting_rules(alloc: Global, routes: &[Route], config: Config) -> Option<Vec<Rule<24, 8>>>
    requires limits { IsConfig config }
    requires few { length routes.now ≤ 2 ^ 26 }
    ensures ordered { IfSome result (λ v. AreInOrder v.items) }
    ensures same { IfSome result (λ v. rules_of v.items ≡ rules_of_routes routes.now) }
    ensures fits { IfSome result (λ v. AreSufficient 24 8 config (rules_of v.items)) }
    ensures tokens { IfSome result (λ v. 0 < len (rules_of v.items)
        → config.first_token + config.groups ≤ 2 ^ 62) }
{
    let lasts = config.first_token + config.groups as u64 <= Config::FIRST_TOKEN.last;
    if !lasts && !routes.is_empty() {
        return None;
    }
    let Ok(rules) = rules_in_order(alloc, routes) else {
        return None;
    };
    if count_rules(&rules) > config.rules || count_groups(&rules) > config.groups {
        return None;
    }
    Some(rules)
}

// Adds the rules of routes, as many at a time as can be sorted.
fn add_pieces(alloc: Global, table: &mut Fib<24, 8>, routes: &[Route]) -> Result<(), Refusal>
    requires filled { IsFilled table.old.config table.old.table }
    ensures config { table.new.config ≡ table.old.config }
    ensures rules { OnOk result (table.new.table.rules
        ≡ with_rules table.old.table.rules (map rule_of routes.now)) }
    ensures filled { OnOk result (IsFilled table.old.config table.new.table) }
{
    let mut rest = routes;
    while !rest.is_empty() {
        let (piece, after) = rest.split_at(rest.len().min(MOST_SORTED));
        add_piece(alloc, table, piece)?;
        rest = after;
    }
    Ok(())
}

// Adds the rules of routes, at most as many as can be sorted.
fn add_piece(alloc: Global, table: &mut Fib<24, 8>, routes: &[Route]) -> Result<(), Refusal>
    requires few { length routes.now ≤ 2 ^ 26 }
    requires filled { IsFilled table.old.config table.old.table }
    ensures config { table.new.config ≡ table.old.config }
    ensures rules { OnOk result (table.new.table.rules
        ≡ with_rules table.old.table.rules (map rule_of routes.now)) }
    ensures filled { OnOk result (IsFilled table.old.config table.new.table) }
{
    let rules = rules_in_order(alloc, routes)?;
    add_last(table, &rules)
}

// Adds rules, of those of one prefix that stand together just the last.
fn add_last(table: &mut Fib<24, 8>, rules: &[Rule<24, 8>]) -> Result<(), Refusal>
    requires filled { IsFilled table.old.config table.old.table }
    ensures config { table.new.config ≡ table.old.config }
    ensures rules { OnOk result
        (table.new.table.rules ≡ with_rules table.old.table.rules rules.now) }
    ensures filled { OnOk result (IsFilled table.old.config table.new.table) }
{
    let mut next = 0usize;
    for (index, rule) in rules.iter().enumerate() {
        if index >= next {
            next = index.saturating_add(prefetch_next(table, &rules[index..]));
        }
        if is_replaced(rules, index) {
            continue;
        }
        table.add(&rule.prefix, rule.hop)?;
    }
    Ok(())
}

// Whether the next rule is of the same prefix, and so takes the place of this one.
fn is_replaced(rules: &[Rule<24, 8>], index: usize) -> bool
    requires { index < length rules.now }
    ensures { IsTrue result → (R : RuleMap)
        → with_rules R (drop index rules.now) ≡ with_rules R (drop (index + 1) rules.now) }
{
    let after = index + 1;
    after < rules.len() && rules[after].prefix == rules[index].prefix
}

// How many groups do for the routes: one for each that is longer than 24 bits, and one at least.
// All that are given where the tokens don't last for them, since then no route is added at all.
fn groups_for(routes: &[Route], config: Config) -> usize
    requires { IsConfig config }
    ensures range { IsIn groups_range result }
    ensures enough { IsEnough config routes.now result }
{
    if config.first_token + config.groups as u64 > Config::FIRST_TOKEN.last {
        return config.groups;
    }
    long_routes(routes).clamp(1, config.groups)
}

// How many of the routes are longer than 24 bits.
fn long_routes(routes: &[Route]) -> usize
    ensures { result ≡ long_routes routes.now }
{
    routes
        .iter()
        .filter(|route| route.prefix.len() > 24)
        .count()
}

// A route or a rule, of whose prefix a table prefetches.
trait Prefixed {
    fn prefix(&self) -> &Prefix<24, 8>;
}

impl Prefixed for Route {
    fn prefix(&self) -> &Prefix<24, 8> {
        &self.prefix
    }
}

impl Prefixed for Rule<24, 8> {
    fn prefix(&self) -> &Prefix<24, 8> {
        &self.prefix
    }
}

// Prefetches for the next routes, and returns after how many of them to prefetch again. That is
// sooner where few of them were covered yet, since then more words are stored on the way.
#[inline(never)]
fn prefetch_next<T: Prefixed>(table: &Fib<24, 8>, routes: &[T]) -> usize {
    let mut covered = 0usize;
    for route in routes.iter().take(AHEAD) {
        covered = covered.wrapping_add(usize::from(table.prefetch(route.prefix())));
    }
    (AHEAD / 2).max(covered)
}
