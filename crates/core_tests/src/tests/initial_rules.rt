//! Tables that open with rules, by `Fib::of_sorted` and `Fib::of_rules`.

ghost use Rattle.lpm_bits.specs.Widths.{IsShape};

use super::asserts::assert_at;
use super::table::{assert_numbers, figures};
use fib::Fib;
use lpm_bits::Shape;
use lpm_limits::{Config, Refusal};
use lpm_rules::{Put, Rule, Rules};
use lpm_sweep::{MOST_SORTED, in_order};
use lpm_writer::OpenError;
use std::alloc::Global;
use std::process::Abort;
use test_support::{
    AMPLE, Change, DEEP, Drawing, HOPS, LIMITS, Opening, Plain, ROUTES, STEPS, Step, are_in_order,
    drawn_rules, hop, limits, openings, prefix, probes, rule_of, rules_of,
};

// The table that opens with these rules, which are in order and fit.
pub(crate) fn opened<const FIRST: u32, const SECOND: u32>(
    rt: &impl Abort,
    alloc: Global,
    config: Config,
    rules: &[Rule<FIRST, SECOND>],
) -> Fib<FIRST, SECOND>
    requires { IsShape FIRST SECOND }
{
    assert!(rt; are_in_order(rules));
    let table = Fib::of_sorted(alloc, config, rules).expect(rt, "memory");
    table.expect(rt, "limits that suffice")
}

// The same table, as this version of the rule list.
pub(crate) fn opened_at(
    rt: &impl Abort,
    alloc: Global,
    config: Config,
    rules: &[Rule<24, 8>],
    versions: u64,
) -> Fib<24, 8> {
    assert!(rt; are_in_order(rules) && versions <= 1 << 61);
    let list = Rules::of_sorted(alloc, config.rules, rules).expect(rt, "memory");
    let table = Fib::of_rules(alloc, config, list, versions, rules).expect(rt, "memory");
    table.expect(rt, "limits that suffice")
}

// The routes are there, as this version.
fn assert_routes(rt: &impl Abort, fib: &Fib<24, 8>, versions: u64) {
    assert_at(rt, "figures", figures(fib), (4, versions, 1, 0, 1, 7));
    assert_at(rt, "config", fib.config(), LIMITS);
    if fib.config().workers > 0 {
        assert_at(rt, "worker", fib.is_online(0), false);
    }
    let twice = fib.get(&prefix(0x0a01_0000, 16));
    let none = fib.get(&prefix(0x0a01_0000, 17));
    assert_at(rt, "rules", [twice, none], [Some(hop(4)), None]);
    assert_numbers(rt, "routes", fib, &HOPS);
}

fn change(rt: &impl Abort, fib: &mut Fib<24, 8>, change: Change, plain: Plain) {
    let Rule { prefix, hop } = rule_of::<24, 8>(plain).expect(rt, "a rule");
    match change {
        Change::Add(put) => assert_at(rt, plain, fib.add(&prefix, hop), Ok(put)),
        Change::Delete => assert_at(rt, plain, fib.delete(&prefix), Ok(hop)),
    }
}

// Each step makes one version.
fn assert_steps(rt: &impl Abort, fib: &mut Fib<24, 8>, steps: &[Step]) {
    for (kind, plain, rows) in steps {
        let next = fib.versions().saturating_add(1);
        change(rt, fib, *kind, *plain);
        assert_at(rt, *plain, fib.versions(), next);
        assert_numbers(rt, "after a step", fib, rows);
    }
}

// The table has the routes, as this version, and goes on.
fn assert_goes_on(rt: &impl Abort, fib: &mut Fib<24, 8>, versions: u64) {
    assert_routes(rt, fib, versions);
    assert_steps(rt, fib, &STEPS[..4]);
    let four_on = (7, versions.saturating_add(4), 2, 0, 0, 7);
    assert_at(rt, "figures", figures(fib), four_on);
    assert_steps(rt, fib, &STEPS[4..]);
    let eight_on = (5, versions.saturating_add(8), 2, 0, 0, 8);
    assert_at(rt, "figures", figures(fib), eight_on);
}

fn routes(rt: &impl Abort, alloc: Global) -> Vec<Rule<24, 8>> {
    rules_of(alloc, &ROUTES).expect(rt, "rules")
}

#[test]
fn routes_at_once(rt: HostRuntime) {
    let mut fib = opened(&rt, rt.alloc(), LIMITS, &routes(&rt, rt.alloc()));
    assert_goes_on(&rt, &mut fib, 0);
    drop(fib);
}

// Five changes lead to the routes, so the next one makes the sixth version.
#[test]
fn routes_as_a_version(rt: HostRuntime) {
    let mut fib = opened_at(&rt, rt.alloc(), LIMITS, &routes(&rt, rt.alloc()), 5);
    assert_goes_on(&rt, &mut fib, 5);
    drop(fib);
}

// At the greatest version no change is taken. A rule that is there is no change.
#[test]
fn routes_as_the_greatest_version(rt: HostRuntime) {
    let mut fib = opened_at(&rt, rt.alloc(), LIMITS, &routes(&rt, rt.alloc()), 1 << 61);
    assert_full_of_versions(&rt, &mut fib);
    drop(fib);
}

fn assert_full_of_versions(rt: &impl Abort, fib: &mut Fib<24, 8>) {
    let route = prefix(0x0a00_0000, 8);
    let same = fib.add(&route, hop(2));
    let other = fib.add(&route, hop(3));
    let wanted = [Ok(Put::Unchanged), Err(Refusal::Exhausted)];
    assert_at(rt, "the same rule, another hop", [same, other], wanted);
    assert_routes(rt, fib, 1 << 61);
}

// Whether each of the two calls opens a table within these limits.
fn both_open(
    rt: &impl Abort,
    alloc: Global,
    config: Config,
    rules: &[Rule<4, 4>],
) -> [Result<bool, OpenError>; 2] {
    assert!(rt; are_in_order(rules));
    let list = Rules::of_sorted(alloc, config.rules, rules).expect(rt, "memory");
    [
        is_opened(Fib::of_sorted(alloc, config, rules)),
        is_opened(Fib::of_rules(alloc, config, list, 5, rules)),
    ]
}

fn is_opened(opened: Result<Option<Fib<4, 4>>, OpenError>) -> Result<bool, OpenError> {
    opened.map(|table| table.is_some())
}

// This comes of both calls.
fn assert_opens(rt: &impl Abort, alloc: Global, opening: &Opening) {
    let (plain, config, opens) = *opening;
    let rules = rules_of::<4, 4>(alloc, plain).expect(rt, "rules");
    assert_at(
        rt,
        config,
        both_open(rt, alloc, config, &rules),
        [opens, opens],
    );
}

#[test]
fn limits_and_rules(rt: HostRuntime) {
    let openings = openings(rt.alloc()).expect(&rt, "memory");
    for opening in &openings {
        assert_opens(&rt, rt.alloc(), opening);
    }
}

fn small_table(rt: &impl Abort, alloc: Global, config: Config, plain: &[Plain]) -> Fib<4, 4> {
    let rules = rules_of::<4, 4>(alloc, plain).expect(rt, "rules");
    opened(rt, alloc, config, &rules)
}

// The table that opens with the deep rules refuses another one.
fn assert_full(rt: &impl Abort, alloc: Global, config: Config, refusal: Refusal) {
    let mut full = small_table(rt, alloc, config, &DEEP);
    let refused = full.add(&prefix(0x60, 8), hop(9));
    assert_at(rt, config, refused, Err(refusal));
    drop(full);
}

// A rule is refused by a table that opened with just as many as it may have.
#[test]
fn full_tables(rt: HostRuntime) {
    assert_full(&rt, rt.alloc(), limits(7, 4), Refusal::TooManyRules);
    let none_free = Refusal::NoGroups { oldest: None };
    assert_full(&rt, rt.alloc(), limits(8, 3), none_free);
}

fn assert_misses(rt: &impl Abort, fib: &Fib<4, 4>) {
    for addr in 0..256u32 {
        assert_at(rt, addr, fib.lookup(addr), None);
    }
}

static NO_RULES: [Plain; 0] = [];

#[test]
fn no_routes(rt: HostRuntime) {
    let fib = small_table(&rt, rt.alloc(), LIMITS, &NO_RULES);
    assert_at(&rt, "figures", figures(&fib), (0, 0, 0, 0, 2, 7));
    assert_misses(&rt, &fib);
    drop(fib);
}

// A table that opens with rules, and one to which they were added one after another.
#[derive(Drop)]
struct Both<const FIRST: u32, const SECOND: u32> {
    at_once: Fib<FIRST, SECOND>,
    one_by_one: Fib<FIRST, SECOND>,
}

impl<const FIRST: u32, const SECOND: u32> Both<FIRST, SECOND> {
    // The rules may stand in any order.
    fn open(rt: &impl Abort, alloc: Global, rules: &[Rule<FIRST, SECOND>]) -> Self
        requires { IsShape FIRST SECOND }
    {
        assert!(rt; rules.len() <= MOST_SORTED);
        let sorted = in_order(alloc, rules).expect(rt, "memory");
        let mut one_by_one = Fib::open(alloc, AMPLE).expect(rt, "memory");
        for rule in rules {
            let _put = one_by_one.add(&rule.prefix, rule.hop).expect(rt, "room");
        }
        let at_once = opened(rt, alloc, AMPLE, &sorted);
        Both {
            at_once,
            one_by_one,
        }
    }

    // They have as many rules and groups, and the same token number, and answer these addresses alike.
    fn assert_same(&self, rt: &impl Abort, addrs: &[u32])
        requires { IsShape FIRST SECOND }
    {
        let (one, other) = (&self.at_once, &self.one_by_one);
        let found = (one.rules(), one.counts(), one.token());
        let wanted = (other.rules(), other.counts(), other.token());
        assert_at(rt, "rules, groups, token", found, wanted);
        for addr in addrs {
            if Shape::<FIRST, SECOND>::is_addr(*addr) {
                assert_at(rt, *addr, one.lookup(*addr), other.lookup(*addr));
            }
        }
    }

    // Every other rule is deleted from both, where it is still there.
    fn delete_some(&mut self, rt: &impl Abort, rules: &[Rule<FIRST, SECOND>])
        requires { IsShape FIRST SECOND }
    {
        for rule in rules {
            if rule.hop.number() % 2 == 0 {
                let deleted = self.at_once.delete(&rule.prefix);
                let wanted = self.one_by_one.delete(&rule.prefix);
                assert_at(rt, *rule, deleted, wanted);
            }
        }
    }
}

// The two tables are alike, and stay so when rules are deleted.
fn assert_list<const FIRST: u32, const SECOND: u32>(
    rt: &impl Abort,
    alloc: Global,
    rules: &[Rule<FIRST, SECOND>],
)
    requires { IsShape FIRST SECOND }
{
    let addrs = probes(alloc, 256, rules).expect(rt, "memory");
    let mut both = Both::open(rt, alloc, rules);
    both.assert_same(rt, &addrs);
    both.delete_some(rt, rules);
    both.assert_same(rt, &addrs);
    drop(both);
}

fn assert_drawn<const FIRST: u32, const SECOND: u32>(
    rt: &impl Abort,
    alloc: Global,
    seed: &mut u32,
    drawing: Drawing,
    count: u32,
)
    requires { IsShape FIRST SECOND }
{
    let drawn = drawn_rules::<FIRST, SECOND>(alloc, seed, drawing, count);
    assert_list(rt, alloc, &drawn.expect(rt, "rules"));
}

// Lists of no rule, of one, and so on, and this ten times.
#[test]
fn drawn_lists(rt: HostRuntime) {
    let mut seed = 1;
    for count in 0..200u32 {
        assert_drawn::<4, 4>(&rt, rt.alloc(), &mut seed, (0, 0xff, 9), count % 20);
    }
}

#[test]
fn drawn_routes(rt: HostRuntime) {
    let mut seed = 1;
    for _ in 0..3 {
        assert_drawn::<24, 8>(&rt, rt.alloc(), &mut seed, (0x0a00_0000, 0x7ff, 15), 90);
    }
}
