//! Running tables that open with the rules of a list (`open_sorted`). What they answer is told by passes.

ghost use Rattle.std.specs.Prelude.{◌≡◌, false, true};
ghost use Rattle.lpm_bits.specs.Widths.{IsShape};
ghost use Rattle.lpm_rules.specs.RuleMap.{AreInOrder};

use super::asserts::assert_at;
use super::changes::{Ipv4Table, Ipv4Writer, SmallTable, SmallWriter, change, close, figures};
use fib::Fib;
use lpm_rules::Rule;
use lpm_sweep::{MOST_SORTED, in_order};
use shared_fib::{Pass, open_sorted};
use std::alloc::Global;
use std::process::Abort;
use test_support::{
    AMPLE, HOPS, LIMITS, Opening, ROUTES, Row, STEPS, are_in_order, drawn_rules, hop_number,
    openings, rule_of, rules_of,
};

// Each address has the next hop that stands beside it, by this version.
fn assert_rows(rt: &impl Abort, table: &Ipv4Table, pass: &mut Pass, version: u64, rows: &[Row])
    requires own { pass.old.table ≡ table.now }
    requires online { pass.old.online ≡ true }
    ensures own { pass.new.table ≡ pass.old.table }
    ensures online { pass.new.online ≡ true }
{
    for row in rows {
        let (addr, number) = *row;
        let answer = pass.lookup(table, addr);
        let found = (hop_number(answer.hop), answer.lo, answer.hi);
        assert_at(rt, addr, found, (Some(number), version, version));
    }
}

// Each step makes one version. The worker reports after each, so that a group that was given up is free.
fn assert_steps(rt: &impl Abort, table: &Ipv4Table, writer: &mut Ipv4Writer, pass: &mut Pass)
    requires writer { writer.old.identity ≡ table.now }
    requires pass { (pass.old.table ≡ table.now) × (pass.old.online ≡ true) }
    ensures writer { writer.new.identity ≡ writer.old.identity }
{
    for step in &STEPS {
        let (kind, plain, rows) = *step;
        change(rt, table, writer, kind, plain);
        assert_rows(rt, table, pass, writer.versions(), rows);
        pass.quiescent(table);
    }
}

// The rules are version 0, and the table goes on from there.
fn play(rt: &impl Abort, table: &Ipv4Table, writer: &mut Ipv4Writer, pass: &mut Pass)
    requires writer { writer.old.identity ≡ table.now }
    requires pass { (pass.old.table ≡ table.now) × (pass.old.online ≡ false) }
{
    assert_at(rt, "opened", figures(table, writer), (4, 0, 1, 0, 1, 7));
    assert_at(rt, "config", writer.limits(), LIMITS);
    let twice = rule_of::<24, 8>((0x0a01_0000, 16, 4)).expect(rt, "a rule");
    assert_at(rt, "twice", writer.get(&twice.prefix), Some(twice.hop));
    pass.online(table);
    assert_rows(rt, table, pass, 0, &HOPS);
    assert_steps(rt, table, writer, pass);
    assert_at(rt, "changed", figures(table, writer), (5, 8, 2, 0, 0, 8));
}

#[test]
fn routes_at_once(rt: HostRuntime) {
    let rules = rules_of::<24, 8>(rt.alloc(), &ROUTES).expect(&rt, "rules");
    assert!(&rt; are_in_order(&rules));
    let opened = open_sorted(rt.alloc(), LIMITS, rules).expect(&rt, "memory");
    let (table, mut writer, mut bench) = opened.expect(&rt, "room");
    let mut pass = bench.register(&table, 0).expect(&rt, "a pass");
    play(&rt, &table, &mut writer, &mut pass);
    close(table, writer, bench);
}

// The rules, which may stand in any order, in the order of their prefixes.
fn sorted(rt: &impl Abort, alloc: Global, rules: &[Rule<4, 4>]) -> Vec<Rule<4, 4>>
    ensures { AreInOrder result.items }
{
    assert!(rt; rules.len() <= MOST_SORTED);
    in_order(alloc, rules).expect(rt, "memory")
}

// This comes of opening a table with the rules within the limits.
fn assert_opens(rt: &impl Abort, alloc: Global, opening: &Opening) {
    let (plain, config, opens) = *opening;
    let rules = rules_of::<4, 4>(alloc, plain).expect(rt, "rules");
    let opened = open_sorted(alloc, config, sorted(rt, alloc, &rules));
    let found = opened.map(|table| table.is_some());
    assert_at(rt, config, found, opens);
}

#[test]
fn limits_and_rules(rt: HostRuntime) {
    let openings = openings(rt.alloc()).expect(&rt, "memory");
    for opening in &openings {
        assert_opens(&rt, rt.alloc(), opening);
    }
}

// Both tables have as many rules and groups, and answer each address alike.
fn assert_same(
    rt: &impl Abort,
    fib: &Fib<4, 4>,
    table: &SmallTable,
    writer: &mut SmallWriter,
    pass: &mut Pass,
)
    requires writer { writer.old.identity ≡ table.now }
    requires pass { (pass.old.table ≡ table.now) × (pass.old.online ≡ false) }
{
    let (found, wanted) = (
        (writer.rules(), writer.counts()),
        (fib.rules(), fib.counts()),
    );
    assert_at(rt, "rules, groups", found, wanted);
    pass.online(table);
    for addr in 0..256u32 {
        let answer = pass.lookup(table, addr);
        assert_at(rt, addr, (answer.hop, answer.hi), (fib.lookup(addr), 0));
    }
}

// The running table that opens with the rules is as the table of one thread.
fn assert_running(rt: &impl Abort, alloc: Global, fib: &Fib<4, 4>, rules: Vec<Rule<4, 4>>)
    requires { AreInOrder rules.items }
{
    let opened = open_sorted(alloc, AMPLE, rules).expect(rt, "memory");
    let (table, mut writer, mut bench) = opened.expect(rt, "room");
    let mut pass = bench.register(&table, 0).expect(rt, "a pass");
    assert_same(rt, fib, &table, &mut writer, &mut pass);
    close(table, writer, bench);
}

fn assert_list(rt: &impl Abort, alloc: Global, rules: &[Rule<4, 4>]) {
    let sorted = sorted(rt, alloc, rules);
    let opened = Fib::of_sorted(alloc, AMPLE, &sorted).expect(rt, "memory");
    let fib = opened.expect(rt, "room");
    assert_running(rt, alloc, &fib, sorted);
    drop(fib);
}

// Lists of no rule, of one, and so on, and this ten times.
#[test]
fn drawn_lists(rt: HostRuntime) {
    let mut seed = 1;
    for count in 0..200u32 {
        let drawn = drawn_rules(rt.alloc(), &mut seed, (0, 0xff, 9), count % 20);
        assert_list(&rt, rt.alloc(), &drawn.expect(&rt, "rules"));
    }
}
