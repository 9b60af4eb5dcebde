//! Walks over all rules in the order of their prefixes.

use super::assert_at;
use saxiko::{Config, Owner, Prefix, Put, Rule, Table};
use std::alloc::Global;
use std::process::Abort;
use test_support::hop;

fn prefix(rt: &impl Abort, text: &str) -> Prefix {
    text.parse::<Prefix>().expect(rt, "prefix")
}

fn rule(rt: &impl Abort, text: &str, number: u32) -> Rule {
    Rule {
        prefix: prefix(rt, text),
        hop: hop(number),
    }
}

// Rules in their order: of the least and the greatest length, one in another, and many with one address.
fn rules_in_order(rt: &impl Abort) -> [Rule; 12] {
    [
        rule(rt, "0.0.0.0/0", 1),
        rule(rt, "0.0.0.0/1", 2),
        rule(rt, "0.0.0.0/32", 3),
        rule(rt, "0.0.0.1/32", 4),
        rule(rt, "10.0.0.0/8", 5),
        rule(rt, "10.0.0.0/9", 6),
        rule(rt, "10.0.0.0/25", 7),
        rule(rt, "10.0.0.128/25", 8),
        rule(rt, "10.0.0.129/32", 9),
        rule(rt, "10.0.1.0/24", 10),
        rule(rt, "128.0.0.0/1", 11),
        rule(rt, "255.255.255.255/32", 12),
    ]
}

// The rules are added from the last to the first.
fn add_all(rt: &impl Abort, table: &mut Table, rules: &[Rule]) {
    assert_at(rt, "empty", table.next_rule(None), None);
    for rule in rules.iter().rev() {
        let added = table.add(&rule.prefix, rule.hop);
        assert_at(rt, *rule, added, Ok(Put::Added));
    }
}

// The walk of a table goes over these rules.
fn walk(rt: &impl Abort, table: &Table, rules: &[Rule]) {
    let mut last = None;
    for rule in rules {
        let found = (last < Some(rule.prefix), table.next_rule(last));
        assert_at(rt, *rule, found, (true, Some(*rule)));
        last = Some(rule.prefix);
    }
    assert_at(rt, "end", table.next_rule(last), None);
}

// The walk goes on behind a prefix that has no rule, and behind one whose rule is gone.
fn walk_between(rt: &impl Abort, table: &mut Table, eighth: &Rule, ninth: &Rule) {
    let between = prefix(rt, "10.0.0.64/26");
    assert_at(rt, "before", table.next_rule(Some(between)), Some(*eighth));
    let gone = prefix(rt, "10.0.0.128/25");
    assert_at(rt, "deleted", table.delete(&gone), Ok(hop(8)));
    assert_at(rt, "after", table.next_rule(Some(between)), Some(*ninth));
    let behind = prefix(rt, "10.0.0.128/25");
    assert_at(rt, "behind", table.next_rule(Some(behind)), Some(*ninth));
}

#[test]
fn a_table_is_walked_in_order(rt: HostRuntime) {
    let rules = rules_in_order(&rt);
    let mut table = Table::open(rt.alloc(), Config::default()).expect(&rt, "open");
    add_all(&rt, &mut table, &rules);
    walk(&rt, &table, &rules);
    walk_between(&rt, &mut table, &rules[7], &rules[8]);
    drop(table);
}

// The walk of a running table goes over these rules.
fn walk_running(rt: &impl Abort, owner: &Owner, rules: &[Rule]) {
    let mut last = None;
    for rule in rules {
        assert_at(rt, *rule, owner.next_rule(last), Some(*rule));
        last = Some(rule.prefix);
    }
    assert_at(rt, "end", owner.next_rule(last), None);
}

// A rule is added behind the first of these, and before the second.
fn walk_on(rt: &impl Abort, owner: &mut Owner, before: Rule, after: Rule) {
    let new = rule(rt, "10.0.0.192/26", 13);
    let Rule { prefix, hop } = new;
    assert_at(rt, "added", owner.add(&prefix, hop), Ok(Put::Added));
    let found = [
        owner.next_rule(Some(before.prefix)),
        owner.next_rule(Some(prefix)),
    ];
    assert_at(rt, "next", found, [Some(new), Some(after)]);
}

fn opened_running(rt: &impl Abort, alloc: Global, rules: &[Rule]) -> Owner {
    let opened = Owner::load(alloc, Config::default(), rules);
    opened.expect(rt, "open").expect(rt, "fits")
}

#[test]
fn an_owner_walks_on_while_rules_change(rt: HostRuntime) {
    let rules = rules_in_order(&rt);
    let mut owner = opened_running(&rt, rt.alloc(), &rules);
    walk_running(&rt, &owner, &rules);
    walk_on(&rt, &mut owner, rules[8], rules[9]);
    drop(owner);
}

// As many steps as there are rules lead to the end.
fn walk_bounded(rt: &impl Abort, table: &Table) {
    let mut last = None;
    for _ in 0..table.rules() {
        let Some(rule) = table.next_rule(last) else {
            break;
        };
        assert_at(rt, rule, table.get(&rule.prefix), Some(rule.hop));
        last = Some(rule.prefix);
    }
}

#[test]
fn a_walk_is_a_bounded_loop(rt: HostRuntime) {
    let opened = Table::load(rt.alloc(), Config::default(), &rules_in_order(&rt));
    let table = opened.expect(&rt, "open").expect(&rt, "fits");
    walk_bounded(&rt, &table);
    drop(table);
}
