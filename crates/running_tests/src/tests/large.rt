//! 300,000 rules, added by the writer of a running table or there from the start, with all groups and workers
//! that a table can have.
ghost use Rattle.std.specs.Prelude.{◌≡◌, ◌<◌, false, true};

use super::asserts::assert_at;
use super::changes::{Ipv4Table, Ipv4Writer, change, close, figures};
use shared_fib::{Pass, open, open_sorted};
use std::process::Abort;
use std::test::Fail;
use test_support::{
    ADDED, MANY, MANY_LIMITS, are_in_order, block, hop_number, many_plain, many_rules, second_half,
};

fn add_all(rt: &impl Abort, table: &Ipv4Table, writer: &mut Ipv4Writer)
    requires own { writer.old.identity ≡ table.now }
    ensures own { writer.new.identity ≡ writer.old.identity }
{
    for number in 0..MANY {
        change(rt, table, writer, ADDED, many_plain(number));
    }
}

// The first address of the second half of each block has the block's rule, where that is no half.
fn look_all_up(rt: &impl Abort, table: &Ipv4Table, pass: &mut Pass)
    requires own { pass.old.table ≡ table.now }
    requires offline { pass.old.online ≡ false }
    ensures own { pass.new.table ≡ pass.old.table }
    ensures online { pass.new.online ≡ true }
{
    pass.online(table);
    for number in 0..MANY {
        let answer = pass.lookup(table, block(number) | 128);
        assert_at(rt, number, hop_number(answer.hop), second_half(number));
    }
}

// The first address of each block, and the last one of its first half, have the block's rule.
fn look_first_halves_up(rt: &impl Abort, table: &Ipv4Table, pass: &mut Pass)
    requires own { pass.old.table ≡ table.now }
    requires online { pass.old.online ≡ true }
{
    for number in 0..MANY {
        let first = pass.lookup(table, block(number)).hop;
        let last = pass.lookup(table, block(number) | 127).hop;
        let found = (hop_number(first), hop_number(last));
        assert_at(rt, number, found, (Some(number), Some(number)));
    }
}

fn assert_figures(rt: &impl Abort, table: &Ipv4Table, writer: &mut Ipv4Writer, versions: u64)
    requires own { writer.old.identity ≡ table.now }
{
    let wanted = (300_000, versions, 30_000, 0, 35_536, 1);
    assert_at(rt, "figures", figures(table, writer), wanted);
}

#[test]
fn many_routes(rt: HostRuntime) -> Result<(), Fail> {
    let (table, mut writer, mut bench) = open::<24, 8>(rt.alloc(), MANY_LIMITS)?;
    add_all(&rt, &table, &mut writer);
    assert_figures(&rt, &table, &mut writer, 300_000);
    let mut pass = bench.register(&table, 2_047).expect(&rt, "a pass");
    look_all_up(&rt, &table, &mut pass);
    close(table, writer, bench);
    Ok(())
}

#[test]
fn many_routes_at_once(rt: HostRuntime) {
    let rules = many_rules(rt.alloc()).expect(&rt, "rules");
    assert!(&rt; are_in_order(&rules));
    let opened = open_sorted(rt.alloc(), MANY_LIMITS, rules).expect(&rt, "memory");
    let (table, mut writer, mut bench) = opened.expect(&rt, "room");
    assert_figures(&rt, &table, &mut writer, 0);
    let mut pass = bench.register(&table, 2_047).expect(&rt, "a pass");
    look_all_up(&rt, &table, &mut pass);
    look_first_halves_up(&rt, &table, &mut pass);
    close(table, writer, bench);
}
