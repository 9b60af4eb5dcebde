//! Tables that open with 300,000 rules.

use super::{assert_at, rule};
use saxiko::{Config, Hop, Owner, Rule, Table};
use std::alloc::Global;
use std::process::Abort;

const COUNT: u32 = 300_000;

// A rule of 24 bits for each number, in falling order, whose next hop is the number.
fn rules(rt: &impl Abort, alloc: Global) -> Vec<Rule> {
    let mut rules = Vec::new(alloc);
    for number in 0..COUNT {
        let back = COUNT - 1 - number;
        rules.push(rule(back * 256, 24, back)).expect(rt, "memory");
    }
    rules
}

fn opened(rt: &impl Abort, alloc: Global) -> Table {
    let table = Table::load(alloc, Config::default(), &rules(rt, alloc));
    table.expect(rt, "open").expect(rt, "fits")
}

#[test]
fn a_large_table_answers(rt: HostRuntime) {
    let table = opened(&rt, rt.alloc());
    let hops = [table.lookup(0x0000_0200), table.lookup(299_999 * 256 + 255)];
    let wanted = [Hop::new(2).ok(), Hop::new(299_999).ok()];
    assert_at(&rt, "table", (table.rules(), hops), (300_000, wanted));
    drop(table);
}

fn opened_running(rt: &impl Abort, alloc: Global) -> Owner {
    let owner = Owner::load(alloc, Config::default(), &rules(rt, alloc));
    owner.expect(rt, "open").expect(rt, "fits")
}

#[test]
fn a_large_running_table_answers(rt: HostRuntime) {
    let mut owner = opened_running(&rt, rt.alloc());
    let mut reader = owner.register(0).expect(&rt, "register");
    reader.online();
    let found = reader.lookup(299_999 * 256 + 255).hop;
    let wanted = Hop::new(299_999).ok();
    assert_at(&rt, "table", (owner.rules(), found), (300_000, wanted));
    drop(reader);
    drop(owner);
}
