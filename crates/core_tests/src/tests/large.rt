//! 300,000 rules, and all groups and workers that a table can have: each call of these answers, since
//! memory is ample.

use super::asserts::assert_at;
use super::initial_rules::{opened, opened_at};
use super::table::{assert_number, figures, figures_of_replay};
use fib::{Fib, Replay};
use fib_model::{Order, Outcome};
use lpm_bits::Hop;
use lpm_rules::{Put, Rule};
use std::alloc::{AllocError, Global};
use std::process::Abort;
use std::test::Fail;
use test_support::{
    MANY, MANY_LIMITS, block, hop_number, many_plain, many_rules, rule_of, second_half,
};

fn addition(rt: &impl Abort, number: u32) -> Order<24, 8> {
    let Rule { prefix, hop } = rule_of(many_plain(number)).expect(rt, "a rule");
    Order::Add(prefix, hop)
}

fn additions(rt: &impl Abort, alloc: Global) -> Result<Vec<Order<24, 8>>, AllocError> {
    let mut orders = Vec::new(alloc);
    for number in 0..MANY {
        orders.push(addition(rt, number))?;
    }
    Ok(orders)
}

// The first address of the second half of each block.
fn addresses(alloc: Global) -> Result<Vec<u32>, AllocError> {
    let mut addrs = Vec::new(alloc);
    for number in 0..MANY {
        addrs.push(block(number) | 128)?;
    }
    Ok(addrs)
}

fn assert_each(rt: &impl Abort, outcomes: &[Outcome], hops: &[Option<Hop>]) {
    let lens = (outcomes.len(), hops.len());
    assert_at(rt, "lists", lens, (MANY as usize, MANY as usize));
    for outcome in outcomes {
        assert_at(rt, "an addition", *outcome, Outcome::Put(Put::Added));
    }
    for (hop, number) in hops.iter().zip(0..MANY) {
        assert_at(rt, number, hop_number(*hop), second_half(number));
    }
}

fn assert_replay(rt: &impl Abort, replay: &Replay) {
    let wanted = (300_000, 300_000, 30_000, 0, 35_536, 1);
    assert_at(rt, "figures", figures_of_replay(replay), wanted);
    assert_each(rt, &replay.outcomes, &replay.hops);
}

fn assert_replayed(
    rt: &impl Abort,
    alloc: Global,
    orders: &[Order<24, 8>],
    addrs: &[u32],
) -> Result<(), Fail> {
    let replay = Fib::<24, 8>::replay(alloc, MANY_LIMITS, orders, addrs)?;
    assert_replay(rt, &replay);
    Ok(())
}

#[test]
fn replay_of_many_routes(rt: HostRuntime) -> Result<(), Fail> {
    let orders = additions(&rt, rt.alloc())?;
    let addrs = addresses(rt.alloc())?;
    assert_replayed(&rt, rt.alloc(), &orders, &addrs)
}

// The table has all the rules, as this version, and answers both halves of each block.
fn assert_opened(rt: &impl Abort, fib: &Fib<24, 8>, versions: u64) {
    let wanted = (300_000, versions, 30_000, 0, 35_536, 1);
    assert_at(rt, "figures", figures(fib), wanted);
    for number in 0..MANY {
        let first = block(number);
        assert_number(rt, "first", fib, first, Some(number));
        assert_number(rt, "last of the first half", fib, first | 127, Some(number));
        assert_number(rt, "second half", fib, first | 128, second_half(number));
    }
}

fn rules(rt: &impl Abort, alloc: Global) -> Vec<Rule<24, 8>> {
    many_rules(alloc).expect(rt, "rules")
}

#[test]
fn many_routes_at_once(rt: HostRuntime) {
    let fib = opened(&rt, rt.alloc(), MANY_LIMITS, &rules(&rt, rt.alloc()));
    assert_opened(&rt, &fib, 0);
    drop(fib);
}

#[test]
fn many_routes_as_a_version(rt: HostRuntime) {
    let rules = rules(&rt, rt.alloc());
    let fib = opened_at(&rt, rt.alloc(), MANY_LIMITS, &rules, 300_000);
    assert_opened(&rt, &fib, 300_000);
    drop(fib);
}
