use super::asserts::{assert_at, assert_shown};
use lpm_limits::{BadConfig, Busy, Config, Refusal};
use std::alloc::{AllocError, Global};
use std::process::Abort;
use test_support::{USUAL, bad_limits};

// Each limit at its first value, and at its last.
const FIRST: Config = Config {
    rules: 1,
    groups: 1,
    workers: 0,
    threshold: 0,
    reclaim_max: 1,
    first_token: 1,
};

const LAST: Config = Config {
    rules: 16_777_216,
    groups: 65_536,
    workers: 2_048,
    threshold: 65_536,
    reclaim_max: 65_536,
    first_token: 1 << 62,
};

#[test]
fn limits_of_a_config(rt: HostRuntime) {
    assert_at(&rt, "by default", Config::default(), USUAL);
    let checks = [USUAL.check(), FIRST.check(), LAST.check()];
    assert_at(&rt, "usual, first, last", checks, [Ok(()), Ok(()), Ok(())]);
    for config in bad_limits() {
        assert_at(&rt, config, config.check(), Err(BadConfig));
    }
}

// A refusal, its number and name as they are printed, and its text.
type Shown = (Refusal, &'static str, &'static str);

const HELD: Refusal = Refusal::NoGroups {
    oldest: Some(Busy {
        worker: 3,
        counter: 17,
    }),
};

const UNHELD: Refusal = Refusal::NoGroups { oldest: None };

#[rattlefmt::skip]
static REFUSALS: [Shown; 15] = [
    (Refusal::BadLength, "1 BadLength", "a prefix length is past the bits of an address"),
    (Refusal::BadHop, "2 BadHop", "a next hop is past its 24 bits"),
    (Refusal::TooManyRules, "3 TooManyRules", "too many rules"),
    (Refusal::NoSuchRule, "4 NoSuchRule", "no such rule"),
    (Refusal::BadConfig, "5 BadConfig", "a limit of the table is outside its range"),
    (Refusal::Exhausted, "6 Exhausted", "tokens or versions are exhausted"),
    (UNHELD, "7 NoGroups", "no group is free"),
    (HELD, "7 NoGroups", "no group is free: worker 3 at counter 17"),
    (Refusal::NoWorkers, "8 NoWorkers", "no workers"),
    (Refusal::Memory, "9 Memory", "out of memory"),
    (Refusal::NoSuchWorker, "10 NoSuchWorker", "no such worker"),
    (Refusal::Taken, "11 Taken", "the worker's pass is handed out already"),
    (Refusal::NoThread, "12 NoThread", "a thread couldn't be started"),
    (Refusal::NotOnline, "13 NotOnline", "the worker is offline"),
    (Refusal::AlreadyOnline, "14 AlreadyOnline", "the worker is already online"),
];

fn assert_refusal(rt: &impl Abort, alloc: Global, row: &Shown) {
    let (refusal, printed, text) = row;
    let found = format!(in alloc; "{} {}", refusal.number(), refusal.name()).expect(rt, "memory");
    assert_at(rt, "number and name", found.as_str(), *printed);
    assert_shown(rt, alloc, refusal, text);
}

#[test]
fn numbers_names_and_texts_of_refusals(rt: HostRuntime) {
    assert_at(&rt, "memory", Refusal::from(AllocError), Refusal::Memory);
    for row in &REFUSALS {
        assert_refusal(&rt, rt.alloc(), row);
    }
}
