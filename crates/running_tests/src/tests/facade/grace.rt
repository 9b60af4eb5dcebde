//! Grace periods that don't block.

use super::{assert_at, limits};
use saxiko::{Busy, Config, GracePeriod, Hop, Owner, Prefix, Put};
use std::process::Abort;
use test_support::{hop, prefix};

fn started(rt: &impl Abort, owner: Owner) -> GracePeriod {
    owner.start().ok().expect(rt, "start")
}

// The owner, where the period is over.
fn ended(rt: &impl Abort, period: GracePeriod) -> Owner {
    period.check().ok().expect(rt, "over")
}

// Reader 1 holds the period, which goes on.
fn held(rt: &impl Abort, period: GracePeriod) -> GracePeriod {
    let held = period.check().err().expect(rt, "held");
    let reader_1 = Busy {
        worker: 1,
        counter: 1,
    };
    assert_at(rt, "held", held.busy, reader_1);
    held.period
}

// A reader comes and goes while the period lasts.
fn come_and_go(rt: &impl Abort, period: &mut GracePeriod) {
    let reader = period.register(0).expect(rt, "register");
    assert_at(rt, "second", reader.worker(), 0);
    period.unregister(reader);
}

// The token of the period was the last one before the rule goes.
fn delete(rt: &impl Abort, owner: &mut Owner, prefix: &Prefix, hop: Hop) {
    let gone = (owner.token(), owner.delete(prefix));
    assert_at(rt, "token, deleted", gone, (2, Ok(hop)));
}

#[test]
fn a_grace_period_lasts_until_its_reader_has_reported(rt: HostRuntime) {
    let mut owner = Owner::open(rt.alloc(), limits()).expect(&rt, "open");
    let (prefix, hop) = (prefix(0x0a01_8080, 25), hop(7));
    assert_at(&rt, "added", owner.add(&prefix, hop), Ok(Put::Added));
    let mut reader = owner.register(1).expect(&rt, "register");
    reader.online();
    let mut period = held(&rt, started(&rt, owner));
    assert_at(&rt, "found", reader.lookup(0x0a01_8081).hop, Some(hop));
    come_and_go(&rt, &mut period);
    let period = held(&rt, period);
    reader.quiescent();
    let mut owner = ended(&rt, period);
    delete(&rt, &mut owner, &prefix, hop);
    reader.offline();
    let mut owner = ended(&rt, started(&rt, owner));
    let freed = (owner.token(), owner.reclaim(4).freed);
    assert_at(&rt, "token, freed", freed, (4, 1));
    drop(reader);
    drop(owner);
}

#[test]
fn a_grace_period_needs_a_token_for_each_group(rt: HostRuntime) {
    let last = (1 << 62) - 4;
    let config = Config {
        first_token: last,
        ..limits()
    };
    let owner = Owner::open(rt.alloc(), config).expect(&rt, "open");
    let owner = ended(&rt, started(&rt, owner));
    let mut owner = owner.start().err().expect(&rt, "exhausted").owner;
    let found = (owner.token(), owner.counts().free);
    assert_at(&rt, "token, free", found, (last + 1, 4));
    drop(owner);
}
