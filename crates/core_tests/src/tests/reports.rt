use super::asserts::assert_at;
use lpm_limits::Busy;
use qsbr::Domain;
use std::process::Abort;

// The worker that holds the token, by the definition: of those that are online and behind it, the
// least.
fn holder_plainly(counters: [u64; 3], token: u64) -> Option<usize> {
    let mut holder = None;
    for worker in (0..3).rev() {
        if counters[worker] > 0 && counters[worker] < token {
            holder = Some(worker);
        }
    }
    holder
}

// Each token is held back by the worker that the definition says.
fn assert_holders(rt: &impl Abort, domain: &Domain, counters: [u64; 3]) {
    for token in 0..6u64 {
        let holder = domain.check(token).err().map(|busy| busy.worker);
        let plainly = holder_plainly(counters, token);
        assert_at(rt, (counters, token), holder, plainly);
    }
}

#[test]
fn checks_by_the_definition(rt: HostRuntime) {
    for a in 0..5u64 {
        for b in 0..5u64 {
            for c in 0..5u64 {
                let mut domain = Domain::new(rt.alloc(), 3, 4).expect(&rt, "memory");
                domain.set_counter(0, a);
                domain.set_counter(1, b);
                domain.set_counter(2, c);
                assert_holders(&rt, &domain, [a, b, c]);
            }
        }
    }
}

// The check of a token that the worker's counter holds back.
fn held(worker: usize, counter: u64) -> Result<(), Busy> {
    Err(Busy { worker, counter })
}

#[test]
fn two_workers(rt: HostRuntime) {
    let mut domain = Domain::new(rt.alloc(), 2, 1).expect(&rt, "memory");
    let new = domain.token();
    domain.online(0);
    let first = domain.start();
    domain.online(1);
    let second = domain.start();
    let tokens = [new, first, second, domain.token()];
    let before = [domain.counter(0), domain.counter(1)];

    let held_by_zero = domain.check(first);
    domain.quiescent(0);
    let passed_zero = domain.check(first);
    let held_by_one = domain.check(second);
    domain.offline(1);
    let passed_one = domain.check(second);
    let after = [domain.counter(0), domain.counter(1)];

    let checks = [held_by_zero, passed_zero, held_by_one, passed_one];
    let wanted = [held(0, 1), Ok(()), held(1, 2), Ok(())];
    assert_at(&rt, "checks", checks, wanted);
    assert_at(&rt, "tokens", tokens, [1, 2, 3, 3]);
    assert_at(&rt, "counters", [before, after], [[1, 2], [3, 0]]);
    let are_online = [domain.is_online(0), domain.is_online(1)];
    assert_at(
        &rt,
        "online",
        (domain.workers(), are_online),
        (2, [true, false]),
    );
}

#[test]
fn no_workers_and_last_token(rt: HostRuntime) {
    let mut domain = Domain::new(rt.alloc(), 0, (1 << 62) - 1).expect(&rt, "memory");
    let token = domain.start();
    assert_at(
        &rt,
        "token",
        (token, domain.check(token)),
        (1 << 62, Ok(())),
    );
}
