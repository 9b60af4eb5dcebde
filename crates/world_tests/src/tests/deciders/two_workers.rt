//! A trace of two workers and two groups: a flush that unlinks both and reclaims, a synchronize, and
//! an add that takes a group again; and planted faults in it.

use super::{
    Decider, FIVE, Fault, OF_TWO, OF_ZERO, Row, SEVEN, Subject, WRITER, assert_all, assert_rows,
};
use lpm_trace::{Actor, Deed, Kind, Step};
use test_support::words::GROUP;
use world_reference::{InitialState, PlainRule};

/// Four addresses, in two blocks of two, two groups and two workers.
const WIDE: InitialState = InitialState {
    first: 1,
    second: 1,
    groups: 2,
    workers: 2,
    first_token: 5,
};

/// The word of group 1.
const OTHER_GROUP: u64 = 0x0300_0001;

/// The rule of address 1.
const OF_ONE: PlainRule = PlainRule {
    bits: 1,
    len: 2,
    hop: 5,
};

const READER: Actor = Actor::Worker(1);

/// The trace.
const GOOD: &[Step] = &[
    // The writer adds the rules of addresses 0 and 2, each of which takes a group; steps 1 to 8. Worker
    // 1 comes online; steps 9 and 10.
    step!(WRITER, BumpSequence, 0, 1),
    step!(WRITER, StoreSecond, 0, FIVE),
    step!(WRITER, StoreFirst, 0, GROUP),
    step!(WRITER, BumpSequence, 0, 2),
    step!(WRITER, BumpSequence, 0, 3),
    step!(WRITER, StoreSecond, 2, SEVEN),
    step!(WRITER, StoreFirst, 1, OTHER_GROUP),
    step!(WRITER, BumpSequence, 0, 4),
    step!(READER, LoadToken, 0, 5),
    step!(READER, StoreCounter, 1, 5),
    // The writer flushes: it unlinks both groups, and at the second a reclaim is stopped by worker 1;
    // steps 11 to 18. It synchronizes: worker 1 stops the first check, reports a quiescent state, and
    // lets the second pass; steps 19 to 25.
    step!(WRITER, BumpSequence, 0, 5),
    step!(WRITER, StoreFirst, 0, 0),
    step!(WRITER, BumpToken, 0, 6),
    step!(WRITER, StoreFirst, 1, 0),
    step!(WRITER, BumpToken, 0, 7),
    step!(WRITER, LoadCounter, 0, 0),
    step!(WRITER, LoadCounter, 1, 5),
    step!(WRITER, BumpSequence, 0, 6),
    step!(WRITER, BumpToken, 0, 8),
    step!(WRITER, LoadCounter, 0, 0),
    step!(WRITER, LoadCounter, 1, 5),
    step!(READER, LoadToken, 0, 8),
    step!(WRITER, LoadCounter, 0, 0),
    step!(READER, StoreCounter, 1, 8),
    step!(WRITER, LoadCounter, 1, 8),
    // The writer adds the rule of address 1, which takes group 0 again; steps 26 to 30.
    step!(WRITER, BumpSequence, 0, 7),
    step!(WRITER, StoreSecond, 1, FIVE),
    step!(WRITER, StoreSecond, 0, 0),
    step!(WRITER, StoreFirst, 0, GROUP),
    step!(WRITER, BumpSequence, 0, 8),
];

static TWO_WORKERS: Subject = Subject {
    initial: WIDE,
    versions: &[&[], &[OF_ZERO], &[OF_ZERO, OF_TWO], &[], &[OF_ONE]],
    steps: GOOD,
};

static ACCEPTED: [Row; 5] = [
    (Decider::Loads, &[Fault::None]),
    (Decider::Deeds(0, &[]), &[Fault::None]),
    (
        Decider::Deeds(1, &[Deed::Online, Deed::Quiescent]),
        &[Fault::None],
    ),
    (Decider::Writes, &[Fault::None]),
    (Decider::Reuse, &[Fault::None, Fault::LeftOut(24)]),
];

static REFUSED: [Row; 4] = [
    // Checks out of order.
    (
        Decider::Writes,
        &[
            Fault::LeftOut(16),
            Fault::LeftOut(17),
            Fault::LeftOut(20),
            Fault::LeftOut(21),
            Fault::LeftOut(23),
            Fault::LeftOut(25),
        ],
    ),
    // The check of the flush comes after its second unlinking, and not before.
    (
        Decider::Writes,
        &[Fault::AllLeftOut(&[
            14, 15, 17, 18, 19, 20, 21, 22, 23, 24, 25, 26, 27, 28, 29, 30,
        ])],
    ),
    // Groups that were not taken: the other one is filled or linked, and one that is linked already.
    (
        Decider::Writes,
        &[
            Fault::Index(28, 2),
            Fault::Value(29, OTHER_GROUP),
            Fault::Value(7, GROUP),
        ],
    ),
    // Reuse while a worker holds the group.
    (Decider::Reuse, &[Fault::AllLeftOut(&[22, 24])]),
];

#[test]
fn a_trace_of_two_workers(rt: HostRuntime) {
    assert_rows(&rt, rt.alloc(), &TWO_WORKERS, &ACCEPTED, true);
    assert_rows(&rt, rt.alloc(), &TWO_WORKERS, &REFUSED, false);
}

#[test]
fn each_beginning_of_it(rt: HostRuntime) {
    let deciders = [Decider::Loads, Decider::Writes, Decider::Reuse];
    for moment in 0..TWO_WORKERS.steps.len() {
        let beginning = (moment, Fault::End(moment));
        assert_all(&rt, rt.alloc(), &TWO_WORKERS, &deciders, beginning, true);
    }
}
