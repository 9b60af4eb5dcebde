// The worked cases of the pure world, each under its name, over 4 and 4 bits. Every case is judged by the
// slow program too.

use super::asserts::{
    ADDED, Answer, Looked, Numbered, WORKER, WRITER, assert_at, assert_step, assert_steps,
    assert_trace,
};
use super::plan::{ONE_GROUP, TWO_GROUPS, played};
use defer_queue::Reclaimed;
use interleave::Trace;
use lpm_limits::{Busy, Config, Refusal};
use lpm_trace::{Actor, Deed, Kind};
use std::alloc::Global;
use std::process::Abort;
use std::test::Fail;
use test_support::Edit;
use test_support::words::{FIVE, GROUP, SEVEN};
use world_reference::{InitialState, version_at};

// The word of hop 6 with length 8.
const SIX: u64 = 0x2100_0006;

// A run of one worker, and what its trace has to be: these steps among so many, these replies and
// lookups, and these versions that the address 0x12 shows at reads.
#[derive(Clone, Copy)]
struct Case {
    name: &'static str,
    config: Config,
    changes: &'static [Edit],
    deeds: &'static [Deed],
    bursts: &'static [(Actor, usize)],
    steps: &'static [Numbered],
    count: usize,
    replies: &'static [Answer],
    lookups: &'static [Looked],
    versions: &'static [(usize, usize)],
}

// An add that found no group, since worker 0 is at counter 1.
const HELD: Answer = Answer::Refused(Refusal::NoGroups {
    oldest: Some(Busy {
        worker: 0,
        counter: 1,
    }),
});

// Two groups that are freed.
const BOTH_FREED: Answer = Answer::Reclaimed(Reclaimed {
    freed: 2,
    stopped: None,
});

static CASES: [Case; 7] = [
    // A lookup reads the group's word after a flush has unlinked the group. Its answer stood in its span,
    // though not at its last read.
    Case {
        name: "answer_from_unlinked_group",
        config: ONE_GROUP,
        changes: &[Edit::Add(0x12, 8, 5), Edit::Flush],
        deeds: &[Deed::Online, Deed::Lookup(0x12)],
        bursts: &[(WRITER, 19), (WORKER, 4), (WRITER, 4), (WORKER, 2)],
        steps: &[
            (23, WORKER, Kind::LoadFirst, 1, GROUP),
            (24, WRITER, Kind::BumpSequence, 0, 3),
            (25, WRITER, Kind::StoreFirst, 1, 0),
            (26, WRITER, Kind::BumpToken, 0, 2),
            (27, WRITER, Kind::BumpSequence, 0, 4),
            (28, WORKER, Kind::LoadSecond, 2, FIVE),
        ],
        count: 29,
        replies: &[ADDED, Answer::Flushed(1)],
        lookups: &[(0x12, Some(5), (23, 28), (1, 2))],
        versions: &[(23, 1), (28, 2)],
    },
    // The last longer rule of a block goes while a lookup is in the group: the group's word is that of the
    // cover by then.
    Case {
        name: "cover_answer",
        config: ONE_GROUP,
        changes: &[
            Edit::Add(0x10, 4, 7),
            Edit::Add(0x12, 8, 5),
            Edit::Delete(0x12, 8),
        ],
        deeds: &[Deed::Online, Deed::Lookup(0x12)],
        bursts: &[(WRITER, 22), (WORKER, 4), (WRITER, 5), (WORKER, 2)],
        steps: &[
            (27, WRITER, Kind::BumpSequence, 0, 5),
            (28, WRITER, Kind::StoreSecond, 2, SEVEN),
            (29, WRITER, Kind::StoreFirst, 1, SEVEN),
            (30, WRITER, Kind::BumpToken, 0, 2),
            (31, WRITER, Kind::BumpSequence, 0, 6),
        ],
        count: 33,
        replies: &[ADDED, ADDED, Answer::Deleted(5)],
        lookups: &[(0x12, Some(7), (26, 32), (2, 3))],
        versions: &[],
    },
    // A worker in the middle of a lookup holds the one group back; once it has reported a quiescent state
    // the same add takes the group.
    Case {
        name: "held_then_reused",
        config: ONE_GROUP,
        changes: &[
            Edit::Add(0x12, 8, 5),
            Edit::Delete(0x12, 8),
            Edit::Add(0x35, 8, 6),
            Edit::Add(0x35, 8, 6),
        ],
        deeds: &[Deed::Online, Deed::Lookup(0x12), Deed::Quiescent],
        bursts: &[
            (WRITER, 19),
            (WORKER, 4),
            (WRITER, 6),
            (WORKER, 4),
            (WRITER, 20),
        ],
        steps: &[
            (29, WRITER, Kind::LoadCounter, 0, 1),
            (34, WRITER, Kind::LoadCounter, 0, 2),
            (52, WRITER, Kind::StoreFirst, 3, GROUP),
            (53, WRITER, Kind::BumpSequence, 0, 6),
        ],
        count: 53,
        replies: &[ADDED, Answer::Deleted(5), HELD, ADDED],
        lookups: &[(0x12, None, (23, 30), (1, 2))],
        versions: &[],
    },
    // A token that was loaded early is stored only after the group was reused. The worker reads first words
    // after that store alone, so its lookup finds the new ones.
    Case {
        name: "stale_counter",
        config: ONE_GROUP,
        changes: &[
            Edit::Add(0x12, 8, 5),
            Edit::Delete(0x12, 8),
            Edit::Add(0x35, 8, 6),
        ],
        deeds: &[Deed::Online, Deed::Lookup(0x12)],
        bursts: &[(WRITER, 19), (WORKER, 1), (WRITER, 25), (WORKER, 4)],
        steps: &[
            (20, WORKER, Kind::LoadToken, 0, 1),
            (26, WRITER, Kind::LoadCounter, 0, 0),
            (46, WORKER, Kind::StoreCounter, 0, 1),
        ],
        count: 49,
        replies: &[ADDED, Answer::Deleted(5), ADDED],
        lookups: &[(0x12, None, (48, 48), (3, 3))],
        versions: &[],
    },
    // Four addresses in one lookup: each has its own span of reads, and the same address can have two
    // answers.
    Case {
        name: "four_lookups",
        config: TWO_GROUPS,
        changes: &[
            Edit::Add(0x12, 8, 5),
            Edit::Add(0x35, 8, 6),
            Edit::Delete(0x12, 8),
        ],
        deeds: &[Deed::Online, Deed::Lookup4([0x12, 0x35, 0x12, 0x40])],
        bursts: &[(WRITER, 38), (WORKER, 8), (WRITER, 5), (WORKER, 3)],
        steps: &[
            (46, WORKER, Kind::LoadSecond, 2, FIVE),
            (52, WORKER, Kind::LoadSecond, 21, SIX),
            (53, WORKER, Kind::LoadSecond, 2, 0),
        ],
        count: 54,
        replies: &[ADDED, ADDED, Answer::Deleted(5)],
        lookups: &[
            (0x12, Some(5), (42, 46), (2, 3)),
            (0x35, Some(6), (43, 52), (2, 3)),
            (0x12, None, (44, 53), (2, 3)),
            (0x40, None, (45, 45), (2, 3)),
        ],
        versions: &[],
    },
    // A token that has passed stays passed: a counter below it, stored later, holds nothing back.
    Case {
        name: "remembered_token",
        config: TWO_GROUPS,
        changes: &[
            Edit::Add(0x12, 8, 5),
            Edit::Add(0x35, 8, 6),
            Edit::Delete(0x12, 8),
            Edit::Delete(0x35, 8),
            Edit::Synchronize,
            Edit::Reclaim(16),
            Edit::Add(0x40, 4, 7),
        ],
        deeds: &[Deed::Online],
        bursts: &[
            (WRITER, 38),
            (WORKER, 1),
            (WRITER, 12),
            (WORKER, 1),
            (WRITER, 1),
        ],
        steps: &[
            (39, WORKER, Kind::LoadToken, 0, 1),
            (50, WRITER, Kind::BumpToken, 0, 4),
            (51, WRITER, Kind::LoadCounter, 0, 0),
            (52, WORKER, Kind::StoreCounter, 0, 1),
            (53, WRITER, Kind::BumpSequence, 0, 9),
        ],
        count: 53,
        replies: &[
            ADDED,
            ADDED,
            Answer::Deleted(5),
            Answer::Deleted(6),
            Answer::Synchronized,
            BOTH_FREED,
        ],
        lookups: &[],
        versions: &[],
    },
    // Two lookups of one address, of which the first ends within an update and the second after it: the
    // version that the address shows goes up from one to the other.
    Case {
        name: "two_answers",
        config: ONE_GROUP,
        changes: &[Edit::Add(0x10, 4, 7), Edit::Add(0x12, 8, 5)],
        deeds: &[Deed::Online, Deed::Lookup(0x12), Deed::Lookup(0x12)],
        bursts: &[(WRITER, 20), (WORKER, 5), (WRITER, 2), (WORKER, 4)],
        steps: &[],
        count: 31,
        replies: &[ADDED, ADDED],
        lookups: &[
            (0x12, Some(7), (24, 24), (1, 2)),
            (0x12, Some(5), (29, 30), (2, 2)),
        ],
        versions: &[(24, 1), (30, 2)],
    },
];

// The world of one group.
const SETTING: InitialState = InitialState {
    first: 4,
    second: 4,
    groups: ONE_GROUP.groups,
    workers: ONE_GROUP.workers,
    first_token: ONE_GROUP.first_token,
};

// At each of these reads the address 0x12 shows this version.
fn assert_versions(rt: &impl Abort, name: &str, trace: &Trace, versions: &[(usize, usize)]) {
    for (read, version) in versions {
        let shown = version_at(&SETTING, &trace.steps, *read, 0x12);
        assert_at(rt, (name, "read", *read), shown, *version);
    }
}

// The trace of the case.
fn traced(rt: &impl Abort, alloc: Global, case: &Case) -> Result<Trace, Fail> {
    let trace = played(
        rt,
        alloc,
        case.config,
        case.changes,
        case.deeds,
        case.bursts,
    )?;
    let name = case.name;
    assert_steps(rt, name, &trace.steps, case.steps);
    assert_trace(rt, name, &trace, case.count, case.replies, case.lookups);
    assert_versions(rt, name, &trace, case.versions);
    Ok(trace)
}

#[test]
fn worked_cases(rt: HostRuntime) -> Result<(), Fail> {
    for case in &CASES {
        traced(&rt, rt.alloc(), case)?;
    }
    Ok(())
}

// The store of this number, from 0 on, of a default route over a table whose block 1 has a group, in
// which word 2 has a longer rule.
fn default_store(number: usize) -> (Kind, u64) {
    match number {
        0 => (Kind::StoreFirst, 0),
        1 => (Kind::StoreSecond, 0),
        2 => (Kind::StoreSecond, 1),
        3..16 => (Kind::StoreSecond, number as u64),
        _ => (Kind::StoreFirst, (number as u64).saturating_sub(14)),
    }
}

// The stores of an add of a default route under which one block has a group.
fn assert_default_route(rt: &impl Abort, trace: &Trace) {
    for number in 0..30usize {
        let (kind, index) = default_store(number);
        let store = (number + 21, WRITER, kind, index, 0x0100_0009);
        assert_step(rt, "the default route", &trace.steps, &store);
    }
}

// A default route fills the words of a group where the group's block stands among the others.
static DEFAULT_UNDER_A_GROUP: Case = Case {
    name: "default_under_a_group",
    config: ONE_GROUP,
    changes: &[Edit::Add(0x12, 8, 5), Edit::Add(0x00, 0, 9)],
    deeds: &[],
    bursts: &[(WRITER, 60)],
    steps: &[
        (20, WRITER, Kind::BumpSequence, 0, 3),
        (51, WRITER, Kind::BumpSequence, 0, 4),
    ],
    count: 51,
    replies: &[ADDED, ADDED],
    lookups: &[],
    versions: &[],
};

#[test]
fn default_under_a_group(rt: HostRuntime) -> Result<(), Fail> {
    let trace = traced(&rt, rt.alloc(), &DEFAULT_UNDER_A_GROUP)?;
    assert_default_route(&rt, &trace);
    Ok(())
}
