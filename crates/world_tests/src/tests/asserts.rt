// What the tests assert by. A function is proved once, and a macro at each place where it stands.

use defer_queue::Reclaimed;
use interleave::{Reply, Seen, Trace};
use lpm_limits::Refusal;
use lpm_rules::Put;
use lpm_trace::{Actor, Kind, Step};
use std::fmt::Debug;
use std::process::Abort;
use test_support::hop;

pub(crate) const WRITER: Actor = Actor::Writer;

pub(crate) const WORKER: Actor = Actor::Worker(0);

pub(crate) const ADDED: Answer = Answer::Put(Put::Added);

// What was found is what is wanted; else the message names the row.
pub(crate) fn assert_at<R: Debug + Copy, T: PartialEq + Debug + Copy>(
    rt: &impl Abort,
    row: R,
    found: T,
    wanted: T,
) {
    assert_eq!(rt; found, wanted, "{row:?}");
}

// The number of a step, from 1 on, who makes it, its kind, its index and its value.
pub(crate) type Numbered = (usize, Actor, Kind, u64, u64);

pub(crate) fn assert_step(rt: &impl Abort, name: &str, steps: &[Step], numbered: &Numbered) {
    let (number, actor, kind, index, value) = *numbered;
    let step = steps.get(number.saturating_sub(1)).copied();
    let wanted = Step {
        actor,
        kind,
        index,
        value,
    };
    assert_at(rt, (name, "step", number), step, Some(wanted));
}

// These stand among the steps of the run of this name, each at its number.
pub(crate) fn assert_steps(rt: &impl Abort, name: &str, steps: &[Step], wanted: &[Numbered]) {
    for numbered in wanted {
        assert_step(rt, name, steps, numbered);
    }
}

// A reply, where a next hop is its number.
#[derive(Clone, Copy)]
pub(crate) enum Answer {
    Put(Put),
    Deleted(u32),
    Flushed(usize),
    Reclaimed(Reclaimed),
    Synchronized,
    Refused(Refusal),
}

impl Answer {
    fn reply(self) -> Reply {
        match self {
            Answer::Put(put) => Reply::Put(put),
            Answer::Deleted(number) => Reply::Deleted(hop(number)),
            Answer::Flushed(rules) => Reply::Flushed(rules),
            Answer::Reclaimed(reclaimed) => Reply::Reclaimed(reclaimed),
            Answer::Synchronized => Reply::Synchronized,
            Answer::Refused(refusal) => Reply::Refused(refusal),
        }
    }
}

// The reply at this place is the answer.
pub(crate) fn assert_reply(
    rt: &impl Abort,
    name: &str,
    replies: &[Reply],
    place: usize,
    answer: Answer,
) {
    let found = replies.get(place).copied();
    assert_at(rt, (name, "reply", place), found, Some(answer.reply()));
}

pub(crate) fn assert_replies(rt: &impl Abort, name: &str, replies: &[Reply], answers: &[Answer]) {
    for (place, answer) in answers.iter().enumerate() {
        assert_reply(rt, name, replies, place, *answer);
    }
    assert_at(rt, (name, "replies"), replies.len(), answers.len());
}

// A lookup of worker 0: the address, the number of its next hop, the numbers of its first and last read,
// and `lo` and `hi`.
pub(crate) type Looked = (u32, Option<u32>, (usize, usize), (u64, u64));

fn seen(looked: &Looked) -> Seen {
    let (addr, found, reads, versions) = *looked;
    Seen {
        worker: 0,
        addr,
        hop: found.map(|number| hop(number)),
        first: reads.0,
        last: reads.1,
        lo: versions.0,
        hi: versions.1,
    }
}

fn assert_lookups(rt: &impl Abort, name: &str, lookups: &[Seen], wanted: &[Looked]) {
    for (place, looked) in wanted.iter().enumerate() {
        let found = lookups.get(place).copied();
        assert_at(rt, (name, "lookup", place), found, Some(seen(looked)));
    }
    assert_at(rt, (name, "lookups"), lookups.len(), wanted.len());
}

// The trace of the run of this name has so many steps, and these replies and lookups.
pub(crate) fn assert_trace(
    rt: &impl Abort,
    name: &str,
    trace: &Trace,
    steps: usize,
    answers: &[Answer],
    lookups: &[Looked],
) {
    assert_at(rt, (name, "steps"), trace.steps.len(), steps);
    assert_replies(rt, name, &trace.replies, answers);
    assert_lookups(rt, name, &trace.lookups, lookups);
}
