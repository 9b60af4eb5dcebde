// Where runs end, and what makes no step.

use super::asserts::{
    ADDED, Answer, WORKER, WRITER, assert_at, assert_replies, assert_reply, assert_trace,
};
use super::plan::{ONE_GROUP, judged, planned, played, run_plan};
use defer_queue::Reclaimed;
use interleave::{Reply, RunError, Trace};
use lpm_limits::{Busy, Config, Refusal};
use lpm_rules::Put;
use lpm_trace::{Actor, Deed, Kind};
use std::alloc::{AllocError, Global};
use std::process::Abort;
use std::test::Fail;
use test_support::plans::Plan;
use test_support::{Edit, bad_limits};

const SYNCHRONIZED: Answer = Answer::Synchronized;

const NO_SUCH_RULE: Answer = Answer::Refused(Refusal::NoSuchRule);

const TOO_MANY_RULES: Answer = Answer::Refused(Refusal::TooManyRules);

// What a reclaim does where no group waits, and where worker 0 holds the first one back.
const NONE: Answer = Answer::Reclaimed(Reclaimed {
    freed: 0,
    stopped: None,
});

const BUSY: Busy = Busy {
    worker: 0,
    counter: 1,
};

const HELD: Answer = Answer::Reclaimed(Reclaimed {
    freed: 0,
    stopped: Some(BUSY),
});

const NO_GROUPS: Answer = Answer::Refused(Refusal::NoGroups { oldest: Some(BUSY) });

// A change, what comes of it, and how many steps it makes.
type Answered = (Edit, Answer, usize);

// Changes of each kind over two groups, while worker 0 is online at token 1; among them some without a
// step.
const ANSWERED: [Answered; 16] = [
    // The first rule.
    (Edit::Flush, Answer::Flushed(0), 0),
    (Edit::Add(0x12, 8, 5), ADDED, 19),
    (Edit::Add(0x12, 8, 5), Answer::Put(Put::Unchanged), 0),
    (Edit::Delete(0x20, 4), NO_SUCH_RULE, 0),
    // Up to the greatest number of rules.
    (Edit::Add(0x12, 8, 6), Answer::Put(Put::Replaced), 3),
    (Edit::Reclaim(16), NONE, 0),
    (Edit::Add(0x20, 4, 7), ADDED, 3),
    (Edit::Add(0x40, 4, 7), TOO_MANY_RULES, 0),
    // Up to the last group.
    (Edit::Delete(0x12, 8), Answer::Deleted(6), 5),
    (Edit::Add(0x35, 8, 5), ADDED, 19),
    (Edit::Delete(0x20, 4), Answer::Deleted(7), 3),
    (Edit::Add(0x12, 8, 5), NO_GROUPS, 1),
    // Up to a table without rules.
    (Edit::Reclaim(0), NONE, 0),
    (Edit::Reclaim(16), HELD, 1),
    (Edit::Flush, Answer::Flushed(1), 4),
    (Edit::Flush, Answer::Flushed(0), 0),
];

fn edits(alloc: Global) -> Result<Vec<Edit>, AllocError> {
    let mut edits = Vec::new(alloc);
    for (edit, _, _) in &ANSWERED {
        edits.push(*edit)?;
    }
    Ok(edits)
}

fn count_steps() -> usize {
    let mut count: usize = 0;
    for (_, _, steps) in &ANSWERED {
        count = count.saturating_add(*steps);
    }
    count
}

// How many changes this many items of the writer lead to the end of: a change is begun where an item is
// left for it.
fn count_answered(items: usize) -> usize {
    let mut count: usize = 0;
    let mut made: usize = 0;
    for (_, _, steps) in &ANSWERED {
        let end = made.saturating_add(*steps);
        if made >= items || end > items {
            break;
        }
        count = count.saturating_add(1);
        made = end;
    }
    count
}

// The replies are those of the first changes, so many.
fn assert_answered(rt: &impl Abort, replies: &[Reply], count: usize) {
    for (place, (_, answer, _)) in ANSWERED.iter().enumerate().take(count) {
        assert_reply(rt, "changes", replies, place, *answer);
    }
    assert_at(rt, "replies", replies.len(), count);
}

// Two rules and two groups.
const TWO_OF_EACH: Config = Config {
    rules: 2,
    groups: 2,
    ..ONE_GROUP
};

// The run after the worker has come online, where the writer has this many items.
fn assert_end(rt: &impl Abort, alloc: Global, edits: &[Edit], items: usize) -> Result<(), Fail> {
    let bursts = [(WORKER, 2), (WRITER, items)];
    let trace = played(rt, alloc, TWO_OF_EACH, edits, &[Deed::Online], &bursts)?;
    let steps = items.min(count_steps()).saturating_add(2);
    assert_at(rt, ("items", items), trace.steps.len(), steps);
    assert_answered(rt, &trace.replies, count_answered(items));
    Ok(())
}

// A change whose last step has no item isn't answered, and one without a step is answered at the
// writer's next item, where there is one.
#[test]
fn ends_within_changes(rt: HostRuntime) -> Result<(), Fail> {
    let edits = edits(rt.alloc())?;
    for items in 0..count_steps().saturating_add(3) {
        assert_end(&rt, rt.alloc(), &edits, items)?;
    }
    Ok(())
}

// A synchronize beside a worker that comes online, and is then quiescent: the trace has so many steps,
// and these replies.
fn assert_synchronize(
    rt: &impl Abort,
    alloc: Global,
    bursts: &[(Actor, usize)],
    steps: usize,
    answers: &[Answer],
) -> Result<(), Fail> {
    let deeds = [Deed::Online, Deed::Quiescent];
    let trace = played(rt, alloc, ONE_GROUP, &[Edit::Synchronize], &deeds, bursts)?;
    assert_trace(rt, "a synchronize", &trace, steps, answers, &[]);
    Ok(())
}

// A synchronize whose check isn't passed before the writer's items end, so many of them.
fn assert_unfinished(rt: &impl Abort, alloc: Global, items: usize) -> Result<(), Fail> {
    let bursts = [(WORKER, 2), (WRITER, items)];
    assert_synchronize(rt, alloc, &bursts, items.saturating_add(2), &[])
}

// A synchronize is answered where its check passes, and not where the schedule ends first.
#[test]
fn ends_within_a_synchronize(rt: HostRuntime) -> Result<(), Fail> {
    for items in 0..6 {
        assert_unfinished(&rt, rt.alloc(), items)?;
    }
    let bursts = [(WORKER, 2), (WRITER, 3), (WORKER, 2), (WRITER, 1)];
    assert_synchronize(&rt, rt.alloc(), &bursts, 8, &[SYNCHRONIZED])
}

// A lookup of four addresses, for which the worker has so many items.
fn assert_lookups(rt: &impl Abort, alloc: Global, items: usize) -> Result<(), Fail> {
    let edits = [Edit::Add(0x12, 8, 5)];
    let deeds = [Deed::Online, Deed::Lookup4([0x12, 0, 0x12, 0x13])];
    let bursts = [(WRITER, 19), (WORKER, items)];
    let trace = played(rt, alloc, ONE_GROUP, &edits, &deeds, &bursts)?;
    let count = if items < 11 { 0 } else { 4 };
    let steps = items.min(11).saturating_add(19);
    assert_at(rt, ("items", items), trace.lookups.len(), count);
    assert_at(rt, ("items", items), trace.steps.len(), steps);
    Ok(())
}

// A lookup that isn't finished isn't shown.
#[test]
fn ends_within_a_lookup(rt: HostRuntime) -> Result<(), Fail> {
    for items in 0..13 {
        assert_lookups(&rt, rt.alloc(), items)?;
    }
    Ok(())
}

// A worker that isn't there makes no step, and neither does one whose deeds are done.
#[test]
fn unknown_workers(rt: HostRuntime) -> Result<(), Fail> {
    let edits = [Edit::Add(0x10, 4, 7)];
    let bursts = [
        (Actor::Worker(1), 5),
        (WRITER, 1),
        (Actor::Worker(usize::MAX), 5),
        (WORKER, 5),
        (WRITER, 9),
    ];
    let deeds = [Deed::Online];
    let trace = played(&rt, rt.alloc(), ONE_GROUP, &edits, &deeds, &bursts)?;
    assert_trace(&rt, "unknown workers", &trace, 5, &[ADDED], &[]);
    Ok(())
}

#[test]
fn empty_schedules(rt: HostRuntime) -> Result<(), Fail> {
    let edits = [Edit::Flush, Edit::Add(0x10, 4, 7)];
    let plan = planned(&rt, rt.alloc(), ONE_GROUP, &edits, &[Deed::Meet], &[])?;
    let trace = run_plan(&rt, rt.alloc(), &plan)?;
    assert_trace(&rt, "no items", &trace, 0, &[], &[]);
    Ok(())
}

const NO_WORKERS: Config = Config {
    workers: 0,
    ..ONE_GROUP
};

// The run of these changes without workers.
fn played_alone(rt: &impl Abort, alloc: Global, edits: &[Edit]) -> Result<Trace, Fail> {
    let mut plan = planned(rt, alloc, NO_WORKERS, edits, &[], &[(WRITER, 60)])?;
    plan.scripts = Vec::new(alloc);
    judged(rt, alloc, 0, &plan)
}

// One group that is freed.
const ONE_FREED: Answer = Answer::Reclaimed(Reclaimed {
    freed: 1,
    stopped: None,
});

// Without workers a check passes without a load: a group is taken again at once, and a synchronize only
// bumps the token.
#[test]
fn no_workers(rt: HostRuntime) -> Result<(), Fail> {
    let edits = [
        Edit::Add(0x12, 8, 5),
        Edit::Delete(0x12, 8),
        Edit::Add(0x35, 8, 6),
        Edit::Delete(0x35, 8),
        Edit::Reclaim(16),
        Edit::Synchronize,
    ];
    let trace = played_alone(&rt, rt.alloc(), &edits)?;
    let last = trace.steps.last().map(|step| step.kind);
    assert_at(&rt, "last step", last, Some(Kind::BumpToken));
    let (five, six) = (Answer::Deleted(5), Answer::Deleted(6));
    let answers = [ADDED, five, ADDED, six, ONE_FREED, SYNCHRONIZED];
    assert_trace(&rt, "no workers", &trace, 49, &answers, &[]);
    Ok(())
}

const LAST_TOKEN: Config = Config {
    first_token: 1 << 62,
    ..ONE_GROUP
};

const EXHAUSTED: Answer = Answer::Refused(Refusal::Exhausted);

// Past the last token nothing is begun, not even a synchronize.
#[test]
fn last_tokens(rt: HostRuntime) -> Result<(), Fail> {
    let edits = [
        Edit::Add(0x10, 4, 7),
        Edit::Delete(0x10, 4),
        Edit::Flush,
        Edit::Synchronize,
    ];
    let trace = played(&rt, rt.alloc(), LAST_TOKEN, &edits, &[], &[(WRITER, 1)])?;
    let none = Answer::Flushed(0);
    let answers = [EXHAUSTED, NO_SUCH_RULE, none, EXHAUSTED];
    assert_trace(&rt, "last tokens", &trace, 0, &answers, &[]);
    Ok(())
}

// The trace of the plan, at the second run where the first is out of memory.
fn run_again(rt: &impl Abort, alloc: Global, plan: &Plan<4, 4>) -> Result<Trace, Fail> {
    match run_plan(rt, alloc, plan) {
        Ok(trace) => Ok(trace),
        Err(error) => {
            assert_at(rt, "the first run", error, RunError::Memory);
            Ok(run_plan(rt, alloc, plan)?)
        }
    }
}

// A growth that is refused ends the run, and the same run then shows its whole trace. Memory runs short
// here only where each allocation is made to fail in turn.
#[test]
fn a_refused_growth(rt: HostRuntime) -> Result<(), Fail> {
    let bursts = [(WORKER, 5), (WRITER, 24), (WORKER, 3)];
    let edits = [Edit::Add(0x12, 8, 5), Edit::Delete(0x12, 8)];
    let deeds = [Deed::Online, Deed::Lookup(0x12), Deed::Lookup(0x12)];
    let plan = planned(&rt, rt.alloc(), ONE_GROUP, &edits, &deeds, &bursts)?;
    let trace = run_again(&rt, rt.alloc(), &plan)?;
    let answers = [ADDED, Answer::Deleted(5)];
    assert_replies(&rt, "the second run", &trace.replies, &answers);
    assert_at(&rt, "steps", trace.steps.len(), 32);
    assert_at(&rt, "lookups", trace.lookups.len(), 2);
    Ok(())
}

// Why a run over these limits has no trace.
fn fault_of(rt: &impl Abort, alloc: Global, config: Config) -> Result<Option<RunError>, Fail> {
    let plan = planned(rt, alloc, config, &[], &[], &[])?;
    Ok(run_plan(rt, alloc, &plan).err())
}

#[test]
fn limits(rt: HostRuntime) -> Result<(), Fail> {
    for config in bad_limits() {
        if config.workers == 1 {
            let fault = fault_of(&rt, rt.alloc(), config)?;
            assert_at(&rt, config, fault, Some(RunError::BadConfig));
        }
    }
    let fault = fault_of(&rt, rt.alloc(), ONE_GROUP)?;
    assert_at(&rt, ONE_GROUP, fault, None);
    assert_at(&rt, "memory", RunError::from(AllocError), RunError::Memory);
    Ok(())
}

#[test]
fn texts_of_the_faults(rt: HostRuntime) -> Result<(), Fail> {
    let text = format!(in rt.alloc(); "{}, {}", RunError::BadConfig, RunError::Memory)?;
    let wanted = "a limit of the table is outside its range, out of memory";
    assert_at(&rt, "texts", text.as_str(), wanted);
    Ok(())
}
