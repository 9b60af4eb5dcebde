// Runs that follow their schedules and break one law of traces, which the slow program refuses by that law.

use super::asserts::assert_at;
use super::faults::exchange;
use super::plan::{ONE_GROUP, TWO_GROUPS, assert_refused, judged, planned, planned_for, run_plan};
use interleave::Seen;
use lpm_limits::Config;
use lpm_trace::{Actor, Deed, Kind, Step};
use std::alloc::Global;
use std::process::Abort;
use std::test::Fail;
use test_support::plans::Plan;
use test_support::{Edit, hop};
use world_reference::{JudgeError, judge};

const TWO_WORKERS: Config = Config {
    workers: 2,
    ..ONE_GROUP
};

// The stores into the second group go into the first one.
fn fill_the_first_group(steps: &mut [Step]) {
    for step in steps.iter_mut() {
        if step.kind == Kind::StoreSecond && step.index >= 16 {
            step.index -= 16;
        }
    }
}

// The worker was online when the first group was unlinked, and still is when that group is filled again in
// place of the second one.
#[test]
fn a_group_filled_while_it_is_held(rt: HostRuntime) -> Result<(), Fail> {
    let edits = [
        Edit::Add(0x12, 8, 5),
        Edit::Delete(0x12, 8),
        Edit::Add(0x35, 8, 6),
    ];
    let bursts = [(Actor::Worker(0), 2), (Actor::Writer, 43)];
    let deeds = [Deed::Online];
    let plan = planned(&rt, rt.alloc(), TWO_GROUPS, &edits, &deeds, &bursts)?;
    let mut trace = judged(&rt, rt.alloc(), 0, &plan)?;
    fill_the_first_group(trace.steps.as_mut_slice());
    let refused = (rt.alloc(), &trace);
    assert_refused(&rt, "held", &plan, refused, JudgeError::Reuse);
    Ok(())
}

// A check loads the counter of the second worker before that of the first one.
#[test]
fn counters_out_of_turn(rt: HostRuntime) -> Result<(), Fail> {
    let edits = [
        Edit::Add(0x12, 8, 5),
        Edit::Delete(0x12, 8),
        Edit::Reclaim(1),
    ];
    let bursts = [(Actor::Writer, 26)];
    let plan = planned_for(&rt, rt.alloc(), TWO_WORKERS, &edits, &[&[], &[]], &bursts)?;
    let mut trace = judged(&rt, rt.alloc(), 0, &plan)?;
    exchange(trace.steps.as_mut_slice(), 25);
    let wanted = JudgeError::Turn {
        found: 1,
        wanted: 0,
    };
    assert_refused(&rt, "exchanged", &plan, (rt.alloc(), &trace), wanted);
    Ok(())
}

fn exchange_lookups(rt: &impl Abort, lookups: &mut [Seen]) {
    assert!(rt; lookups.len() == 2);
    lookups.swap(0, 1);
}

// The lookup that ended last is shown first.
#[test]
fn lookups_out_of_order(rt: HostRuntime) -> Result<(), Fail> {
    let deeds = [Deed::Online, Deed::Lookup(0x12)];
    let scripts: [&[Deed]; 2] = [&deeds, &deeds];
    let bursts = [(Actor::Worker(0), 5), (Actor::Worker(1), 5)];
    let plan = planned_for(&rt, rt.alloc(), TWO_WORKERS, &[], &scripts, &bursts)?;
    let mut trace = judged(&rt, rt.alloc(), 0, &plan)?;
    exchange_lookups(&rt, trace.lookups.as_mut_slice());
    let refused = (rt.alloc(), &trace);
    assert_refused(&rt, "exchanged", &plan, refused, JudgeError::Order);
    Ok(())
}

// The writer takes its group again at once, since no worker is online.
static TAKEN_AGAIN: [Edit; 4] = [
    Edit::Add(0x12, 8, 5),
    Edit::Delete(0x12, 8),
    Edit::Reclaim(1),
    Edit::Add(0x32, 8, 6),
];

// How many steps the writer has made when its group is linked.
const LINKED: usize = 19;

// How many it makes in all: another block has the group.
const TAKEN: usize = 44;

// A load by the only worker.
fn load(kind: Kind, index: u64, value: u64) -> Step {
    Step {
        actor: Actor::Worker(0),
        kind,
        index,
        value,
    }
}

// The value that was stored last into this second word.
fn stored_in(steps: &[Step], index: u64) -> u64 {
    let mut value = 0;
    for step in steps {
        if step.kind == Kind::StoreSecond && step.index == index {
            value = step.value;
        }
    }
    value
}

// The writer's steps, between which the worker looks up while it is offline: it loads the first word while
// that links the group, and this word of the group when another block has it.
fn with_an_offline_lookup(
    rt: &impl Abort,
    alloc: Global,
    steps: &[Step],
    word: u64,
) -> Result<Vec<Step>, Fail> {
    assert_eq!(rt; steps.len(), TAKEN);
    let link = steps[LINKED - 2];
    let mut all = Vec::from_slice(alloc, &steps[..LINKED])?;
    all.push(load(Kind::LoadSequence, 0, 2))?;
    all.push(load(Kind::LoadFirst, link.index, link.value))?;
    all.extend_from_slice(&steps[LINKED..])?;
    all.push(load(Kind::LoadSecond, word, stored_in(steps, word)))?;
    all.push(load(Kind::LoadSequence, 0, 6))?;
    Ok(all)
}

// The plan in which the worker looks this address up without coming online.
fn offline_plan(rt: &impl Abort, alloc: Global, addr: u32) -> Result<Plan<4, 4>, Fail> {
    let bursts = [
        (Actor::Writer, LINKED),
        (Actor::Worker(0), 2),
        (Actor::Writer, TAKEN - LINKED),
        (Actor::Worker(0), 2),
    ];
    let deeds = [Deed::Lookup(addr)];
    Ok(planned(rt, alloc, ONE_GROUP, &TAKEN_AGAIN, &deeds, &bursts)?)
}

// What the slow program says where the worker looks this address up while it is offline, and finds this.
fn judged_offline(
    rt: &impl Abort,
    alloc: Global,
    addr: u32,
    found: Option<u32>,
) -> Result<Result<(), JudgeError>, Fail> {
    let alone = planned(
        rt,
        alloc,
        ONE_GROUP,
        &TAKEN_AGAIN,
        &[],
        &[(Actor::Writer, TAKEN)],
    )?;
    let mut trace = run_plan(rt, alloc, &alone)?;
    trace.steps = with_an_offline_lookup(rt, alloc, &trace.steps, u64::from(addr & 0xf))?;
    trace.lookups.push(Seen {
        worker: 0,
        addr,
        hop: found.map(|number| hop(number)),
        first: 21,
        last: 47,
        lo: 1,
        hi: 3,
    })?;
    Ok(judge(alloc, &offline_plan(rt, alloc, addr)?, &trace))
}

// No reader interval protects a lookup of a worker that is offline. It finds the next hop of another block,
// which no version answers. At the next address it finds a miss, which is right.
#[test]
fn an_offline_lookup(rt: HostRuntime) -> Result<(), Fail> {
    let another = judged_offline(&rt, rt.alloc(), 0x12, Some(6))?;
    let a_miss = judged_offline(&rt, rt.alloc(), 0x13, None)?;
    let wanted = [Err(JudgeError::Versions(0)), Ok(())];
    assert_at(&rt, "0x12, 0x13", [another, a_miss], wanted);
    Ok(())
}
