//! Whether the trace of a run is what its plan leads to, by plain deciders.

use super::answers::{self, is_legal, never_falls};
use super::deeds::{own_steps, progress_of};
use super::judge_error::accept;
use super::memory::loads_are_stores;
use super::moment::Moment;
use super::order::writes_in_order;
use super::reuse::reuse_is_lawful;
use super::slow_writer::SlowWriter;
use super::{InitialState, JudgeError, Versions};
use interleave::{Seen, Trace};
use lpm_trace::{Actor, Deed, Kind, Step};
use std::alloc::{AllocError, Global};
use test_support::plans::Plan;

// A run: what it begins with, who was to make the next step, item by item, and what it shows.
#[derive(Clone, Copy)]
struct Run<'a> {
    initial: &'a InitialState,
    schedule: &'a [Actor],
    trace: &'a Trace,
}

// How many of these items are the actor's.
fn items_of(schedule: &[Actor], actor: Actor) -> usize {
    let mut count: usize = 0;
    for item in schedule {
        if *item == actor {
            count = count.saturating_add(1);
        }
    }
    count
}

fn is_made_by(steps: &[Step], actor: Actor) -> bool {
    for step in steps {
        if step.actor == actor {
            return true;
        }
    }
    false
}

// Each item of the schedule made the next step, or its actor makes none from then on; and there are no
// other steps.
fn follows(schedule: &[Actor], steps: &[Step]) -> bool {
    let mut rest = steps;
    for item in schedule {
        match rest.split_first() {
            Some((step, later)) if step.actor == *item => rest = later,
            _ if is_made_by(rest, *item) => return false,
            _ => {}
        }
    }
    rest.is_empty()
}

// The step's number is that of the first that ends a lookup of the worker after this one.
fn end_of(steps: &[Step], seen: &Seen) -> usize {
    for (earlier, step) in steps.iter().enumerate().skip(seen.last) {
        if step.actor == Actor::Worker(seen.worker) && step.kind == Kind::LoadSequence {
            return earlier.saturating_add(1);
        }
    }
    usize::MAX
}

// The lookups stand in the order in which they ended.
fn are_in_order(steps: &[Step], lookups: &[Seen]) -> bool {
    let mut before: usize = 0;
    for seen in lookups {
        let end = end_of(steps, seen);
        if end < before || end > steps.len() {
            return false;
        }
        before = end;
    }
    true
}

// The worker's lookups, as the deciders know them.
fn lookups_by(
    alloc: Global,
    lookups: &[Seen],
    worker: usize,
) -> Result<Vec<answers::FinishedLookup>, AllocError> {
    let mut own = Vec::new(alloc);
    for seen in lookups {
        if seen.worker == worker {
            own.push(answers::FinishedLookup {
                addr: seen.addr,
                hop: seen.hop.map(|hop| hop.number()),
                first: seen.first,
                last: seen.last,
                lo: seen.lo,
                hi: seen.hi,
            })?;
        }
    }
    Ok(own)
}

// The lookups answer by versions that stood, and none goes back to an older one.
fn are_lawful(
    initial: &InitialState,
    versions: &Versions,
    steps: &[Step],
    lookups: &[answers::FinishedLookup],
) -> bool {
    for seen in lookups {
        if !is_legal(initial, versions, steps, seen) {
            return false;
        }
    }
    never_falls(initial, versions, steps, lookups)
}

// Within an update the stores to first words go upwards, and so do those to words of one group.
fn stores_go_upwards(initial: &InitialState, steps: &[Step]) -> bool {
    for (moment, step) in steps.iter().enumerate() {
        let is_store = step.kind == Kind::StoreFirst || step.kind == Kind::StoreSecond;
        let earlier = steps.get(..moment).unwrap_or(&[]);
        if is_store && !is_above(initial, earlier, step) {
            return false;
        }
    }
    true
}

// Whether the index of a store is above those of the stores before it in its update to the first words, or
// to the words of its group.
fn is_above(initial: &InitialState, earlier: &[Step], step: &Step) -> bool {
    for other in earlier.iter().rev() {
        if other.kind == Kind::BumpSequence {
            return true;
        }
        let is_of_one_group = initial.group_of(step.index) == initial.group_of(other.index);
        let is_of_one_table = step.kind == Kind::StoreFirst || is_of_one_group;
        if other.kind == step.kind && is_of_one_table && other.index >= step.index {
            return false;
        }
    }
    false
}

// The writer's steps lead to the run's replies. Returns the rules of each version.
fn judge_writer<const FIRST: u32, const SECOND: u32>(
    alloc: Global,
    run: Run<'_>,
    plan: &Plan<FIRST, SECOND>,
) -> Result<Versions, JudgeError> {
    let own = own_steps(alloc, &run.trace.steps, Actor::Writer)?;
    let items = items_of(run.schedule, Actor::Writer);
    let start = Moment::new(run.initial, &run.trace.steps, 0);
    let mut slow = SlowWriter::new(alloc, plan.config, start, &own)?;
    let replies = slow.replies(&plan.changes, items)?;
    accept(run.trace.replies == replies, JudgeError::Replies)?;
    Ok(slow.into_versions())
}

// The worker's steps are those of its script, as far as its items lead. Returns its lookups.
fn judge_deeds(
    alloc: Global,
    run: Run<'_>,
    worker: usize,
    script: &[Deed],
) -> Result<Vec<answers::FinishedLookup>, JudgeError> {
    let items = items_of(run.schedule, Actor::Worker(worker));
    let progress = progress_of(alloc, run.initial, &run.trace.steps, worker, script)?;
    let is_led = progress.made == items || progress.due == Some(progress.made);
    accept(is_led && progress.is_right(), JudgeError::Deeds(worker))?;
    Ok(progress.lookups)
}

// The worker makes its deeds, and the run shows what its lookups found. Returns how many addresses it
// has looked up.
fn judge_worker(
    alloc: Global,
    run: Run<'_>,
    versions: &Versions,
    worker: usize,
    script: &[Deed],
) -> Result<usize, JudgeError> {
    let lookups = judge_deeds(alloc, run, worker, script)?;
    let shown = lookups_by(alloc, &run.trace.lookups, worker)?;
    accept(shown == lookups, JudgeError::Lookups(worker))?;
    let are_lawful = are_lawful(run.initial, versions, &run.trace.steps, &lookups);
    accept(are_lawful, JudgeError::Versions(worker))?;
    Ok(lookups.len())
}

// The workers make their deeds, and the run shows all that they looked up, in order.
fn judge_workers(
    alloc: Global,
    run: Run<'_>,
    versions: &Versions,
    scripts: &[Vec<Deed>],
) -> Result<(), JudgeError> {
    let mut count: usize = 0;
    for (worker, script) in scripts.iter().enumerate() {
        let found = judge_worker(alloc, run, versions, worker, script)?;
        count = count.saturating_add(found);
    }
    let is_in_order = are_in_order(&run.trace.steps, &run.trace.lookups);
    let is_whole = run.trace.lookups.len() == count;
    accept(is_whole && is_in_order, JudgeError::Order)
}

// The steps follow the schedule, loads give what was stored last, and a group is taken again only where
// that is lawful.
fn judge_steps(run: Run<'_>) -> Result<(), JudgeError> {
    let Run {
        initial,
        schedule,
        ..
    } = run;
    let steps = &run.trace.steps;
    accept(follows(schedule, steps), JudgeError::Schedule)?;
    accept(loads_are_stores(initial, steps), JudgeError::Loads)?;
    accept(stores_go_upwards(initial, steps), JudgeError::Stores)?;
    accept(reuse_is_lawful(initial, steps), JudgeError::Reuse)
}

/// Whether the trace is what the plan leads to: its steps follow the schedule and the rules of traces,
/// each worker's are those of its deeds, and each reply and each lookup is the one that the steps tell.
///
/// The error is the first that is found. `Memory` says nothing of the run.
pub fn judge<const FIRST: u32, const SECOND: u32>(
    alloc: Global,
    plan: &Plan<FIRST, SECOND>,
    trace: &Trace,
) -> Result<(), JudgeError> {
    let initial = InitialState {
        first: FIRST,
        second: SECOND,
        groups: plan.config.groups,
        workers: plan.config.workers,
        first_token: plan.config.first_token,
    };
    let run = Run {
        initial: &initial,
        schedule: &plan.schedule,
        trace,
    };
    judge_steps(run)?;
    let versions = judge_writer(alloc, run, plan)?;
    let writes = writes_in_order(alloc, &initial, &versions, &trace.steps)?;
    accept(writes, JudgeError::Writes)?;
    judge_workers(alloc, run, &versions, &plan.scripts)
}
