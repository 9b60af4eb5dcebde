//! One writer and one worker of the pure world, who make their steps by a schedule.

use anyhow::{Result, ensure};
use interleave::{Trace, World, script_ok};
use lpm_bits::{Hop, Prefix};
use lpm_limits::Config;
use lpm_rules::Change;
use lpm_trace::{Actor, Deed};
use std::alloc::{AllocError, Global};
use std::rt::Clock;
use std::time::Instant;

/// One worker, and two groups for blocks with a rule longer than four bits.
const LIMITS: Config = Config {
    rules: 16,
    groups: 2,
    workers: 1,
    threshold: 0,
    reclaim_max: 16,
    first_token: 1,
};

/// The address that the worker looks up.
const ADDR: u32 = 0x12;

/// The one worker.
const WORKER: Actor = Actor::Worker(0);

/// Shows a lookup that has read the link to a group when the writer gives the group up. The group is free
/// only once the worker has reported that it is quiescent.
pub(crate) fn show_run<R: Print>(rt: &R, alloc: Global) -> Result<()> {
    let changes = [
        add_rule()?,
        Change::Flush,
        Change::Reclaim(1),
        Change::Reclaim(1),
    ];
    let deeds = [Deed::Online, Deed::Lookup(ADDR), Deed::Quiescent];
    let turns = [
        (WORKER, 2),
        (Actor::Writer, 19),
        (WORKER, 2),
        (Actor::Writer, 5),
        (WORKER, 4),
        (Actor::Writer, 1),
    ];
    let schedule = schedule_of(alloc, &turns)?;
    print_trace(rt, &run_with_worker(alloc, &changes, &deeds, &schedule)?)
}

/// Makes a run of so many steps, half of them the writer's, and prints how long it took.
pub(crate) fn time_run<R: Clock + Print>(rt: &R, alloc: Global, steps: usize) -> Result<()> {
    let round = [add_rule()?, Change::Flush, Change::Reclaim(1)];
    let changes = repeated(alloc, &round, steps / 6)?;
    let mut deeds = Vec::new(alloc);
    deeds.push(Deed::Online)?;
    deeds.append(&mut repeated(alloc, &[Deed::Lookup(ADDR), Deed::Quiescent], steps / 8)?)?;
    let turns = repeated(alloc, &[(Actor::Writer, 1), (WORKER, 1)], steps / 2)?;
    let schedule = schedule_of(alloc, &turns)?;
    let start = Instant::now(rt)?;
    let trace = run_with_worker(alloc, &changes, &deeds, &schedule)?;
    let taken = start.elapsed(rt)?;
    println!(rt;
        "{} steps, {} lookups: {:?}",
        trace.steps.len(),
        trace.lookups.len(),
        taken
    )?;
    Ok(())
}

/// The change that gives the address a next hop of its own, which takes a group.
fn add_rule() -> Result<Change<4, 4>> {
    Ok(Change::Add(Prefix::new(ADDR, 8)?, Hop::new(1)?))
}

/// A schedule in which each actor in turn has so many items.
fn schedule_of(alloc: Global, turns: &[(Actor, usize)]) -> Result<Vec<Actor>, AllocError> {
    let mut schedule = Vec::new(alloc);
    for (actor, count) in turns {
        schedule.append(&mut repeated(alloc, &[*actor], *count)?)?;
    }
    Ok(schedule)
}

/// The items, so many times one after another.
fn repeated<T: Copy>(alloc: Global, items: &[T], times: usize) -> Result<Vec<T>, AllocError> {
    let mut all = Vec::new(alloc);
    for _ in 0..times {
        all.extend_from_slice(items)?;
    }
    Ok(all)
}

/// The run of these changes and of one worker's deeds.
fn run_with_worker(
    alloc: Global,
    changes: &[Change<4, 4>],
    deeds: &[Deed],
    schedule: &[Actor],
) -> Result<Trace> {
    ensure!(script_ok::<4, 4>(deeds), "the worker can't do this");
    let scripts = [Vec::from_slice(alloc, deeds)?];
    Ok(World::<4, 4>::run(alloc, LIMITS, changes, &scripts, schedule)?)
}

/// Prints each step, what came of each change, and each lookup.
fn print_trace<R: Print>(rt: &R, trace: &Trace) -> Result<()> {
    for (i, step) in trace.steps.iter().enumerate() {
        println!(rt;
            "{}: {:?} {:?} {} {}",
            i + 1,
            step.actor,
            step.kind,
            step.index,
            step.value
        )?;
    }
    for reply in &trace.replies {
        println!(rt; "{reply:?}")?;
    }
    for seen in &trace.lookups {
        println!(rt; "{seen:?}")?;
    }
    Ok(())
}
