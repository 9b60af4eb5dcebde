// Runs of the pure world, as the tests make them, held against the slow program.

ghost use Rattle.std.specs.Prelude.{◌+◌, ◌^◌, All, IsTrue};
ghost use Rattle.lpm_bits.specs.Widths.{IsShape};
ghost use Rattle.interleave.specs.Scripts.{IsSound};

use super::asserts::assert_at;
use interleave::{RunError, Trace, World, script_ok};
use lpm_limits::Config;
use lpm_rules::Change;
use lpm_trace::{Actor, Deed};
use std::alloc::{AllocError, Global};
use std::fmt::Debug;
use std::process::Abort;
use std::test::Fail;
use test_support::plans::Plan;
use test_support::{Edit, USUAL};
use world_reference::{JudgeError, judge};

// One group and one worker; all else by default.
pub(crate) const ONE_GROUP: Config = Config { groups: 1, ..USUAL };

// One group more.
pub(crate) const TWO_GROUPS: Config = Config {
    groups: 2,
    ..ONE_GROUP
};

// Whether workers can go through these scripts.
fn are_sound<const FIRST: u32, const SECOND: u32>(scripts: &[Vec<Deed>]) -> bool
    requires { IsShape FIRST SECOND }
    ensures { IsTrue result
        → All (λ script. IsSound (2 ^ (FIRST + SECOND)) script.items) scripts.now }
{
    for script in scripts {
        if !script_ok::<FIRST, SECOND>(script) {
            return false;
        }
    }
    true
}

// The run of the plan.
pub(crate) fn run_plan<const FIRST: u32, const SECOND: u32>(
    rt: &impl Abort,
    alloc: Global,
    plan: &Plan<FIRST, SECOND>,
) -> Result<Trace, RunError>
    requires { IsShape FIRST SECOND }
{
    let is_for_each = plan.scripts.len() == plan.config.workers;
    assert!(rt; is_for_each && are_sound::<FIRST, SECOND>(&plan.scripts));
    World::<FIRST, SECOND>::run(
        alloc,
        plan.config,
        &plan.changes,
        &plan.scripts,
        &plan.schedule,
    )
}

fn changes_of(
    rt: &impl Abort,
    alloc: Global,
    edits: &[Edit],
) -> Result<Vec<Change<4, 4>>, AllocError> {
    let mut changes = Vec::new(alloc);
    for edit in edits {
        changes.push(edit.change().expect(rt, "a change"))?;
    }
    Ok(changes)
}

// Puts this many items of the actor at the end of a schedule.
fn push_items(schedule: &mut Vec<Actor>, actor: Actor, count: usize) -> Result<(), AllocError> {
    for _ in 0..count {
        schedule.push(actor)?;
    }
    Ok(())
}

// A schedule in which each of these actors in turn has so many items.
pub(crate) fn schedule_of(
    alloc: Global,
    bursts: &[(Actor, usize)],
) -> Result<Vec<Actor>, AllocError> {
    let mut items = Vec::new(alloc);
    for (actor, count) in bursts {
        push_items(&mut items, *actor, *count)?;
    }
    Ok(items)
}

// The scripts of these workers.
fn scripts_of(alloc: Global, scripts: &[&[Deed]]) -> Result<Vec<Vec<Deed>>, AllocError> {
    let mut all = Vec::new(alloc);
    for deeds in scripts {
        all.push(Vec::from_slice(alloc, deeds)?)?;
    }
    Ok(all)
}

// A plan with a worker for each of these scripts.
pub(crate) fn planned_for(
    rt: &impl Abort,
    alloc: Global,
    config: Config,
    edits: &[Edit],
    scripts: &[&[Deed]],
    bursts: &[(Actor, usize)],
) -> Result<Plan<4, 4>, AllocError> {
    Ok(Plan {
        config,
        changes: changes_of(rt, alloc, edits)?,
        scripts: scripts_of(alloc, scripts)?,
        schedule: schedule_of(alloc, bursts)?,
    })
}

// A plan with one worker.
pub(crate) fn planned(
    rt: &impl Abort,
    alloc: Global,
    config: Config,
    edits: &[Edit],
    deeds: &[Deed],
    bursts: &[(Actor, usize)],
) -> Result<Plan<4, 4>, AllocError> {
    planned_for(rt, alloc, config, edits, &[deeds], bursts)
}

// The run is accepted; else the message tells the number of its plan. Want of memory is an error.
fn assert_judged(
    rt: &impl Abort,
    number: u32,
    judged: Result<(), JudgeError>,
) -> Result<(), AllocError> {
    if judged == Err(JudgeError::Memory) {
        return Err(AllocError);
    }
    assert_at(rt, ("world", number), judged, Ok(()));
    Ok(())
}

// The run of the plan of this number, which the slow program accepts.
pub(crate) fn judged<const FIRST: u32, const SECOND: u32>(
    rt: &impl Abort,
    alloc: Global,
    number: u32,
    plan: &Plan<FIRST, SECOND>,
) -> Result<Trace, Fail>
    requires { IsShape FIRST SECOND }
{
    let trace = run_plan(rt, alloc, plan)?;
    assert_judged(rt, number, judge(alloc, plan, &trace))?;
    Ok(trace)
}

// The slow program refuses the run of the plan for this reason; else the message names the row.
pub(crate) fn assert_refused<R: Debug + Copy>(
    rt: &impl Abort,
    row: R,
    plan: &Plan<4, 4>,
    judged: (Global, &Trace),
    error: JudgeError,
) {
    let (alloc, trace) = judged;
    assert_at(rt, row, judge(alloc, plan, trace), Err(error));
}

// The run of a plan with one worker, which the slow program accepts.
pub(crate) fn played(
    rt: &impl Abort,
    alloc: Global,
    config: Config,
    edits: &[Edit],
    deeds: &[Deed],
    bursts: &[(Actor, usize)],
) -> Result<Trace, Fail> {
    judged(
        rt,
        alloc,
        0,
        &planned(rt, alloc, config, edits, deeds, bursts)?,
    )
}
