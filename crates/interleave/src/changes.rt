//! The writer's changes, and what comes of each.

ghost use Rattle.std.specs.Prelude.{◌≡◌, ℕ, ◌≤◌, List, [], MatchOption, IfOk, IfErr, length};
ghost use Rattle.lpm_trace.specs.declared.step.WriterStep.{WriterStep};
ghost use Rattle.lpm_trace.specs.States.{InitialState};
ghost use Rattle.lpm_writer.specs.Rest.{IsResting, state_of};
ghost use Rattle.lpm_rules.specs.declared.Change.TheVariants.{Synchronize};
ghost use Rattle.interleave.specs.World.{writer_items, WorldDid, scripts_and_schedule};
ghost use Rattle.interleave.specs.declared.run_error.RunError.TheVariants.{Memory as IsMemory};
ghost use Rattle.interleave.specs.Runs.{HasTokensLeft, Waits, Answers, IsPerformed};

use super::synchronize::synchronize;
use super::{Reply, RunError};
use crate::WorldMemory;
use lpm_limits::Refusal;
use lpm_rules::Change;
use lpm_writer::{ControlState, add_rule, delete_rule, flush_rules, reclaim_groups};
use std::alloc::Global;

/// Makes a change, and returns its reply; none where it is a synchronize of which a worker has stopped
/// so many checks. The error is that an add found no room.
pub(crate) fn answer<const FIRST: u32, const SECOND: u32>(
    control: &mut ControlState<FIRST, SECOND>,
    memory: &mut WorldMemory<'_, FIRST, SECOND>,
    change: &Change<FIRST, SECOND>,
    tries: usize,
) -> Result<Option<Reply>, RunError>
    requires rests { (c : InitialState) × (steps : List WriterStep) × WorldDid FIRST SECOND memory.old c steps
        × IsResting FIRST SECOND c steps control.old.config control.old.rules control.old.pool
        control.old.versions }
    ensures replies { IfOk result (λ came. (c : InitialState) (steps : List WriterStep)
        → WorldDid FIRST SECOND memory.old c steps
        → IsResting FIRST SECOND c steps control.old.config control.old.rules control.old.pool
        control.old.versions
        → MatchOption came
        ((change.now ≡ Synchronize)
        × HasTokensLeft c control.old.config (state_of control.old.rules.rules steps control.old.pool
        control.old.versions)
        × ((later : List WriterStep) × WorldDid FIRST SECOND memory.new c later × Waits c tries steps later))
        (λ reply. (later : List WriterStep) × WorldDid FIRST SECOND memory.new c later
        × IsResting FIRST SECOND c later control.new.config control.new.rules control.new.pool
        control.new.versions
        × Answers c FIRST SECOND control.old.config (state_of control.old.rules.rules steps control.old.pool
        control.old.versions) change.now reply (state_of control.new.rules.rules later control.new.pool
        control.new.versions))) }
    ensures scripts { IfOk result (λ _. scripts_and_schedule memory.new ≡ scripts_and_schedule memory.old) }
    ensures config { control.new.config ≡ control.old.config }
    ensures memory { IfErr result (λ error. error ≡ IsMemory) }
{
    let reply = match change {
        Change::Add(prefix, hop) => match add_rule(control, memory, prefix, *hop) {
            Ok(put) => Reply::Put(put),
            Err(refusal) => match refusal {
                Refusal::Memory => return Err(RunError::Memory),
                _ => Reply::Refused(refusal),
            },
        },
        Change::Delete(prefix) => match delete_rule(control, memory, prefix) {
            Ok(hop) => Reply::Deleted(hop),
            Err(refusal) => Reply::Refused(refusal),
        },
        Change::Flush => match flush_rules(control, memory) {
            Ok(count) => Reply::Flushed(count),
            Err(refusal) => Reply::Refused(refusal),
        },
        Change::Reclaim(max) => Reply::Reclaimed(reclaim_groups(control, memory, *max)),
        Change::Synchronize => return Ok(synchronize(control, memory, tries)),
    };
    Ok(Some(reply))
}

/// Makes the changes one after another, as far as the schedule leads, and returns what came of each.
pub(crate) fn answer_all<const FIRST: u32, const SECOND: u32>(
    alloc: Global,
    control: &mut ControlState<FIRST, SECOND>,
    memory: &mut WorldMemory<'_, FIRST, SECOND>,
    changes: &[Change<FIRST, SECOND>],
    tries: usize,
) -> Result<Vec<Reply>, RunError>
    requires initial { (c : InitialState) × WorldDid FIRST SECOND memory.old c []
        × IsResting FIRST SECOND c [] control.old.config control.old.rules control.old.pool
        control.old.versions }
    requires tries { length memory.old.schedule ≤ tries }
    ensures performed { IfOk result (λ replies. (c : InitialState) → WorldDid FIRST SECOND memory.old c []
        → IsResting FIRST SECOND c [] control.old.config control.old.rules control.old.pool
        control.old.versions
        → (steps : List WriterStep) × WorldDid FIRST SECOND memory.new c steps
        × IsPerformed c FIRST SECOND control.old.config (writer_items memory.old.schedule)
        (state_of control.old.rules.rules [] control.old.pool control.old.versions) changes.now replies.items
        steps) }
    ensures scripts { IfOk result (λ _. scripts_and_schedule memory.new ≡ scripts_and_schedule memory.old) }
    ensures memory { IfErr result (λ error. error ≡ IsMemory) }
{
    let mut replies = Vec::with_capacity(alloc, changes.len())?;
    for change in changes {
        if !memory.reach() {
            return Ok(replies);
        }
        let Some(reply) = answer(control, memory, change, tries)? else {
            return Ok(replies);
        };
        if memory.is_stopped() {
            return Ok(replies);
        }
        if replies.push(reply).is_err() {
            return Err(RunError::Memory);
        }
    }
    Ok(replies)
}
