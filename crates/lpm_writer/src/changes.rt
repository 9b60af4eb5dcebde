//! Whole updates, from the step that opens one to the step that closes it.

ghost use Rattle.std.specs.Prelude.{◌≡◌, ◌+◌, List};
ghost use Rattle.lpm_groups.specs.States.{linked_count};
ghost use Rattle.lpm_trace.specs.declared.step.WriterStep.{WriterStep};
ghost use Rattle.lpm_trace.specs.States.{InitialState};
ghost use Rattle.lpm_writer.specs.Rest.{Changes, IsDue};
ghost use Rattle.lpm_writer.specs.Commands.{Rests};
ghost use Rattle.lpm_writer.specs.MemorySteps.{by_writer};

use super::control::ControlState;
use super::limbo::free_waiting;
use crate::Memory;
use lpm_trace::RuleChange;
use lpm_update::Update;

/// Makes the whole update of a change of the rules, which the rule list has already: it begins, its
/// stores are made, upwards, and it is done. Each group that it unlinks goes into limbo directly after, under a
/// token of its own. Where more than the threshold wait already, some are reclaimed first.
pub(crate) fn change<const FIRST: u32, const SECOND: u32, M: Memory>(
    control: &mut ControlState<FIRST, SECOND>,
    memory: &mut M,
    update: Update,
    rule_change: &RuleChange,
)
    requires due { (c : InitialState) × (steps : List WriterStep) × M.did memory.old c steps
        × IsDue FIRST SECOND c steps control.old.config control.old.rules control.old.pool
        control.old.versions update rule_change.now }
    ensures changed { (c : InitialState) (steps : List WriterStep) → M.did memory.old c steps
        → IsDue FIRST SECOND c steps control.old.config control.old.rules control.old.pool
        control.old.versions update rule_change.now
        → (later : List WriterStep) × M.did memory.new c later × Rests c later control.new
        × Changes (by_writer M.does c) control.old.config (memory.old, steps) control.old.pool
        (memory.new, later) control.new.pool }
    ensures stays { linked_count control.new.pool.groups ≡ linked_count control.old.pool.groups
        → control.new.pool.groups ≡ control.old.pool.groups }
    ensures config { control.new.config ≡ control.old.config }
    ensures rules { control.new.rules ≡ control.old.rules }
    ensures versions { control.new.versions ≡ control.old.versions + 1 }
{
    memory.open_update(rule_change);
    let mut update = update;
    while let Some(group) = update.run::<FIRST, SECOND, M>(memory) {
        let token = memory.bump();
        control.pool.groups.retire(group);
        if control.pool.queue.len() > control.config.threshold {
            free_waiting(&mut control.pool, memory, control.config.reclaim_max);
        }
        control.pool.queue.retire(group, token);
    }
    memory.close_update();
    control.versions += 1;
}
