//! A synchronize: a token is started, and is checked again and again until a check passes.
//!
//! Neither call waits. Whoever calls checks again after a check that a worker has stopped.

ghost use Rattle.std.specs.Prelude.{◌≡◌, ◌+◌, ◌^◌, ◌<◌, ◌≤◌, ◌↔◌, List, All, IsErr, OnOk, OnErr};
ghost use Rattle.lpm_trace.specs.declared.step.WriterStep.{WriterStep};
ghost use Rattle.lpm_trace.specs.declared.step.WriterStep.TheVariants.{BumpToken};
ghost use Rattle.lpm_trace.specs.States.{InitialState};
ghost use Rattle.lpm_writer.specs.MemorySteps.{Goes, Checks};
ghost use Rattle.lpm_writer.specs.Commands.{MayCommand, Rests, IsWaiting};

use super::Exhausted;
use super::control::{ControlState, LAST_TOKEN};
use super::grace::Reclaimer;
use crate::Memory;
use defer_queue::Grace;
use lpm_limits::Busy;

/// Starts the token of a synchronize. From then on the control state waits, until `check_synchronize` has
/// returned `Ok`.
///
/// `Exhausted` where fewer tokens than groups are left; nothing was written then.
pub fn start_synchronize<const FIRST: u32, const SECOND: u32, M: Memory>(
    control: &ControlState<FIRST, SECOND>,
    memory: &mut M,
) -> Result<(), Exhausted>
    requires rests { MayCommand M.did control.now memory.old }
    ensures exhausted { IsErr result ↔ (2 ^ 62 < M.newest memory.old + control.now.config.groups) }
    ensures starts { OnOk result ((c : InitialState) (steps : List WriterStep) → M.did memory.old c steps
        → Rests c steps control.now
        → (later : List WriterStep) × M.did memory.new c later
        × Goes M.does (memory.old, steps) BumpToken (memory.new, later)
        × IsWaiting FIRST SECOND c later control.now.config control.now.rules control.now.pool
        control.now.versions) }
    ensures unchanged { OnErr result (memory.new ≡ memory.old) }
{
    if memory.token() + control.pool.groups.len() as u64 > LAST_TOKEN {
        return Err(Exhausted);
    }
    memory.bump();
    Ok(())
}

/// Checks the token that `start_synchronize` has started. Once it has returned `Ok`, no group that was
/// queued is held at any later check. The error is the first worker that holds the token: the control state
/// waits on.
pub fn check_synchronize<const FIRST: u32, const SECOND: u32, M: Memory>(
    control: &mut ControlState<FIRST, SECOND>,
    memory: &mut M,
) -> Result<(), Busy>
    requires waits { (c : InitialState) × (steps : List WriterStep) × M.did memory.old c steps
        × IsWaiting FIRST SECOND c steps control.old.config control.old.rules control.old.pool
        control.old.versions }
    ensures checks { (c : InitialState) (steps : List WriterStep) → M.did memory.old c steps
        → IsWaiting FIRST SECOND c steps control.old.config control.old.rules control.old.pool
        control.old.versions
        → (later : List WriterStep) × M.did memory.new c later
        × Checks M.does c (memory.old, steps) (M.newest memory.old) result (memory.new, later)
        × OnOk result (Rests c later control.new)
        × OnErr result (IsWaiting FIRST SECOND c later control.new.config control.new.rules
        control.new.pool control.new.versions) }
    ensures passed { OnOk result (M.newest memory.old ≤ control.new.pool.passed) }
    ensures queued { OnOk result
        (All (λ item. item.1 ≤ control.new.pool.passed) control.new.pool.queue.items) }
    ensures stopped { OnErr result (control.new ≡ control.old) }
    ensures same { control.new ≡ record control.old {
      pool = record control.old.pool { passed = control.new.pool.passed };
    } }
{
    let token = memory.token();
    let mut grace = Reclaimer {
        memory,
        groups: &mut control.pool.groups,
        passed: &mut control.pool.passed,
    };
    grace.check(token)
}
