//! A synchronize that doesn't wait for ever.

ghost use Rattle.std.specs.Prelude.{◌≡◌, ℕ, ◌+◌, ◌≤◌, List, length, MatchOption};
ghost use Rattle.lpm_trace.specs.declared.step.WriterStep.{WriterStep};
ghost use Rattle.lpm_trace.specs.States.{InitialState};
ghost use Rattle.lpm_writer.specs.Rest.{IsResting, state_of};
ghost use Rattle.lpm_rules.specs.declared.Change.TheVariants.{Synchronize};
ghost use Rattle.interleave.specs.World.{WorldDid, scripts_and_schedule};
ghost use Rattle.interleave.specs.Runs.{HasTokensLeft, Waits, Answers};

use super::Reply;
use crate::WorldMemory;
use lpm_limits::Refusal;
use lpm_writer::{ControlState, Exhausted, check_synchronize, start_synchronize};

/// Starts a token and checks it, at most so many times, until its check passes. No reply where a worker
/// stopped each of these checks.
pub(crate) fn synchronize<const FIRST: u32, const SECOND: u32>(
    control: &mut ControlState<FIRST, SECOND>,
    memory: &mut WorldMemory<'_, FIRST, SECOND>,
    tries: usize,
) -> Option<Reply>
    requires rests { (c : InitialState) × (steps : List WriterStep) × WorldDid FIRST SECOND memory.old c steps
        × IsResting FIRST SECOND c steps control.old.config control.old.rules control.old.pool
        control.old.versions }
    ensures replies { (c : InitialState) (steps : List WriterStep) → WorldDid FIRST SECOND memory.old c steps
        → IsResting FIRST SECOND c steps control.old.config control.old.rules control.old.pool
        control.old.versions
        → MatchOption result
        (HasTokensLeft c control.old.config (state_of control.old.rules.rules steps control.old.pool
        control.old.versions)
        × ((later : List WriterStep) × WorldDid FIRST SECOND memory.new c later
        × Waits c tries steps later))
        (λ reply. (later : List WriterStep) × WorldDid FIRST SECOND memory.new c later
        × IsResting FIRST SECOND c later control.new.config control.new.rules control.new.pool
        control.new.versions
        × Answers c FIRST SECOND control.old.config (state_of control.old.rules.rules steps control.old.pool
        control.old.versions) Synchronize reply (state_of control.new.rules.rules later control.new.pool
        control.new.versions)) }
    ensures scripts { scripts_and_schedule memory.new ≡ scripts_and_schedule memory.old }
    ensures config { control.new.config ≡ control.old.config }
{
    if let Err(Exhausted) = start_synchronize(control, memory) {
        return Some(Reply::Refused(Refusal::Exhausted));
    }
    for _check in 0..tries {
        match check_synchronize(control, memory) {
            Ok(()) => return Some(Reply::Synchronized),
            Err(_) => continue,
        }
    }
    None
}
