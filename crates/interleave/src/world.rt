//! Runs of the pure world.

ghost use Rattle.std.specs.Prelude.{◌≡◌, ℕ, ◌+◌, ◌^◌, ◌↔◌, [], All, IfOk, IfErr, length, map};
ghost use Rattle.std.specs.FinMap.{empty};
ghost use Rattle.lpm_bits.specs.Widths.{IsShape};
ghost use Rattle.lpm_limits.specs.Limits.{IsConfig};
ghost use Rattle.interleave.specs.Scripts.{IsSound};
ghost use Rattle.lpm_writer.specs.Rest.{blank_initial_state, IsResting};
ghost use Rattle.interleave.specs.View.{script_at};
ghost use Rattle.interleave.specs.declared.run_error.RunError.TheVariants.{BadConfig as IsBadConfig, Memory as IsMemory};
ghost use Rattle.interleave.specs.Runs.{IsRun};

use super::changes::answer_all;
use super::{RunError, Trace};
use crate::WorldMemory;
use lpm_limits::Config;
use lpm_rules::Change;
use lpm_trace::{Actor, Deed};
use lpm_writer::ControlState;
use std::alloc::Global;

/// The pure world of a table whose addresses have `FIRST` and `SECOND` bits: no threads, and each step
/// where the schedule says.
pub struct World<const FIRST: u32, const SECOND: u32>;

impl<const FIRST: u32, const SECOND: u32> World<FIRST, SECOND> {
    /// Runs the writer's changes and the workers' deeds by a schedule, each item of which makes one step of
    /// its actor. An actor that is done makes none, and neither does a worker that isn't there. A change
    /// without steps is answered at the writer's next item.
    ///
    /// The steps are a trace of these changes and deeds; the rest of the result is what came of the
    /// changes, and the finished lookups. [`laws`](crate::laws) says what holds of every trace.
    ///
    /// There are as many scripts as the limits say workers, and `script_ok` takes each. It refuses limits
    /// out of range, and ends with `Memory` where there is no room for the table, the rules or what the
    /// run shows.
    pub fn run(
        alloc: Global,
        config: Config,
        changes: &[Change<FIRST, SECOND>],
        scripts: &[Vec<Deed>],
        schedule: &[Actor],
    ) -> Result<Trace, RunError>
        requires shape { IsShape FIRST SECOND }
        requires workers { length scripts.now ≡ config.workers }
        requires sound { All (λ script. IsSound (2 ^ (FIRST + SECOND)) script.items) scripts.now }
        ensures runs { IfOk result (λ trace. IsRun FIRST SECOND config changes.now
            (script_at (map (λ script. script.items) scripts.now)) schedule.now trace) }
        ensures limits { IfOk result (λ _. IsConfig config) }
        ensures bad_config { IfErr result (λ error. (error ≡ IsBadConfig) ↔ (¬ IsConfig config)) }
    {
        let mut control = ControlState::new(alloc, config)?;
        run_opened(alloc, &mut control, changes, scripts, schedule)
    }
}

/// Runs the changes and the deeds on a table that was just opened.
fn run_opened<const FIRST: u32, const SECOND: u32>(
    alloc: Global,
    control: &mut ControlState<FIRST, SECOND>,
    changes: &[Change<FIRST, SECOND>],
    scripts: &[Vec<Deed>],
    schedule: &[Actor],
) -> Result<Trace, RunError>
    requires shape { IsShape FIRST SECOND }
    requires in_range { IsConfig control.old.config }
    requires workers { length scripts.now ≡ control.old.config.workers }
    requires sound { All (λ script. IsSound (2 ^ (FIRST + SECOND)) script.items) scripts.now }
    requires rests { IsResting FIRST SECOND (blank_initial_state FIRST SECOND control.old.config) []
        control.old.config control.old.rules control.old.pool control.old.versions }
    requires rules { control.old.rules.rules ≡ empty }
    requires queue { control.old.pool.queue.items ≡ [] }
    requires versions { control.old.versions ≡ 0 }
    ensures runs { IfOk result (λ trace. IsRun FIRST SECOND control.old.config changes.now
        (script_at (map (λ script. script.items) scripts.now)) schedule.now trace) }
    ensures memory { IfErr result (λ error. error ≡ IsMemory) }
{
    let config = control.config;
    let mut memory = WorldMemory::new(alloc, config.groups, config.first_token, scripts, schedule)?;
    let replies = answer_all(alloc, control, &mut memory, changes, schedule.len())?;
    memory.play_out();
    let (steps, lookups) = memory.into_record();
    Ok(Trace {
        steps,
        replies,
        lookups,
    })
}
