//! How a table is opened, in the memory of one thread.

ghost use Rattle.std.specs.Prelude.{◌≡◌, ◌↔◌, [], IfOk, IfErr, replicate};
ghost use Rattle.std.specs.FinMap as map;
ghost use Rattle.lpm_bits.specs.Widths.{IsShape};
ghost use Rattle.lpm_limits.specs.Limits.{IsConfig};
ghost use Rattle.lpm_trace.specs.States.{IsSettled};
ghost use Rattle.lpm_writer.specs.Plain.{PlainDid};
ghost use Rattle.lpm_writer.specs.Rest.{blank_initial_state, IsResting};

use super::{ControlState, GroupPool, OpenError};
use crate::PlainMemory;
use defer_queue::DeferQueue;
use lpm_groups::Groups;
use lpm_limits::Config;
use lpm_rules::Rules;
use std::alloc::Global;

impl<const FIRST: u32, const SECOND: u32> ControlState<FIRST, SECOND> {
    /// What a writer keeps of a table without rules. It refuses limits out of range, and ends with
    /// `Memory` where there is no room for the groups.
    pub fn new(alloc: Global, config: Config) -> Result<Self, OpenError>
        requires shape { IsShape FIRST SECOND }
        ensures rests { IfOk result (λ l. IsResting FIRST SECOND (blank_initial_state FIRST SECOND config)
            [] l.config l.rules l.pool l.versions) }
        ensures config { IfOk result (λ l. l.config ≡ config) }
        ensures in_range { IfOk result (λ _. IsConfig config) }
        ensures rules { IfOk result (λ l. l.rules.rules ≡ map.empty) }
        ensures queue { IfOk result (λ l. l.pool.queue.items ≡ []) }
        ensures versions { IfOk result (λ l. l.versions ≡ 0) }
        ensures bad_config { IfErr result
            (λ error. (error ≡ OpenError.BadConfig) ↔ (¬ IsConfig config)) }
    {
        config.check()?;
        let groups = Groups::new(alloc, config.groups)?;
        let queue = DeferQueue::new(alloc, config.groups)?;
        let pool = GroupPool {
            groups,
            queue,
            passed: 0,
        };
        Ok(ControlState {
            config,
            rules: Rules::new(alloc, config.rules),
            pool,
            versions: 0,
        })
    }
}

/// Opens a table without rules, with all workers offline. It refuses limits out of range, and ends
/// with `Memory` where there is no room for the words, the groups or the workers.
pub fn open_memory<const FIRST: u32, const SECOND: u32>(
    alloc: Global,
    config: Config,
) -> Result<(ControlState<FIRST, SECOND>, PlainMemory<FIRST, SECOND>), OpenError>
    requires { IsShape FIRST SECOND }
    ensures settled { IfOk result (λ _. IsSettled (blank_initial_state FIRST SECOND config)) }
    ensures did { IfOk result (λ t. PlainDid FIRST SECOND t.1.cells t.1.domain
        (blank_initial_state FIRST SECOND config) []) }
    ensures rests { IfOk result (λ t. IsResting FIRST SECOND (blank_initial_state FIRST SECOND config) []
        t.0.config t.0.rules t.0.pool t.0.versions) }
    ensures domain { IfOk result (λ t. t.1.domain ≡ record {
      token = config.first_token;
      counters = replicate config.workers 0;
    }) }
    ensures config { IfOk result (λ t. t.0.config ≡ config) }
    ensures rules { IfOk result (λ t. t.0.rules.rules ≡ map.empty) }
    ensures queue { IfOk result (λ t. t.0.pool.queue.items ≡ []) }
    ensures versions { IfOk result (λ t. t.0.versions ≡ 0) }
    ensures bad_config { IfErr result
        (λ error. (error ≡ OpenError.BadConfig) ↔ (¬ IsConfig config)) }
{
    let control = ControlState::new(alloc, config)?;
    let memory = PlainMemory::new(alloc, config.groups, config.workers, config.first_token)?;
    Ok((control, memory))
}
