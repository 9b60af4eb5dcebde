//! A list of commands on a table that is opened for them.

ghost use Rattle.std.specs.Prelude.{◌≡◌, ◌+◌, ◌^◌, ◌<◌, ◌↔◌, [], All, IfErr, IfOk, length};
ghost use Rattle.lpm_bits.specs.Widths.{IsShape};
ghost use Rattle.lpm_limits.specs.Limits.{IsConfig};
ghost use Rattle.fib_model.specs.Outcomes.{log_after};
ghost use Rattle.fib.specs.Replay.{GoesOn, IsAsked, IsReplay};

use super::Fib;
use fib_model::{Order, Outcome};
use lpm_bits::Hop;
use lpm_groups::Counts;
use lpm_limits::Config;
use lpm_writer::OpenError;
use std::alloc::{AllocError, Global};

/// What came of a list of commands, and what the table answered and counted after the last.
#[derive(Drop)]
pub struct Replay {
    /// What came of each command, in their order.
    pub outcomes: Vec<Outcome>,
    /// The next hop of each address, in their order.
    pub hops: Vec<Option<Hop>>,
    /// The number of rules.
    pub rules: usize,
    /// The number of changes that made a version of the rule list.
    pub versions: u64,
    /// How many groups are in use, in limbo and free.
    pub counts: Counts,
    /// The token number.
    pub token: u64,
}

impl<const FIRST: u32, const SECOND: u32> Fib<FIRST, SECOND> {
    /// Opens a table, does the commands one after another, and looks the addresses up after the
    /// last.
    ///
    /// It ends with `Memory` also where there is no room for the outcomes or the next hops.
    pub fn replay(
        alloc: Global,
        config: Config,
        orders: &[Order<FIRST, SECOND>],
        addrs: &[u32],
    ) -> Result<Replay, OpenError>
        requires shape { IsShape FIRST SECOND }
        requires addrs { All (λ a. a < 2 ^ (FIRST + SECOND)) addrs.now }
        ensures as_many { IfOk result (λ r. length r.outcomes.items ≡ length orders.now) }
        ensures replay { IfOk result (λ r. IsReplay FIRST SECOND config
            (log_after [] orders.now r.outcomes.items) addrs.now r) }
        ensures limits { IfOk result (λ _. IsConfig config) }
        ensures bad_config { IfErr result
            (λ error. (error ≡ OpenError.BadConfig) ↔ (¬ IsConfig config)) }
    {
        let mut fib = Fib::<FIRST, SECOND>::open(alloc, config)?;
        Ok(fib.replay_here(alloc, orders, addrs)?)
    }

    /// Does the commands one after another, and looks the addresses up after the last.
    fn replay_here(
        &mut self,
        alloc: Global,
        orders: &[Order<FIRST, SECOND>],
        addrs: &[u32],
    ) -> Result<Replay, AllocError>
        requires addrs { All (λ a. a < 2 ^ (FIRST + SECOND)) addrs.now }
        ensures as_many { IfOk result (λ r. length r.outcomes.items ≡ length orders.now) }
        ensures textbook { IfOk result (λ r. GoesOn FIRST SECOND self.old.config self.old.table
            orders.now r.outcomes.items self.new.table) }
        ensures asked { IfOk result (λ r.
            IsAsked FIRST SECOND self.old.config self.new.table addrs.now r) }
    {
        let outcomes = self.execute_all(alloc, orders)?;
        let hops = self.lookup_all(alloc, addrs)?;
        Ok(Replay {
            outcomes,
            hops,
            rules: self.rules(),
            versions: self.versions(),
            counts: self.counts(),
            token: self.token(),
        })
    }
}
