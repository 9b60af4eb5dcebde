//! What a storm is to do, and why it came to nothing.

ghost use Rattle.std.specs.Prelude.{◌≡◌, ◌^◌, ◌<◌, ◌≤◌, IfOk, IfErr, IfSome, IsNone};
ghost use Rattle.storm.specs.Storm.{EndsBefore, IsInRange, answer_count, limits_of, most_answers};
ghost use Rattle.storm.specs.declared.plan.StormError.TheVariants.{Memory as IsMemory};

use fib_model::Order;
use lpm_limits::Config;
use lpm_rules::Rule;
use std::alloc::AllocError;
use thiserror::Error;

/// The most answers of a storm.
pub const MOST_ANSWERS: usize = 16_777_216;

/// What a storm is to do.
#[derive(Clone, Copy)]
pub struct Plan<'a, const FIRST: u32, const SECOND: u32> {
    /// The limits of the table. Its workers are those that look up: each has a thread of its own.
    pub config: Config,
    /// Whether there is one worker more, which is online from before the first update until after the last
    /// and looks nothing up.
    pub has_stuck_worker: bool,
    /// The rules that the table was opened with, which are its version 0. Of those of one prefix the last
    /// counts.
    pub rules: &'a [Rule<FIRST, SECOND>],
    /// The updates: the commands that the writer's thread makes, in their order. None is a report of a worker.
    pub orders: &'a [Order<FIRST, SECOND>],
    /// The addresses that each worker looks up, in their order.
    pub addrs: &'a [u32],
    /// How often each worker looks all of them up.
    pub rounds: usize,
}

impl<'a, const FIRST: u32, const SECOND: u32> Plan<'a, FIRST, SECOND> {
    // The limits of the table: its workers are those that look up, and the stuck one.
    pub(crate) fn limits(&self) -> Config
        requires { self.now.config.workers < 2 ^ 32 }
        ensures { result ≡ limits_of self.now }
    {
        Config {
            workers: self.config.workers + usize::from(self.has_stuck_worker),
            ..self.config
        }
    }

    // How many answers are asked for; none where they are more than `MOST_ANSWERS`.
    pub(crate) fn answers(&self) -> Option<usize>
        requires { 0 < self.now.config.workers }
        ensures some { IfSome result (λ n. (n ≡ answer_count self.now) × (n ≤ most_answers)) }
        ensures none { IsNone result → most_answers < answer_count self.now }
    {
        let of_worker = self.rounds.checked_mul(self.addrs.len())?;
        let of_all = self.config.workers.checked_mul(of_worker)?;
        if of_all > MOST_ANSWERS {
            return None;
        }
        Some(of_all)
    }

    /// The limits of the table that the storm is to run on: it has one worker more where one is stuck. The
    /// rules of the plan and its commands aren't looked at, so this can come before the table is opened.
    ///
    /// The refusals, in the order of the checks: `NoWorkers`; and `BadConfig`, where a limit is out of range or
    /// more than `MOST_ANSWERS` answers are asked for.
    pub fn table_limits(&self) -> Result<Config, StormError>
        ensures limits { IfOk result (λ c. c ≡ limits_of self.now) }
        ensures in_range { IfOk result (λ _. IsInRange self.now) }
        ensures failure { IfErr result (EndsBefore self.now) }
    {
        if self.config.workers == 0 {
            return Err(StormError::NoWorkers);
        }
        if self.config.check().is_err() {
            return Err(StormError::BadConfig);
        }
        let limits = self.limits();
        if limits.check().is_err() || self.answers().is_none() {
            return Err(StormError::BadConfig);
        }
        Ok(limits)
    }
}

/// Why a storm came to nothing.
#[derive(Clone, Copy, Debug, PartialEq, Eq, Error)]
pub enum StormError {
    /// There are no workers.
    #[error("no workers")]
    NoWorkers,
    /// A limit is out of range, or more answers are asked for than `MOST_ANSWERS`.
    #[error("a limit is outside its range")]
    BadConfig,
    /// Fewer tokens than groups are left for the last synchronize.
    #[error("no token is left")]
    Exhausted,
    /// A thread couldn't be started.
    #[error("a thread couldn't be started")]
    NoThread,
    /// A growth was refused.
    #[error("out of memory")]
    Memory,
}

impl From<AllocError> for StormError {
    ghost from_gives = { λ _ error. error ≡ IsMemory };

    fn from(_error: AllocError) -> Self {
        Self::Memory
    }
}
