//! Why a call is refused.

ghost use Rattle.std.specs.Prelude.{◌≡◌};
ghost use Rattle.lpm_limits.specs.Refusals.{row_of};
ghost use Rattle.lpm_limits.specs.declared.refusal.Refusal.TheVariants.{Memory as IsMemory};

use crate::Busy;
use std::alloc::AllocError;
use std::error::Error;
use std::fmt;

/// Why a call of the table is refused.
///
/// A refused change leaves the rules, the versions and all answers as they were.
#[derive(Clone, Copy, Debug, PartialEq, Eq)]
pub enum Refusal {
    /// A prefix length past the bits of an address.
    BadLength,
    /// A next hop of 16,777,216 or more.
    BadHop,
    /// A new rule where the greatest number of rules is reached.
    TooManyRules,
    /// The prefix to be deleted has no rule.
    NoSuchRule,
    /// A limit of a `Config` outside its range.
    BadConfig,
    /// The tokens or the versions would pass their bound.
    Exhausted,
    /// A new group is needed, none is free, and a reclaim freed none.
    NoGroups {
        /// The worker that holds the oldest retired group; none where no group was queued.
        oldest: Option<Busy>,
    },
    /// Work for many workers at once, of which there are none.
    NoWorkers,
    /// A growth was refused.
    Memory,
    /// No worker has the number: it isn't below `Config::workers`.
    NoSuchWorker,
    /// The worker's pass is handed out already.
    Taken,
    /// A thread couldn't be started.
    NoThread,
    /// A report of a quiescent state, or of going offline, by a worker that is offline.
    NotOnline,
    /// A report of going online by a worker that is online.
    AlreadyOnline,
}

impl Refusal {
    /// The number by which output names the refusal, from 1 to 14.
    pub fn number(self) -> u8
        ensures { result ≡ (row_of self).0 }
    {
        self.row().0
    }

    /// The name that stands beside the number.
    pub fn name(self) -> &'static str
        ensures { result.now ≡ (row_of self).1 }
    {
        self.row().1
    }

    fn row(self) -> (u8, &'static str)
        ensures number { result.0 ≡ (row_of self).0 }
        ensures name { result.1.now ≡ (row_of self).1 }
    {
        match self {
            Refusal::BadLength => (1, "BadLength"),
            Refusal::BadHop => (2, "BadHop"),
            Refusal::TooManyRules => (3, "TooManyRules"),
            Refusal::NoSuchRule => (4, "NoSuchRule"),
            Refusal::BadConfig => (5, "BadConfig"),
            Refusal::Exhausted => (6, "Exhausted"),
            Refusal::NoGroups { .. } => (7, "NoGroups"),
            Refusal::NoWorkers => (8, "NoWorkers"),
            Refusal::Memory => (9, "Memory"),
            Refusal::NoSuchWorker => (10, "NoSuchWorker"),
            Refusal::Taken => (11, "Taken"),
            Refusal::NoThread => (12, "NoThread"),
            Refusal::NotOnline => (13, "NotOnline"),
            Refusal::AlreadyOnline => (14, "AlreadyOnline"),
        }
    }
}

impl fmt::Display for Refusal {
    fn fmt<W: fmt::Write>(&self, f: &mut fmt::Formatter<W>) -> fmt::Result {
        let text = match self {
            Refusal::BadLength => "a prefix length is past the bits of an address",
            Refusal::BadHop => "a next hop is past its 24 bits",
            Refusal::TooManyRules => "too many rules",
            Refusal::NoSuchRule => "no such rule",
            Refusal::BadConfig => return write!(f, "{}", crate::BadConfig),
            Refusal::Exhausted => "tokens or versions are exhausted",
            Refusal::NoGroups { oldest: None } => "no group is free",
            Refusal::NoGroups { oldest: Some(busy) } => return write!(
                f,
                "no group is free: {busy}"
            ),
            Refusal::NoWorkers => "no workers",
            Refusal::Memory => "out of memory",
            Refusal::NoSuchWorker => "no such worker",
            Refusal::Taken => "the worker's pass is handed out already",
            Refusal::NoThread => "a thread couldn't be started",
            Refusal::NotOnline => "the worker is offline",
            Refusal::AlreadyOnline => "the worker is already online",
        };
        f.write_str(text)
    }
}

impl Error for Refusal {}

impl From<AllocError> for Refusal {
    ghost from_gives = { λ _ refusal. refusal ≡ IsMemory };

    fn from(_error: AllocError) -> Self {
        Refusal::Memory
    }
}
