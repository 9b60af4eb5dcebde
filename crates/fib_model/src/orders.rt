//! Commands, and what comes of them.

ghost use Rattle.std.specs.Prelude.{◌≡◌};

use defer_queue::Reclaimed;
use lpm_bits::{Hop, Prefix};
use lpm_limits::Refusal;
use lpm_rules::Put;

/// What a worker reports.
#[derive(Clone, Copy, Debug, PartialEq, Eq)]
pub enum ReaderReport {
    /// It begins to look up.
    Online,
    /// It has ended all its lookups.
    Offline,
    /// It has ended its lookups so far.
    Quiescent,
}

/// A command to a table, by the names of an update file.
#[derive(Clone, Copy, Debug, PartialEq, Eq)]
pub enum Order<const FIRST: u32, const SECOND: u32> {
    /// Gives the prefix this next hop.
    Add(Prefix<FIRST, SECOND>, Hop),
    /// Takes out the rule of the prefix.
    Del(Prefix<FIRST, SECOND>),
    /// Takes out all rules, which is one version.
    Flush,
    /// Frees at most so many groups that no worker holds.
    Reclaim(usize),
    /// Tells that the worker of this number begins to look up.
    Online(u32),
    /// Tells that this worker has ended all its lookups.
    Offline(u32),
    /// Tells that this worker has ended its lookups so far.
    Quiescent(u32),
}

/// What came of a command.
#[derive(Clone, Copy, Debug, PartialEq, Eq)]
pub enum Outcome {
    /// The rule is in the list.
    Put(Put),
    /// The rule is out of the list; it had this next hop.
    Deleted(Hop),
    /// All rules are out of the list; there were so many.
    Flushed(usize),
    /// So many groups are free again.
    Reclaimed(Reclaimed),
    /// The report was taken.
    Told,
    /// The change or the report was refused.
    Refused(Refusal),
}
