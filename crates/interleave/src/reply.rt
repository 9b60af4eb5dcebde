//! What comes of a change.

use defer_queue::Reclaimed;
use lpm_bits::Hop;
use lpm_limits::Refusal;
use lpm_rules::Put;

/// What came of a change of the writer's script.
#[derive(Clone, Copy, Debug, PartialEq, Eq)]
pub enum Reply {
    /// A rule was added, replaced, or there already.
    Put(Put),
    /// The next hop that the deleted rule had.
    Deleted(Hop),
    /// How many rules were taken out.
    Flushed(usize),
    /// What a reclaim freed, and who stopped it.
    Reclaimed(Reclaimed),
    /// Each worker has left behind what was given up before.
    Synchronized,
    /// The change was refused.
    Refused(Refusal),
}
