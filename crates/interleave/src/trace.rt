//! What a run shows.

use super::Reply;
use crate::Seen;
use lpm_trace::Step;

/// What a run shows. A change without a reply, and what comes after it in the writer's script, needed
/// more steps than the schedule has items for the writer.
#[derive(Drop)]
pub struct Trace {
    /// Each step of the writer and its workers, in the order in which they were made.
    pub steps: Vec<Step>,
    /// The replies to the first changes of the writer's script, in its order.
    pub replies: Vec<Reply>,
    /// The finished lookups, one for each address, in the order in which they ended.
    pub lookups: Vec<Seen>,
}
