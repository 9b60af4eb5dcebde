//! What a writer keeps of the groups.

use defer_queue::DeferQueue;
use lpm_groups::Groups;

/// The states of the groups, the queue of those in limbo, and the greatest token whose check has passed.
#[derive(Drop)]
pub struct GroupPool {
    pub groups: Groups,
    pub queue: DeferQueue,
    pub passed: u64,
}
