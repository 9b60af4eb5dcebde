//! What a run is made of.

use lpm_limits::Config;
use lpm_rules::Change;
use lpm_trace::{Actor, Deed};

/// What a run is made of.
#[derive(Drop)]
pub struct Plan<const FIRST: u32, const SECOND: u32> {
    /// The limits of the table.
    pub config: Config,
    /// The writer's changes.
    pub changes: Vec<Change<FIRST, SECOND>>,
    /// The deeds of each worker.
    pub scripts: Vec<Vec<Deed>>,
    /// Who makes the next step, item by item.
    pub schedule: Vec<Actor>,
}
