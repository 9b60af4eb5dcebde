//! The words that the writer and its workers share.

use lpm_cells::PlainCells;

/// The words of the two tables, the sequence and the token. Each worker keeps its own counter.
#[derive(Drop)]
pub struct Shared<const FIRST: u32, const SECOND: u32> {
    /// The words of the first table, one for each block, and those of the groups.
    pub cells: PlainCells<FIRST, SECOND>,
    /// Counts up as an update begins and as it is done: odd while one runs.
    pub sequence: u64,
    /// The newest token. A report stores the one that it has loaded, which may be older by then.
    pub token: u64,
}
