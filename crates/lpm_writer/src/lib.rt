//! The writer of a table, over any memory.
#![tactic(auto)]

mod changes;
mod control;
mod exhaustion;
mod grace;
mod initial_state;
mod limbo;
mod links;
mod memory;
mod open_error;
mod plain_memory;
mod pool;
mod synchronize;

pub use control::{ControlState, add_rule, delete_rule, flush_rules, reclaim_groups};
pub use exhaustion::Exhausted;
pub use initial_state::open_memory;
pub use memory::Memory;
pub use open_error::OpenError;
pub use plain_memory::PlainMemory;
pub use pool::GroupPool;
pub use synchronize::{check_synchronize, start_synchronize};
