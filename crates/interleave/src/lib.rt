//! The pure world: one writer and its workers, who make their steps by a schedule.
#![tactic(auto)]

mod changes;
mod finished_lookups;
mod initial;
pub mod laws;
mod memory;
mod probe;
mod reply;
mod run_error;
mod script;
mod shared_state;
mod synchronize;
mod trace;
mod worker;
mod world;
mod world_memory;

pub use finished_lookups::Seen;
pub use lpm_rules::Change;
pub use lpm_trace::{Actor, Deed, Kind, Step};
pub use reply::Reply;
pub use run_error::RunError;
pub use script::script_ok;
use shared_state::Shared;
pub use trace::Trace;
use worker::Worker;
pub use world::World;
use world_memory::WorldMemory;
