//! A slow and plain program that judges runs of the pure world, with the deciders of traces that it judges
//! by. It goes through the steps of a run again for each question, and keeps no tables.
#![tactic(auto)]

// deciders of traces
mod answers;
mod deeds;
mod initial;
mod memory;
mod moment;
mod order;
mod progress;
mod reuse;
mod versions;

// the judge of a run
mod judge_error;
mod slow_writer;
mod verdict;

pub use answers::{FinishedLookup, is_legal, lookups, never_falls};
pub use deeds::{deeds_are_done, deeds_are_sound};
pub use initial::InitialState;
pub use judge_error::JudgeError;
pub use memory::loads_are_stores;
pub use order::writes_in_order;
pub use reuse::reuse_is_lawful;
pub use verdict::judge;
pub use versions::{PlainRule, Versions, version_at};
