//! A storm: workers look addresses up on threads of their own, round after round, while the writer
//! changes the table on another. Then every answer is held against the versions of the rules.
#![tactic(auto)]

mod plan;
mod results;
mod threads;
mod whole_storm;
mod workers;
mod writer;

pub use plan::{MOST_ANSWERS, Plan, StormError};
pub use whole_storm::run;
