//! The commands of `lpmtool`, over any files and any writer.
#![tactic(auto)]

mod answers;
mod apply_command;
mod explain_command;
mod explanation;
mod lookup_command;
mod migrate_command;
mod refusals;
mod report_command;
mod sorted_rules;
mod storm_command;
mod tables;
mod updates;

pub use apply_command::apply;
pub use explain_command::explain;
pub use explanation::{covering_rules, reading_of};
pub use lookup_command::lookup;
pub use migrate_command::migrate;
pub use report_command::report;
pub use storm_command::storm;
