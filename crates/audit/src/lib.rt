//! What a table is held against: the answers of a plain search through the rules, the versions of a
//! history that explain an answer, and a report of its counts as text.
#![tactic(auto)]

mod answers;
mod events;
mod past;
mod report;
mod wrong_answers;

pub use answers::expect;
pub use past::Past;
pub use report::{StormReport, TableCounts, report_text, storm_text};
pub use wrong_answers::wrong;
