//! The limits of a table, and why a call of the table is refused.
#![tactic(auto)]

mod busy;
mod config;
pub mod laws;
mod refusal;

pub use busy::Busy;
pub use config::{BadConfig, Config, Range};
pub use refusal::Refusal;
