//! The table for one thread: rules, the words that answer them, readers' reports, and the groups
//! that wait in limbo until no reader can hold them.
#![tactic(auto)]

mod fib;
mod lookups;
mod orders;
mod parts;
mod replay;

pub use fib::Fib;
pub use parts::{control_of_blocks, sorted_rules};
pub use replay::Replay;
