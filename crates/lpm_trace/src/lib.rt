//! The traces of one writer and its workers, step by step, and the law of each of them.
#![tactic(auto)]

mod deed;
pub mod laws;
mod shown_step;
mod step;

pub use deed::Deed;
pub use shown_step::{Actor, Kind, Step};
pub use step::{RuleChange, TraceStep, WorkerStep, WriterStep};
