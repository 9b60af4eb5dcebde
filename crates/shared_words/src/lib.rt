//! The words of a table that one writer changes while workers look up, and the rule that they keep.
//!
//! The words lie one behind the other in a table of the kit's `atomic_table`: the sequence, the token, the
//! first words, the second words, and the counter of each worker. Two first words, or two second words,
//! share one of them. Each load and each store is one atomic step. The rule is that there is a trace of
//! `lpm_trace` after which the words are these, and which has the steps of each seat: the writer's seat
//! knows all steps of the writer, a worker's all of its own, each with its place, that is, how many of the
//! writer's steps it had seen then. So each law of all traces holds of the running table.
//!
//! No call here waits, and none but `open` takes memory.
#![tactic(auto)]

mod address;
mod four_addresses;
mod initial;
mod layout;
mod reports;
mod trace_rule;
mod view;
mod words;
mod worker;
mod writer;

pub use address::lookup_address;
pub use four_addresses::{FourAnswers, lookup_four_addresses};
pub use initial::{InitialContent, InitialData};
pub use layout::{Layout, pairs};
pub use reports::{report_offline, report_online, report_quiescent};
pub use view::{Role, View};
pub use words::{SharedWords, open};
pub use worker::WorkerSeat;
pub use writer::WriterSeat;
