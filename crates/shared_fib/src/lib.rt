//! A running table: one writer changes it while workers look up.
//!
//! The table's words are shared (`shared_words`). Its writer keeps the control state of `lpm_writer` and the
//! writer's seat, and makes each command by way of `SharedMemory`: the same engine as that of one thread.
//! Each worker has a pass, by which it reports and looks up.
#![tactic(auto)]

mod bench;
mod bursts;
mod grace;
mod initial;
mod initial_rules;
mod initial_table;
pub mod laws;
mod memory;
mod packed_words;
mod pairs;
mod pass;
mod queries;
mod shared_memory;
mod synchronize;
mod table;
mod word_list;
mod writer;

pub use bench::{Bench, RegisterError};
pub use bursts::Burst;
pub use grace::{GracePeriod, Held, NotStarted};
pub use initial::{go_live, open};
pub use initial_rules::open_sorted;
use initial_table::InitialTable;
use pairs::Pairs;
pub use pass::{FourHops, Pass};
use shared_memory::SharedMemory;
pub use table::SharedTable;
pub use writer::Writer;
