//! The table for C programs: that of one thread, and the running one.
//!
//! C holds a table by a handle, memory of its own that is all zero while the handle is closed. Each call is
//! handed the handle; `saxiko.h` says who may call what.
#![tactic(auto)]

mod bursts;
mod grace;
mod grace_calls;
mod handle;
mod handles;
mod insertion_calls;
mod insertions;
mod load;
mod matches;
mod matches_calls;
mod owner;
mod raw_box;
mod records;
mod running_table;
mod running_table_calls;
mod stage;
mod status;
mod table;
mod table_calls;
mod walk;
mod walk_calls;

pub use grace_calls::{saxiko_proved_writer_check, saxiko_proved_writer_start};
pub use handles::{SaxikoReader, SaxikoTable, SaxikoWriter};
pub use insertion_calls::{saxiko_proved_table_insert, saxiko_proved_writer_insert};
pub use matches_calls::{saxiko_proved_table_lookup_rule, saxiko_proved_writer_lookup_rule};
pub use records::{SaxikoConfig, SaxikoCounts, SaxikoHeld, SaxikoRoute, SaxikoSpan};
pub use running_table_calls::{
    saxiko_proved_reader_close, saxiko_proved_reader_lookup, saxiko_proved_reader_lookup_bulk,
    saxiko_proved_reader_lookup_bulk_span, saxiko_proved_reader_lookup_span,
    saxiko_proved_reader_offline, saxiko_proved_reader_online, saxiko_proved_reader_quiescent,
    saxiko_proved_reader_register, saxiko_proved_reader_unregister, saxiko_proved_writer_add,
    saxiko_proved_writer_close, saxiko_proved_writer_counts, saxiko_proved_writer_delete,
    saxiko_proved_writer_flush, saxiko_proved_writer_get, saxiko_proved_writer_load,
    saxiko_proved_writer_open, saxiko_proved_writer_reclaim,
};
pub use table_calls::{
    saxiko_proved_table_add, saxiko_proved_table_close, saxiko_proved_table_counts,
    saxiko_proved_table_delete, saxiko_proved_table_flush, saxiko_proved_table_get,
    saxiko_proved_table_load, saxiko_proved_table_lookup, saxiko_proved_table_lookup_bulk,
    saxiko_proved_table_open, saxiko_proved_table_reclaim,
};
pub use walk_calls::{
    saxiko_proved_table_first_rule, saxiko_proved_table_next_rule, saxiko_proved_writer_first_rule,
    saxiko_proved_writer_next_rule,
};
