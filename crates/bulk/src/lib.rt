//! Many addresses, answered in pieces on threads: by a table that nothing changes, or by a running one that
//! its writer lets rest meanwhile.
//!
//! The addresses are cut into as many pieces as there are workers, in their order. Each piece is
//! answered by its own call, on its own thread where one can be had, and the answers are joined.
#![tactic(auto)]

mod bulk_error;
mod desk;
mod gate;
mod pieces;
mod plain;
mod running_table;

pub use bulk_error::BulkError;
pub use desk::{Desk, seat_all};
pub use gate::{Gate, Open};
pub use pieces::piece_start;
pub use plain::bulk_plain;
pub use running_table::bulk;
