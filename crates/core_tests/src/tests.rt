//! A module for each crate, or for each way in which a table is tried.

mod asserts;
mod bits;
mod cases;
mod cells;
mod entry;
mod groups;
mod initial_rules;
mod large;
mod laws;
mod limbo;
mod limits;
mod reports;
mod rules;
mod sweep;
mod table;
mod update;
