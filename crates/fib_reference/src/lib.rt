//! A slow program that computes the outcomes of commands to a table of one thread. It keeps the list of all
//! events, and goes over that list for each question. The tests of the table compare its outcomes with
//! these, and both with cases that were worked out by hand.
#![tactic(auto)]

mod accounts;
mod intervals;
mod limbo;
mod plain;

pub use accounts::account_of;
pub use plain::Account;
