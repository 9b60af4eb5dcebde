//! What comes of each command of a table: the order of checks, what waits in limbo and for whom, and
//! which versions there were. The tables themselves are the crates `fib`, of one thread, and
//! `shared_fib`, beside readers. A slow program that computes the same is the crate `fib_reference`.
#![tactic(auto)]

mod event;
pub mod laws;
mod orders;

pub use event::Event;
pub use orders::{Order, Outcome, ReaderReport};
