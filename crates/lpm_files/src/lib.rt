//! Files that are read and parsed, texts that are written, and what ends a run.
//!
//! A file of addresses or of routes is parsed, and answers are written, in pieces on several threads. What comes of
//! it is what one thread gives: the same list or the same first fault, and the same text.
//!
//! Each call takes any files or any writer, so that tests can break a read or a write at any call.
#![tactic(auto)]

mod addresses;
mod answers;
mod failure;
mod files;
mod inputs;
mod lines;
mod pieces;
mod routes;

pub use answers::answers_text_on;
pub use failure::{Failure, USAGE};
pub use files::{Files, put_text};
pub use inputs::{
    Addresses, FileKind, OldUpdates, Routes, Updates, read_addresses_on, read_list, read_routes_on,
};
