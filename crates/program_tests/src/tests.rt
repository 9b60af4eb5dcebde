//! A module for each crate or way of failing, and what they share.

mod asserts;
mod audits;
mod cases;
mod command_lines;
mod explain;
mod failures;
mod fakes;
mod files;
mod known_files;
mod meeting;
mod pieces;
mod refusals;
mod words;
mod wrong_answers;
