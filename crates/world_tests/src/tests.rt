//! A module for each kind of run, and for the slow programs.

mod asserts;
mod cases;
mod deciders;
mod ends;
mod faults;
mod many;
mod plan;
mod unlawful;
