//! A run of the program `lpmtool`, over any files and any writers.
#![tactic(auto)]

pub mod run;
