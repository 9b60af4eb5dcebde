//! A module for each way in which a running table is tried, and for the facade.

mod asserts;
mod beside;
mod cases;
mod changes;
mod facade;
mod groups;
mod initial_rules;
mod large;
mod pieces;
