//! The tests of the running table, and of addresses answered in pieces. They call what is public alone,
//! so they stand here: a crate with a test is proved twice.
#![tactic(auto)]

#[cfg(test)]
mod tests;
