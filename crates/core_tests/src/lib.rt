//! The tests of `fib` and of the crates below it. They call what is public alone, so they stand here: a crate with a
//! test is proved twice.
#![tactic(auto)]

#[cfg(test)]
mod tests;
