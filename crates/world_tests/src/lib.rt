//! The tests of `interleave`, of the workers and the memory that it stands on, and of the slow programs
//! that judge its runs (`world_reference`). They call what is public alone, so they stand here: a crate with
//! a test is proved twice.
#![tactic(auto)]

#[cfg(test)]
mod tests;
