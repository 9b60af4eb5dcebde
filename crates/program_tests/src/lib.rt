//! The tests of the crates that the program is made of: files and words of the command line, threads that
//! answer at once, and what runs of the built program can't show, as files and writers that fail at each of
//! their calls. They call what is public alone, so they stand here: a crate with a test is proved twice. The
//! worked cases are runs of the built program (`tools/cases.py`).
#![tactic(auto)]

#[cfg(test)]
mod tests;
