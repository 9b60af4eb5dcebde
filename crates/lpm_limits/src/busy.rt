//! What holds a token back.

use std::error::Error;
use std::fmt;

/// A worker that holds a token back, and the counter that was loaded: not 0, and below the token.
#[derive(Clone, Copy, Debug, PartialEq, Eq)]
pub struct Busy {
    /// The worker's number, from 0.
    pub worker: usize,
    /// The worker's counter: the token of its last report.
    pub counter: u64,
}

impl fmt::Display for Busy {
    fn fmt<W: fmt::Write>(&self, f: &mut fmt::Formatter<W>) -> fmt::Result {
        write!(f, "worker {} at counter {}", self.worker, self.counter)
    }
}

impl Error for Busy {}
