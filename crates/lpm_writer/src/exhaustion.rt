//! Why no token was started.

use std::error::Error;
use std::fmt;

/// Fewer tokens than groups are left.
#[derive(Clone, Copy, Debug, PartialEq, Eq)]
pub struct Exhausted;

impl fmt::Display for Exhausted {
    fn fmt<W: fmt::Write>(&self, f: &mut fmt::Formatter<W>) -> fmt::Result {
        f.write_str("tokens are exhausted")
    }
}

impl Error for Exhausted {}
