//! How figures are made of times, and printed.

use std::fmt;
use std::time::Duration;

/// A number of hundredths, which is printed with two decimals.
#[derive(Clone, Copy)]
pub(crate) struct Hundredths(pub u64);

impl fmt::Display for Hundredths {
    fn fmt<W: fmt::Write>(&self, f: &mut fmt::Formatter<W>) -> fmt::Result {
        let whole = self.0 / 100;
        let rest = self.0 % 100;
        write!(f, "{whole}.{rest:02}")
    }
}

/// The nanoseconds that each of so many calls took, in hundredths.
pub(crate) fn hundredths_of_nanos(time: Duration, count: usize) -> u64 {
    nanos(time).saturating_mul(100) / (count as u64).max(1)
}

/// How often the second goes into the first, in hundredths.
pub(crate) fn ratio(first: u64, second: u64) -> u64 {
    first.saturating_mul(100) / second.max(1)
}

/// The time's milliseconds, in hundredths.
pub(crate) fn hundredths_of_millis(time: Duration) -> u64 {
    nanos(time) / 10_000
}

/// How many of the calls were made in a second, where so many took the time.
pub(crate) fn each_second(time: Duration, count: usize) -> u64 {
    (count as u64).saturating_mul(1_000_000_000) / nanos(time).max(1)
}

/// The time's nanoseconds: as many as there are numbers for where it has more.
pub(crate) fn nanos(time: Duration) -> u64 {
    u64::try_from(time.as_nanos()).unwrap_or(u64::MAX)
}
