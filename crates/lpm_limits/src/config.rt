//! The limits of a table.

ghost use Rattle.std.specs.Prelude.{◌↔◌, ◌≡◌, IsOk, IsTrue};
ghost use Rattle.lpm_limits.specs.Limits.{IsConfig, IsIn, default_config};

use std::error::Error;
use std::fmt;

/// A limit of a `Config` outside its range.
#[derive(Clone, Copy, Debug, PartialEq, Eq)]
pub struct BadConfig;

impl fmt::Display for BadConfig {
    fn fmt<W: fmt::Write>(&self, f: &mut fmt::Formatter<W>) -> fmt::Result {
        f.write_str("a limit of the table is outside its range")
    }
}

impl Error for BadConfig {}

/// The numbers that a limit can be, from the first to the last.
#[derive(Clone, Copy, Debug, PartialEq, Eq)]
pub struct Range {
    pub first: u64,
    pub last: u64,
}

impl Range {
    /// Whether the number lies in the range.
    pub fn contains(self, n: u64) -> bool
        ensures { IsTrue result ↔ IsIn self n }
    {
        self.first <= n && n <= self.last
    }
}

/// The limits of a table.
#[derive(Clone, Copy, Debug, PartialEq, Eq)]
pub struct Config {
    /// The greatest number of rules: 1 to 16,777,216.
    pub rules: usize,
    /// The number of groups: 1 to 65,536.
    pub groups: usize,
    /// The number of workers: 0 to 2,048.
    pub workers: usize,
    /// Where more than so many groups are queued, retiring one more reclaims first: 0 to 65,536.
    pub threshold: usize,
    /// The most groups that such a reclaim frees: 1 to 65,536.
    pub reclaim_max: usize,
    /// The token that a table begins with: 1 to `2^62`.
    pub first_token: u64,
}

impl Default for Config {
    ghost is_default = { λ c. c ≡ default_config };

    fn default() -> Self {
        Config {
            rules: 1_048_576,
            groups: 256,
            workers: 1,
            threshold: 32,
            reclaim_max: 16,
            first_token: 1,
        }
    }
}

impl Config {
    /// The range of `rules`.
    pub const RULES: Range = Range {
        first: 1,
        last: 16_777_216,
    };

    /// The range of `groups`.
    pub const GROUPS: Range = Range {
        first: 1,
        last: 65_536,
    };

    /// The range of `workers`.
    pub const WORKERS: Range = Range {
        first: 0,
        last: 2_048,
    };

    /// The range of `threshold`.
    pub const THRESHOLD: Range = Range {
        first: 0,
        last: 65_536,
    };

    /// The range of `reclaim_max`.
    pub const RECLAIM_MAX: Range = Range {
        first: 1,
        last: 65_536,
    };

    /// The range of `first_token`.
    pub const FIRST_TOKEN: Range = Range {
        first: 1,
        last: 1 << 62,
    };

    /// Tests the limits: `BadConfig` exactly where one of them lies outside its range.
    pub fn check(&self) -> Result<(), BadConfig>
        ensures { IsOk result ↔ IsConfig self.now }
    {
        let is_whole = Self::RULES.contains(self.rules as u64)
            && Self::GROUPS.contains(self.groups as u64)
            && Self::WORKERS.contains(self.workers as u64)
            && Self::THRESHOLD.contains(self.threshold as u64)
            && Self::RECLAIM_MAX.contains(self.reclaim_max as u64)
            && Self::FIRST_TOKEN.contains(self.first_token);
        if is_whole { Ok(()) } else { Err(BadConfig) }
    }
}
