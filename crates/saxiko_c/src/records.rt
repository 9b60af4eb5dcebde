//! What C hands over, and what it is told, beside handles and numbers.

ghost use Rattle.std.specs.Prelude.{◌≡◌, ◌+◌};
ghost use Rattle.saxiko_c.specs.Status.{config_of};

use lpm_limits::Config;

/// The limits of a table: `struct saxiko_config` in C.
#[repr(C)]
#[derive(Clone, Copy)]
pub struct SaxikoConfig {
    /// The greatest number of rules: 1 to 16,777,216.
    pub rules: u32,
    /// The number of groups: 1 to 65,536.
    pub groups: u32,
    /// The number of readers of a running table: 0 to 2,048.
    pub readers: u32,
    /// Where more than so many groups wait, giving one more up reclaims first: 0 to 65,536.
    pub threshold: u32,
    /// The most groups that such a reclaim frees: 1 to 65,536.
    pub reclaim_max: u32,
}

impl SaxikoConfig {
    /// The limits of a table with so many readers, whose first token is 1.
    pub(crate) fn with_readers(&self, readers: u32) -> Config
        ensures { result ≡ config_of self.now readers }
    {
        Config {
            rules: self.rules as usize,
            groups: self.groups as usize,
            workers: readers as usize,
            threshold: self.threshold as usize,
            reclaim_max: self.reclaim_max as usize,
            first_token: 1,
        }
    }
}

/// A route, of a list that is loaded or as a rule is told: `struct saxiko_route` in C.
#[repr(C)]
#[derive(Clone, Copy)]
pub struct SaxikoRoute {
    /// An address of the prefix.
    pub addr: u32,
    /// The next hop, below 16,777,216.
    pub hop: u32,
    /// The depth of the prefix: 0 to 32.
    pub depth: u8,
}

/// What a table counts: `struct saxiko_counts` in C.
#[repr(C)]
#[derive(Clone, Copy)]
pub struct SaxikoCounts {
    /// The rules.
    pub rules: u64,
    /// The changes that made a version of the rule list.
    pub versions: u64,
    /// The token: 1, and for each group that was given up and each grace period one more.
    pub token: u64,
    /// The groups that rules longer than 24 bits use.
    pub groups_in_use: u64,
    /// The groups that wait until no reader holds them.
    pub groups_waiting: u64,
    /// The groups that are free.
    pub groups_free: u64,
}

/// The versions that answers lie between: `struct saxiko_span` in C.
#[repr(C)]
#[derive(Clone, Copy)]
pub struct SaxikoSpan {
    /// How many changes were done when the lookup began.
    pub lo: u64,
    /// How many changes were begun when it ended.
    pub hi: u64,
}

/// The reader that keeps a group from being free, or a grace period from being over: `struct saxiko_held` in C.
#[repr(C)]
#[derive(Clone, Copy)]
pub struct SaxikoHeld {
    /// The number of the reader.
    pub reader: u64,
    /// The token of its last report.
    pub counter: u64,
}
