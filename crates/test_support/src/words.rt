//! Words of a small table, as tests look for them.

/// That of next hop 5 by a rule of length 8.
pub const FIVE: u64 = 0x2100_0005;

/// That of next hop 7 by a rule of length 4.
pub const SEVEN: u64 = 0x1100_0007;

/// That of group 0.
pub const GROUP: u64 = 0x0300_0000;
