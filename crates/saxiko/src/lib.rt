//! Saxiko: an IPv4 route table for longest-prefix match (DIR-24-8), and all that a program needs to use it.
//!
//! [`Table`] is the table of one thread. [`Owner`] and [`Reader`] are a running table: the owner changes it
//! while each reader looks up on a thread of its own, with no lock.
//!
//! The other types are those of the crates below, of which this one names what a program calls.
#![tactic(auto)]

mod grace;
mod load;
mod owner;
mod reader;

pub use defer_queue::Reclaimed;
pub use grace::{GracePeriod, Held, NotStarted};
pub use lpm_bits::{BadHop, BadLength, Hop, ParseError};
pub use lpm_groups::Counts;
pub use lpm_limits::{BadConfig, Busy, Config, Range, Refusal};
pub use lpm_rules::{Answer, Put};
pub use lpm_writer::{Exhausted, OpenError};
pub use owner::Owner;
pub use reader::Reader;
pub use shared_fib::{Burst, FourHops};

/// A prefix: the IPv4 addresses that share its first `len` bits. It prints and parses as `10.0.0.0/8`.
pub type Prefix = lpm_bits::Prefix<24, 8>;

/// A rule: the addresses of its `prefix` go to its `hop`, unless a longer rule covers them.
pub type Rule = lpm_rules::Rule<24, 8>;

/// An IPv4 route table for one thread, which changes it between its lookups.
pub type Table = fib::Fib<24, 8>;
