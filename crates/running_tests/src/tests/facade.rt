//! The facade (`saxiko`): each call that takes memory on small and on large input, and each other once, on one
//! thread and on a running table. These modules name no crate below it, as a program that uses it.

mod grace;
mod large;
mod running_table;
mod single;
mod walk;

use super::asserts::assert_at;
use saxiko::{Config, Rule};
use test_support::{hop, prefix};

/// Four groups, and two workers.
fn limits() -> Config {
    Config {
        groups: 4,
        workers: 2,
        ..Config::default()
    }
}

/// The rule of this prefix and next hop.
fn rule(bits: u32, len: u32, number: u32) -> Rule {
    Rule {
        prefix: prefix(bits, len),
        hop: hop(number),
    }
}

/// 10.1.128.128/25 to next hop 2, and 10.0.0.0/8 to next hop 1.
fn two_rules() -> [Rule; 2] {
    [rule(0x0a01_8080, 25, 2), rule(0x0a00_0000, 8, 1)]
}
