//! Worked lists of rules, and limits for them.

use super::rule_lists::Plain;
use lpm_limits::Config;
use lpm_rules::Put;
use lpm_writer::OpenError;
use std::alloc::Global;

/// 0.0.0.0/0, 10.0.0.0/8, 10.1.0.0/16 twice and 10.1.1.128/25.
pub static ROUTES: [Plain; 5] = [
    (0, 0, 1),
    (0x0a00_0000, 8, 2),
    (0x0a01_0000, 16, 3),
    (0x0a01_0000, 16, 4),
    (0x0a01_0180, 25, 5),
];

/// 10.0.0.0/8, 10.1.0.0/16 and 10.1.1.128/25.
pub static THREE: [Plain; 3] = [
    (0x0a00_0000, 8, 1),
    (0x0a01_0000, 16, 2),
    (0x0a01_0180, 25, 3),
];

/// 10.1.1.128, 11.0.0.0, 10.1.1.127 and 10.2.0.0.
pub const FOUR: [u32; 4] = [0x0a01_0180, 0x0b00_0000, 0x0a01_017f, 0x0a02_0000];

/// The numbers of their next hops by the three routes; none for a miss.
pub static FOUR_NUMBERS: [Option<u32>; 4] = [Some(3), None, Some(2), Some(1)];

/// The default of a lookup of four addresses at once: the number for a miss.
pub const DEFAULT_HOP: u32 = 99;

/// The same numbers, with the default for the miss.
pub const FOUR_HOPS: [u32; 4] = [3, DEFAULT_HOP, 2, 1];

/// An address, and the number of its next hop.
pub type Row = (u32, u32);

/// Addresses, and the next hops that the routes give them.
pub static HOPS: [Row; 13] = [
    (0, 1),
    (0x09ff_ffff, 1),
    (0x0a00_0000, 2),
    (0x0a00_ffff, 2),
    (0x0a01_0000, 4),
    (0x0a01_017f, 4),
    (0x0a01_0180, 5),
    (0x0a01_01ff, 5),
    (0x0a01_0200, 4),
    (0x0a01_ffff, 4),
    (0x0a02_0000, 2),
    (0x0b00_0000, 1),
    (0xffff_ffff, 1),
];

/// The limits by default.
pub const USUAL: Config = Config {
    rules: 1_048_576,
    groups: 256,
    workers: 1,
    threshold: 32,
    reclaim_max: 16,
    first_token: 1,
};

/// Room for seven rules, and for the groups of two blocks.
pub const LIMITS: Config = Config {
    rules: 7,
    groups: 2,
    first_token: 7,
    ..USUAL
};

/// What a change does to the rule of its prefix.
#[derive(Clone, Copy)]
pub enum Change {
    /// The rule is put in, and this comes of it.
    Add(Put),
    /// The rule, which is there, goes.
    Delete,
}

/// A rule is put in that is new.
pub const ADDED: Change = Change::Add(Put::Added);

/// A change, its rule, and three addresses with their next hops after it.
pub type Step = (Change, Plain, &'static [Row]);

/// Changes of a table with the routes. A rule in the block that has a group, one in another block, another
/// next hop of 10.0.0.0/8, and 172.16.0.0/12. Then 10.1.0.0/16 and the two longer rules in it go. A rule in
/// another block has their group.
pub static STEPS: [Step; 8] = [
    (
        ADDED,
        (0x0a01_0100, 26, 8),
        &[(0x0a01_013f, 8), (0x0a01_0140, 4), (0x0a01_0180, 5)],
    ),
    (
        ADDED,
        (0xac10_0001, 32, 9),
        &[(0xac10_0000, 1), (0xac10_0001, 9), (0xac10_0002, 1)],
    ),
    (
        Change::Add(Put::Replaced),
        (0x0a00_0000, 8, 10),
        &[(0x0a00_0000, 10), (0x0a01_0000, 4), (0x0a02_0000, 10)],
    ),
    (
        ADDED,
        (0xac10_0000, 12, 11),
        &[(0xac10_0001, 9), (0xac1f_ffff, 11), (0xac20_0000, 1)],
    ),
    (
        Change::Delete,
        (0x0a01_0000, 16, 4),
        &[(0x0a01_0000, 10), (0x0a01_0140, 10), (0x0a01_0180, 5)],
    ),
    (
        Change::Delete,
        (0x0a01_0180, 25, 5),
        &[(0x0a01_0100, 8), (0x0a01_0140, 10), (0x0a01_0180, 10)],
    ),
    (
        Change::Delete,
        (0x0a01_0100, 26, 8),
        &[(0x0a01_0100, 10), (0x0a01_0180, 10), (0xac10_0001, 9)],
    ),
    (
        ADDED,
        (0xc0a8_0000, 25, 12),
        &[(0xc0a8_007f, 12), (0xc0a8_0080, 1), (0x0a01_0100, 10)],
    ),
];

/// Seven rules, one of which comes twice. Five are longer than 4 bits, in three blocks.
pub static DEEP: [Plain; 8] = [
    (0x10, 4, 1),
    (0x20, 4, 2),
    (0x20, 4, 3),
    (0x34, 6, 4),
    (0x35, 8, 5),
    (0x38, 5, 6),
    (0x50, 8, 7),
    (0xff, 8, 8),
];

/// Two rules, one of which comes twice, and none that needs a group.
pub static SHORT: [Plain; 3] = [(0x10, 4, 1), (0x20, 4, 2), (0x20, 4, 3)];

/// Room for as many rules and groups; each other limit is the usual one.
pub fn limits(rules: usize, groups: usize) -> Config {
    Config {
        rules,
        groups,
        ..Config::default()
    }
}

/// Rules, limits, and what comes of opening a table with these rules within them: it opens, there are more rules or
/// blocks than it may have, or the limits are refused.
pub type Opening = (&'static [Plain], Config, Result<bool, OpenError>);

// Each list has a row where the rules just fit, and one with too few of a limit.
fn rooms() -> [Opening; 5] {
    [
        (&DEEP, limits(7, 3), Ok(true)),
        (&DEEP, limits(6, 3), Ok(false)),
        (&DEEP, limits(7, 2), Ok(false)),
        (&SHORT, limits(2, 1), Ok(true)),
        (&SHORT, limits(1, 1), Ok(false)),
    ]
}

/// Openings where the rules just fit, where there are too few of a limit, and where one is just outside its range.
/// `None` without memory.
pub fn openings(alloc: Global) -> Option<Vec<Opening>> {
    let mut openings = Vec::from_slice(alloc, &rooms()).ok()?;
    for config in bad_limits() {
        let refused = Err(OpenError::BadConfig);
        openings.push((&DEEP, config, refused)).ok()?;
    }
    Some(openings)
}

/// Limits around seven rules and three groups. Each has one just outside its range, and the last too few rules
/// too.
pub fn bad_limits() -> [Config; 11] {
    let good = limits(7, 3);
    [
        limits(0, 3),
        limits(16_777_217, 3),
        limits(7, 0),
        limits(7, 65_537),
        Config {
            workers: 2_049,
            ..good
        },
        Config {
            threshold: 65_537,
            ..good
        },
        Config {
            reclaim_max: 0,
            ..good
        },
        Config {
            reclaim_max: 65_537,
            ..good
        },
        Config {
            first_token: 0,
            ..good
        },
        Config {
            first_token: (1 << 62) + 1,
            ..good
        },
        limits(6, 0),
    ]
}

/// Room for each rule and block of a drawn list.
pub const AMPLE: Config = Config {
    rules: 100,
    groups: 16,
    workers: 1,
    threshold: 2,
    reclaim_max: 1,
    first_token: 1,
};
