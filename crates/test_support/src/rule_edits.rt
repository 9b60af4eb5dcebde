//! Worked changes of a small table: of the rule of a block, and of longer rules in it, for which the block takes a
//! group.

use super::routes::{ADDED, Change};
use super::rule_lists::Plain;
use lpm_rules::Put;

/// A change, and its rule.
pub type RuleEdit = (Change, Plain);

/// The rule of a block.
pub const COVER: RuleEdit = (ADDED, (0x10, 4, 7));

/// The rule of an address in that block, which takes a group.
pub const FILLED: RuleEdit = (ADDED, (0x12, 8, 5));

/// The block gets another next hop, under the rule of the address.
pub const UNDER_A_GROUP: &[RuleEdit] = &[COVER, FILLED, (Change::Add(Put::Replaced), (0x10, 4, 3))];

/// The group stays while a second rule longer than 4 bits is left in its block, and goes with that rule.
pub const COLLAPSE: &[RuleEdit] = &[
    COVER,
    FILLED,
    (ADDED, (0x10, 6, 6)),
    (Change::Delete, (0x12, 8, 5)),
    (Change::Delete, (0x10, 6, 6)),
];

/// The rule of an address, and then that of all addresses.
pub const DEFAULT_UNDER_A_GROUP: &[RuleEdit] = &[FILLED, (ADDED, (0x00, 0, 9))];
