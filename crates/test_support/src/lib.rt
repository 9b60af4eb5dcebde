//! What the tests of several crates share. Only a function of a test may end the process, so those that assert
//! stand in each crate of tests, and these hand out what they compare.
#![tactic(auto)]

mod edits;
mod figures;
mod many;
mod meeting;
pub mod plans;
mod routes;
mod rule_edits;
mod rule_lists;
pub mod words;

pub use edits::Edit;
pub use figures::{Figures, figures_with};
pub use many::{MANY, MANY_LIMITS, block, many_plain, many_rules, second_half};
pub use meeting::Meeting;
pub use routes::{
    ADDED, AMPLE, Change, DEEP, DEFAULT_HOP, FOUR, FOUR_HOPS, FOUR_NUMBERS, HOPS, LIMITS, Opening,
    ROUTES, Row, SHORT, STEPS, Step, THREE, USUAL, bad_limits, limits, openings,
};
pub use rule_edits::{COLLAPSE, COVER, DEFAULT_UNDER_A_GROUP, FILLED, RuleEdit, UNDER_A_GROUP};
pub use rule_lists::{
    Drawing, Plain, are_in_order, draw, drawn_rules, hop, hop_number, other_hop, prefix, probes,
    rule_of, rules_of,
};
