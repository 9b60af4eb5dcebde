//! The words of a longest-prefix-match table, made from a whole list of rules at once.
//!
//! A table has two lists of words (DIR-24-8: Gupta, Lin and McKeown, "Routing Lookups in Hardware
//! at Memory Access Speeds", INFOCOM 1998, section 3). [`sweep`] goes once, upwards, over rules
//! that are in the order of their prefixes, and puts each word last in its list. So each word is
//! stored once, where adding the rules one by one stores a word again for each rule that covers it.
//! [`sweep_into`] puts the words into lists of the caller's, whatever keeps them ([`WordList`]).
//!
//! [`in_order`] brings rules into that order. Nothing here changes a table that is in use.
#![tactic(auto)]

mod frames;
mod group_words;
pub mod laws;
mod order;
mod whole_sweep;
mod word_list;

pub use order::{MOST_SORTED, in_order};
pub use whole_sweep::{Swept, sweep, sweep_into};
pub use word_list::WordList;
