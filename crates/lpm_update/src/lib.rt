//! Changes of a table, one store of one word a step.
#![tactic(auto)]

mod flush;
pub mod laws;
mod link_group;
mod rewrite;
mod rewrite_range;
mod unlink_group;
mod update;

use flush::Flush;
use link_group::LinkGroup;
use rewrite::{Kind, Rewrite, WordRewrite};
use rewrite_range::RewriteRange;
use unlink_group::UnlinkGroup;
pub use update::Update;

/// What a step did.
#[derive(Clone, Copy, Debug, PartialEq, Eq)]
pub enum Did {
    /// It stored the first word at this place.
    First(usize),
    /// It stored the second word at this place.
    Second(usize),
    /// It stored over the link of a block to a group, which no block has from now on.
    Unlinked { block: usize, group: u32 },
    /// There was nothing left to store.
    Done,
}
