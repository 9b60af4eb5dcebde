//! Why a run isn't accepted.

use lpm_trace::Kind;
use std::alloc::{AllocError, AllocFailed};

/// Why a run isn't accepted.
#[derive(Clone, Copy, Debug, PartialEq, Eq)]
pub enum JudgeError {
    /// An item of the schedule made no step, though its actor made one later; or a step has no item.
    Schedule,
    /// A load doesn't give what was stored last, or an actor makes a step that isn't of its kinds.
    Loads,
    /// Within an update a store to the first words, or to the words of one group, isn't above those
    /// before it.
    Stores,
    /// A group is written again within its grace period.
    Reuse,
    /// The writer's stores, tokens and checks don't stand in the order of updates.
    Writes,
    /// The writer's next step is of this kind, and the change makes one of another kind.
    Kind {
        /// The kind of the step.
        found: Kind,
        /// The kind that the change makes.
        wanted: Kind,
    },
    /// A check loads the counter of this worker, and it isn't that worker's turn.
    Turn {
        /// The worker whose counter is loaded.
        found: u64,
        /// The worker whose turn it is.
        wanted: usize,
    },
    /// A store links this group, which isn't the least that is free.
    Link {
        /// The group that the store links.
        found: u32,
        /// The least group that is free.
        wanted: Option<u32>,
    },
    /// The writer has made fewer steps than its items and the changes lead to, or more.
    Length,
    /// The replies aren't those that the changes and the writer's steps tell.
    Replies,
    /// The steps of this worker aren't those of its deeds, or not as many as its items lead to.
    Deeds(usize),
    /// The run doesn't show what the steps of this worker tell of its lookups.
    Lookups(usize),
    /// A lookup of this worker answers by no version that stood meanwhile, or by an older one than a
    /// lookup before it.
    Versions(usize),
    /// The run shows lookups of no worker, or not in the order in which they ended.
    Order,
    /// There is too little memory to judge the run.
    Memory,
}

impl From<AllocError> for JudgeError {
    fn from(_error: AllocError) -> Self {
        Self::Memory
    }
}

impl<T: Drop> From<AllocFailed<T>> for JudgeError {
    fn from(_error: AllocFailed<T>) -> Self {
        Self::Memory
    }
}

/// An error where a decider refuses the run.
pub(crate) fn accept(is_accepted: bool, error: JudgeError) -> Result<(), JudgeError> {
    if is_accepted { Ok(()) } else { Err(error) }
}
