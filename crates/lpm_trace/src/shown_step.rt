//! Steps as a run shows them: who made it, its kind, the word and the value.

/// Who makes a step.
#[derive(Clone, Copy, Debug, PartialEq, Eq)]
pub enum Actor {
    /// The one writer.
    Writer,
    /// The worker of this number, from 0.
    Worker(usize),
}

/// The ten kinds of step. Each is one load or one store of one word.
#[derive(Clone, Copy, Debug, PartialEq, Eq)]
pub enum Kind {
    /// The writer stores a first word.
    StoreFirst,
    /// The writer stores a second word.
    StoreSecond,
    /// The writer stores the sequence plus 1: an update begins, or it is done.
    BumpSequence,
    /// A worker loads a first word.
    LoadFirst,
    /// A worker loads a second word.
    LoadSecond,
    /// A worker loads the sequence.
    LoadSequence,
    /// The writer stores the token plus 1.
    BumpToken,
    /// The writer loads the counter of a worker.
    LoadCounter,
    /// A worker loads the token.
    LoadToken,
    /// A worker stores its own counter.
    StoreCounter,
}

/// A step: its actor, its kind, the index of its word and the value that was loaded or stored. The
/// index is 0 for the sequence and the token, and the worker's number for a counter.
#[derive(Clone, Copy, Debug, PartialEq, Eq)]
pub struct Step {
    pub actor: Actor,
    pub kind: Kind,
    pub index: u64,
    pub value: u64,
}
