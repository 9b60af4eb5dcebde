//! What a seat of the table knows. No value of these types is made: a view is what a contract speaks of.

use crate::initial::InitialData;
use lpm_trace::{WorkerStep, WriterStep};
use std::collections::LinkedList;

/// Whose seat it is.
pub enum Role {
    /// The writer's.
    Writer,
    /// That of the worker of this number.
    Worker(u64),
    /// A note that one seat leaves for another.
    Note,
}

/// What a seat knows. Lists have the newest step first.
pub struct View {
    /// What the table was opened with.
    pub initial: InitialData,
    /// Whose seat it is.
    pub role: Role,
    /// How many workers' seats were made, for the writer.
    pub made: u64,
    /// A worker's own steps, each with its place: how many of the writer's steps were made before it.
    pub own_steps: LinkedList<(WorkerStep, u64)>,
    /// The steps of the writer that this seat has seen. The writer's own seat has seen all.
    pub writer_steps: LinkedList<WriterStep>,
    /// The steps of the writer that this seat has heard of, by a note of another seat.
    pub heard: LinkedList<WriterStep>,
}
