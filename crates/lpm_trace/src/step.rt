//! The steps of one writer and its workers. Each is one load or one store of one word. Beside the
//! word that was loaded or stored a step tells which part of a command or a report it is. No value
//! of a step is made: it is what a definition speaks of.

use std::collections::LinkedList;

/// The change of the rules that an update makes. A writer hands it to its memory when the update begins.
#[derive(Clone, Copy)]
pub enum RuleChange {
    /// The rule of this prefix, its bits and its length, gets this next hop.
    Put(u64, u64, u64),
    /// The rule of this prefix is taken out.
    TakeOut(u64, u64),
    /// All rules are taken out.
    Clear,
}

/// A step of the writer.
pub enum WriterStep {
    /// A first word is stored: its index and the word.
    StoreFirst(u64, u64),
    /// A second word is stored: its index and the word.
    StoreSecond(u64, u64),
    /// The sequence is bumped: the update of this change begins.
    BeginUpdate(RuleChange),
    /// The sequence is bumped: the update is done.
    EndUpdate,
    /// The token is bumped.
    BumpToken,
    /// In a check of a token, the counter of a worker is loaded: the token, the worker, the counter.
    LoadCounter(u64, u64, u64),
}

/// A step of a worker.
pub enum WorkerStep {
    /// In a report that it is online, it loads the token.
    LoadOnline(u64),
    /// In that report, it stores the token in its counter.
    StoreOnline(u64),
    /// In a quiescent report, it loads the token.
    LoadQuiescent(u64),
    /// In that report, it stores the token in its counter.
    StoreQuiescent(u64),
    /// In a report that it is offline, it stores 0 in its counter.
    StoreOffline,
    /// It loads the sequence: a lookup of these addresses begins.
    BeginLookup(LinkedList<u64>, u64),
    /// It loads the first word of the next address.
    LoadFirst(u64),
    /// It loads the second word of the next address that has a group.
    LoadSecond(u64),
    /// It loads the sequence: the lookup ends.
    EndLookup(u64),
    /// It loads the sequence to meet the writer.
    MeetWriter(u64),
}

/// A step of the writer, or of the worker of this number.
pub enum TraceStep {
    Writer(WriterStep),
    Worker(u64, WorkerStep),
}
