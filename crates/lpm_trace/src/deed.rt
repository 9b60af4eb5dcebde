//! What a worker does in a run, of which its steps are made.

/// What a worker does, one after another. Its steps are those of its deeds, in order.
#[derive(Clone, Copy, Debug, PartialEq, Eq)]
pub enum Deed {
    /// It reports that it is online: it loads the token and stores it in its counter.
    Online,
    /// It reports that it is offline: it stores 0 in its counter.
    Offline,
    /// It reports a quiescent state: it loads the token and stores it in its counter.
    Quiescent,
    /// It looks an address up: it loads the sequence, a first word, a second word where the first is a
    /// group's, and the sequence again.
    Lookup(u32),
    /// It looks four addresses up: it loads the sequence, the four first words in order, the second
    /// words of those that have a group in order, and the sequence again.
    Lookup4([u32; 4]),
    /// It meets the writer: it loads the sequence.
    Meet,
}
