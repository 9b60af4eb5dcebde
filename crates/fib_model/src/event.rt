//! What readers and the writer did, as far as a grace period is concerned.

ghost use Rattle.std.specs.Prelude.{◌≡◌};

/// A whole report of the worker of this number, or an unlinking.
#[derive(Clone, Copy, Debug, PartialEq, Eq)]
pub enum Event {
    /// It begins to look up.
    Online(usize),
    /// It has ended all its lookups.
    Offline(usize),
    /// It has ended its lookups so far.
    Quiescent(usize),
    /// A group lost its block, and waits from now on.
    Unlinking,
}
