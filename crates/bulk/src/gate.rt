//! What a thread passes before each address.

/// What a thread passes before each address. By a gate a caller watches threads, or holds them up;
/// no answer depends on it. A storm calls it by a worker's number, over all its rounds, and by the number
/// of workers before each update.
pub trait Gate: Sync {
    /// The thread of a piece calls it directly before it answers that piece's address `i`. Both
    /// numbers count from 0.
    fn at(&self, piece: usize, i: usize);
}

/// The gate that does nothing.
#[derive(Clone, Copy, Debug)]
pub struct Open;

impl Gate for Open {
    fn at(&self, _piece: usize, _i: usize) {}
}
