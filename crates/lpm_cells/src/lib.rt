//! The two lists of words of a table, however they are kept.
//!
//! The first list has a word for each value of an address's first `FIRST` bits. Group `g` has the
//! `2^SECOND` words of the second list from `g * 2^SECOND` on.
#![tactic(auto)]

mod entry;
mod plain;

ghost use Rattle.std.specs.Prelude.{◌≡◌, ℕ, ◌<◌, length, slice_index};
ghost use Rattle.lpm_cells.specs.Words.{Words, with_first, with_second};

pub use entry::Entry;
pub use plain::PlainCells;

/// The words of a table. One writer loads and stores them, one word at a time.
///
/// An implementation names which word it allows at which place (`may_set_first`, `may_set_second`),
/// and the relation of old to new that a store makes beside the change of that word (`sets_first`,
/// `sets_second`). A load leaves the cells as they were.
pub trait Cells {
    ghost words: { Self → Words };

    ghost may_set_first: { Self → ℕ → ℕ → Type 0 };

    ghost may_set_second: { Self → ℕ → ℕ → Type 0 };

    ghost sets_first: { Self → ℕ → ℕ → Self → Type 0 };

    ghost sets_second: { Self → ℕ → ℕ → Self → Type 0 };

    /// Loads the first word at place `i`.
    fn first(&mut self, i: usize) -> u64
        requires { i < length (words self.old).firsts }
        ensures value { result ≡ slice_index (words self.old).firsts i }
        ensures same { self.new ≡ self.old };

    /// Stores the first word at place `i`, and no other.
    fn set_first(&mut self, i: usize, word: u64)
        requires in_range { i < length (words self.old).firsts }
        requires allowed { may_set_first self.old i word }
        ensures words { words self.new ≡ with_first (words self.old) i word }
        ensures set { sets_first self.old i word self.new };

    /// Loads the second word at place `i`.
    fn second(&mut self, i: usize) -> u64
        requires { i < length (words self.old).seconds }
        ensures value { result ≡ slice_index (words self.old).seconds i }
        ensures same { self.new ≡ self.old };

    /// Stores the second word at place `i`, and no other.
    fn set_second(&mut self, i: usize, word: u64)
        requires in_range { i < length (words self.old).seconds }
        requires allowed { may_set_second self.old i word }
        ensures words { words self.new ≡ with_second (words self.old) i word }
        ensures set { sets_second self.old i word self.new };
}
