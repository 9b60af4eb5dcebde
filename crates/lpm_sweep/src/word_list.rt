//! The lists that a sweep puts its words into, however they are kept.

ghost use Rattle.std.specs.Prelude.{◌≡◌, ℕ, List, length, max, OnOk};
ghost use Rattle.lpm_sweep.specs.SweepWords.{Fills};

use std::alloc::AllocError;

/// A list of words of 32 bits, which a sweep makes from its first word on.
pub trait WordList {
    ghost items: { Self → List ℕ };

    /// How many words the list has.
    fn count(&self) -> usize
        ensures { result ≡ length (items self.now) };

    /// Puts the word last until the list has `to` words. A list that has as many stays as it is.
    ///
    /// `AllocError` where memory is short.
    fn fill(&mut self, to: usize, word: u32) -> Result<(), AllocError>
        ensures fills { OnOk result (Fills (items self.old) (items self.new) (λ _. word)) }
        ensures len { OnOk result (length (items self.new) ≡ max (length (items self.old)) to) };
}

impl WordList for Vec<u32> {
    ghost items = { λ v. v.items };

    #[inline]
    fn count(&self) -> usize {
        self.len()
    }

    #[inline]
    fn fill(&mut self, to: usize, word: u32) -> Result<(), AllocError> {
        if self.len() < to {
            self.resize(to, word)?;
        }
        Ok(())
    }
}
