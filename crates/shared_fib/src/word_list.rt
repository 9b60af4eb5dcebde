//! A packed list of table words as one that a sweep fills.

use crate::Pairs;
use lpm_sweep::WordList;
use std::alloc::AllocError;

impl WordList for Pairs {
    ghost items = { λ p. p };

    #[inline]
    fn count(&self) -> usize {
        self.count
    }

    #[inline]
    fn fill(&mut self, to: usize, word: u32) -> Result<(), AllocError> {
        if self.count() < to {
            self.grow(to, word)?;
        }
        Ok(())
    }
}
