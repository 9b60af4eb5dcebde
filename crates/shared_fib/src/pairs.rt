//! A list of table words that is packed while it is made.

ghost use Rattle.std.specs.Prelude.{◌≡◌, ◌+◌, ◌-◌, ◌*◌, ◌%◌, ◌^◌, ◌<◌, ◌≤◌, [], ◌∷◌, ◌++◌, IfOk, OnOk, length, replicate};
ghost use Rattle.shared_words.specs.Layout.{packed_words};

use std::alloc::{AllocError, Global};
use std::marker::Model;

/// A list of table words of 32 bits, of which two neighbours share a word of 64 bits. So a running table has
/// them, and the list is packed while a sweep fills it (`WordList` of `lpm_sweep`).
///
/// Two words of 64 bits lie before them, in which a running table has its sequence and its token.
#[derive(Drop)]
pub struct Pairs {
    words: Vec<u64>,
    pub(crate) count: usize,
}

impl Model for Pairs {
    ghost use Rattle.std.specs.Prelude.{ℕ, List};
    ghost use Rattle.shared_fib.specs.Pairs.{ArePairs, unpacked_pairs};

    ghost Value = { List ℕ };

    ghost view = { λ p. unpacked_pairs p.count p.words.items };

    ghost invariant = { λ p. ArePairs p.count p.words.items };
}

impl Pairs {
    /// A list without table words, which takes no more memory until it has `room` of them.
    pub fn new(alloc: Global, room: usize) -> Result<Self, AllocError>
        ensures { IfOk result (λ p. p ≡ []) }
    {
        let mut words = Vec::with_capacity(alloc, 3 + room / 2)?;
        words.push_reserved(0);
        words.push_reserved(0);
        Ok(Pairs { words, count: 0 })
    }

    /// Puts a table word last until the list has so many, which are more than it had: first into the half that is left
    /// over behind an odd number of them, then two times into each shared word, and alone where one is missing at last.
    pub(crate) fn grow(&mut self, to: usize, word: u32) -> Result<(), AllocError>
        requires { length self.old < to }
        ensures { OnOk result (self.new ≡ self.old ++ replicate (to - length self.old) word) }
    {
        if self.count % 2 == 1 {
            let last = self.words.len() - 1;
            self.words[last] += u64::from(word) * (1 << 32);
            self.count += 1;
        }
        let pairs = (to - self.count) / 2;
        if pairs > 0 {
            let pair = u64::from(word) + u64::from(word) * (1 << 32);
            self.words.resize(self.words.len() + pairs, pair)?;
            self.count += 2 * pairs;
        }
        if self.count < to {
            self.words.push(u64::from(word))?;
            self.count += 1;
        }
        Ok(())
    }

    /// The words that the table words share.
    pub fn shared(&self) -> &[u64]
        ensures { result.now ≡ packed_words self.now }
    {
        &self.words[2..]
    }

    /// The sequence, which is 0, this token, and the words that the table words share. It takes no memory.
    pub fn into_words(self, token: u64) -> Vec<u64>
        ensures { result.items ≡ 0 ∷ token ∷ packed_words self }
    {
        let mut words = self.words;
        words[1] = token;
        words
    }
}
