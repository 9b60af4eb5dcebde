//! The words in two vectors, for one thread.

ghost use Rattle.std.specs.Prelude.{◌≡◌, ℕ, ◌+◌, ◌*◌, ◌^◌, ◌<◌, ◌≤◌, length, replicate, IfOk};
ghost use Rattle.lpm_bits.specs.Widths.{IsShape};
ghost use Rattle.lpm_cells.specs.Words.{IsFirstWord, IsWords, entry_at, with_first, with_second, IsLastWord, entry_in, hop_in, word_of};
ghost use Rattle.lpm_cells.specs.declared.entry.Entry.TheVariants.{Miss};

use super::Cells;
use crate::Entry;
use lpm_bits::{Hop, Shape};
use std::alloc::{AllocError, Global};
use std::marker::Model;

/// The words of a table in two vectors. Of each word the low 32 bits are kept, since the others are
/// always 0.
///
/// A first word may be that of a miss, of a hop, or of one of the table's groups; a second word may
/// be that of a miss or a hop.
#[derive(Drop)]
pub struct PlainCells<const FIRST: u32, const SECOND: u32> {
    first_words: Vec<u32>,
    second_words: Vec<u32>,
}

impl<const FIRST: u32, const SECOND: u32> Model for PlainCells<FIRST, SECOND> {
    ghost use Rattle.lpm_bits.specs.Widths.{IsShape};
    ghost use Rattle.lpm_cells.specs.Words.{Words, IsWords};

    ghost Value = { Words };

    ghost view = { λ a. record { firsts = a.first_words.items; seconds = a.second_words.items } };

    ghost invariant = { λ a. IsShape FIRST SECOND
        × IsWords FIRST SECOND
        (record { firsts = a.first_words.items; seconds = a.second_words.items }) };
}

impl<const FIRST: u32, const SECOND: u32> PlainCells<FIRST, SECOND> {
    /// A table with room for `groups` groups, whose words are all misses.
    pub fn new(alloc: Global, groups: usize) -> Result<Self, AllocError>
        requires shape { IsShape FIRST SECOND }
        requires groups { groups ≤ 65536 }
        ensures firsts { IfOk result (λ c. c.firsts ≡ replicate (2 ^ FIRST) (word_of Miss)) }
        ensures seconds { IfOk result
            (λ c. c.seconds ≡ replicate (groups * 2 ^ SECOND) (word_of Miss)) }
    {
        let miss = Entry::Miss.to_word() as u32;
        let first_words = vec![in alloc; miss; 1usize << FIRST]?;
        let second_words = vec![in alloc; miss; groups << SECOND]?;
        Ok(PlainCells {
            first_words,
            second_words,
        })
    }

    /// A table of these words: one for each block, and those of the groups, one group behind the
    /// other. Each is that of an entry that may stand in its place. It takes no memory.
    pub fn of_words(first_words: Vec<u32>, second_words: Vec<u32>) -> Self
        requires shape { IsShape FIRST SECOND }
        requires words { IsWords FIRST SECOND
            (record { firsts = first_words.items; seconds = second_words.items }) }
        ensures firsts { result.firsts ≡ first_words.items }
        ensures seconds { result.seconds ≡ second_words.items }
    {
        PlainCells {
            first_words,
            second_words,
        }
    }

    /// How many words the groups have together.
    pub fn seconds(&self) -> usize
        ensures value { result ≡ length self.now.seconds }
        ensures shape { IsShape FIRST SECOND }
        ensures words { IsWords FIRST SECOND self.now }
    {
        self.second_words.len()
    }

    /// The first words, of each the low 32 bits.
    pub fn first_words(&self) -> &[u32]
        ensures { result.now ≡ self.now.firsts }
    {
        self.first_words.as_slice()
    }

    /// The words of all groups, of each the low 32 bits.
    pub fn second_words(&self) -> &[u32]
        ensures { result.now ≡ self.now.seconds }
    {
        self.second_words.as_slice()
    }

    /// The last word that a lookup of the address reads, of one or two.
    #[inline]
    fn last_word(&self, addr: u32) -> u64
        requires { addr < 2 ^ (FIRST + SECOND) }
        ensures entry { entry_in result ≡ entry_at SECOND self.now addr }
        ensures last { IsLastWord (FIRST + SECOND) result }
    {
        let word = u64::from(self.first_words[Shape::<FIRST, SECOND>::first_index(addr)]);
        match Entry::group_of_word::<FIRST, SECOND>(word) {
            Some(group) => {
                let base = (group as usize) << SECOND;
                u64::from(self.second_words[base + Shape::<FIRST, SECOND>::second_index(addr)])
            }
            None => word,
        }
    }

    /// The next hop that the words have for an address, by one read or two; none at a miss.
    #[inline]
    pub fn read(&self, addr: u32) -> Option<Hop>
        requires { addr < 2 ^ (FIRST + SECOND) }
        ensures { result ≡ hop_in (entry_at SECOND self.now addr) }
    {
        Entry::hop_of_last_word::<FIRST, SECOND>(self.last_word(addr))
    }
}

impl<const FIRST: u32, const SECOND: u32> Cells for PlainCells<FIRST, SECOND> {
    ghost words = { λ c. c };

    ghost may_set_first = { λ c i w. IsFirstWord (FIRST + SECOND) SECOND c.seconds w };

    ghost may_set_second = { λ c i w. IsLastWord (FIRST + SECOND) w };

    ghost sets_first = { λ c i w d. d ≡ with_first c i w };

    ghost sets_second = { λ c i w d. d ≡ with_second c i w };

    #[inline]
    fn first(&mut self, i: usize) -> u64 {
        u64::from(self.first_words[i])
    }

    #[inline]
    fn set_first(&mut self, i: usize, word: u64) {
        let _ = &self.first_words;
        self.first_words[i] = word as u32;
    }

    #[inline]
    fn second(&mut self, i: usize) -> u64 {
        u64::from(self.second_words[i])
    }

    #[inline]
    fn set_second(&mut self, i: usize, word: u64) {
        let _ = &self.second_words;
        self.second_words[i] = word as u32;
    }
}
