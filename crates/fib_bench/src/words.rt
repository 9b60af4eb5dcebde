//! Plain words of 32 bits that answer as the table does: what a lookup costs at least.

ghost use Rattle.std.specs.Prelude.{◌≡◌, ◌<◌, vec_len};

use crate::lookups::Table;
use fib::Fib;
use lpm_bits::Hop;
use std::alloc::{AllocError, Global};

/// The number of words of each of the two lists.
const WORDS: usize = 16_777_216;
/// In a word: it has a next hop, or a group.
const VALID: u32 = 16_777_216;
/// In a first word: the next hops stand in the group of this number.
const GROUP: u32 = 50_331_648;

/// As many first words as the table has, and as many second ones.
#[derive(Drop)]
pub(crate) struct Words {
    firsts: Vec<u32>,
    seconds: Vec<u32>,
    ghost firsts_len: { vec_len firsts ≡ 16777216 },
    ghost seconds_len: { vec_len seconds ≡ 16777216 },
}

impl Words {
    /// Words with the answers of the table, whose deep blocks have these first addresses.
    pub(crate) fn new(
        alloc: Global,
        table: &Fib<24, 8>,
        blocks: &[u32],
    ) -> Result<Words, AllocError> {
        let mut words = Words {
            firsts: vec![in alloc; 0u32; WORDS]?,
            seconds: vec![in alloc; 0u32; WORDS]?,
        };
        words.fill_firsts(table);
        words.fill_groups(table, blocks);
        Ok(words)
    }

    fn fill_firsts(&mut self, table: &Fib<24, 8>) {
        for block in 0..1u32 << 24 {
            self.firsts[block as usize] = word_of(table.lookup(block << 8));
        }
    }

    /// Gives each of these blocks a group, as long as there are any.
    fn fill_groups(&mut self, table: &Fib<24, 8>, blocks: &[u32]) {
        let mut group = 0u32;
        for first in blocks {
            let block = (*first >> 8) as usize;
            if self.firsts[block] < GROUP && group < 1 << 16 {
                self.fill_group(table, *first, group);
                self.firsts[block] = GROUP + group;
                group += 1;
            }
        }
    }

    fn fill_group(&mut self, table: &Fib<24, 8>, first: u32, group: u32)
        requires { group < 65536 }
    {
        let base = (group << 8) as usize;
        for last in 0..256u32 {
            self.seconds[base + last as usize] = word_of(table.lookup(first | last));
        }
    }
}

/// The word of an answer.
fn word_of(hop: Option<Hop>) -> u32 {
    match hop {
        Some(hop) => VALID | hop.number(),
        None => 0,
    }
}

impl Table for Words {
    #[inline]
    fn number(&self, addr: u32) -> u64 {
        let word = self.firsts[(addr >> 8) as usize];
        if word < GROUP {
            return u64::from(word % VALID);
        }
        let place = ((word % 0x1_0000) << 8) + addr % 256;
        u64::from(self.seconds[place as usize] % VALID)
    }
}
