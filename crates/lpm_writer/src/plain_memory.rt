//! The memory of one thread.

ghost use Rattle.std.specs.Prelude.{◌≡◌, ◌*◌, ◌^◌, ◌≤◌, IfOk, replicate};
ghost use Rattle.lpm_bits.specs.Widths.{IsShape};
ghost use Rattle.lpm_cells.specs.declared.entry.Entry.TheVariants.{Miss};
ghost use Rattle.lpm_cells.specs.Words.{word_of};

use super::Memory;
use lpm_cells::{Cells, PlainCells};
use lpm_trace::RuleChange;
use qsbr::Domain;
use std::alloc::{AllocError, Global};

/// Plain words, and the workers' counters as one thread keeps them. No sequence is kept, since no
/// lookup runs beside a change.
#[derive(Drop)]
pub struct PlainMemory<const FIRST: u32, const SECOND: u32> {
    pub cells: PlainCells<FIRST, SECOND>,
    pub domain: Domain,
}

impl<const FIRST: u32, const SECOND: u32> PlainMemory<FIRST, SECOND> {
    /// Words that are all misses, with room for `groups` groups, and the token, with all workers
    /// offline; the error only where memory is short.
    pub fn new(
        alloc: Global,
        groups: usize,
        workers: usize,
        first_token: u64,
    ) -> Result<Self, AllocError>
        requires shape { IsShape FIRST SECOND }
        requires groups { groups ≤ 65536 }
        requires low { 1 ≤ first_token }
        requires high { first_token ≤ 2 ^ 62 }
        ensures firsts { IfOk result
            (λ m. m.cells.firsts ≡ replicate (2 ^ FIRST) (word_of Miss)) }
        ensures seconds { IfOk result
            (λ m. m.cells.seconds ≡ replicate (groups * 2 ^ SECOND) (word_of Miss)) }
        ensures token { IfOk result (λ m. m.domain.token ≡ first_token) }
        ensures counters { IfOk result (λ m. m.domain.counters ≡ replicate workers 0) }
    {
        let cells = PlainCells::new(alloc, groups)?;
        let domain = Domain::new(alloc, workers, first_token)?;
        Ok(PlainMemory { cells, domain })
    }
}

impl<const FIRST: u32, const SECOND: u32> Cells for PlainMemory<FIRST, SECOND> {
    ghost use Rattle.std.specs.Prelude.{◌≡◌, ◌+◌};
    ghost use Rattle.lpm_cells.specs.Words.{IsFirstWord, with_first, with_second, IsLastWord};

    ghost words = { λ m. m.cells };

    ghost may_set_first = { λ m i w. IsFirstWord (FIRST + SECOND) SECOND m.cells.seconds w };

    ghost may_set_second = { λ m i w. IsLastWord (FIRST + SECOND) w };

    ghost sets_first = { λ m i w z. (z.cells ≡ with_first m.cells i w) × (z.domain ≡ m.domain) };

    ghost sets_second = { λ m i w z. (z.cells ≡ with_second m.cells i w) × (z.domain ≡ m.domain) };

    #[inline]
    fn first(&mut self, i: usize) -> u64 {
        self.cells.first(i)
    }

    #[inline]
    fn set_first(&mut self, i: usize, word: u64) {
        self.cells.set_first(i, word);
    }

    #[inline]
    fn second(&mut self, i: usize) -> u64 {
        self.cells.second(i)
    }

    #[inline]
    fn set_second(&mut self, i: usize, word: u64) {
        self.cells.set_second(i, word);
    }
}

impl<const FIRST: u32, const SECOND: u32> Memory for PlainMemory<FIRST, SECOND> {
    ghost use Rattle.std.specs.Prelude.{length};
    ghost use Rattle.lpm_writer.specs.Plain.{PlainDid, PlainDoes};
    ghost use Rattle.lpm_writer.specs.PlainLaws.{plain_follows, plain_shows, plain_first, plain_second};

    ghost worker_count = { λ m. length m.domain.counters };

    ghost newest = { λ m. m.domain.token };

    ghost did = { λ m c steps. PlainDid FIRST SECOND m.cells m.domain c steps };

    ghost does = { λ m s z. PlainDoes s m.cells m.domain z.cells z.domain };

    ghost follows = { λ m s z c steps does did may.
        plain_follows FIRST SECOND m.cells m.domain z.cells z.domain c s steps does did may };

    ghost shows = { λ m c steps did. plain_shows FIRST SECOND m.cells m.domain c steps did };

    ghost written = { λ m c steps did. did.written };

    ghost may_first = { λ m i w may. plain_first FIRST SECOND m.cells m.domain i w may };

    ghost may_second = { λ m i w may. plain_second FIRST SECOND m.cells m.domain i w may };

    ghost first_stored = { λ m i w z sets. record { words = sets.0; reports = sets.1; finds = tt } };

    ghost second_stored = { λ m i w z sets. record { words = sets.0; reports = sets.1; finds = tt } };

    #[inline]
    fn counter_count(&self) -> usize {
        self.domain.workers()
    }

    #[inline]
    fn token(&self) -> u64 {
        self.domain.token()
    }

    #[inline]
    fn open_update(&mut self, change: &RuleChange) {
        let _ = change;
    }

    #[inline]
    fn close_update(&mut self) {}

    #[inline]
    fn bump(&mut self) -> u64 {
        self.domain.start()
    }

    #[inline]
    fn load_counter(&mut self, checked: u64, worker: usize) -> u64 {
        let _ = checked;
        self.domain.counter(worker)
    }
}
