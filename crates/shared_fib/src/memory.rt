//! The memory of a running table, as its writer uses it.

use crate::SharedMemory;
use lpm_cells::Cells;
use lpm_trace::RuleChange;
use lpm_writer::Memory;

impl<'a, const FIRST: u32, const SECOND: u32> Cells for SharedMemory<'a, FIRST, SECOND> {
    ghost use Rattle.lpm_trace.specs.declared.step.WriterStep.TheVariants.{StoreFirst, StoreSecond};
    ghost use Rattle.shared_fib.specs.LentSeats.{SharedDoes, state_of_lent};
    ghost use Rattle.shared_words.specs.Seats.{MayFollow};

    ghost words = { λ m. (state_of_lent m).words };

    ghost may_set_first = { λ m i w. MayFollow m.view (StoreFirst i w) };

    ghost may_set_second = { λ m i w. MayFollow m.view (StoreSecond i w) };

    ghost sets_first = { λ m i w z. SharedDoes (StoreFirst i w) m z };

    ghost sets_second = { λ m i w z. SharedDoes (StoreSecond i w) m z };

    #[inline]
    fn first(&mut self, i: usize) -> u64 {
        self.seat.stored_first(self.table, i)
    }

    #[inline]
    fn set_first(&mut self, i: usize, word: u64) {
        self.seat.store_first(self.table, i, word);
    }

    #[inline]
    fn second(&mut self, i: usize) -> u64 {
        self.seat.stored_second(self.table, i)
    }

    #[inline]
    fn set_second(&mut self, i: usize, word: u64) {
        self.seat.store_second(self.table, i, word);
    }
}

impl<'a, const FIRST: u32, const SECOND: u32> Memory for SharedMemory<'a, FIRST, SECOND> {
    ghost use Rattle.shared_fib.specs.LentSeats.{SharedDid, SharedDoes, state_of_lent};
    ghost use Rattle.shared_fib.specs.LentLaws.{shared_follows, shared_shows, shared_may};
    ghost use Rattle.lpm_trace.specs.declared.step.WriterStep.TheVariants.{StoreFirst, StoreSecond};

    ghost worker_count = { λ m. m.view.initial.workers };

    ghost newest = { λ m. (state_of_lent m).token };

    ghost did = { λ m c steps. SharedDid m c steps };

    ghost does = { λ m s z. SharedDoes s m z };

    ghost follows = { λ m s z c steps does did may. shared_follows m s z c steps does did may };

    ghost shows = { λ m c steps did. shared_shows m c steps did };

    ghost written = { λ m c steps did. did.written };

    ghost may_first = { λ m i w may. shared_may m (StoreFirst i w) may };

    ghost may_second = { λ m i w may. shared_may m (StoreSecond i w) may };

    ghost first_stored = { λ m i w z sets. sets };

    ghost second_stored = { λ m i w z sets. sets };

    #[inline]
    fn counter_count(&self) -> usize {
        self.table.workers()
    }

    #[inline]
    fn token(&self) -> u64 {
        self.token
    }

    #[inline]
    fn open_update(&mut self, change: &RuleChange) {
        let number = self.seat.stored_sequence(self.table) + 1;
        self.seat.begin_update(self.table, change, number);
    }

    #[inline]
    fn close_update(&mut self) {
        let number = self.seat.stored_sequence(self.table) + 1;
        self.seat.end_update(self.table, number);
    }

    #[inline]
    fn bump(&mut self) -> u64 {
        let token = self.token + 1;
        self.seat.bump_token(self.table, token);
        self.token = token;
        token
    }

    #[inline]
    fn load_counter(&mut self, checked: u64, worker: usize) -> u64 {
        self.seat.load_worker_counter(self.table, checked, worker)
    }
}
