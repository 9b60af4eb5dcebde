//! The memory of the pure world, as its writer uses it.

use super::WorldMemory;
use lpm_cells::Cells;
use lpm_trace::{Kind, RuleChange};
use lpm_writer::Memory;

impl<'a, const FIRST: u32, const SECOND: u32> Cells for WorldMemory<'a, FIRST, SECOND> {
    ghost use Rattle.lpm_trace.specs.declared.step.WriterStep.TheVariants.{StoreFirst, StoreSecond};
    ghost use Rattle.lpm_writer.specs.Plain.{MayBeNext};
    ghost use Rattle.interleave.specs.World.{WorldDid, WorldDoes};

    ghost words = { λ m. m.words };

    ghost may_set_first = { λ m i w. MayBeNext (WorldDid FIRST SECOND) m (StoreFirst i w) };

    ghost may_set_second = { λ m i w. MayBeNext (WorldDid FIRST SECOND) m (StoreSecond i w) };

    ghost sets_first = { λ m i w z. WorldDoes FIRST SECOND (StoreFirst i w) m z };

    ghost sets_second = { λ m i w z. WorldDoes FIRST SECOND (StoreSecond i w) m z };

    fn first(&mut self, i: usize) -> u64 {
        self.shared.cells.first(i)
    }

    fn set_first(&mut self, i: usize, word: u64) {
        self.reach();
        self.shared.cells.set_first(i, word);
        self.note(Kind::StoreFirst, i as u64, word);
    }

    fn second(&mut self, i: usize) -> u64 {
        self.shared.cells.second(i)
    }

    fn set_second(&mut self, i: usize, word: u64) {
        self.reach();
        self.shared.cells.set_second(i, word);
        self.note(Kind::StoreSecond, i as u64, word);
    }
}

impl<'a, const FIRST: u32, const SECOND: u32> Memory for WorldMemory<'a, FIRST, SECOND> {
    ghost use Rattle.std.specs.Prelude.{length};
    ghost use Rattle.interleave.specs.World.{WorldDid, WorldDoes};
    ghost use Rattle.interleave.specs.WorldLaws.{world_shows, world_written};

    ghost worker_count = { λ m. length m.scripts };

    ghost newest = { λ m. m.token };

    ghost did = { λ m c steps. WorldDid FIRST SECOND m c steps };

    ghost does = { λ m s z. WorldDoes FIRST SECOND s m z };

    ghost follows = { λ m s z c steps does did may. does.1 c steps did may };

    ghost shows = { λ m c steps did. world_shows FIRST SECOND m c steps did };

    ghost written = { λ m c steps did. world_written FIRST SECOND m c steps did };

    ghost may_first = { λ m i w may. may };

    ghost may_second = { λ m i w may. may };

    ghost first_stored = { λ m i w z sets. sets };

    ghost second_stored = { λ m i w z sets. sets };

    fn counter_count(&self) -> usize {
        self.scripts.len()
    }

    fn token(&self) -> u64 {
        self.shared.token
    }

    fn open_update(&mut self, change: &RuleChange) {
        let _ = change;
        self.reach();
        self.bump_sequence();
    }

    fn close_update(&mut self) {
        self.reach();
        self.bump_sequence();
    }

    fn bump(&mut self) -> u64 {
        self.reach();
        self.shared.token += 1;
        let token = self.shared.token;
        self.note(Kind::BumpToken, 0, token);
        token
    }

    fn load_counter(&mut self, _checked: u64, worker: usize) -> u64 {
        self.reach();
        let counter = self.workers[worker].counter();
        self.note(Kind::LoadCounter, worker as u64, counter);
        counter
    }
}
