//! Commands to a table, one and many.

ghost use Rattle.std.specs.Prelude.{◌≡◌, ℕ, [], ◌∷◌, List, length, IfOk, OnErr};
ghost use Rattle.fib_model.specs.Outcomes.{Does, Reports, Runs, log_after};
ghost use Rattle.fib_model.specs.Counters.{by_counters};
ghost use Rattle.fib.specs.Replay.{GoesOn};

use super::Fib;
use fib_model::{Order, Outcome, ReaderReport};
use lpm_limits::Refusal;
use std::alloc::{AllocError, Global};

impl<const FIRST: u32, const SECOND: u32> Fib<FIRST, SECOND> {
    /// Does what a worker's report asks for, where that worker may make it.
    fn report(&mut self, report: ReaderReport, worker: u32) -> Outcome
        ensures reports { Reports by_counters self.old.config self.old.table report worker
            result self.new.table }
        ensures config { self.new.config ≡ self.old.config }
    {
        let worker = worker as usize;
        if worker >= self.config().workers {
            return Outcome::Refused(Refusal::NoSuchWorker);
        }
        match (report, self.is_online(worker)) {
            (ReaderReport::Online, false) => self.online(worker),
            (ReaderReport::Offline, true) => self.offline(worker),
            (ReaderReport::Quiescent, true) => self.quiescent(worker),
            (ReaderReport::Online, true) => return Outcome::Refused(Refusal::AlreadyOnline),
            (ReaderReport::Offline | ReaderReport::Quiescent, false) => {
                return Outcome::Refused(Refusal::NotOnline);
            }
        }
        Outcome::Told
    }

    /// Does a command.
    pub fn execute(&mut self, order: &Order<FIRST, SECOND>) -> Outcome
        ensures does { Does by_counters FIRST SECOND self.old.config self.old.table order.now
            result self.new.table }
        ensures config { self.new.config ≡ self.old.config }
    {
        match order {
            Order::Add(prefix, hop) => match self.add(prefix, *hop) {
                Ok(put) => return Outcome::Put(put),
                Err(refusal) => return Outcome::Refused(refusal),
            },
            Order::Del(prefix) => match self.delete(prefix) {
                Ok(hop) => return Outcome::Deleted(hop),
                Err(refusal) => return Outcome::Refused(refusal),
            },
            Order::Flush => match self.flush() {
                Ok(count) => return Outcome::Flushed(count),
                Err(refusal) => return Outcome::Refused(refusal),
            },
            Order::Reclaim(max) => return Outcome::Reclaimed(self.reclaim(*max)),
            Order::Online(worker) => return self.report(ReaderReport::Online, *worker),
            Order::Offline(worker) => return self.report(ReaderReport::Offline, *worker),
            Order::Quiescent(worker) => return self.report(ReaderReport::Quiescent, *worker),
        }
    }

    /// Does commands one after another, and returns what came of each. The error is that there is
    /// no memory for the outcomes; nothing was done then.
    pub fn execute_all(
        &mut self,
        alloc: Global,
        orders: &[Order<FIRST, SECOND>],
    ) -> Result<Vec<Outcome>, AllocError>
        ensures as_many { IfOk result (λ v. length v.items ≡ length orders.now) }
        ensures runs { IfOk result (λ v. Runs by_counters FIRST SECOND self.old.config
            self.old.table (log_after [] orders.now v.items) self.new.table) }
        ensures textbook { IfOk result (λ v. GoesOn FIRST SECOND self.old.config self.old.table
            orders.now v.items self.new.table) }
        ensures config { self.new.config ≡ self.old.config }
        ensures refused { OnErr result (self.new ≡ self.old) }
    {
        let _config = self.config();
        let mut outcomes = vec![in alloc; Outcome::Told; orders.len()]?;
        for index in 0..orders.len() {
            outcomes[index] = self.execute(&orders[index]);
        }
        Ok(outcomes)
    }
}
