//! The passes that wait to be registered.

ghost use Rattle.std.specs.Prelude.{◌≡◌, ℕ, ◌<◌, ◌≤◌, ◌↔◌, IfOk, IsErrOf, OnErr, None, Some, length, slice_get, slice_set, false, []};
ghost use Rattle.shared_words.specs.Rule.{with_one_more};
ghost use Rattle.shared_words.specs.Seats.{IsOf};
ghost use Rattle.shared_fib.specs.Passes.{IsBenchOf, IsFullBench, IsPassOf, IsPutBack};

use crate::table::Words;
use crate::{Pass, SharedTable};
use shared_words::WriterSeat;
use std::alloc::{AllocError, Global};
use std::error::Error;
use std::marker::Model;
use std::{fmt, mem};

/// Why a pass was not registered.
#[derive(Clone, Copy, Debug, PartialEq, Eq)]
pub enum RegisterError {
    /// The table has no worker of this number.
    NoSuchWorker,
    /// The worker's pass is handed out, and not put back yet.
    Taken,
}

impl fmt::Display for RegisterError {
    fn fmt<W: fmt::Write>(&self, f: &mut fmt::Formatter<W>) -> fmt::Result {
        match self {
            RegisterError::NoSuchWorker => f.write_str("no such worker"),
            RegisterError::Taken => f.write_str("the worker is registered already"),
        }
    }
}

impl Error for RegisterError {}

/// The passes of a running table that are not registered, one for each worker. All are made when the table
/// is opened, so no call takes memory.
#[derive(Drop)]
pub struct Bench {
    pub(crate) passes: Vec<Option<Pass>>,
}

impl Model for Bench {
    ghost use Rattle.std.specs.Prelude.{List, Option};
    ghost use Rattle.std.specs.Coded.{coded_list, coded_option};
    ghost use Rattle.shared_fib.specs.Passes.{PassState, coded_pass};

    ghost Value = { List (Option PassState) };

    ghost coded = { coded_list (coded_option coded_pass) };

    ghost view = { λ b. b.passes.items };
}

/// The pass of the next worker, which is offline and has made no step.
fn next_pass<const FIRST: u32, const SECOND: u32>(
    table: &Words<FIRST, SECOND>,
    seat: &mut WriterSeat,
    number: u64,
) -> Pass
    requires own { IsOf table.now seat.old.table seat.old.view }
    requires number { seat.old.view.made ≡ number }
    requires worker { number < table.now.layout.workers }
    ensures own { seat.new.table ≡ seat.old.table }
    ensures made { seat.new.view ≡ with_one_more seat.old.view }
    ensures pass { result ≡ record {
      table = record {
        words = seat.old.table;
        initial = seat.old.view.initial;
      };
      worker = number;
      online = false;
      steps = [];
      writer_steps = seat.old.view.writer_steps;
    } }
{
    let worker = seat.next_worker(table, number);
    Pass::new(worker)
}

impl Bench {
    // A pass for each worker of a table, of which none was made yet.
    pub(crate) fn full<const FIRST: u32, const SECOND: u32>(
        alloc: Global,
        table: &Words<FIRST, SECOND>,
        seat: &mut WriterSeat,
    ) -> Result<Self, AllocError>
        requires own { IsOf table.now seat.old.table seat.old.view }
        requires none { seat.old.view.made ≡ 0 }
        ensures own { seat.new.table ≡ seat.old.table }
        ensures view { (made : ℕ) × (seat.new.view ≡ record seat.old.view { made = made }) }
        ensures full { IfOk result (IsFullBench (record {
          words = seat.old.table;
          initial = seat.old.view.initial;
        })) }
    {
        let workers = table.workers();
        let mut passes = Vec::with_capacity(alloc, workers)?;
        for worker in 0..workers {
            let pass = next_pass(table, seat, worker as u64);
            passes.push_reserved(Some(pass));
        }
        Ok(Bench { passes })
    }

    /// The pass of the worker of this number, which is offline. The errors: the table has no such worker,
    /// or its pass is handed out and not put back yet.
    pub fn register<const FIRST: u32, const SECOND: u32>(
        &mut self,
        table: &SharedTable<FIRST, SECOND>,
        worker: usize,
    ) -> Result<Pass, RegisterError>
        requires own { IsBenchOf table.now self.old }
        ensures own { IsBenchOf table.now self.new }
        ensures pass { IfOk result (IsPassOf table.now worker) }
        ensures registered { IfOk result (λ p. (slice_get self.old worker ≡ Some (Some p))
            × (self.new ≡ slice_set self.old worker None)) }
        ensures no_such_worker { IsErrOf result RegisterError.NoSuchWorker
            ↔ (table.now.initial.workers ≤ worker) }
        ensures taken { IsErrOf result RegisterError.Taken ↔ (slice_get self.old worker ≡ Some None) }
        ensures unchanged { OnErr result (self.new ≡ self.old) }
    {
        let _ = table;
        if worker >= self.passes.len() {
            return Err(RegisterError::NoSuchWorker);
        }
        let Some(pass) = mem::replace(&mut self.passes[worker], None) else {
            return Err(RegisterError::Taken);
        };
        Ok(pass)
    }

    /// Puts a pass back. One that is online goes offline first.
    pub fn unregister<const FIRST: u32, const SECOND: u32>(
        &mut self,
        table: &SharedTable<FIRST, SECOND>,
        mut pass: Pass,
    )
        requires own { IsBenchOf table.now self.old }
        requires pass { pass.table ≡ table.now }
        ensures own { IsBenchOf table.now self.new }
        ensures back { IsPutBack self.old pass self.new }
    {
        pass.leave(table);
        let worker = pass.worker_number();
        self.passes[worker] = Some(pass);
    }
}
