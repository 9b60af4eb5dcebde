//! A worker's place in a `bulk`: its pass, with the room of its piece.

ghost use Rattle.std.specs.Prelude.{◌≡◌, ◌<◌, ℕ, All, IfOk, OnErr, Some, None, map, slice_get, slice_set};
ghost use Rattle.std.specs.List.{range_with_len};
ghost use Rattle.shared_fib.specs.Passes.{IsBenchOf, IsFullBench};
ghost use Rattle.bulk.specs.Desks.{IsDeskOf, IsAtBench, worker_of};

use lpm_bits::Hop;
use shared_fib::{Bench, Pass, SharedTable};
use std::alloc::{AllocError, Global};

/// The pass of a worker, with room for the next hops of a piece. A thread of `bulk` answers with one. It
/// keeps its room from call to call.
///
/// A desk that is dropped drops its pass: no report is made, and the worker's number stays taken. Where the
/// pass is online then, it holds each group given up since its last report, for ever.
/// [`into_pass`](Desk::into_pass) gives the pass back.
#[derive(Drop)]
pub struct Desk {
    pub(crate) pass: Pass,
    pub(crate) hops: Vec<Option<Hop>>,
}

impl Desk {
    /// A desk for this pass. It has no room yet: that is made by the first `bulk`.
    pub fn new(alloc: Global, pass: Pass) -> Desk
        ensures { result.pass ≡ pass }
    {
        Desk {
            pass,
            hops: Vec::new(alloc),
        }
    }

    /// The pass of this desk.
    pub fn into_pass(self) -> Pass
        ensures { result ≡ self.pass }
    {
        self.pass
    }
}

/// The desk of the worker of this number, whose pass is at the bench.
fn seat<const FIRST: u32, const SECOND: u32>(
    alloc: Global,
    table: &SharedTable<FIRST, SECOND>,
    bench: &mut Bench,
    worker: usize,
) -> Desk
    requires own { IsBenchOf table.now bench.old }
    requires pass { IsAtBench bench.old worker }
    ensures desk { IsDeskOf table.now result }
    ensures worker { worker_of result ≡ worker }
    ensures own { IsBenchOf table.now bench.new }
    ensures taken { bench.new ≡ slice_set bench.old worker None }
{
    let Ok(pass) = bench.register(table, worker) else {
        unreachable!();
    };
    Desk::new(alloc, pass)
}

/// A desk for each worker of a table that was just opened, in the order of the workers.
///
/// All memory is taken before a pass leaves the bench.
pub fn seat_all<const FIRST: u32, const SECOND: u32>(
    alloc: Global,
    table: &SharedTable<FIRST, SECOND>,
    bench: &mut Bench,
    workers: usize,
) -> Result<Vec<Desk>, AllocError>
    requires full { IsFullBench table.now bench.old }
    requires workers { workers ≡ table.now.initial.workers }
    ensures desks { IfOk result (λ v. All (IsDeskOf table.now) v.items) }
    ensures numbers { IfOk result (λ v. map worker_of v.items ≡ range_with_len 0 workers) }
    ensures own { IsBenchOf table.now bench.new }
    ensures seated { IfOk result (λ _. (worker : ℕ) → worker < workers
        → slice_get bench.new worker ≡ Some None) }
    ensures unchanged { OnErr result (bench.new ≡ bench.old) }
{
    let mut desks = Vec::with_capacity(alloc, workers)?;
    for worker in 0..workers {
        desks.push_reserved(seat(alloc, table, bench, worker));
    }
    Ok(desks)
}
