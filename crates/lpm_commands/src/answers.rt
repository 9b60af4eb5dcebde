//! The text of the answers to addresses, by a table of one thread or by a running one.
ghost use Rattle.std.specs.Prelude.{◌≡◌, ◌<◌, IfOk, IfErr};
ghost use Rattle.shared_fib.specs.Passes.{IsFullBench};
ghost use Rattle.lpm_commands.specs.Lookup.{IsAnswerText, IsAnswered, EndsAnswering, bulk_ending};

use crate::tables::Running;
use bulk::{BulkError, Gate, bulk, bulk_plain, seat_all};
use fib::Fib;
use lpm_files::{Failure, answers_text_on};
use lpm_limits::Refusal;
use std::alloc::Global;
use std::thread::Threads;

/// A line for each address with its answer by this table, answered and written on at most as many threads as
/// it has workers.
pub fn text_of_answers<'a, R: Threads + Sync, G: Gate>(
    rt: &R,
    alloc: Global,
    table: &Fib<24, 8>,
    addrs: &[u32],
    gate: &G,
) -> Result<Vec<u8>, Failure<'a>>
    ensures text { IfOk result (λ v.
        IsAnswered table.now.config table.now.table.rules addrs.now v.items) }
    ensures failure { IfErr result (EndsAnswering table.now.config.workers) }
{
    let workers = table.config().workers;
    let hops = match bulk_plain(rt, alloc, table, workers, addrs, gate) {
        Ok(hops) => hops,
        Err(error) => return Err(bulk_ending(error)),
    };
    Ok(answers_text_on(rt, alloc, addrs, &hops, workers)?)
}

/// A line for each address with its answer by a running table that was just opened. Each of its workers
/// answers a piece of the addresses by its own pass, on its own thread where one can be had. The lines are
/// written on at most as many threads, when the table is gone.
pub fn text_of_live_answers<'a, R: Threads + Sync, G: Gate>(
    rt: &R,
    alloc: Global,
    running: Running,
    workers: usize,
    addrs: &[u32],
    gate: &G,
) -> Result<Vec<u8>, Failure<'a>>
    requires own { running.writer.identity ≡ running.table }
    requires full { IsFullBench running.table running.bench }
    requires workers { workers ≡ running.table.initial.workers }
    ensures workers { IfOk result (λ v. 0 < workers) }
    ensures text { IfOk result (λ v. IsAnswerText running.writer.table.rules addrs.now v.items) }
    ensures failure { IfErr result (EndsAnswering workers) }
{
    let mut running = running;
    let table = &running.table;
    let mut desks = seat_all(alloc, table, &mut running.bench, workers)?;
    let seats = desks.as_mut_slice();
    let hops = match bulk(rt, alloc, table, &mut running.writer, seats, addrs, gate) {
        Ok(hops) => hops,
        Err(error) => return Err(bulk_ending(error)),
    };
    drop(desks);
    drop(running);
    Ok(answers_text_on(rt, alloc, addrs, &hops, workers)?)
}

// What addresses that were not answered end the run with.
fn bulk_ending<'a>(error: BulkError) -> Failure<'a>
    ensures { result ≡ bulk_ending error }
{
    match error {
        BulkError::NoWorkers => Failure::Refused {
            refusal: Refusal::NoWorkers,
        },
        BulkError::Memory => Failure::Memory,
    }
}
