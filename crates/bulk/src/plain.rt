//! Many addresses, answered by a table that nothing changes meanwhile.

ghost use Rattle.std.specs.Prelude.{◌≡◌, ◌+◌, ◌^◌, ℕ, ◌<◌, ◌↔◌, All, IfOk, IsErrOf, length, slice_index_or};
ghost use Rattle.lpm_rules.specs.Longest.{AreLongestHops};

use super::pieces::{Piece, cut_all, join};
use super::{BulkError, Gate};
use fib::Fib;
use lpm_bits::Hop;
use std::alloc::Global;
use std::thread;
use std::thread::Threads;

/// Answers the addresses of a piece, each after the gate.
fn answer<G: Gate, const FIRST: u32, const SECOND: u32>(
    fib: &Fib<FIRST, SECOND>,
    gate: &G,
    number: usize,
    piece: &mut Piece<'_>,
)
    requires { All (λ a. a < 2 ^ (FIRST + SECOND)) piece.old.addrs.now }
    ensures addrs { piece.new.addrs.now ≡ piece.old.addrs.now }
    ensures answers { AreLongestHops (FIRST + SECOND) fib.now.table.rules piece.old.addrs.now
        piece.new.hops.items }
{
    let addrs = piece.addrs;
    let hops = &mut piece.hops;
    for i in 0..addrs.len() {
        gate.at(number, i);
        hops[i] = fib.lookup(addrs[i]);
    }
}

/// Answers the addresses of each piece, on as many threads as there are pieces.
fn answer_all<R: Threads + Sync, G: Gate, const FIRST: u32, const SECOND: u32>(
    rt: &R,
    fib: &Fib<FIRST, SECOND>,
    gate: &G,
    pieces: &mut [Piece<'_>],
)
    requires some { 0 < length pieces.old }
    requires within { All (λ p. All (λ a. a < 2 ^ (FIRST + SECOND)) p.addrs.now) pieces.old }
    ensures len { length pieces.new ≡ length pieces.old }
    ensures answers { (i : ℕ) (d : _) → i < length pieces.old
        → AreLongestHops (FIRST + SECOND) fib.now.table.rules
        (slice_index_or pieces.old i d).addrs.now (slice_index_or pieces.new i d).hops.items }
{
    let threads = pieces.len();
    thread::for_each_mut(
        rt,
        pieces,
        threads,
        &|number: usize, piece: &mut Piece<'_>|
            requires { All (λ a. a < 2 ^ (FIRST + SECOND)) piece.now.addrs.now }
            ensures { AreLongestHops (FIRST + SECOND) fib.entry.now.table.rules
                piece.entry.now.addrs.now piece.exit.now.hops.items }
        { answer(fib, gate, number, piece) },
    );
}

/// The next hop of each address, in the order of the addresses, from as many pieces as workers.
///
/// All memory is taken before a thread starts: `Memory` comes only where nothing was answered yet,
/// and no gate was called. Where no further thread can be had, pieces are answered one after
/// another.
pub fn bulk_plain<R: Threads + Sync, G: Gate, const FIRST: u32, const SECOND: u32>(
    rt: &R,
    alloc: Global,
    fib: &Fib<FIRST, SECOND>,
    workers: usize,
    addrs: &[u32],
    gate: &G,
) -> Result<Vec<Option<Hop>>, BulkError>
    requires { All (λ a. a < 2 ^ (FIRST + SECOND)) addrs.now }
    ensures answers { IfOk result (λ v.
        AreLongestHops (FIRST + SECOND) fib.now.table.rules addrs.now v.items) }
    ensures workers { IsErrOf result BulkError.NoWorkers ↔ (workers ≡ 0) }
{
    if workers == 0 {
        return Err(BulkError::NoWorkers);
    }
    let mut pieces = cut_all(alloc, addrs, workers)?;
    let mut joined = Vec::with_capacity(alloc, addrs.len())?;
    let slice = pieces.as_mut_slice();
    answer_all(rt, fib, gate, slice);
    join(slice, &mut joined);
    Ok(joined)
}
