//! How a memory of the pure world is opened.

ghost use Rattle.std.specs.Prelude.{◌≡◌, ◌+◌, ◌*◌, ◌^◌, ◌<◌, ◌≤◌, [], All, IfOk, map, length, vec_len};
ghost use Rattle.lpm_bits.specs.Widths.{IsShape};
ghost use Rattle.lpm_trace.specs.States.{InitialState};
ghost use Rattle.interleave.specs.Scripts.{IsSound};
ghost use Rattle.interleave.specs.World.{IsInitial, AreNew, WorldDid};

use super::WorldMemory;
use crate::{Shared, Worker};
use lpm_cells::PlainCells;
use lpm_trace::{Actor, Deed};
use std::alloc::{AllocError, Global};

/// So many workers, all offline.
fn all_offline(alloc: Global, count: usize) -> Result<Vec<Worker>, AllocError>
    ensures count { IfOk result (λ workers. vec_len workers ≡ count) }
    ensures new { IfOk result (λ workers. AreNew count workers.items) }
{
    let mut workers = Vec::with_capacity(alloc, count)?;
    for _ in 0..count {
        workers.push(Worker::new(alloc)?)?;
    }
    Ok(workers)
}

impl<'a, const FIRST: u32, const SECOND: u32> WorldMemory<'a, FIRST, SECOND> {
    /// Words that are all misses, with room for `groups` groups, the token, all workers offline before
    /// their scripts, and the whole schedule left; the error only where memory is short.
    pub fn new(
        alloc: Global,
        groups: usize,
        first_token: u64,
        scripts: &'a [Vec<Deed>],
        schedule: &'a [Actor],
    ) -> Result<Self, AllocError>
        requires shape { IsShape FIRST SECOND }
        requires groups { groups ≤ 65536 }
        requires token { first_token ≤ 2 ^ 62 }
        requires sound { All (λ script. IsSound (2 ^ (FIRST + SECOND)) script.items) scripts.now }
        ensures did { IfOk result (λ memory. (c : InitialState)
            → IsInitial FIRST SECOND groups (length scripts.now) first_token c
            → WorldDid FIRST SECOND memory c []) }
        ensures scripts { IfOk result (λ memory.
            memory.scripts ≡ map (λ script. script.items) scripts.now) }
        ensures schedule { IfOk result (λ memory. memory.schedule ≡ schedule.now) }
    {
        let cells = PlainCells::new(alloc, groups)?;
        let shared = Shared {
            cells,
            sequence: 0,
            token: first_token,
        };
        let workers = all_offline(alloc, scripts.len())?;
        let steps = Vec::with_capacity(alloc, schedule.len())?;
        let seen = Vec::with_capacity(alloc, schedule.len() * 4)?;
        Ok(WorldMemory {
            shared,
            workers,
            scripts,
            schedule,
            next: 0,
            steps,
            seen,
            stopped: false,
        })
    }
}
