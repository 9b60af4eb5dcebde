//! Groups that wait in limbo.

ghost use Rattle.std.specs.Prelude.{◌≡◌, drop, IfOk, OnErr};
ghost use Rattle.lpm_writer.specs.Limbo.{AreWaiting, IsFreed, IsQueued, IsTaken};
ghost use Rattle.lpm_writer.specs.MemorySteps.{by_writer};
ghost use Rattle.lpm_writer.specs.Commands.{FreesAt, MayFree};
ghost use Rattle.lpm_writer.specs.TakenGroup.{LinksLeast, MayTakeAt, Takes, TakesAt, taken_by};

use super::GroupPool;
use super::grace::Reclaimer;
use crate::Memory;
use defer_queue::Reclaimed;
use lpm_limits::Busy;

/// Frees groups from the oldest in limbo on, at most `max`, up to the first that a worker holds.
#[inline]
pub(crate) fn free_waiting<M: Memory>(pool: &mut GroupPool, memory: &mut M, max: usize) -> Reclaimed
    requires waiting { AreWaiting pool.old.groups pool.old.queue.items }
    requires kept { MayFree M.did memory.old pool.old.groups pool.old.passed pool.old.queue.items }
    ensures reclaims { FreesAt M.did M.does memory.old pool.old max result memory.new pool.new }
    ensures queue { pool.new.queue ≡ record pool.old.queue {
      items = drop result.freed pool.old.queue.items;
    } }
    ensures waiting { AreWaiting pool.new.groups pool.new.queue.items }
    ensures freed { IsFreed pool.old.groups pool.old.queue.items result.freed pool.new.groups }
    ensures unchanged { result.freed ≡ 0 → pool.new.groups ≡ pool.old.groups }
{
    let GroupPool {
        groups,
        queue,
        passed,
    } = pool;
    let mut grace = Reclaimer {
        memory,
        groups,
        passed,
    };
    queue.reclaim(max, &mut grace)
}

/// Links the least free group to the block, and returns it. Where none is free, the oldest in limbo is
/// freed first; the error is the worker that holds it, none where no group waits.
#[tactic(auto, using(crate::proofs::Takes::may_free))]
pub(crate) fn take<M: Memory>(
    pool: &mut GroupPool,
    memory: &mut M,
    block: usize,
) -> Result<u32, Option<Busy>>
    requires queued { IsQueued pool.old.groups pool.old.queue }
    requires rests { MayTakeAt M.did memory.old pool.old }
    ensures takes { TakesAt M.did memory.old pool.old memory.new pool.new (taken_by result)
        (λ c x z. Takes (by_writer M.does c) x pool.old result z pool.new) }
    ensures linked { IfOk result (λ g. IsTaken pool.old.groups g block pool.new.groups) }
    ensures least { LinksLeast pool.old.groups pool.new.groups }
    ensures unchanged { OnErr result ((pool.new.groups ≡ pool.old.groups)
        × (pool.new.queue ≡ pool.old.queue)) }
    ensures queued { IsQueued pool.new.groups pool.new.queue }
{
    if let Some(group) = pool.groups.take_least(block) {
        return Ok(group);
    }
    let reclaimed = free_waiting(pool, memory, 1);
    let found = pool.groups.take_least(block);
    found.ok_or(reclaimed.stopped)
}
