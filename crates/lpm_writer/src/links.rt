//! The group by which a rule is added.

ghost use Rattle.std.specs.Prelude.{◌≡◌, ◌/◌, ◌^◌, ◌↔◌, OnErr, IsTrue, IsSome};
ghost use Rattle.lpm_cells.specs.Words.{IsWords};
ghost use Rattle.lpm_update.specs.BlockGroups.{group_at};
ghost use Rattle.lpm_writer.specs.Limbo.{IsQueued};
ghost use Rattle.lpm_writer.specs.TakenGroup.{LinksLeast, MayTakeAt, FindsAt};

use super::GroupPool;
use super::limbo::take;
use crate::Memory;
use lpm_bits::{Prefix, Shape};
use lpm_cells::Entry;
use lpm_limits::Busy;

/// Whether the block of the prefix's first address has a group.
#[inline]
pub(crate) fn is_linked<const FIRST: u32, const SECOND: u32, M: Memory>(
    prefix: &Prefix<FIRST, SECOND>,
    memory: &mut M,
) -> bool
    requires words { IsWords FIRST SECOND (M.words memory.old) }
    ensures linked { IsTrue result
        ↔ IsSome (group_at (M.words memory.old).firsts (prefix.now.bits / 2 ^ SECOND)) }
    ensures same { memory.new ≡ memory.old }
{
    let bits = prefix.bits();
    let block = Shape::<FIRST, SECOND>::first_index(bits);
    matches!(Entry::of_word(memory.first(block)), Entry::Group(_))
}

/// The group by which a rule is added: none where it needs no new one, and else the one that is then
/// linked to the rule's block. The error is that it needs one and none can be had, and the worker that
/// holds the oldest group in limbo.
pub(crate) fn group_for<const FIRST: u32, const SECOND: u32, M: Memory>(
    prefix: &Prefix<FIRST, SECOND>,
    linked: bool,
    memory: &mut M,
    pool: &mut GroupPool,
) -> Result<Option<u32>, Option<Busy>>
    requires linked { IsTrue linked
        ↔ IsSome (group_at (M.words memory.old).firsts (prefix.now.bits / 2 ^ SECOND)) }
    requires queued { IsQueued pool.old.groups pool.old.queue }
    requires rests { MayTakeAt M.did memory.old pool.old }
    ensures finds { FindsAt M.did M.does FIRST SECOND (M.words memory.old).firsts prefix.now
        memory.old pool.old result memory.new pool.new }
    ensures least { LinksLeast pool.old.groups pool.new.groups }
    ensures unchanged { OnErr result ((pool.new.groups ≡ pool.old.groups)
        × (pool.new.queue ≡ pool.old.queue)) }
    ensures queued { IsQueued pool.new.groups pool.new.queue }
{
    let bits = prefix.bits();
    if prefix.len() <= FIRST || linked {
        return Ok(None);
    }
    let block = Shape::<FIRST, SECOND>::first_index(bits);
    take(pool, memory, block).map(Some)
}
