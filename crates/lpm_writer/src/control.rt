//! A writer's commands, over any memory.

ghost use Rattle.std.specs.Prelude.{◌≡◌, ◌↔◌, List, IsTrue};
ghost use Rattle.lpm_update.specs.Represents.{LastFits};
ghost use Rattle.fib_model.specs.State.{IsExhausted};
ghost use Rattle.fib_model.specs.Outcomes.{Adds, Deletes, Flushes, Frees};
ghost use Rattle.lpm_trace.specs.declared.step.WriterStep.{WriterStep};
ghost use Rattle.lpm_trace.specs.States.{InitialState};
ghost use Rattle.lpm_writer.specs.TakenGroup.{LinksLeast};
ghost use Rattle.lpm_writer.specs.MemorySteps.{by_writer};
ghost use Rattle.lpm_writer.specs.Rest.{state_of};
ghost use Rattle.lpm_writer.specs.Commands.{Commands, MayCommand};

use super::GroupPool;
use super::changes::change;
use super::limbo::free_waiting;
use super::links::{group_for, is_linked};
use crate::Memory;
use defer_queue::Reclaimed;
use lpm_bits::{Hop, Prefix, Shape};
use lpm_limits::{Config, Refusal};
use lpm_rules::{Put, Rules};
use lpm_trace::RuleChange;
use lpm_update::Update;

/// The most updates that a writer begins.
const MOST_UPDATES: u64 = 1 << 61;
/// The greatest token.
pub(crate) const LAST_TOKEN: u64 = 1 << 62;

/// What a writer keeps beside the memory: the limits, the rules, the groups, and the number of updates
/// that it has begun.
#[derive(Drop)]
pub struct ControlState<const FIRST: u32, const SECOND: u32> {
    pub config: Config,
    pub rules: Rules<FIRST, SECOND>,
    pub pool: GroupPool,
    pub versions: u64,
}

/// Whether the tokens or the versions would pass their bound by one more change.
fn is_exhausted<const FIRST: u32, const SECOND: u32, M: Memory>(
    control: &ControlState<FIRST, SECOND>,
    memory: &M,
) -> bool
    requires rests { MayCommand M.did control.now memory.now }
    ensures { (c : InitialState) (steps : List WriterStep) → M.did memory.now c steps
        → IsTrue result ↔ IsExhausted (by_writer M.does c) control.now.config
        (state_of control.now.rules.rules (memory.now, steps) control.now.pool control.now.versions) }
{
    let last = memory.token() + control.pool.groups.len() as u64;
    last > LAST_TOKEN || control.versions >= MOST_UPDATES
}

/// Whether a rule that the list has no more was longer than `FIRST` bits, and has left no such rule in
/// its block.
fn is_last<const FIRST: u32, const SECOND: u32>(
    rules: &Rules<FIRST, SECOND>,
    prefix: &Prefix<FIRST, SECOND>,
) -> bool
    ensures { LastFits FIRST SECOND rules.now.rules prefix.now result }
{
    prefix.len() > FIRST && !rules.is_deep(Shape::<FIRST, SECOND>::first_index(prefix.bits()))
}

/// Adds a rule, or gives the prefix's rule another next hop. A rule that is there already stays, and is
/// `Unchanged`, whatever else holds.
///
/// The refusals, in the order of the checks: `Exhausted`; `TooManyRules` and `Memory`, where a new rule
/// has no room; and `NoGroups`, where a rule longer than `FIRST` bits is the first in its block, no group
/// is free, and the oldest in limbo is held or there is none. It names the worker that holds that one.
pub fn add_rule<const FIRST: u32, const SECOND: u32, M: Memory>(
    control: &mut ControlState<FIRST, SECOND>,
    memory: &mut M,
    prefix: &Prefix<FIRST, SECOND>,
    hop: Hop,
) -> Result<Put, Refusal>
    requires rests { MayCommand M.did control.old memory.old }
    ensures adds { Commands M.did control.old memory.old control.new memory.new
        (λ c x z. Adds (by_writer M.does c) FIRST SECOND control.old.config x prefix.now hop result z) }
    ensures least { LinksLeast control.old.pool.groups control.new.pool.groups }
    ensures config { control.new.config ≡ control.old.config }
{
    let bits = prefix.bits();
    let number = hop.number();
    if is_exhausted(control, memory) {
        return match control.rules.get(prefix) {
            Some(old) if old == hop => Ok(Put::Unchanged),
            _ => Err(Refusal::Exhausted),
        };
    }
    // The word is loaded here, so that the wait for it and the search of the rules overlap.
    let linked = is_linked::<FIRST, SECOND, M>(prefix, memory);
    let put = control.rules.put(prefix, hop)?;
    if let Put::Unchanged = put {
        return Ok(put);
    }
    match group_for::<FIRST, SECOND, M>(prefix, linked, memory, &mut control.pool) {
        Ok(group) => {
            let update = Update::add(prefix, hop, group);
            let len = prefix.len();
            let rule = RuleChange::Put(u64::from(bits), u64::from(len), u64::from(number));
            change::<FIRST, SECOND, M>(control, memory, update, &rule);
            Ok(put)
        }
        Err(oldest) => {
            let _ = control.rules.remove(prefix);
            Err(Refusal::NoGroups { oldest })
        }
    }
}

/// Frees groups that wait in limbo, from the oldest on: at most `max`, up to the first that a worker
/// holds. It returns how many were freed, and the worker that stopped it.
pub fn reclaim_groups<const FIRST: u32, const SECOND: u32, M: Memory>(
    control: &mut ControlState<FIRST, SECOND>,
    memory: &mut M,
    max: usize,
) -> Reclaimed
    requires rests { MayCommand M.did control.old memory.old }
    ensures frees { Commands M.did control.old memory.old control.new memory.new
        (λ c x z. Frees (by_writer M.does c) x max result z) }
    ensures config { control.new.config ≡ control.old.config }
{
    free_waiting(&mut control.pool, memory, max)
}

/// Deletes the rule of this prefix, and returns its next hop. Its addresses go to the longest rule that
/// is shorter and covers it, where there is one.
///
/// The refusals: `NoSuchRule`, where the prefix has no rule, and else `Exhausted`.
pub fn delete_rule<const FIRST: u32, const SECOND: u32, M: Memory>(
    control: &mut ControlState<FIRST, SECOND>,
    memory: &mut M,
    prefix: &Prefix<FIRST, SECOND>,
) -> Result<Hop, Refusal>
    requires rests { MayCommand M.did control.old memory.old }
    ensures deletes { Commands M.did control.old memory.old control.new memory.new
        (λ c x z. Deletes (by_writer M.does c) FIRST SECOND control.old.config x prefix.now result z) }
    ensures config { control.new.config ≡ control.old.config }
{
    let bits = prefix.bits();
    if is_exhausted(control, memory) {
        return match control.rules.get(prefix) {
            Some(_) => Err(Refusal::Exhausted),
            None => Err(Refusal::NoSuchRule),
        };
    }
    let cover = control.rules.cover(prefix);
    let hop = control.rules.remove(prefix)?;
    let last = is_last(&control.rules, prefix);
    let update = Update::delete(prefix, cover, last);
    let rule = RuleChange::TakeOut(u64::from(bits), u64::from(prefix.len()));
    change::<FIRST, SECOND, M>(control, memory, update, &rule);
    Ok(hop)
}

/// Deletes all rules, as one version, and returns how many there were. With none nothing changes, and
/// else `Exhausted` is the only refusal.
pub fn flush_rules<const FIRST: u32, const SECOND: u32, M: Memory>(
    control: &mut ControlState<FIRST, SECOND>,
    memory: &mut M,
) -> Result<usize, Refusal>
    requires rests { MayCommand M.did control.old memory.old }
    ensures flushes { Commands M.did control.old memory.old control.new memory.new
        (λ c x z. Flushes (by_writer M.does c) FIRST SECOND control.old.config x result z) }
    ensures config { control.new.config ≡ control.old.config }
{
    if control.rules.is_empty() {
        return Ok(0);
    }
    if is_exhausted(control, memory) {
        return Err(Refusal::Exhausted);
    }
    let count = control.rules.clear();
    let update = Update::flush::<FIRST, SECOND>();
    let rule = RuleChange::Clear;
    change::<FIRST, SECOND, M>(control, memory, update, &rule);
    Ok(count)
}
