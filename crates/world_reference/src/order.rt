//! Whether the writer's steps come in an order that its commands allow.

use super::InitialState;
use super::memory::{Word, entry_of, group_in};
use super::moment::Moment;
use super::progress::{Linking, WriterProgress};
use super::versions::{Versions, is_answer};
use lpm_trace::{Kind, Step};
use std::alloc::{AllocError, Global};

/// Whether an address keeps its answer at the next step, or turns, for the first time in its update,
/// from the answer of the version done to that of the version begun.
fn keeps_or_turns(now: Moment<'_>, versions: &Versions, addr: u32) -> bool {
    let old = now.answer(addr);
    let new = now.at(now.made.saturating_add(1)).answer(addr);
    if old == new {
        return true;
    }
    !now.has_turned(addr)
        && is_answer(now.initial, versions, now.updates_done(), addr, old)
        && is_answer(now.initial, versions, now.updates_begun(), addr, new)
}

/// Whether the next step stands in an update, and each address keeps its answer or turns.
fn all_keep_or_turn(now: Moment<'_>, versions: &Versions) -> bool {
    if !now.is_updating() {
        return false;
    }
    for addr in 0..=now.initial.last_address() {
        if !keeps_or_turns(now, versions, addr) {
            return false;
        }
    }
    true
}

/// Whether each address has the answer of the version begun.
fn all_have_turned(now: Moment<'_>, versions: &Versions) -> bool {
    let version = now.updates_begun();
    for addr in 0..=now.initial.last_address() {
        if !is_answer(now.initial, versions, version, addr, now.answer(addr)) {
            return false;
        }
    }
    true
}

/// Whether the word may stand in a group: it is that of a miss or a hop.
fn is_last_word(word: u64) -> bool {
    entry_of(word).is_some() && group_in(word).is_none()
}

/// Whether the sequence may be raised next: an update begins that makes a version, or one ends after
/// which each address has the new answer.
fn may_bump_sequence(now: Moment<'_>, versions: &Versions) -> bool {
    if now.is_updating() {
        return all_have_turned(now, versions);
    }
    now.updates_begun().saturating_add(1) < versions.len()
}

/// Whether this step may come next, as the writer has come so far.
fn is_in_order(
    now: Moment<'_>,
    versions: &Versions,
    step: &Step,
    progress: &mut WriterProgress,
) -> bool {
    let updating = now.is_updating();
    let token = now.value(Word::Token);
    match step.kind {
        Kind::StoreFirst => {
            let linking = Linking {
                unlinked: now.unlinked(),
                linked: group_in(step.value),
                token,
            };
            progress.store_first(&linking)
                && entry_of(step.value).is_some()
                && all_keep_or_turn(now, versions)
        }
        Kind::StoreSecond => {
            progress.store_second(now.initial.group_of(step.index))
                && is_last_word(step.value)
                && all_keep_or_turn(now, versions)
        }
        Kind::BumpSequence => progress.bump_sequence() && may_bump_sequence(now, versions),
        Kind::BumpToken => progress.bump_token(updating, step.value),
        Kind::LoadCounter => progress.load_counter(updating, token, step.index, step.value),
        _ => true,
    }
}

/// Whether the versions begin with one that has no rules.
fn begin_with_no_rules(versions: &Versions) -> bool {
    match versions.first() {
        Some(rules) => rules.is_empty(),
        None => false,
    }
}

/// Whether the writer's steps come in an order that its commands allow:
///
/// - its stores stand in updates, and after each of them each address has its old answer, or the new
///   one from then on; at the end of the update each has the new one;
/// - an update stores into groups that are linked and into one free group, and links that one alone,
///   before it ends;
/// - the token is raised directly after each step that unlinks a group, and else between updates;
/// - a check loads the counters of the workers in turn, as far as the first that is neither 0 nor at
///   least the token.
pub fn writes_in_order(
    alloc: Global,
    initial: &InitialState,
    versions: &Versions,
    steps: &[Step],
) -> Result<bool, AllocError> {
    let mut progress = WriterProgress::new(alloc, initial)?;
    for (made, step) in steps.iter().enumerate() {
        let now = Moment::new(initial, steps, made);
        if !is_in_order(now, versions, step, &mut progress) {
            return Ok(false);
        }
    }
    Ok(begin_with_no_rules(versions))
}
