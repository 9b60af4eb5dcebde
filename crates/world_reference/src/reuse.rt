//! Whether groups are used again only after their grace period, by reader intervals alone.

use super::InitialState;
use super::memory::Word;
use super::moment::Moment;
use lpm_trace::{Actor, Kind, Step};

/// Whether a reader interval of a worker ends with a step, and whether one begins with it.
#[derive(Clone, Copy)]
struct Mark {
    ends: bool,
    begins: bool,
}

/// What the next step is to the reader intervals of this worker, which is online where its counter isn't
/// 0. A quiescent report ends one and begins another where it loads the token.
fn mark_of(now: Moment<'_>, worker: usize, step: &Step) -> Mark {
    let was_online = now.value(Word::Counter(worker as u64)) != 0;
    let (ends, begins) = match step.kind {
        Kind::LoadToken => (was_online, was_online),
        Kind::StoreCounter => (step.value == 0, step.value != 0 && !was_online),
        _ => (false, false),
    };
    Mark { ends, begins }
}

/// The same, whoever makes the step.
fn mark_at(now: Moment<'_>, worker: usize) -> Mark {
    match now.step() {
        Some(step) if step.actor == Actor::Worker(worker) => mark_of(now, worker, &step),
        _ => Mark {
            ends: false,
            begins: false,
        },
    }
}

/// Whether the next step stores into the group.
fn fills(now: Moment<'_>, group: u32) -> bool {
    match now.step() {
        Some(step) => {
            let filled = now.initial.group_of(step.index);
            step.kind == Kind::StoreSecond && filled == u64::from(group)
        }
        None => false,
    }
}

/// Whether a later step stores into the group, before the worker's next reader interval ends.
fn is_filled_after(unlinking: Moment<'_>, group: u32, worker: usize) -> bool {
    for made in unlinking.made..unlinking.steps.len() {
        let now = unlinking.at(made);
        if mark_at(now, worker).ends {
            return false;
        }
        if fills(now, group) {
            return true;
        }
    }
    false
}

/// Whether the worker's reader interval that begins here holds no unlinking of a group with a later
/// store into that group.
fn interval_is_lawful(begin: Moment<'_>, worker: usize) -> bool {
    for made in begin.made.saturating_add(1)..begin.steps.len() {
        let now = begin.at(made);
        if mark_at(now, worker).ends {
            return true;
        }
        if let Some(group) = now.unlinked() {
            if is_filled_after(now, group, worker) {
                return false;
            }
        }
    }
    true
}

/// Whether no reader interval of the worker holds an unlinking of a group with a later store into it.
fn intervals_are_lawful(initial: &InitialState, steps: &[Step], worker: usize) -> bool {
    for made in 0..steps.len() {
        let now = Moment::new(initial, steps, made);
        if mark_at(now, worker).begins && !interval_is_lawful(now, worker) {
            return false;
        }
    }
    true
}

/// Whether no group is rewritten within its grace period: no reader interval holds both a step that
/// unlinks a group and a later one that stores into it. An interval begins where a worker stores its
/// counter in a report that it is online, or loads the token in a quiescent report; it ends where the
/// worker next loads the token in a quiescent report, or goes offline.
pub fn reuse_is_lawful(initial: &InitialState, steps: &[Step]) -> bool {
    for worker in 0..initial.workers {
        if !intervals_are_lawful(initial, steps, worker) {
            return false;
        }
    }
    true
}
