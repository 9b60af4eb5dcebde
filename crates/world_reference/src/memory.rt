//! The words that all share, and whether each step may load or store what it does.

use super::InitialState;
use super::moment::Moment;
use lpm_cells::Entry;
use lpm_trace::{Actor, Kind, Step};

/// One of the words that all share.
#[derive(Clone, Copy, PartialEq, Eq)]
pub(crate) enum Word {
    First(u64),
    Second(u64),
    Sequence,
    Token,
    Counter(u64),
}

/// The word that a step loads or stores.
pub(crate) fn word_of(step: &Step) -> Word {
    match step.kind {
        Kind::StoreFirst | Kind::LoadFirst => Word::First(step.index),
        Kind::StoreSecond | Kind::LoadSecond => Word::Second(step.index),
        Kind::BumpSequence | Kind::LoadSequence => Word::Sequence,
        Kind::BumpToken | Kind::LoadToken => Word::Token,
        Kind::StoreCounter | Kind::LoadCounter => Word::Counter(step.index),
    }
}

/// Whether a step of this kind stores its word.
pub(crate) fn is_store(kind: Kind) -> bool {
    match kind {
        Kind::StoreFirst | Kind::StoreSecond | Kind::StoreCounter => true,
        Kind::BumpSequence | Kind::BumpToken => true,
        _ => false,
    }
}

/// The entry that a word of a table stands for.
pub(crate) fn entry_of(word: u64) -> Option<Entry> {
    Entry::from_word::<24, 8>(word)
}

/// The group that a first word stands for.
pub(crate) fn group_in(word: u64) -> Option<u32> {
    match entry_of(word) {
        Some(Entry::Group(group)) => Some(group),
        _ => None,
    }
}

/// The number of the next hop that a word stands for.
pub(crate) fn hop_in(word: u64) -> Option<u32> {
    let hop = entry_of(word)?.hop()?;
    Some(hop.number())
}

/// Whether the actor makes steps of this kind.
fn is_by_its_actor(initial: &InitialState, step: &Step) -> bool {
    match step.actor {
        Actor::Writer => match step.kind {
            Kind::StoreFirst | Kind::StoreSecond | Kind::BumpSequence => true,
            Kind::BumpToken | Kind::LoadCounter => true,
            _ => false,
        },
        Actor::Worker(worker) => match step.kind {
            Kind::LoadFirst | Kind::LoadSecond => worker < initial.workers,
            Kind::LoadSequence | Kind::LoadToken => worker < initial.workers,
            Kind::StoreCounter => worker < initial.workers && step.index == worker as u64,
            _ => false,
        },
    }
}

/// Whether the step's index is that of a word that there is: 0 for the sequence and the token.
fn has_its_index(initial: &InitialState, step: &Step) -> bool {
    match word_of(step) {
        Word::First(index) => index < initial.firsts(),
        Word::Second(index) => index < initial.seconds(),
        Word::Sequence | Word::Token => step.index == 0,
        Word::Counter(worker) => worker < initial.workers as u64,
    }
}

/// Whether the step's value may be, as its word stands: a load gives that, and the sequence and the
/// token are raised by one.
fn has_its_value(now: Moment<'_>, step: &Step) -> bool {
    let old = now.value(word_of(step));
    match step.kind {
        Kind::StoreFirst | Kind::StoreSecond | Kind::StoreCounter => true,
        Kind::BumpSequence | Kind::BumpToken => Some(step.value) == old.checked_add(1),
        _ => step.value == old,
    }
}

/// Whether each load gives the value of the last earlier store to its word, or the initial value;
/// the sequence and the token are raised by one; and each actor makes its own kinds of step, at
/// words that there are.
pub fn loads_are_stores(initial: &InitialState, steps: &[Step]) -> bool {
    for (made, step) in steps.iter().enumerate() {
        let is_its_own = is_by_its_actor(initial, step) && has_its_index(initial, step);
        if !is_its_own || !has_its_value(Moment::new(initial, steps, made), step) {
            return false;
        }
    }
    true
}
