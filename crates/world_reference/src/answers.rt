//! The lookups of a worker, and whether an answer is one of a version that stood meanwhile.

use super::InitialState;
use super::deeds::{Numbered, group_read, progress_of};
use super::memory::hop_in;
use super::moment::Moment;
use super::versions::{Versions, is_answer};
use lpm_trace::{Deed, Step};
use std::alloc::{AllocError, Global};

/// A finished lookup of one address. Steps are numbered from 1.
#[derive(Clone, Copy, Debug, PartialEq, Eq)]
pub struct FinishedLookup {
    /// The address.
    pub addr: u32,
    /// The number of the next hop; none for a miss.
    pub hop: Option<u32>,
    /// The number of the step that read its first word.
    pub first: usize,
    /// The number of the step that read its last word.
    pub last: usize,
    /// How many updates were done when the lookup began.
    pub lo: u64,
    /// How many updates were begun when the lookup ended.
    pub hi: u64,
}

/// What a lookup has seen of an address, where the lookup's steps are these, and those at these places
/// read the address's first and last word.
fn finished_of(
    trace: Moment<'_>,
    whole: &[Numbered],
    addr: u32,
    first: usize,
    last: usize,
) -> Option<FinishedLookup> {
    let read = whole.get(last)?;
    Some(FinishedLookup {
        addr,
        hop: hop_in(read.step.value),
        first: whole.get(first)?.number,
        last: read.number,
        lo: trace.at(whole.first()?.number).updates_done() as u64,
        hi: trace.at(whole.last()?.number).updates_begun() as u64,
    })
}

/// Puts what a lookup has seen of each of these addresses to the rest, where its steps are these.
pub(crate) fn push_finished(
    trace: Moment<'_>,
    whole: &[Numbered],
    addrs: &[u32],
    seen: &mut Vec<FinishedLookup>,
) -> Result<(), AllocError> {
    // The place of the next load of a second word.
    let mut second = addrs.len().saturating_add(1);
    for (address, addr) in addrs.iter().enumerate() {
        let first = address.saturating_add(1);
        let mut last = first;
        if group_read(whole, address).is_some() {
            last = second;
            second = second.saturating_add(1);
        }
        if let Some(one) = finished_of(trace, whole, *addr, first, last) {
            seen.push(one)?;
        }
    }
    Ok(())
}

/// The finished lookups of a worker whose steps are those of its deeds, one for each address, in
/// order.
pub fn lookups(
    alloc: Global,
    initial: &InitialState,
    steps: &[Step],
    worker: usize,
    deeds: &[Deed],
) -> Result<Vec<FinishedLookup>, AllocError> {
    Ok(progress_of(alloc, initial, steps, worker, deeds)?.lookups)
}

/// Whether the version is one from `lo` to `hi`, and its answer is the one that was seen.
fn is_by_version(
    initial: &InitialState,
    versions: &Versions,
    version: usize,
    seen: &FinishedLookup,
) -> bool {
    let number = version as u64;
    let is_within = seen.lo <= number && number <= seen.hi;
    is_within && is_answer(initial, versions, version, seen.addr, seen.hop)
}

/// Whether a finished lookup is legal: its answer is that of a version that stood at a moment from
/// the read of its first word to the read of its last, and that version lies from `lo` to `hi`.
pub fn is_legal(
    initial: &InitialState,
    versions: &Versions,
    steps: &[Step],
    seen: &FinishedLookup,
) -> bool {
    for made in seen.first..=seen.last.min(steps.len()) {
        let now = Moment::new(initial, steps, made);
        let is_by_either = is_by_version(initial, versions, now.updates_done(), seen)
            || is_by_version(initial, versions, now.updates_begun(), seen);
        if is_by_either {
            return true;
        }
    }
    false
}

/// Whether a finished lookup answers by the version that its address shows at a moment of its span.
fn is_by_shown(
    initial: &InitialState,
    versions: &Versions,
    steps: &[Step],
    seen: &FinishedLookup,
) -> bool {
    for made in seen.first..=seen.last.min(steps.len()) {
        let version = Moment::new(initial, steps, made).version(seen.addr);
        if is_answer(initial, versions, version, seen.addr, seen.hop) {
            return true;
        }
    }
    false
}

/// Whether each of these lookups answers by the version that its address shows at a moment of its
/// span. The version that an address shows never falls: it is that of the updates done until the
/// answer has changed in the update that runs, and that of the updates begun from that store on.
pub fn never_falls(
    initial: &InitialState,
    versions: &Versions,
    steps: &[Step],
    seen: &[FinishedLookup],
) -> bool {
    for one in seen {
        if !is_by_shown(initial, versions, steps, one) {
            return false;
        }
    }
    true
}
