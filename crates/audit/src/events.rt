//! The changes of a history by their prefixes.

ghost use Rattle.std.specs.Prelude.{◌≡◌, ◌≢◌, ◌≤◌, IfOk, MatchOption, length};
ghost use Rattle.audit.specs.Index.{AreOrdered, IsLastEvent, IsEventOf, IsOfNone, IsPrefixOf, HasNetwork, AreEventsUpTo, prefix_at, up_to, AreUpTo};

use lpm_bits::{Hop, Prefix};
use lpm_rules::Change;
use std::alloc::{AllocError, Global};

/// From this version on the prefix of these bits has this next hop, or none.
#[derive(Clone, Copy)]
pub struct Event {
    /// The bits of the prefix.
    pub bits: u32,
    /// The version that the change made.
    pub version: usize,
    /// The next hop that the prefix has since, or none.
    pub hop: Option<Hop>,
}

// The event of a prefix, where the prefix has this length.
fn event_at<const FIRST: u32, const SECOND: u32>(
    prefix: &Prefix<FIRST, SECOND>,
    hop: Option<Hop>,
    len: u32,
    version: usize,
) -> Option<Event>
    ensures event { MatchOption result (prefix.now.len ≢ len) (λ e. (prefix_at len e ≡ prefix.now)
        × (e.hop ≡ hop) × (e.version ≡ version)) }
    ensures network { IsPrefixOf FIRST SECOND prefix.now }
{
    let bits = prefix.bits();
    if prefix.len() != len {
        return None;
    }
    Some(Event { bits, version, hop })
}

// The event of a change that makes this version, where the change is of a prefix of this length.
fn event_of<const FIRST: u32, const SECOND: u32>(
    change: &Change<FIRST, SECOND>,
    len: u32,
    version: usize,
) -> Option<Event>
    ensures event { MatchOption result (IsOfNone len change.now)
        (λ e. IsEventOf len version change.now e) }
    ensures network { HasNetwork change.now }
{
    match change {
        Change::Add(prefix, hop) => return event_at(prefix, Some(*hop), len, version),
        Change::Delete(prefix) => return event_at(prefix, None, len, version),
        Change::Flush => return None,
        Change::Reclaim(_) => return None,
        Change::Synchronize => return None,
    }
}

// The events of the prefixes of a length, in the order of the history.
fn events_in_order<const FIRST: u32, const SECOND: u32>(
    alloc: Global,
    history: &[Change<FIRST, SECOND>],
    len: u32,
) -> Result<Vec<Event>, AllocError>
    ensures { IfOk result (λ v. AreEventsUpTo history.now len (length history.now) v.items) }
{
    let mut events = Vec::new(alloc);
    for i in 0..history.len() {
        if let Some(event) = event_of(&history[i], len, i + 1) {
            events.push(event)?;
        }
    }
    Ok(events)
}

/// The events of the prefixes of a length: by prefix, and those of one prefix by version.
pub fn events_of<const FIRST: u32, const SECOND: u32>(
    alloc: Global,
    history: &[Change<FIRST, SECOND>],
    len: u32,
) -> Result<Vec<Event>, AllocError>
    ensures events { IfOk result (λ v.
        AreEventsUpTo history.now len (length history.now) v.items) }
    ensures ordered { IfOk result (λ v. AreOrdered v.items) }
{
    let mut events = events_in_order(alloc, history, len)?;
    events.sort_unstable_by_key(|event| (event.bits, event.version));
    Ok(events)
}

// Whether an event is of these bits and of a version up to this one, or of lesser bits.
fn is_up_to(event: &Event, bits: u32, version: usize) -> bool
    ensures { result ≡ up_to bits version event.now }
{
    event.bits < bits || event.bits == bits && event.version <= version
}

// How many events are of lesser bits, or of these bits and of a version up to this one.
fn count_up_to(events: &[Event], bits: u32, version: usize) -> usize
    requires { AreOrdered events.now }
    ensures bound { result ≤ length events.now }
    ensures front { AreUpTo bits version events.now result }
{
    events.partition_point(|event| is_up_to(event, bits, version))
}

/// The last event of the prefix of these bits up to a version.
pub fn last_event(events: &[Event], bits: u32, version: usize) -> Option<Event>
    requires { AreOrdered events.now }
    ensures { IsLastEvent events.now bits version result }
{
    let count = count_up_to(events, bits, version);
    if count == 0 {
        return None;
    }
    let last = events[count - 1];
    if last.bits != bits {
        return None;
    }
    Some(last)
}
