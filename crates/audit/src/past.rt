//! The rules of each version of a history.

ghost use Rattle.std.specs.Prelude.{◌≡◌, ◌+◌, ◌^◌, ◌<◌, ◌≤◌, ◌↔◌, IfOk, IsTrue, length};
ghost use Rattle.std.specs.FinMap as map;
ghost use Rattle.lpm_bits.specs.Network.{prefix_of};
ghost use Rattle.lpm_rules.specs.RuleMap.{AllNetworks};
ghost use Rattle.lpm_rules.specs.Longest.{IsLongestHop};
ghost use Rattle.lpm_rules.specs.declared.Change.TheVariants.{Flush as FlushChange};
ghost use Rattle.audit.specs.Wrong.{version_of};
ghost use Rattle.audit.specs.Index.{AreFlushes};

use crate::events::{Event, events_of, last_event};
use lpm_bits::{Hop, Prefix};
use lpm_rules::Change;
use std::alloc::{AllocError, Global};
use std::marker::Model;

/// A history with an index: the rules of each of its versions, by prefix.
///
/// Version `k` of a history is that after its first `k` changes, from no rules on. Each change
/// makes one version, a flush and one that leaves the rules as they are too. The history is
/// borrowed, and the index takes room for each of its changes.
#[derive(Drop)]
pub struct Past<'a, const FIRST: u32, const SECOND: u32> {
    history: &'a [Change<FIRST, SECOND>],
    // For each version the last flush up to that version, or 0.
    flushed: Vec<usize>,
    // For each length the events of its prefixes.
    lengths: Vec<Vec<Event>>,
}

impl<'a, const FIRST: u32, const SECOND: u32> Model for Past<'a, FIRST, SECOND> {
    ghost use Rattle.std.specs.Prelude.{List};
    ghost use Rattle.lpm_rules.specs.declared.Change.{Change};

    ghost Value = { List (Change FIRST SECOND) };

    ghost use Rattle.audit.specs.Index.{IsSound};

    ghost view = { λ a. a.history.now };

    ghost invariant = { λ a. IsSound FIRST SECOND a.history.now a.flushed.items a.lengths.items };
}

// Whether a change takes out all rules.
fn is_flush<const FIRST: u32, const SECOND: u32>(change: &Change<FIRST, SECOND>) -> bool
    ensures { IsTrue result ↔ (change.now ≡ FlushChange) }
{
    match change {
        Change::Add(..) => return false,
        Change::Delete(_) => return false,
        Change::Flush => return true,
        Change::Reclaim(_) => return false,
        Change::Synchronize => return false,
    }
}

// For each version the last flush up to that version, or 0.
fn flushes_of<const FIRST: u32, const SECOND: u32>(
    alloc: Global,
    history: &[Change<FIRST, SECOND>],
) -> Result<Vec<usize>, AllocError>
    ensures { IfOk result (λ v. AreFlushes history.now (length history.now) v.items) }
{
    let mut flushed = Vec::new(alloc);
    let mut last = 0;
    flushed.push(last)?;
    for i in 0..history.len() {
        if is_flush(&history[i]) {
            last = i + 1;
        }
        flushed.push(last)?;
    }
    Ok(flushed)
}

impl<'a, const FIRST: u32, const SECOND: u32> Past<'a, FIRST, SECOND> {
    /// Makes the index of a history: a walk over the history for each length, and a sort.
    ///
    /// `AllocError` comes where room for the index is refused.
    pub fn new(
        alloc: Global,
        history: &'a [Change<FIRST, SECOND>],
    ) -> Result<Past<'a, FIRST, SECOND>, AllocError>
        ensures { IfOk result (λ p. p ≡ history.now) }
    {
        let flushed = flushes_of(alloc, history)?;
        let mut lengths = Vec::new(alloc);
        for len in 0..33 {
            lengths.push(events_of(alloc, history, len)?)?;
        }
        Ok(Past {
            history,
            flushed,
            lengths,
        })
    }

    /// The history.
    pub(crate) fn history(&self) -> &'a [Change<FIRST, SECOND>]
        ensures { result.now ≡ self.now }
    {
        self.history
    }

    // The next hop that a prefix has at a version.
    fn hop_at(&self, prefix: &Prefix<FIRST, SECOND>, version: usize) -> Option<Hop>
        requires { version ≤ length self.now }
        ensures { result ≡ map.get (version_of self.now version) prefix.now }
    {
        let bits = prefix.bits();
        let events = &self.lengths[prefix.len() as usize];
        let Some(last) = last_event(events, bits, version) else {
            return None;
        };
        if last.version <= self.flushed[version] {
            return None;
        }
        last.hop
    }

    // The next hop that the prefix of this length of an address has at a version.
    fn covering_at(&self, addr: u32, len: u32, version: usize) -> Option<Hop>
        requires addr { addr < 2 ^ (FIRST + SECOND) }
        requires len { len ≤ 32 }
        requires version { version ≤ length self.now }
        ensures { result
            ≡ map.get (version_of self.now version) (prefix_of (FIRST + SECOND) len addr) }
    {
        if self.lengths[len as usize].is_empty() {
            return None;
        }
        let Ok(prefix) = Prefix::<FIRST, SECOND>::new(addr, len) else {
            return None;
        };
        self.hop_at(&prefix, version)
    }

    /// The next hop of the longest rule that covers an address at a version.
    pub(crate) fn longest_at(&self, addr: u32, version: usize) -> Option<Hop>
        requires addr { addr < 2 ^ (FIRST + SECOND) }
        requires version { version ≤ length self.now }
        ensures longest { IsLongestHop (FIRST + SECOND) (version_of self.now version) addr result }
        ensures networks { AllNetworks (FIRST + SECOND) (version_of self.now version) }
    {
        let _ = &self.lengths;
        for shorter in 0..33 {
            if let Some(hop) = self.covering_at(addr, 32 - shorter, version) {
                return Some(hop);
            }
        }
        None
    }
}
