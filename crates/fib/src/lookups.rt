//! Lookups of several addresses, and words loaded ahead of changes.

ghost use Rattle.std.specs.Prelude.{◌≡◌, ℕ, ◌+◌, ◌^◌, ◌<◌, ◌↔◌, All, IfOk, IsTrue, drop, length, min, slice_index, take};
ghost use Rattle.std.specs.List.{AllZip};
ghost use Rattle.lpm_rules.specs.Longest.{AreLongestHops};
ghost use Rattle.fib.specs.Fib.{IsCovered, IsHopOrDefault};

use super::Fib;
use lpm_bits::{Hop, Prefix};
use std::alloc::{AllocError, Global};

impl<const FIRST: u32, const SECOND: u32> Fib<FIRST, SECOND> {
    /// The next hops of four addresses, with `default` for an address that no rule covers.
    #[inline]
    pub fn lookup4(&self, addrs: [u32; 4], default: u32) -> [u32; 4]
        requires { (i : ℕ) → i < 4 → slice_index addrs i < 2 ^ (FIRST + SECOND) }
        ensures { (i : ℕ) → i < 4 → IsHopOrDefault (FIRST + SECOND) self.now.table.rules default
            (slice_index addrs i) (slice_index result i) }
    {
        let [a, b, c, d] = addrs;
        [
            self.hop_or(a, default),
            self.hop_or(b, default),
            self.hop_or(c, default),
            self.hop_or(d, default),
        ]
    }

    /// The next hop of an address, with `default` where no rule covers it.
    #[inline]
    fn hop_or(&self, addr: u32, default: u32) -> u32
        requires { addr < 2 ^ (FIRST + SECOND) }
        ensures { IsHopOrDefault (FIRST + SECOND) self.now.table.rules default addr result }
    {
        match self.lookup(addr) {
            Some(hop) => hop.number(),
            None => default,
        }
    }

    /// The next hops of the addresses, in their order.
    pub fn lookup_all(&self, alloc: Global, addrs: &[u32]) -> Result<Vec<Option<Hop>>, AllocError>
        requires { All (λ a. a < 2 ^ (FIRST + SECOND)) addrs.now }
        ensures { IfOk result (λ v.
            AreLongestHops (FIRST + SECOND) self.now.table.rules addrs.now v.items) }
    {
        let mut hops = Vec::with_capacity(alloc, addrs.len())?;
        for addr in addrs {
            hops.push(self.lookup(*addr))?;
        }
        Ok(hops)
    }

    /// Loads the words that a change of this prefix reads or writes first, those that a lookup of
    /// its first address reads. It returns whether a rule covers that address.
    ///
    /// A processor waits for the words of many prefixes together where they are loaded one directly
    /// after the other, and for those of each prefix alone where a change stands between.
    #[inline]
    pub fn prefetch(&self, prefix: &Prefix<FIRST, SECOND>) -> bool
        ensures { IsTrue result ↔ IsCovered (FIRST + SECOND) self.now.table.rules prefix.now.bits }
    {
        self.lookup(prefix.bits()).is_some()
    }
}

impl Fib<24, 8> {
    /// Looks addresses up, and puts their next hops into `hops`, in their order, with `default` for an
    /// address that no rule covers. It answers as many addresses as both lists have room for, and returns
    /// how many those are. What stands behind them in `hops` stays.
    #[inline]
    pub fn lookup_bulk(&self, addrs: &[u32], default: u32, hops: &mut [u32]) -> usize
        ensures count { result ≡ min (length addrs.now) (length hops.old) }
        ensures answers { AllZip (IsHopOrDefault 32 self.now.table.rules default)
            (take result addrs.now) (take result hops.new) }
        ensures rest { drop result hops.new ≡ drop result hops.old }
    {
        let count = addrs.len().min(hops.len());
        for i in 0..count {
            hops[i] = self.hop_or(addrs[i], default);
        }
        count
    }
}
