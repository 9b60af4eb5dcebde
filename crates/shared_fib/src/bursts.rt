//! Lookups of a burst of addresses by a pass.

ghost use Rattle.std.specs.Prelude.{◌≡◌, ◌+◌, ◌≤◌, ◌<◌, ◌++◌, ℕ, List, Option, length, min, map, take, drop, true};
ghost use Rattle.shared_fib.specs.RunningTable.{hop_or};
ghost use Rattle.shared_fib.specs.Passes.{LooksUpAll};
ghost use Rattle.shared_fib.specs.Bursts.{LooksUpBurst};

use crate::pass::number_or;
use crate::{Pass, SharedTable};

/// How a burst of addresses was answered. Each answer is that of a version from `lo` to `hi`, and no two
/// need be of one version.
#[derive(Clone, Copy, Debug, PartialEq, Eq)]
pub struct Burst {
    /// How many addresses were answered.
    pub count: usize,
    /// How many updates were done when the burst began; 2^64 - 1 where no address was answered.
    pub lo: u64,
    /// How many updates were begun when it ended; 0 where no address was answered.
    pub hi: u64,
}

/// The four addresses at this place.
#[inline]
fn four_at(addrs: &[u32], at: usize) -> [u32; 4]
    requires { at + 4 ≤ length addrs.now }
    ensures { take (at + 4) addrs.now ≡ take at addrs.now ++ result }
{
    [addrs[at], addrs[at + 1], addrs[at + 2], addrs[at + 3]]
}

/// Puts four numbers at this place.
#[inline]
fn put_four(hops: &mut [u32], at: usize, four: [u32; 4])
    requires { at + 4 ≤ length hops.old }
    ensures len { length hops.new ≡ length hops.old }
    ensures front { take (at + 4) hops.new ≡ take at hops.old ++ four }
    ensures rest { drop (at + 4) hops.new ≡ drop (at + 4) hops.old }
{
    let [a, b, c, d] = four;
    hops[at] = a;
    hops[at + 1] = b;
    hops[at + 2] = c;
    hops[at + 3] = d;
}

impl Pass {
    /// Looks addresses up, and puts their next hops into `hops`, in their order, with `default` for an
    /// address that no rule covers. It answers as many addresses as both lists have room for, and returns
    /// how many those are, with the versions that the answers lie between. What stands behind them in
    /// `hops` stays.
    ///
    /// The addresses are looked up in fours, each by the loads of `lookup4`, and those that are left one by
    /// one.
    #[inline]
    pub fn lookup_burst(
        &mut self,
        table: &SharedTable<24, 8>,
        addrs: &[u32],
        default: u32,
        hops: &mut [u32],
    ) -> Burst
        requires own { self.old.table ≡ table.now }
        requires online { self.old.online ≡ true }
        ensures own { self.new.table ≡ self.old.table }
        ensures count { result.count ≡ min (length addrs.now) (length hops.old) }
        ensures answers { (found : List (Option ℕ))
            × LooksUpBurst (take result.count addrs.now) found result.lo result.hi self.old self.new
            × (take result.count hops.new ≡ map (hop_or default) found) }
        ensures len { length hops.new ≡ length hops.old }
        ensures rest { drop result.count hops.new ≡ drop result.count hops.old }
        ensures online { self.new.online ≡ true }
    {
        let end = addrs.len().min(hops.len());
        let mut burst = Burst {
            count: 0,
            lo: u64::MAX,
            hi: 0,
        };
        while burst.count < end {
            let piece = self.lookup_piece(table, addrs, default, hops, burst.count, end);
            burst = Burst {
                count: piece.count,
                lo: burst.lo.min(piece.lo),
                hi: burst.hi.max(piece.hi),
            };
        }
        burst
    }

    // Looks up the four addresses at this place, or the one, where fewer than four are left before the end.
    // It returns the place behind them.
    #[inline]
    fn lookup_piece(
        &mut self,
        table: &SharedTable<24, 8>,
        addrs: &[u32],
        default: u32,
        hops: &mut [u32],
        at: usize,
        end: usize,
    ) -> Burst
        requires own { self.old.table ≡ table.now }
        requires online { self.old.online ≡ true }
        requires some { at < end }
        requires addrs { end ≤ length addrs.now }
        requires hops { end ≤ length hops.old }
        ensures own { self.new.table ≡ self.old.table }
        ensures more { at < result.count }
        ensures within { result.count ≤ end }
        ensures len { length hops.new ≡ length hops.old }
        ensures answers { (piece : List ℕ) × (found : List (Option ℕ))
            × LooksUpAll piece found result.lo result.hi self.old self.new
            × (take result.count addrs.now ≡ take at addrs.now ++ piece)
            × (take result.count hops.new ≡ take at hops.old ++ map (hop_or default) found) }
        ensures rest { drop result.count hops.new ≡ drop result.count hops.old }
        ensures online { self.new.online ≡ true }
    {
        if end - at < 4 {
            let answer = self.lookup(table, addrs[at]);
            hops[at] = number_or(answer.hop, default);
            return Burst {
                count: at + 1,
                lo: answer.lo,
                hi: answer.hi,
            };
        }
        let four = self.lookup4(table, four_at(addrs, at), default);
        put_four(hops, at, four.hops);
        Burst {
            count: at + 4,
            lo: four.lo,
            hi: four.hi,
        }
    }
}
