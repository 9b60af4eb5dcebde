//! Lookups of many addresses by a reader.

ghost use Rattle.std.specs.Prelude.{◌≡◌, ◌+◌, ◌<◌, ◌++◌, [], ℕ, List, Option, length, map, take, true};
ghost use Rattle.shared_fib.specs.Bursts.{greatest, least};
ghost use Rattle.shared_fib.specs.Passes.{LooksUpAll};
ghost use Rattle.shared_fib.specs.RunningTable.{hop_or};
ghost use Rattle.saxiko_c.specs.RunningTable.{FindsEach};
ghost use Rattle.saxiko_c.specs.declared.records.SaxikoSpan.{SaxikoSpan as Span};

use crate::records::SaxikoSpan;
use crate::running_table::number_or;
use saxiko::Reader;

/// The next hops of as many addresses as there is room for, looked up in fours, and those that are left one by one.
pub(crate) fn find_all(reader: &mut Reader, addrs: &[u32], hops: &mut [u32], default: u32)
    requires online { reader.old.online ≡ true }
    requires sizes { length addrs.now ≡ length hops.old }
    ensures online { reader.new.online ≡ true }
    ensures found { (span : Span)
        × FindsEach default addrs.now hops.new span reader.old reader.new }
{
    let _ = reader.lookup_bulk(addrs, default, hops);
}

/// Looks up the one address at this place. It returns the versions that its answer lies between.
#[inline]
fn find_one(
    reader: &mut Reader,
    addrs: &[u32],
    hops: &mut [u32],
    at: usize,
    default: u32,
) -> SaxikoSpan
    requires online { reader.old.online ≡ true }
    requires sizes { length addrs.now ≡ length hops.old }
    requires some { at < length hops.old }
    ensures online { reader.new.online ≡ true }
    ensures len { length hops.new ≡ length hops.old }
    ensures found { (piece : List ℕ) × (found : List (Option ℕ))
        × LooksUpAll piece found result.lo result.hi reader.old reader.new
        × (take (at + 1) addrs.now ≡ take at addrs.now ++ piece)
        × (take (at + 1) hops.new ≡ take at hops.old ++ map (hop_or default) found) }
{
    let answer = reader.lookup(addrs[at]);
    hops[at] = number_or(answer.hop, default);
    SaxikoSpan {
        lo: answer.lo,
        hi: answer.hi,
    }
}

/// The same, one by one, with the versions that they lie between: from 2^64 - 1 to 0 where there is no address.
pub(crate) fn find_all_within(
    reader: &mut Reader,
    addrs: &[u32],
    hops: &mut [u32],
    default: u32,
    span: &mut SaxikoSpan,
)
    requires online { reader.old.online ≡ true }
    requires sizes { length addrs.now ≡ length hops.old }
    ensures online { reader.new.online ≡ true }
    ensures found { FindsEach default addrs.now hops.new span.new reader.old reader.new }
    ensures none { addrs.now ≡ [] → span.new ≡ record { lo = least []; hi = greatest [] } }
{
    let mut at = 0;
    let mut lo = u64::MAX;
    let mut hi = 0;
    while at < hops.len() {
        let one = find_one(reader, addrs, hops, at, default);
        lo = lo.min(one.lo);
        hi = hi.max(one.hi);
        at += 1;
    }
    *span = SaxikoSpan { lo, hi };
}
