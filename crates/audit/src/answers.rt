//! The answers that a table should give.

ghost use Rattle.std.specs.Prelude.{◌+◌, ◌^◌, ◌<◌, All, IfOk};
ghost use Rattle.lpm_rules.specs.Longest.{IsLongestHop, AreLongestHops};

use lpm_bits::Hop;
use lpm_rules::Rules;
use rayon::prelude::*;
use std::alloc::{AllocError, Global};
use std::thread::Threads;

/// The next hop of each address, in the order of the addresses, each by a search through the rules
/// alone. The searches run on as many threads as there are processors.
///
/// `AllocError` comes where room for the answers is refused.
pub fn expect<R: Threads + Sync, const FIRST: u32, const SECOND: u32>(
    rt: &R,
    alloc: Global,
    rules: &Rules<FIRST, SECOND>,
    addrs: &[u32],
) -> Result<Vec<Option<Hop>>, AllocError>
    requires { All (λ a. a < 2 ^ (FIRST + SECOND)) addrs.now }
    ensures { IfOk result (λ v.
        AreLongestHops (FIRST + SECOND) rules.now.rules addrs.now v.items) }
{
    addrs
        .par_iter()
        .map(
            |addr: &u32| -> Option<Hop>
                requires { addr.now < 2 ^ (FIRST + SECOND) }
                ensures { IsLongestHop (FIRST + SECOND) rules.entry.now.rules addr.now result }
            { rules.longest(*addr) },
        )
        .collect(rt, alloc)
}
