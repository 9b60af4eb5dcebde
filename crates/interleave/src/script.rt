//! Scripts that a worker can go through.

ghost use Rattle.std.specs.Prelude.{◌+◌, ◌^◌, ◌<◌, ◌↔◌, IsTrue, All, List, ◌∷◌, MatchOption};
ghost use Rattle.lpm_bits.specs.Widths.{IsShape};
ghost use Rattle.lpm_trace.specs.declared.deed.Deed.{Deed};
ghost use Rattle.interleave.specs.Scripts.{IsSound, IsSoundFrom};

use lpm_bits::Shape;
use lpm_trace::Deed;

/// Whether each of these is an address.
fn are_addrs<const FIRST: u32, const SECOND: u32>(addrs: &[u32]) -> bool
    requires { IsShape FIRST SECOND }
    ensures { IsTrue result ↔ All (λ a. a < 2 ^ (FIRST + SECOND)) addrs.now }
{
    for addr in addrs {
        if !Shape::<FIRST, SECOND>::is_addr(*addr) {
            return false;
        }
    }
    true
}

/// Whether a worker is online after the deed; none where it can't do it.
fn online_after<const FIRST: u32, const SECOND: u32>(deed: &Deed, online: bool) -> Option<bool>
    requires { IsShape FIRST SECOND }
    ensures { MatchOption result
        ((rest : List Deed) → IsSoundFrom (2 ^ (FIRST + SECOND)) online (deed.now ∷ rest) → ⊥)
        (λ after. (rest : List Deed) → IsSoundFrom (2 ^ (FIRST + SECOND)) online (deed.now ∷ rest)
        ↔ IsSoundFrom (2 ^ (FIRST + SECOND)) after rest) }
{
    match *deed {
        Deed::Online if !online => Some(true),
        Deed::Offline if online => Some(false),
        Deed::Quiescent if online => Some(true),
        Deed::Lookup(addr) if online && Shape::<FIRST, SECOND>::is_addr(addr) => Some(true),
        Deed::Lookup4(addrs) if online && are_addrs::<FIRST, SECOND>(&addrs) => Some(true),
        Deed::Meet => Some(online),
        _ => None,
    }
}

/// Whether a worker that is offline can do these deeds one after another.
pub fn script_ok<const FIRST: u32, const SECOND: u32>(deeds: &[Deed]) -> bool
    requires { IsShape FIRST SECOND }
    ensures { IsTrue result ↔ IsSound (2 ^ (FIRST + SECOND)) deeds.now }
{
    let mut online = false;
    for deed in deeds {
        match online_after::<FIRST, SECOND>(deed, online) {
            Some(after) => online = after,
            None => return false,
        }
    }
    true
}
