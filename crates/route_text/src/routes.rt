//! The route file.
ghost use Rattle.std.specs.Prelude.{◌+◌, ◌≤◌, ◌<◌, IfOk, IfErr, IfSome, length, drop};
ghost use Rattle.route_text.specs.declared.lines.End.TheVariants as ends;
ghost use Rattle.route_text.specs.Starts.{StartsNumberBefore};
ghost use Rattle.route_text.specs.Files.{AreRoutes, IsRoutesFault, SpellsRoute, HasRouteFault, IsReadError};

use super::fault::{FaultKind, ReadError};
use super::grammar::{Grammar, read_items};
use super::lines::{End, next_field, place_after};
use super::numbers::{ADDRESS_ROOM, NUMBER_ROOM, address_before, leading_number, number_before};
use super::prefixes::{LAST_HOP, LONGEST, hop, prefix};
use lpm_bits::{Hop, Prefix};
use std::alloc::Global;

/// A route of a file, with the number of its line, counted from 1.
#[derive(Clone, Copy, Debug, PartialEq, Eq)]
pub struct Route {
    pub line: usize,
    pub prefix: Prefix<24, 8>,
    pub hop: Hop,
}

/// The bytes of an address and two such numbers: so many are left where a line is read in place.
const LINE_ROOM: usize = ADDRESS_ROOM + 2 * NUMBER_ROOM;

/// The grammar of a route file: a prefix and a hop.
pub(crate) struct RouteLines;

impl Grammar for RouteLines {
    type Item = Route;

    ghost Spells = { SpellsRoute };

    ghost HasFault = { HasRouteFault };

    fn item(line: usize, first: &[u8], rest: &[u8]) -> Result<Route, FaultKind> {
        let Some((second, rest)) = next_field(rest) else {
            return Err(FaultKind::Fields);
        };
        if next_field(rest).is_some() {
            return Err(FaultKind::Fields);
        }
        let prefix = prefix(first)?;
        match hop(second) {
            Some(hop) => Ok(Route { line, prefix, hop }),
            None => Err(FaultKind::Hop),
        }
    }

    #[inline(always)]
    fn plain_line(line: usize, bytes: &[u8], at: usize) -> Option<(Route, usize)> {
        if bytes.len() - at < LINE_ROOM {
            return None;
        }
        let (addr, at) = address_before(bytes, at, End::Byte(b'/'))?;
        let (len, at) = number_before(bytes, at, LONGEST, End::Byte(b' '))?;
        let Ok(prefix) = Prefix::new(addr, len) else {
            return None;
        };
        // (most hops have three digits or fewer)
        if let Some((number, next)) = number_before(bytes, at, 999, End::Line) {
            let Ok(hop) = Hop::new(number) else {
                return None;
            };
            return Some((Route { line, prefix, hop }, next));
        }
        let (hop, next) = long_hop_before(bytes, at)?;
        Some((Route { line, prefix, hop }, next))
    }
}

/// The hop at this place that the line ends after, and the place after the line.
///
/// It may have any count of digits. It is the slow way, for hops of more than three.
#[cold]
#[inline(never)]
fn long_hop_before(bytes: &[u8], at: usize) -> Option<(Hop, usize)>
    requires { at ≤ length bytes.now }
    ensures hop { IfSome result
        (λ p. StartsNumberBefore ends.Line LAST_HOP (drop at bytes.now) p.0 (drop p.1 bytes.now)) }
    ensures place { IfSome result (λ p. p.1 ≤ length bytes.now) }
{
    let (number, rest) = leading_number(&bytes[at..], LAST_HOP)?;
    if rest.len() < 2 {
        return None;
    }
    let next = place_after(rest, 0, End::Line)?;
    let Ok(hop) = Hop::new(number) else {
        return None;
    };
    Some((hop, bytes.len() - rest.len() + next))
}

/// The routes of the file, in the order of their lines.
///
/// Host bits are masked to zero. A prefix that stands on two lines is two routes. `Fault` gives the
/// first faulty line where there is one. `Memory` comes where room for the routes is refused.
pub fn read_routes(alloc: Global, bytes: &[u8]) -> Result<Vec<Route>, ReadError>
    ensures routes { IfOk result (λ v. AreRoutes bytes.now v.items) }
    ensures error { IfErr result (IsReadError (IsRoutesFault bytes.now)) }
{
    read_items::<RouteLines>(alloc, 1, bytes)
}
