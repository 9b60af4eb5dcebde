//! Random routes, the same in each run.

ghost use Rattle.std.specs.Prelude.{◌≡◌, ◌<◌, ◌≤◌, ◌↔◌, IfOk, OnOk, vec_len};

use anyhow::{Result, ensure};
use fib::Fib;
use lpm_bits::{Hop, Prefix};
use rand_core::Rng;
use std::alloc::{AllocError, Global};

/// A prefix and its next hop.
#[derive(Clone, Copy)]
pub(crate) struct Route {
    pub(crate) prefix: Prefix<24, 8>,
    pub(crate) hop: Hop,
}

/// How many routes are drawn for each one that is wanted, since a prefix may be drawn twice.
const DRAWS: usize = 8;

/// Adds that many routes to the table, and returns them in the order in which they were added.
pub(crate) fn fill<R: Rng>(
    alloc: Global,
    table: &mut Fib<24, 8>,
    random: &mut R,
    count: usize,
) -> Result<Vec<Route>>
    ensures { IfOk result (λ routes. vec_len routes ≡ count) }
{
    let mut routes = Vec::new(alloc);
    draw_all(table, random, &mut routes, count)?;
    Ok(routes)
}

/// Adds routes to the table, which has none of their prefixes, and to the list, until that many are there.
fn draw_all<R: Rng>(
    table: &mut Fib<24, 8>,
    random: &mut R,
    routes: &mut Vec<Route>,
    count: usize,
) -> Result<()>
    ensures { OnOk result (vec_len routes.new ≡ count) }
{
    for _ in 0..count.saturating_mul(DRAWS) {
        if routes.len() >= count {
            break;
        }
        add_new(table, routes, draw(random)?)?;
    }
    ensure!(routes.len() == count, "too many prefixes were drawn twice");
    Ok(())
}

/// Adds the route to the table and to the list, where the table has none of its prefix.
fn add_new(table: &mut Fib<24, 8>, routes: &mut Vec<Route>, route: Route) -> Result<()> {
    if table.get(&route.prefix).is_none() {
        table.add(&route.prefix, route.hop)?;
        routes.push(route)?;
    }
    Ok(())
}

/// The first address of each block that has one of these routes longer than 24 bits.
///
/// A block stands here once for each such route.
pub(crate) fn deep_blocks(alloc: Global, routes: &[Route]) -> Result<Vec<u32>, AllocError> {
    let mut blocks = Vec::new(alloc);
    for route in routes {
        if route.prefix.len() > 24 {
            blocks.push(route.prefix.bits() & !0xff)?;
        }
    }
    Ok(blocks)
}

/// Routes by the lengths of their prefixes.
#[derive(Drop)]
pub(crate) struct ByLength {
    /// Those of up to 24 bits.
    pub(crate) short: Vec<Route>,
    /// The others.
    pub(crate) long: Vec<Route>,
}

/// The routes by the lengths of their prefixes, each list in their order.
pub(crate) fn by_length(alloc: Global, routes: &[Route]) -> Result<ByLength, AllocError> {
    let mut short = Vec::new(alloc);
    let mut long = Vec::new(alloc);
    for route in routes {
        if route.prefix.len() > 24 {
            long.push(*route)?;
        } else {
            short.push(*route)?;
        }
    }
    Ok(ByLength { short, long })
}

/// A route of 32 bits for each address of the first block.
pub(crate) fn full_block(alloc: Global) -> Result<Vec<Route>> {
    let mut routes = Vec::new(alloc);
    for addr in 0..256u32 {
        routes.push(host_route(addr)?)?;
    }
    Ok(routes)
}

/// A default route.
pub(crate) fn default_route() -> Result<Route> {
    let prefix = Prefix::new(0, 0)?;
    let hop = Hop::new(1)?;
    Ok(Route { prefix, hop })
}

/// The route of 32 bits for this address, whose next hop has the same number.
fn host_route(addr: u32) -> Result<Route> {
    let prefix = Prefix::new(addr, 32)?;
    let hop = Hop::new(addr)?;
    Ok(Route { prefix, hop })
}

/// A route with any bits and any next hop.
fn draw<R: Rng>(random: &mut R) -> Result<Route> {
    let bits = random.next_u32();
    let len = length(random.next_u32() % 100, random.next_u32());
    let hop = Hop::new(random.next_u32() % 0x100_0000)?;
    let prefix = Prefix::new(bits, len)?;
    Ok(Route { prefix, hop })
}

/// The length of a prefix that is one of a hundred, like that of the routes of the internet: more
/// than half have 24 bits, few have less than 16, and two in a hundred have more than 24.
fn length(of_hundred: u32, among: u32) -> u32
    ensures fits { result ≤ 32 }
    ensures long { 24 < result ↔ of_hundred < 2 }
{
    match of_hundred {
        0..=1 => 25 + among % 8,
        2..=57 => 24,
        58..=67 => 23,
        68..=78 => 22,
        79..=84 => 21,
        85..=89 => 20,
        90..=93 => 19,
        94..=95 => 18,
        96 => 17,
        97..=98 => 16,
        _ => 8 + among % 8,
    }
}
