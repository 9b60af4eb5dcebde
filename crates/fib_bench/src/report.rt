//! The whole run, and what it prints.

ghost use Rattle.lpm_limits.specs.Limits.{IsConfig};

use crate::alone::print_alone;
use crate::lookups::{Kind, draw_addresses};
use crate::routes::{Route, fill};
use crate::running_table::{Drawn, WORKERS, add_offline, print_running};
use anyhow::Result;
use fib::Fib;
use lpm_limits::Config;
use rand_core::{Rng, SeedableRng};
use rand_xoshiro::Xoshiro256PlusPlus;
use std::rt::Clock;
use std::thread::Threads;

/// Measures a table of that many routes, and prints a line for each figure. Then it measures another one
/// with the same routes as a running table, beside the first.
pub(crate) fn run<R: Clock + Print + AllocGlobal + Threads + Sync>(
    rt: &R,
    count: usize,
) -> Result<()> {
    let mut table = Fib::<24, 8>::open(rt.alloc(), limits())?;
    measure(rt, &mut table, count)
}

/// Measures the table with that many routes, and then another one with the same as a running table.
fn measure<R: Clock + Print + AllocGlobal + Threads + Sync>(
    rt: &R,
    table: &mut Fib<24, 8>,
    count: usize,
) -> Result<()> {
    let drawn = measure_alone(rt, table, count)?;
    measure_running(rt, table, &drawn)
}

/// Measures another table with these routes as a running one, beside the first.
fn measure_running<R: Clock + Print + AllocGlobal + Threads + Sync>(
    rt: &R,
    table: &mut Fib<24, 8>,
    drawn: &Drawn,
) -> Result<()> {
    let mut other = Fib::<24, 8>::open(rt.alloc(), limits())?;
    let start = add_offline(rt, &mut other, drawn.routes.as_slice())?;
    print_running(rt, start, other, table, drawn)
}

/// Adds that many random routes to the table, and measures it as one of one thread.
fn measure_alone<R: Clock + Print + AllocGlobal + Threads + Sync>(
    rt: &R,
    table: &mut Fib<24, 8>,
    count: usize,
) -> Result<Drawn> {
    let mut random = Xoshiro256PlusPlus::seed_from_u64(1);
    let routes = fill(rt.alloc(), table, &mut random, count)?;
    let addrs = print_and_draw(rt, table, routes.as_slice(), &mut random)?;
    Ok(Drawn { routes, addrs })
}

/// Measures the table of these routes as one of one thread. Then it draws addresses.
fn print_and_draw<R: Clock + Print + AllocGlobal + Threads + Sync, G: Rng>(
    rt: &R,
    table: &mut Fib<24, 8>,
    routes: &[Route],
    random: &mut G,
) -> Result<Vec<u32>> {
    print_alone(rt, table, routes, random)?;
    Ok(draw_addresses(rt.alloc(), random, Kind::Random, &[])?)
}

/// The limits of the table: as many rules and groups as there can be.
fn limits() -> Config
    ensures { IsConfig result }
{
    Config {
        rules: 16_777_216,
        groups: 65_536,
        workers: WORKERS,
        threshold: 32,
        reclaim_max: 16,
        first_token: 1,
    }
}
