//! Changes of a table.

use crate::figures::each_second;
use crate::routes::Route;
use anyhow::Result;
use fib::Fib;
use lpm_limits::Refusal;
use std::rt::Clock;
use std::time::{Duration, Instant};

/// The greatest number of routes of which a part is deleted and added again.
const SAMPLE: usize = 10_000;

/// What is done with a route.
#[derive(Clone, Copy)]
pub(crate) enum Change {
    Add,
    Delete,
}

/// A table whose routes can change.
pub(crate) trait Changeable {
    /// Adds the route, or deletes it.
    fn change(&mut self, what: Change, route: &Route) -> Result<(), Refusal>;
}

impl Changeable for Fib<24, 8> {
    fn change(&mut self, what: Change, route: &Route) -> Result<(), Refusal> {
        if let Change::Add = what {
            self.add(&route.prefix, route.hop)?;
        } else {
            self.delete(&route.prefix)?;
        }
        Ok(())
    }
}

/// How long it takes to add these routes, or to delete them, which the table has then.
pub(crate) fn time_changes<R: Clock, T: Changeable>(
    rt: &R,
    table: &mut T,
    what: Change,
    routes: &[Route],
) -> Result<Duration> {
    let start = Instant::now(rt)?;
    for route in routes {
        table.change(what, route)?;
    }
    Ok(start.elapsed(rt)?)
}

/// How long it takes to make the first change with each of these routes, and how long to make the second one
/// then.
pub(crate) fn time_both<R: Clock, T: Changeable>(
    rt: &R,
    table: &mut T,
    [first, second]: [Change; 2],
    routes: &[Route],
) -> Result<[Duration; 2]> {
    let one = time_changes(rt, table, first, routes)?;
    let other = time_changes(rt, table, second, routes)?;
    Ok([one, other])
}

/// Deletes the route and adds it again. It returns how many of the two changes were made.
pub(crate) fn change_twice<T: Changeable>(table: &mut T, route: &Route) -> u64 {
    let is_gone = table.change(Change::Delete, route).is_ok();
    let is_back = table.change(Change::Add, route).is_ok();
    u64::from(is_gone) + u64::from(is_back)
}

/// Prints what it takes to delete part of these routes and to add them again, in lines with this behind their
/// first word.
pub(crate) fn print_changes<R: Clock + Print, T: Changeable>(
    rt: &R,
    table: &mut T,
    routes: &[Route],
    which: &str,
) -> Result<()> {
    let count = routes.len().min(SAMPLE);
    let sample = &routes[..count];
    let [deleting, adding] = time_both(rt, table, [Change::Delete, Change::Add], sample)?;
    let (deleting, adding) = (each_second(deleting, count), each_second(adding, count));
    println!(rt; "deletions{which}: {deleting} a second\nadditions{which}: {adding} a second")?;
    Ok(())
}
