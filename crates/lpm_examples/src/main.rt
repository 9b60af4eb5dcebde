//! `lpm_examples`: how a program calls the table of one thread, and the pure world. Called with a number, it
//! makes a run of the pure world of so many steps, and tells how long that took.
#![tactic(auto)]

mod table;
mod world;

use crate::table::show_table;
use crate::world::{show_run, time_run};
use anyhow::Result;
use std::convert::AsStr;
use std::{env, io};

/// How many steps a run may be asked for.
const MOST_STEPS: usize = 10_000_000;

fn main(rt: HostRuntime) -> Result<()> {
    if let Some(steps) = asked(&rt)? {
        return time_run(&rt, rt.alloc(), steps.min(MOST_STEPS));
    }
    show_table(&rt, rt.alloc())?;
    show_run(&rt, rt.alloc())
}

/// The number that is the last word of the command line, if it is one.
fn asked(rt: &HostRuntime) -> io::Result<Option<usize>> {
    let mut last = None;
    for word in env::args(rt)? {
        last = word.as_str().parse::<usize>().ok();
    }
    Ok(last)
}
