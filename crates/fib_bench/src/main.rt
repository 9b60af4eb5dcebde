//! `fib_bench`: how fast the table looks up and changes, beside plain words of the same size, and then as a
//! running table.
#![tactic(auto)]

mod alone;
mod changes;
mod crowd;
mod figures;
mod lookups;
mod passes;
mod pieces;
mod report;
mod rounds;
mod routes;
mod running_table;
mod turns;
mod words;

ghost use Rattle.std.specs.Prelude.{◌≤◌, IfSome};

use anyhow::Result;
use std::convert::AsStr;
use std::process::ExitCode;
use std::rt::Clock;
use std::thread::Threads;
use std::{env, io};

const USAGE: &str = "usage: fib_bench run [ROUTES]

Makes a table of ROUTES random routes, 1 to 1000000, by default 100000, and prints how long
lookups and changes take.
";

/// How many routes the table has where the command line doesn't say.
const ROUTES: usize = 100_000;
/// The greatest number of routes, which needs fewer groups than there are.
const MOST_ROUTES: usize = 1_000_000;

/// The exit status for a command line that isn't accepted.
const REFUSED: u8 = 2;

fn main(rt: HostRuntime) -> Result<ExitCode> {
    let words = command_words(&rt)?;
    if words.len() <= 1 {
        return print_usage(&rt);
    }
    perform(&rt, asked(&words[1..]))
}

/// The words of the command line, the program's name first.
fn command_words(rt: &HostRuntime) -> io::Result<Vec<String>> {
    let mut words = Vec::new(rt.alloc());
    for word in env::args(rt)? {
        words.push(word)?;
    }
    Ok(words)
}

/// Prints how the program is called.
fn print_usage<R: Print>(rt: &R) -> Result<ExitCode> {
    print!(rt; "{USAGE}")?;
    Ok(ExitCode::SUCCESS)
}

/// Measures a table of so many routes. `None` stands for a command line that isn't accepted.
fn perform<R: Clock + Print + Eprint + AllocGlobal + Threads + Sync>(
    rt: &R,
    count: Option<usize>,
) -> Result<ExitCode> {
    let Some(count) = count else {
        return Ok(refuse(rt)?);
    };
    report::run(rt, count)?;
    Ok(ExitCode::SUCCESS)
}

/// Says how the program is called, on standard error, and returns the status for a command line that isn't
/// accepted.
fn refuse<R: Eprint>(rt: &R) -> io::Result<ExitCode> {
    eprint!(rt; "{USAGE}")?;
    Ok(ExitCode::from(REFUSED))
}

/// The number of routes that the words of the command line, after the program's name, ask for.
fn asked<S: AsStr>(words: &[S]) -> Option<usize>
    ensures least { IfSome result (λ count. 1 ≤ count) }
    ensures most { IfSome result (λ count. count ≤ 1000000) }
{
    let (command, rest) = words.split_first()?;
    if command.as_str() != "run" {
        return None;
    }
    let count = match rest {
        [] => ROUTES,
        [count] => count.as_str().parse::<usize>().ok()?,
        _ => return None,
    };
    if count == 0 || count > MOST_ROUTES {
        return None;
    }
    Some(count)
}
