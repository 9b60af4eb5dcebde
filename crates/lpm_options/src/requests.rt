//! What the parser's matches ask for.
ghost use Rattle.std.specs.Prelude.{◌≢◌, ◌↔◌, ◌<◌, ◌^◌, ℕ, IsTrue, IfSome, IsNone, codes};
ghost use Rattle.clap.specs.Words.{Text, rows_of, found_of};
ghost use Rattle.lpm_limits.specs.Limits.{IsIn};
ghost use Rattle.lpm_options.specs.Requests.{HasFile, HasNumber, HasFlag, HaveFiles, AreLimits, IsLine};
ghost use Rattle.lpm_options.specs.Requests.{IsStandardInput, AreTwoStandardInputs, HasTwoStandardInputs};

use crate::CommandLine;
use crate::commands::{ROUNDS, WORKERS};
use clap::ArgMatches;
use lpm_limits::{Config, Range};

/// What the matches of the command of this name ask for, which isn't `explain`.
pub(crate) fn command_line<'a>(name: &'a str, found: &ArgMatches<'a>) -> Option<CommandLine<'a>>
    requires { name.now ≢ codes "explain" }
    ensures { IsLine name.entry.now (rows_of (found_of found.now)) result }
{
    if name == "lookup" {
        return lookup_line(found);
    }
    if name == "apply" {
        return apply_line(found);
    }
    if name == "report" {
        return report_line(found);
    }
    if name == "storm" {
        return storm_line(found);
    }
    if name == "migrate" {
        return migrate_line(found);
    }
    None
}

fn lookup_line<'a>(found: &ArgMatches<'a>) -> Option<CommandLine<'a>>
    ensures { IsLine (codes "lookup") (rows_of (found_of found.now)) result }
{
    let routes = path_of(found, "ROUTES")?;
    let addresses = path_of(found, "ADDRESSES")?;
    let config = config_of(found)?;
    Some(CommandLine::Lookup {
        routes,
        addresses,
        config,
    })
}

fn apply_line<'a>(found: &ArgMatches<'a>) -> Option<CommandLine<'a>>
    ensures { IsLine (codes "apply") (rows_of (found_of found.now)) result }
{
    let (routes, updates, addresses) = files_of(found)?;
    let config = config_of(found)?;
    Some(CommandLine::Apply {
        routes,
        updates,
        addresses,
        config,
    })
}

fn report_line<'a>(found: &ArgMatches<'a>) -> Option<CommandLine<'a>>
    ensures { IsLine (codes "report") (rows_of (found_of found.now)) result }
{
    let routes = path_of(found, "ROUTES")?;
    let updates = path_of(found, "UPDATES")?;
    let config = config_of(found)?;
    Some(CommandLine::Report {
        routes,
        updates,
        config,
    })
}

fn storm_line<'a>(found: &ArgMatches<'a>) -> Option<CommandLine<'a>>
    ensures { IsLine (codes "storm") (rows_of (found_of found.now)) result }
{
    let (routes, updates, addresses) = files_of(found)?;
    let config = config_of(found)?;
    let rounds = number_within(found, "rounds", ROUNDS)?;
    Some(CommandLine::Storm {
        routes,
        updates,
        addresses,
        config,
        rounds,
        has_stuck_worker: has_flag(found, "stuck"),
    })
}

fn migrate_line<'a>(found: &ArgMatches<'a>) -> Option<CommandLine<'a>>
    ensures { IsLine (codes "migrate") (rows_of (found_of found.now)) result }
{
    let old = path_of(found, "OLD")?;
    Some(CommandLine::Migrate { old })
}

/// Whether two of the command's files are standard input.
pub(crate) fn has_two_standard_inputs(line: &CommandLine<'_>) -> bool
    ensures { IsTrue result ↔ HasTwoStandardInputs line.now }
{
    match line {
        CommandLine::Lookup {
            routes,
            addresses,
            ..
        } => is_standard_input(routes) && is_standard_input(addresses),
        CommandLine::Apply {
            routes,
            updates,
            addresses,
            ..
        } => are_two_standard_inputs(routes, updates, addresses),
        CommandLine::Report {
            routes,
            updates,
            ..
        } => is_standard_input(routes) && is_standard_input(updates),
        CommandLine::Storm {
            routes,
            updates,
            addresses,
            ..
        } => are_two_standard_inputs(routes, updates, addresses),
        CommandLine::Explain { .. } | CommandLine::Migrate { .. } => false,
    }
}

// Whether two of the three files are standard input.
fn are_two_standard_inputs(first: &str, second: &str, third: &str) -> bool
    ensures { IsTrue result ↔ AreTwoStandardInputs first.now second.now third.now }
{
    (is_standard_input(first) && is_standard_input(second))
        || (is_standard_input(first) && is_standard_input(third))
        || (is_standard_input(second) && is_standard_input(third))
}

fn is_standard_input(path: &str) -> bool
    ensures { IsTrue result ↔ IsStandardInput path.now }
{
    path == "-"
}

// The limits of a table.
fn config_of(found: &ArgMatches<'_>) -> Option<Config>
    ensures limits { IfSome result (AreLimits (rows_of (found_of found.now))) }
    ensures none { IsNone result → (config : Config)
        → AreLimits (rows_of (found_of found.now)) config → ⊥ }
{
    let config = Config {
        rules: number_of(found, "rules")?,
        groups: number_of(found, "groups")?,
        workers: number_within(found, "workers", WORKERS)?,
        threshold: number_of(found, "threshold")?,
        reclaim_max: number_of(found, "max")?,
        ..Config::default()
    };
    match config.check() {
        Ok(()) => Some(config),
        Err(_) => None,
    }
}

// The number of the option, where it lies in the range.
fn number_within(found: &ArgMatches<'_>, id: &str, range: Range) -> Option<usize>
    ensures number { IfSome result (HasNumber (rows_of (found_of found.now)) id.now) }
    ensures in_range { IfSome result (IsIn range) }
    ensures none { IsNone result → (n : ℕ)
        → HasNumber (rows_of (found_of found.now)) id.now n → IsIn range n → ⊥ }
{
    let number = number_of(found, id)?;
    if range.contains(number as u64) {
        return Some(number);
    }
    None
}

// The number of the option.
pub(crate) fn number_of(found: &ArgMatches<'_>, id: &str) -> Option<usize>
    ensures number { IfSome result (HasNumber (rows_of (found_of found.now)) id.now) }
    ensures none { IsNone result → (n : ℕ)
        → HasNumber (rows_of (found_of found.now)) id.now n → n < 2 ^ 64 → ⊥ }
{
    found.get_one::<usize>(id)
}

// Whether the words gave the flag. `get_flag` promises less: nothing of a value that is neither
// `true` nor `false`.
fn has_flag(found: &ArgMatches<'_>, id: &str) -> bool
    ensures { HasFlag (rows_of (found_of found.now)) id.now result }
{
    found.get_one::<bool>(id).unwrap_or(false)
}

// The paths of the route file, the update file and the address file.
fn files_of<'a>(found: &ArgMatches<'a>) -> Option<(&'a str, &'a str, &'a str)>
    ensures files { IfSome result (λ files.
        HaveFiles (rows_of (found_of found.now)) files.0.now files.1.now files.2.now) }
    ensures none { IsNone result → (routes updates addresses : Text)
        → HaveFiles (rows_of (found_of found.now)) routes updates addresses → ⊥ }
{
    let routes = path_of(found, "ROUTES")?;
    let updates = path_of(found, "UPDATES")?;
    let addresses = path_of(found, "ADDRESSES")?;
    Some((routes, updates, addresses))
}

// The path of the file.
pub(crate) fn path_of<'a>(found: &ArgMatches<'a>, id: &str) -> Option<&'a str>
    ensures file { IfSome result (λ path. HasFile (rows_of (found_of found.now)) id.now path.now) }
    ensures none { IsNone result → (path : Text)
        → HasFile (rows_of (found_of found.now)) id.now path → ⊥ }
{
    found.get_str(id)
}
