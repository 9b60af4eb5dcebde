//! The command line of `lpmtool`, read by `clap`.
#![tactic(auto)]

ghost use Rattle.std.specs.Prelude.{◌≡◌, IfOk, IfErr, Option, List, [], map};
ghost use Rattle.clap.specs.Words.{subcommand_of, subcommand_rows_of, fault_of};
ghost use Rattle.clap.specs.Words.{Kinds, HasKind, Text, Row};
ghost use Rattle.lpm_options.specs.Commands.{the_app};
ghost use Rattle.lpm_options.specs.Requests.{IsAskedBy, IsInRange, HasTwoStandardInputs, IsRefusalBy};

mod commands;
mod explain_request;
mod help;
mod requests;

use clap::error::ErrorKind;
use clap::{ArgMatches, Error};
use commands::whole_command;
use explain_request::explain_line;
use lpm_limits::Config;
use requests::{command_line, has_two_standard_inputs};
use std::alloc::Global;
use std::convert::AsStr;
use std::fmt;

/// What the words of a command line ask for. The path `-` is standard input.
#[derive(Drop)]
pub enum CommandLine<'a> {
    /// `lookup`: the next hop of each address, by the routes.
    Lookup {
        /// The path of the route file.
        routes: &'a str,
        /// The path of the address file.
        addresses: &'a str,
        /// The limits of the table.
        config: Config,
    },
    /// `explain`: what the table of the routes says of each address.
    Explain {
        /// The path of the route file.
        routes: &'a str,
        /// The addresses, in the order of their words.
        addresses: Vec<u32>,
        /// The limits of the table. It has one worker.
        config: Config,
    },
    /// `apply`: the outcome of each update of the routes, then the next hop of each address.
    Apply {
        /// The path of the route file.
        routes: &'a str,
        /// The path of the update file.
        updates: &'a str,
        /// The path of the address file.
        addresses: &'a str,
        /// The limits of the table.
        config: Config,
    },
    /// `report`: what the table holds after the updates of the routes.
    Report {
        /// The path of the route file.
        routes: &'a str,
        /// The path of the update file.
        updates: &'a str,
        /// The limits of the table.
        config: Config,
    },
    /// `storm`: the workers look the addresses up, round after round, while the writer makes the
    /// updates of the routes. Then every answer is held against the versions of the rules.
    Storm {
        /// The path of the route file.
        routes: &'a str,
        /// The path of the update file.
        updates: &'a str,
        /// The path of the address file.
        addresses: &'a str,
        /// The limits of the table. Its workers are those that look the addresses up, 0 to 1,024:
        /// the stuck worker isn't counted.
        config: Config,
        /// How often each worker looks all addresses up, 1 to 1,000,000.
        rounds: usize,
        /// Whether there is one worker more, which is online from before the first update until
        /// after the last, and looks nothing up.
        has_stuck_worker: bool,
    },
    /// `migrate`: an update file of version 1, in version 2.
    Migrate {
        /// The path of the update file of version 1.
        old: &'a str,
    },
}

/// Why words are no command line.
#[derive(Debug, Drop)]
pub enum Refused<'a> {
    /// The parser doesn't accept them, or they ask for help or for the version: its error has the
    /// text to show.
    Usage(Error),
    /// A growth was refused.
    Memory,
    /// The parser accepted them, and its matches lack a command, a file or a number in range.
    NoCommand,
    /// The parser accepted them, and a word of `explain` is no address, as an address file has it.
    BadAddress {
        /// The place of the word among the addresses, from 1.
        number: usize,
        /// The word, the first that is none.
        word: &'a str,
    },
    /// The parser accepted them, and two of the files are `-`: standard input has one file.
    TwoStandardInputs,
}

impl fmt::Display for Refused<'_> {
    fn fmt<W: fmt::Write>(&self, f: &mut fmt::Formatter<W>) -> fmt::Result {
        match self {
            Refused::Usage(error) => write!(f, "{error}"),
            Refused::Memory => f.write_str("out of memory"),
            Refused::NoCommand => f.write_str("no command"),
            Refused::BadAddress { number, word } => {
                write!(f, "ADDRESS {number}, `{word}`: bad address")
            }
            Refused::TwoStandardInputs => f.write_str("only one file can be standard input, `-`"),
        }
    }
}

/// The command line of these words, of which the first is the program's name.
///
/// Where the words ask for help or for the version, that is a `Usage` whose error doesn't go to
/// standard error.
pub fn options<'a, S: AsStr>(alloc: Global, words: &'a [S]) -> Result<CommandLine<'a>, Refused<'a>>
    ensures accepted { IfOk result (λ _. fault_of the_app (map S.text words.entry.now) ≡ []) }
    ensures asked { IfOk result (IsAskedBy (subcommand_of the_app (map S.text words.entry.now))) }
    ensures in_range { IfOk result IsInRange }
    ensures one_input { IfOk result (λ line. HasTwoStandardInputs line → ⊥) }
    ensures refused { IfErr result (IsRefusalBy (fault_of the_app (map S.text words.entry.now))
        (subcommand_of the_app (map S.text words.entry.now))) }
{
    let Ok(command) = whole_command(alloc) else {
        return Err(Refused::Memory);
    };
    match command.try_get_matches_from(words) {
        Ok(matches) => line_of(alloc, &matches),
        Err(error) => Err(refusal(error)),
    }
}

// The command line of matches, in which the parser found no fault.
fn line_of<'a>(alloc: Global, matches: &ArgMatches<'a>) -> Result<CommandLine<'a>, Refused<'a>>
    ensures asked { IfOk result (IsAskedBy (subcommand_rows_of matches.now)) }
    ensures in_range { IfOk result IsInRange }
    ensures one_input { IfOk result (λ line. HasTwoStandardInputs line → ⊥) }
    ensures refused { IfErr result (IsRefusalBy [] (subcommand_rows_of matches.now)) }
{
    let Some((name, found)) = matches.subcommand() else {
        return Err(Refused::NoCommand);
    };
    if name == "explain" {
        return explain_line(alloc, found);
    }
    let Some(line) = command_line(name, found) else {
        return Err(Refused::NoCommand);
    };
    if has_two_standard_inputs(&line) {
        return Err(Refused::TwoStandardInputs);
    }
    Ok(line)
}

// The refusal of words at which the parser gives this error.
fn refusal<'a>(error: Error) -> Refused<'a>
    ensures { (faults : Kinds) (matches : Option (Text × List Row))
        → HasKind faults error → IsRefusalBy faults matches result }
{
    match error.kind() {
        ErrorKind::OutOfMemory => Refused::Memory,
        _ => Refused::Usage(error),
    }
}
