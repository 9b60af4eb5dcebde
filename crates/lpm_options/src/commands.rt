//! The commands of the program and their options, as the parser reads them.
ghost use Rattle.std.specs.Prelude.{◌≡◌, IfOk, codes, true, false};
ghost use Rattle.clap.specs.Words.{App, Rule, app_of, rule_of, new_app, with_rule};
ghost use Rattle.lpm_options.specs.Commands.{file_rule, number_rule, flag_rule, program_app};
ghost use Rattle.lpm_options.specs.Commands.{with_command, with_file};
ghost use Rattle.lpm_options.specs.Commands.{lookup_app, explain_app, apply_app, report_app, storm_app};
ghost use Rattle.lpm_options.specs.Commands.{migrate_app, addresses_rule};
ghost use Rattle.lpm_options.specs.Commands.{with_limits, with_room, the_app};

use crate::help;
use clap::builder::ValueParser;
use clap::{Arg, ArgAction, Command};
use lpm_limits::{Config, Range};
use std::alloc::{AllocError, Global};

/// The version of the program, which `--version` prints.
pub(crate) const VERSION: &str = "2.0.0";

/// The workers that the program takes.
pub(crate) const WORKERS: Range = Range {
    first: 0,
    last: 1_024,
};

/// How often the workers of a storm can go over the addresses.
pub(crate) const ROUNDS: Range = Range {
    first: 1,
    last: 1_000_000,
};

// A command, or want of memory for it.
type Made<'a> = Result<Command<'a>, AllocError>;

/// The program with all its commands.
pub(crate) fn whole_command<'a>(alloc: Global) -> Made<'a>
    ensures { IfOk result (λ c. app_of c ≡ the_app) }
{
    let made = Ok(program(alloc));
    let made = with_command(made, lookup_command(alloc));
    let made = with_command(made, explain_command(alloc));
    let made = with_command(made, apply_command(alloc));
    let made = with_command(made, report_command(alloc));
    let made = with_command(made, storm_command(alloc));
    with_command(made, migrate_command(alloc))
}

fn program<'a>(alloc: Global) -> Command<'a>
    ensures { app_of result ≡ program_app }
{
    Command::new(alloc, "lpmtool")
        .version(VERSION)
        .about(help::PROGRAM)
        .after_long_help(help::AFTER_PROGRAM)
        .subcommand_required(true)
}

// The program with one command more, where there was memory to make it.
fn with_command<'a>(made: Made<'a>, command: Made<'a>) -> Made<'a>
    requires { IfOk command (λ c. (app_of c).top.is_plain ≡ true) }
    ensures { (program app : App) → IfOk made.entry (λ c. app_of c ≡ program)
        → IfOk command.entry (λ c. app_of c ≡ app)
        → IfOk result (λ c. app_of c ≡ with_command program app) }
{
    let Some((program, command)) = made.ok().zip(command.ok()) else {
        return Err(AllocError);
    };
    program.subcommand(command)
}

fn lookup_command<'a>(alloc: Global) -> Made<'a>
    ensures { IfOk result (λ c. app_of c ≡ lookup_app) }
{
    let made = bare_command(alloc, "lookup", help::LOOKUP, help::AFTER_LOOKUP);
    let made = with_arg(made, file(alloc, "ROUTES", help::ROUTES));
    let made = with_arg(made, file(alloc, "ADDRESSES", help::ADDRESSES));
    with_limits(alloc, made)
}

fn explain_command<'a>(alloc: Global) -> Made<'a>
    ensures { IfOk result (λ c. app_of c ≡ explain_app) }
{
    let made = bare_command(alloc, "explain", help::EXPLAIN, help::AFTER_EXPLAIN);
    let made = with_arg(made, file(alloc, "ROUTES", help::ROUTES));
    let made = with_arg(made, addresses(alloc));
    with_room(alloc, made)
}

fn apply_command<'a>(alloc: Global) -> Made<'a>
    ensures { IfOk result (λ c. app_of c ≡ apply_app) }
{
    let made = bare_command(alloc, "apply", help::APPLY, help::AFTER_APPLY);
    with_three_files(alloc, made)
}

fn report_command<'a>(alloc: Global) -> Made<'a>
    ensures { IfOk result (λ c. app_of c ≡ report_app) }
{
    let made = bare_command(alloc, "report", help::REPORT, help::AFTER_REPORT);
    let made = with_routes_and_updates(alloc, made);
    with_limits(alloc, made)
}

fn storm_command<'a>(alloc: Global) -> Made<'a>
    ensures { IfOk result (λ c. app_of c ≡ storm_app) }
{
    let made = bare_command(alloc, "storm", help::STORM, help::AFTER_STORM);
    let made = with_three_files(alloc, made);
    let made = with_arg(made, number(alloc, "rounds", ROUNDS, "1", help::ROUNDS));
    with_arg(made, flag(alloc, "stuck", help::STUCK))
}

fn migrate_command<'a>(alloc: Global) -> Made<'a>
    ensures { IfOk result (λ c. app_of c ≡ migrate_app) }
{
    let made = bare_command(alloc, "migrate", help::MIGRATE, help::AFTER_MIGRATE);
    with_arg(made, file(alloc, "OLD", help::OLD))
}

// A command of this name without arguments, and its texts of help.
fn bare_command<'a>(alloc: Global, name: &'a str, about: &'a str, after: &'a str) -> Made<'a>
    ensures { IfOk result (λ c. app_of c ≡ new_app name.entry.now) }
{
    Ok(
        Command::new(alloc, name)
            .about(about)
            .after_long_help(after),
    )
}

// The command with one argument more.
fn with_arg<'a>(made: Made<'a>, arg: Arg<'a>) -> Made<'a>
    requires { arg.global ≡ false }
    ensures { (app : App) (rule : Rule) → IfOk made.entry (λ c. app_of c ≡ app)
        → rule_of arg.entry ≡ rule → IfOk result (λ c. app_of c ≡ with_rule app rule) }
{
    made?.arg(arg)
}

fn with_routes_and_updates<'a>(alloc: Global, made: Made<'a>) -> Made<'a>
    ensures { (app : App) → IfOk made.entry (λ c. app_of c ≡ app)
        → IfOk result (λ c. app_of c ≡ with_file (with_file app (codes "ROUTES"))
        (codes "UPDATES")) }
{
    let made = with_arg(made, file(alloc, "ROUTES", help::ROUTES));
    with_arg(made, file(alloc, "UPDATES", help::UPDATES))
}

// The command with a route file, an update file and an address file, and with the options of
// `lookup`, `apply`, `report` and `storm`.
fn with_three_files<'a>(alloc: Global, made: Made<'a>) -> Made<'a>
    ensures { (app : App) → IfOk made.entry (λ c. app_of c ≡ app)
        → IfOk result (λ c. app_of c ≡ with_limits (with_file (with_file (with_file app
        (codes "ROUTES")) (codes "UPDATES")) (codes "ADDRESSES"))) }
{
    let made = with_routes_and_updates(alloc, made);
    let made = with_arg(made, file(alloc, "ADDRESSES", help::ADDRESSES));
    with_limits(alloc, made)
}

// The options of `lookup`, `apply`, `report` and `storm`: how much the table holds, who reads it, when
// a change reclaims, and how much.
fn with_limits<'a>(alloc: Global, made: Made<'a>) -> Made<'a>
    ensures { (app : App) → IfOk made.entry (λ c. app_of c ≡ app)
        → IfOk result (λ c. app_of c ≡ with_limits app) }
{
    let made = with_room(alloc, made);
    let made = with_arg(made, number(alloc, "workers", WORKERS, "1", help::WORKERS));
    let threshold = number(alloc, "threshold", Config::THRESHOLD, "32", help::THRESHOLD);
    let made = with_arg(made, threshold);
    with_arg(
        made,
        number(alloc, "max", Config::RECLAIM_MAX, "16", help::MAX),
    )
}

// The options that say how much the table holds.
fn with_room<'a>(alloc: Global, made: Made<'a>) -> Made<'a>
    ensures { (app : App) → IfOk made.entry (λ c. app_of c ≡ app)
        → IfOk result (λ c. app_of c ≡ with_room app) }
{
    let made = with_arg(
        made,
        number(alloc, "rules", Config::RULES, "1048576", help::RULES),
    );
    with_arg(
        made,
        number(alloc, "groups", Config::GROUPS, "256", help::GROUPS),
    )
}

// A file that the command wants, named by its place among the words.
fn file<'a>(alloc: Global, id: &'a str, help: &'a str) -> Arg<'a>
    ensures rule { rule_of result ≡ file_rule id.entry.now }
    ensures plain { result.global ≡ false }
{
    Arg::new(alloc, id).required(true).help(help)
}

// The addresses that `explain` wants, the words after its file.
fn addresses<'a>(alloc: Global) -> Arg<'a>
    ensures rule { rule_of result ≡ addresses_rule }
    ensures plain { result.global ≡ false }
{
    Arg::new(alloc, "ADDRESS")
        .required(true)
        .action(ArgAction::Append)
        .help(help::ADDRESS)
}

// An option that takes a number of the range.
fn number<'a>(alloc: Global, id: &'a str, range: Range, default: &'a str, help: &'a str) -> Arg<'a>
    ensures rule { rule_of result ≡ number_rule id.entry.now range default.entry.now }
    ensures plain { result.global ≡ false }
{
    Arg::new(alloc, id)
        .long(id)
        .value_name("N")
        .default_value(default)
        .value_parser(ValueParser::unsigned(range.first, range.last))
        .help(help)
}

// A flag, which takes no value.
fn flag<'a>(alloc: Global, id: &'a str, help: &'a str) -> Arg<'a>
    ensures rule { rule_of result ≡ flag_rule id.entry.now }
    ensures plain { result.global ≡ false }
{
    Arg::new(alloc, id)
        .long(id)
        .action(ArgAction::SetTrue)
        .help(help)
}
