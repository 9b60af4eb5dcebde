//! A run of the program, over any files and writers.
ghost use Rattle.std.specs.Prelude.{◌≡◌, ◌≢◌, ◌⊎◌, map, OnOk, IfErr, IsErrOf};
ghost use Rattle.clap.specs.Words.{kind_of};
ghost use Rattle.std.specs.declared.io.ErrorKind.TheVariants.{OutOfMemory};
ghost use Rattle.lpm_options.specs.Requests.{IsInRange};
ghost use Rattle.lpm_files.specs.Output.{Writes, WritesBeginning};
ghost use Rattle.lpm_program.specs.Run.{IsDone, IsBegun, IsCause, IsOutput, EndsCommand};
ghost use Rattle.lpm_program.specs.Run.{IsShown, EndsRefused};
ghost use Rattle.lpm_files.specs.Status.{status_of};

use bulk::Open;
use clap::Error;
use lpm_commands::{apply, explain, lookup, migrate, report, storm};
use lpm_files::{Failure, Files, USAGE};
use lpm_options::{CommandLine, Refused, options};
use std::alloc::Global;
use std::convert::AsStr;
use std::io;
use std::io::Write;
use std::sync::Wait;
use std::thread::Threads;

/// Runs the command of these words, of which the first is the program's name, and returns the exit
/// status. What is wrong goes to `err`.
pub fn run<R: Threads + Wait + Sync, S: AsStr, F: Files, O: Write, E: Write>(
    rt: &R,
    alloc: Global,
    words: &[S],
    files: &F,
    out: &mut O,
    err: &mut E,
) -> u8
    ensures done { result ≡ 0 → IsDone (map S.text words.now) (F.bytes files.now)
        (O.contents out.old) (O.contents out.new) }

    // Only a failed write leaves something written where the command isn't done: a beginning of its
    // text.
    ensures begun { result ≡ 3 → (out.new ≡ out.old)
        ⊎ IsBegun (map S.text words.now) (F.bytes files.now)
        (O.contents out.old) (O.contents out.new) }
    ensures untouched { result ≢ 0 → result ≢ 3 → out.new ≡ out.old }
    ensures cause { result ≢ 0 → IsCause (map S.text words.now) (F.bytes files.now) result }
{
    let line = match options(alloc, words) {
        Ok(line) => line,
        Err(refused) => return refuse(&refused, out, err),
    };
    match perform(rt, alloc, line, files, out) {
        Ok(()) => 0,
        Err(failure) => fail(failure, err),
    }
}

// Performs the command.
fn perform<'a, R: Threads + Wait + Sync, F: Files, O: Write>(
    rt: &R,
    alloc: Global,
    line: CommandLine<'a>,
    files: &F,
    out: &mut O,
) -> Result<(), Failure<'a>>
    requires { IsInRange line }
    ensures done { OnOk result (Writes (IsOutput line.entry (F.bytes files.now))
        (O.contents out.old) (O.contents out.new)) }
    ensures begun { IsErrOf result Failure.CannotWrite
        → WritesBeginning (IsOutput line.entry (F.bytes files.now))
        (O.contents out.old) (O.contents out.new) }
    ensures untouched { IfErr result (λ e. e ≢ Failure.CannotWrite → out.new ≡ out.old) }
    ensures failure { IfErr result (EndsCommand line.entry (F.bytes files.now)) }
{
    match line {
        CommandLine::Lookup {
            routes,
            addresses,
            config,
        } => lookup(rt, alloc, files, routes, addresses, config, &Open, out),
        CommandLine::Explain {
            routes,
            addresses,
            config,
        } => explain(alloc, files, routes, &addresses, config, out),
        CommandLine::Apply {
            routes,
            updates,
            addresses,
            config,
        } => apply(
            rt, alloc, files, routes, updates, addresses, config, &Open, out,
        ),
        CommandLine::Report {
            routes,
            updates,
            config,
        } => report(alloc, files, routes, updates, config, out),
        CommandLine::Storm {
            routes,
            updates,
            addresses,
            config,
            rounds,
            has_stuck_worker,
        } => storm(
            rt,
            alloc,
            files,
            routes,
            updates,
            addresses,
            config,
            rounds,
            has_stuck_worker,
            &Open,
            out,
        ),
        CommandLine::Migrate { old } => migrate(alloc, files, old, out),
    }
}

/// Refuses a command line whose words can't be had, and returns the exit status.
pub fn refuse_words<E: Write>(kind: io::ErrorKind, err: &mut E) -> u8
    ensures memory { kind ≡ OutOfMemory → result ≡ 5 }
    ensures usage { kind ≢ OutOfMemory → result ≡ 2 }
{
    if kind == io::ErrorKind::OutOfMemory {
        return fail(Failure::Memory, err);
    }
    let _ = writeln!(err, "lpmtool: a word of the command line isn't UTF-8");
    USAGE
}

// Tells why the words are no command line, and returns the exit status.
fn refuse<O: Write, E: Write>(refused: &Refused<'_>, out: &mut O, err: &mut E) -> u8
    ensures cause { EndsRefused refused.now result }
    ensures untouched { result ≢ 0 → result ≢ 3 → out.new ≡ out.old }
{
    match refused {
        Refused::Usage(error) => show(error, out, err),
        Refused::Memory => fail(Failure::Memory, err),
        Refused::BadAddress { number, word } => {
            let _ = writeln!(err, "lpmtool: ADDRESS {number}, `{word}`: bad address");
            USAGE
        }
        Refused::TwoStandardInputs => {
            let _ = writeln!(err, "lpmtool: only one file can be `-`, standard input");
            USAGE
        }
        Refused::NoCommand => USAGE,
    }
}

// Shows the parser's text: help or the version on `out`, else what is wrong with the words on
// `err`.
fn show<O: Write, E: Write>(error: &Error, out: &mut O, err: &mut E) -> u8
    ensures shown { result ≢ 2 → IsShown (kind_of error.now) }
    ensures usage { result ≡ 2 → ¬ IsShown (kind_of error.now) }
    ensures status { (result ≡ 0) ⊎ (result ≡ 2) ⊎ (result ≡ 3) }
    ensures untouched { result ≢ 0 → result ≢ 3 → out.new ≡ out.old }
{
    if error.use_stderr() {
        let _ = write!(err, "{error}");
        return USAGE;
    }
    match write!(out, "{error}") {
        Ok(()) => 0,
        Err(_) => fail(Failure::CannotWrite, err),
    }
}

// Shows the failure on `err`, and returns its exit status.
fn fail<E: Write>(failure: Failure<'_>, err: &mut E) -> u8
    ensures { result ≡ status_of failure.entry }
{
    let _ = writeln!(err, "{failure}");
    failure.status()
}
