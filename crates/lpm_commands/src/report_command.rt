//! `report`: what a table counts after routes and updates.
ghost use Rattle.std.specs.Prelude.{◌≡◌, ◌≢◌, IfOk, IfErr, OnOk, IsErrOf};
ghost use Rattle.lpm_limits.specs.Limits.{IsConfig};
ghost use Rattle.lpm_files.specs.Output.{Writes, WritesBeginning};
ghost use Rattle.lpm_commands.specs.Load.{EndsLoading};
ghost use Rattle.lpm_commands.specs.Report.{IsReportText, IsReportedAfter, IsReportedOver, EndsReport};
ghost use Rattle.storm.specs.Storm.{IsCountOf};

use crate::tables::load;
use crate::updates::update;
use audit::{TableCounts, report_text};
use fib::Fib;
use lpm_files::{Failure, Files, Routes, Updates, put_text, read_list};
use lpm_limits::Config;
use route_text::{Order, Route};
use std::alloc::Global;
use std::io::Write;

/// Writes the report after the routes and the updates.
///
/// Each file is read and parsed before the next, and all before a route is loaded. The text is
/// formed whole before it is written. A refused update doesn't stop the file.
pub fn report<'a, F: Files, W: Write>(
    alloc: Global,
    files: &F,
    routes: &'a str,
    updates: &'a str,
    config: Config,
    out: &mut W,
) -> Result<(), Failure<'a>>
    requires { IsConfig config }
    ensures done { OnOk result (Writes
        (IsReportText config
        (F.bytes files.now routes.entry.now) (F.bytes files.now updates.entry.now))
        (W.contents out.old) (W.contents out.new)) }

    // Only a failed write leaves something written, a beginning of that text.
    ensures beginning { IsErrOf result Failure.CannotWrite → WritesBeginning
        (IsReportText config
        (F.bytes files.now routes.entry.now) (F.bytes files.now updates.entry.now))
        (W.contents out.old) (W.contents out.new) }
    ensures untouched { IfErr result (λ e. e ≢ Failure.CannotWrite → out.new ≡ out.old) }
    ensures failure { IfErr result
        (EndsReport config routes.entry.now updates.entry.now (F.bytes files.now)) }
{
    let text = text_of_files(alloc, files, routes, updates, config)?;
    put_text(out, &text)
}

// The whole text, before anything is written. It isn't inlined where the commands are told apart, so that
// the loops of `lookup`, which are, keep their registers.
#[inline(never)]
fn text_of_files<'a, F: Files>(
    alloc: Global,
    files: &F,
    routes: &'a str,
    updates: &'a str,
    config: Config,
) -> Result<Vec<u8>, Failure<'a>>
    requires { IsConfig config }
    ensures text { IfOk result (λ v. IsReportText config
        (F.bytes files.now routes.entry.now) (F.bytes files.now updates.entry.now) v.items) }
    ensures failure { IfErr result
        (EndsReport config routes.entry.now updates.entry.now (F.bytes files.now)) }
    ensures unwritten { IfErr result (λ e. e ≢ Failure.CannotWrite) }
{
    let list = read_list::<Routes, F>(alloc, files, routes)?;
    let orders = read_list::<Updates, F>(alloc, files, updates)?;
    text_of_lists(alloc, routes, &list, &orders, config)
}

// The text of what a table of the routes of the file of this path counts after the updates.
fn text_of_lists<'a>(
    alloc: Global,
    path: &'a str,
    routes: &[Route],
    orders: &[Order],
    config: Config,
) -> Result<Vec<u8>, Failure<'a>>
    requires { IsConfig config }
    ensures text { IfOk result (λ v. IsReportedOver config routes.now orders.now v.items) }
    ensures failure { IfErr result (EndsLoading config path.entry.now routes.now) }
{
    let mut table = load(alloc, path, routes, config)?;
    text_on_table(alloc, &mut table, orders)
}

// The text of what the table counts after the updates.
fn text_on_table<'a>(
    alloc: Global,
    table: &mut Fib<24, 8>,
    orders: &[Order],
) -> Result<Vec<u8>, Failure<'a>>
    ensures text { IfOk result (λ v. IsReportedAfter table.old.config table.old.table orders.now
        table.new v.items) }
    ensures memory { IfErr result (λ e. e ≡ Failure.Memory) }
{
    let _outcomes = update(alloc, table, orders)?;
    let report = report_of(table);
    Ok(report_text(alloc, &report)?)
}

// What the table counts.
fn report_of(table: &Fib<24, 8>) -> TableCounts
    ensures { IsCountOf 24 8 table.now.table table.now.config.groups table.now.table.readers.token
        result }
{
    let counts = table.counts();
    TableCounts {
        rules: table.rules(),
        versions: table.versions(),
        in_use: counts.in_use,
        limbo: counts.limbo,
        free: counts.free,
        token: table.token(),
    }
}
