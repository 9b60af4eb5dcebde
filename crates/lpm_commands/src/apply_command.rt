//! `apply`: what comes of updates after routes, and the next hops of addresses then.
ghost use Rattle.std.specs.Prelude.{◌≡◌, ◌≢◌, IfOk, IfErr, OnOk, IsErrOf};
ghost use Rattle.lpm_limits.specs.Limits.{IsConfig};
ghost use Rattle.lpm_files.specs.Output.{Writes, WritesBeginning};
ghost use Rattle.lpm_commands.specs.Apply.{IsApplyText, IsToldAfter, IsToldOver, EndsApply, EndsTelling};
ghost use Rattle.lpm_commands.specs.Lookup.{EndsAnswering};

use crate::answers::text_of_answers;
use crate::tables::load;
use crate::updates::update;
use bulk::Gate;
use fib::Fib;
use lpm_files::{Failure, Files, Updates, put_text, read_addresses_on, read_list, read_routes_on};
use lpm_limits::Config;
use route_text::{Order, Route, outcomes_text};
use std::alloc::Global;
use std::io::Write;
use std::thread::Threads;

/// Writes a line for what came of each update, after the routes, and then a line for each address
/// with its next hop, answered by as many threads as the table has workers. Each calls the gate
/// directly before each address.
///
/// Each file is read and parsed before the next, and all before a route is loaded. The text is
/// formed whole before it is written. A refused update doesn't stop the file.
pub fn apply<'a, R: Threads + Sync, F: Files, G: Gate, W: Write>(
    rt: &R,
    alloc: Global,
    files: &F,
    routes: &'a str,
    updates: &'a str,
    addresses: &'a str,
    config: Config,
    gate: &G,
    out: &mut W,
) -> Result<(), Failure<'a>>
    requires { IsConfig config }
    ensures done { OnOk result (Writes
        (IsApplyText config (F.bytes files.now routes.entry.now)
        (F.bytes files.now updates.entry.now) (F.bytes files.now addresses.entry.now))
        (W.contents out.old) (W.contents out.new)) }

    // Only a failed write leaves something written, a beginning of that text.
    ensures beginning { IsErrOf result Failure.CannotWrite → WritesBeginning
        (IsApplyText config (F.bytes files.now routes.entry.now)
        (F.bytes files.now updates.entry.now) (F.bytes files.now addresses.entry.now))
        (W.contents out.old) (W.contents out.new) }
    ensures untouched { IfErr result (λ e. e ≢ Failure.CannotWrite → out.new ≡ out.old) }
    ensures failure { IfErr result (EndsApply config
        routes.entry.now updates.entry.now addresses.entry.now (F.bytes files.now)) }
{
    let text = text_of_files(rt, alloc, files, routes, updates, addresses, config, gate)?;
    put_text(out, &text)
}

// The whole text, before anything is written. It isn't inlined where the commands are told apart, so that
// the loops of `lookup`, which are, keep their registers.
#[inline(never)]
fn text_of_files<'a, R: Threads + Sync, F: Files, G: Gate>(
    rt: &R,
    alloc: Global,
    files: &F,
    routes: &'a str,
    updates: &'a str,
    addresses: &'a str,
    config: Config,
    gate: &G,
) -> Result<Vec<u8>, Failure<'a>>
    requires { IsConfig config }
    ensures text { IfOk result (λ v. IsApplyText config (F.bytes files.now routes.entry.now)
        (F.bytes files.now updates.entry.now) (F.bytes files.now addresses.entry.now) v.items) }
    ensures failure { IfErr result (EndsApply config
        routes.entry.now updates.entry.now addresses.entry.now (F.bytes files.now)) }
    ensures unwritten { IfErr result (λ e. e ≢ Failure.CannotWrite) }
{
    let list = read_routes_on(rt, alloc, files, routes, config.workers)?;
    let orders = read_list::<Updates, F>(alloc, files, updates)?;
    let addrs = read_addresses_on(rt, alloc, files, addresses, config.workers)?;
    text_of_lists(rt, alloc, routes, &list, &orders, &addrs, config, gate)
}

// The lines of the updates, and then those of the addresses, by a table of the routes of the file of
// this path.
fn text_of_lists<'a, R: Threads + Sync, G: Gate>(
    rt: &R,
    alloc: Global,
    path: &'a str,
    routes: &[Route],
    orders: &[Order],
    addrs: &[u32],
    config: Config,
    gate: &G,
) -> Result<Vec<u8>, Failure<'a>>
    requires { IsConfig config }
    ensures text { IfOk result (λ v. IsToldOver config routes.now orders.now addrs.now v.items) }
    ensures failure { IfErr result (EndsTelling config path.entry.now routes.now) }
{
    let mut table = load(alloc, path, routes, config)?;
    text_on_table(rt, alloc, &mut table, orders, addrs, gate)
}

// The lines of the updates, and then those of the addresses.
fn text_on_table<'a, R: Threads + Sync, G: Gate>(
    rt: &R,
    alloc: Global,
    table: &mut Fib<24, 8>,
    orders: &[Order],
    addrs: &[u32],
    gate: &G,
) -> Result<Vec<u8>, Failure<'a>>
    ensures text { IfOk result (λ v. IsToldAfter table.old.config table.old.table orders.now
        addrs.now table.new.table v.items) }
    ensures failure { IfErr result (EndsAnswering table.old.config.workers) }
{
    let outcomes = update(alloc, table, orders)?;
    let mut text = outcomes_text(alloc, &outcomes)?;
    let answers = text_of_answers(rt, alloc, table, addrs, gate)?;
    text.extend_from_slice(&answers)?;
    Ok(text)
}
