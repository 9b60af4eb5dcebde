//! `storm`: how many answers of lookups beside a writer were wrong.
ghost use Rattle.std.specs.Prelude.{◌≡◌, ◌≢◌, ◌+◌, ◌<◌, ◌≤◌, ◌^◌, ◌⊎◌, All};
ghost use Rattle.std.specs.Prelude.{IfOk, IfErr, OnOk, IsErrOf, length};
ghost use Rattle.lpm_rules.specs.RuleMap.{rules_of};
ghost use Rattle.shared_fib.specs.Passes.{IsFullBench};
ghost use Rattle.shared_fib.specs.RunningTable.{initial_writer};
ghost use Rattle.lpm_files.specs.Output.{Writes, WritesBeginning};
ghost use Rattle.storm.specs.Writer.{IsForWriter, is_for_writer};
ghost use Rattle.storm.specs.Storm.{EndsStorm, IsInRange, IsStorm, limits_of};
ghost use Rattle.lpm_commands.specs.Load.{rules_of_routes};
ghost use Rattle.lpm_commands.specs.Storm.{IsStormText, IsTextAfter, IsTextOf, IsTextOver, storm_ending, with_versions};
ghost use Rattle.lpm_commands.specs.Storm.{EndsAfter, EndsBy, EndsOver, EndsRunning, EndsStormRun, orders_for_writer};

use crate::sorted_rules::rule_list;
use crate::tables::{Running, open_for_changes};
use audit::{StormReport, TableCounts, storm_text};
use bulk::Gate;
use lpm_files::{Addresses, Failure, Files, Updates, put_text, read_list, read_routes_on};
use lpm_limits::{Config, Refusal};
use route_text::{Order, Route};
use std::alloc::{AllocError, Global};
use std::io::Write;
use std::sync::Wait;
use std::thread::Threads;
use storm::{Plan, StormError, run};

/// Writes how many answers there were beside the updates, how many of these were refused and how many
/// answers were wrong, and then the report of the table in the end. Each worker of the table looks all
/// addresses up, `rounds` times, on a thread of its own, while one more thread makes the updates but
/// for the reports of workers. The threads call the gate as `storm::run` says.
///
/// Each file is read and parsed before the next, and all before the table is opened. Then no workers, a limit
/// out of range and too many answers are refused, and then a route. The table opens with the rules of the
/// routes, and the versions that these made are counted in the report. The text is formed whole before it is
/// written. A refused update doesn't stop the file.
pub fn storm<'a, R: Threads + Wait + Sync, F: Files, G: Gate, W: Write>(
    rt: &R,
    alloc: Global,
    files: &F,
    routes: &'a str,
    updates: &'a str,
    addresses: &'a str,
    config: Config,
    rounds: usize,
    has_stuck_worker: bool,
    gate: &G,
    out: &mut W,
) -> Result<(), Failure<'a>>
    ensures done { OnOk result (Writes
        (IsStormText config rounds has_stuck_worker (F.bytes files.now routes.entry.now)
        (F.bytes files.now updates.entry.now) (F.bytes files.now addresses.entry.now))
        (W.contents out.old) (W.contents out.new)) }

    // Only a failed write leaves something written, a beginning of that text.
    ensures beginning { IsErrOf result Failure.CannotWrite → WritesBeginning
        (IsStormText config rounds has_stuck_worker (F.bytes files.now routes.entry.now)
        (F.bytes files.now updates.entry.now) (F.bytes files.now addresses.entry.now))
        (W.contents out.old) (W.contents out.new) }
    ensures untouched { IfErr result (λ e. e ≢ Failure.CannotWrite → out.new ≡ out.old) }
    ensures failure { IfErr result (EndsStormRun config rounds has_stuck_worker
        routes.entry.now updates.entry.now addresses.entry.now (F.bytes files.now)) }
{
    let text = text_of_files(
        rt,
        alloc,
        files,
        routes,
        updates,
        addresses,
        config,
        rounds,
        has_stuck_worker,
        gate,
    )?;
    put_text(out, &text)
}

// The whole text, before anything is written.
fn text_of_files<'a, R: Threads + Wait + Sync, F: Files, G: Gate>(
    rt: &R,
    alloc: Global,
    files: &F,
    routes: &'a str,
    updates: &'a str,
    addresses: &'a str,
    config: Config,
    rounds: usize,
    has_stuck_worker: bool,
    gate: &G,
) -> Result<Vec<u8>, Failure<'a>>
    ensures text { IfOk result (λ v. IsStormText config rounds has_stuck_worker
        (F.bytes files.now routes.entry.now) (F.bytes files.now updates.entry.now)
        (F.bytes files.now addresses.entry.now) v.items) }
    ensures failure { IfErr result (EndsStormRun config rounds has_stuck_worker
        routes.entry.now updates.entry.now addresses.entry.now (F.bytes files.now)) }
    ensures unwritten { IfErr result (λ e. e ≢ Failure.CannotWrite) }
{
    let list = read_routes_on(rt, alloc, files, routes, config.workers)?;
    let orders = read_list::<Updates, F>(alloc, files, updates)?;
    let addrs = read_list::<Addresses, F>(alloc, files, addresses)?;
    text_of_lists(
        rt,
        alloc,
        routes,
        &list,
        &orders,
        &addrs,
        config,
        rounds,
        has_stuck_worker,
        gate,
    )
}

// The text of the report of a storm of the updates and the addresses, on a table of the routes of the
// file of this path.
fn text_of_lists<'a, R: Threads + Wait + Sync, G: Gate>(
    rt: &R,
    alloc: Global,
    path: &'a str,
    routes: &[Route],
    orders: &[Order],
    addrs: &[u32],
    config: Config,
    rounds: usize,
    has_stuck_worker: bool,
    gate: &G,
) -> Result<Vec<u8>, Failure<'a>>
    ensures text { IfOk result (λ v. IsTextOver config rounds has_stuck_worker routes.now orders.now
        addrs.now v.items) }
    ensures failure { IfErr result (EndsOver config rounds has_stuck_worker
        path.entry.now routes.now orders.now addrs.now) }
{
    let rules = rule_list(alloc, routes)?;
    let for_writer = orders_for_writer(alloc, orders)?;
    let plan = Plan {
        config,
        has_stuck_worker,
        rules: &rules,
        orders: &for_writer,
        addrs,
        rounds,
    };
    text_of_plan(rt, alloc, &plan, path, routes, gate)
}

// The text of the report of a storm of this plan. Its rules are those of the routes of the file of this
// path.
fn text_of_plan<'a, R: Threads + Wait + Sync, G: Gate>(
    rt: &R,
    alloc: Global,
    plan: &Plan<'_, 24, 8>,
    path: &'a str,
    routes: &[Route],
    gate: &G,
) -> Result<Vec<u8>, Failure<'a>>
    requires rules { rules_of plan.now.rules.now ≡ rules_of_routes routes.now }
    requires orders { All IsForWriter plan.now.orders.now }
    requires addrs { All (λ a. a < 2 ^ 32) plan.now.addrs.now }
    ensures text { IfOk result (λ v. IsTextAfter plan.now routes.now v.items) }
    ensures failure { IfErr result (EndsBy plan.now path.entry.now routes.now) }
{
    match plan.table_limits() {
        Ok(limits) => text_on_routes(rt, alloc, plan, path, routes, limits, gate),
        Err(error) => Err(storm_ending(error)),
    }
}

// The text of the report of a storm of this plan on the table of the routes, which has these limits.
fn text_on_routes<'a, R: Threads + Wait + Sync, G: Gate>(
    rt: &R,
    alloc: Global,
    plan: &Plan<'_, 24, 8>,
    path: &'a str,
    routes: &[Route],
    limits: Config,
    gate: &G,
) -> Result<Vec<u8>, Failure<'a>>
    requires in_range { IsInRange plan.now }
    requires limits { limits ≡ limits_of plan.now }
    requires rules { rules_of plan.now.rules.now ≡ rules_of_routes routes.now }
    requires orders { All IsForWriter plan.now.orders.now }
    requires addrs { All (λ a. a < 2 ^ 32) plan.now.addrs.now }
    ensures text { IfOk result (λ v. IsTextAfter plan.now routes.now v.items) }
    ensures failure { IfErr result (EndsAfter plan.now path.entry.now routes.now) }
{
    match open_for_changes(alloc, path, routes, limits) {
        Ok((running, versions)) => text_on_table(rt, alloc, plan, running, versions, gate),
        Err(failure) => Err(failure),
    }
}

// The text of the report of a storm of this plan on its table, where so many versions more are counted.
fn text_on_table<'a, R: Threads + Wait + Sync, G: Gate>(
    rt: &R,
    alloc: Global,
    plan: &Plan<'_, 24, 8>,
    running: Running,
    versions: u64,
    gate: &G,
) -> Result<Vec<u8>, Failure<'a>>
    requires in_range { IsInRange plan.now }
    requires new { running.writer
        ≡ initial_writer running.table (limits_of plan.now) (rules_of plan.now.rules.now) }
    requires token { running.table.initial.token ≡ plan.now.config.first_token }
    requires workers { running.table.initial.workers ≡ (limits_of plan.now).workers }
    requires full { IsFullBench running.table running.bench }
    requires orders { All IsForWriter plan.now.orders.now }
    requires addrs { All (λ a. a < 2 ^ 32) plan.now.addrs.now }
    requires few { versions < 2 ^ 63 }
    ensures text { IfOk result (λ v. IsTextOf plan.now versions v.items) }
    ensures failure { IfErr result (λ e. (e ≡ Failure.Memory) ⊎ EndsRunning plan.now e) }
{
    match report_on(rt, alloc, plan, running, gate) {
        Ok(report) => Ok(storm_text(alloc, &with_versions(report, versions))?),
        Err(error) => Err(storm_ending(error)),
    }
}

// The report of a storm of this plan on its table, which is dropped then.
fn report_on<R: Threads + Wait + Sync, G: Gate>(
    rt: &R,
    alloc: Global,
    plan: &Plan<'_, 24, 8>,
    running: Running,
    gate: &G,
) -> Result<StormReport, StormError>
    requires in_range { IsInRange plan.now }
    requires new { running.writer
        ≡ initial_writer running.table (limits_of plan.now) (rules_of plan.now.rules.now) }
    requires token { running.table.initial.token ≡ plan.now.config.first_token }
    requires workers { running.table.initial.workers ≡ (limits_of plan.now).workers }
    requires full { IsFullBench running.table running.bench }
    requires orders { All IsForWriter plan.now.orders.now }
    requires addrs { All (λ a. a < 2 ^ 32) plan.now.addrs.now }
    ensures storm { IfOk result (IsStorm plan.now) }
    ensures wrong { IfOk result (λ r. r.wrong ≡ 0) }
    ensures versions { IfOk result (λ r. r.table.versions ≤ length plan.now.orders.now) }
    ensures failure { IfErr result (EndsStorm plan.now) }
{
    let Running {
        table,
        writer,
        mut bench,
    } = running;
    run(rt, alloc, plan, &table, writer, &mut bench, gate)
}

// The report, with so many versions more.
fn with_versions(report: StormReport, versions: u64) -> StormReport
    requires { versions + report.table.versions < 2 ^ 64 }
    ensures { result ≡ with_versions versions report }
{
    StormReport {
        table: TableCounts {
            versions: versions + report.table.versions,
            ..report.table
        },
        ..report
    }
}

// What a storm that came to nothing ends the run with.
fn storm_ending<'a>(error: StormError) -> Failure<'a>
    ensures { result ≡ storm_ending error }
{
    match error {
        StormError::NoWorkers => Failure::Refused {
            refusal: Refusal::NoWorkers,
        },
        StormError::BadConfig => Failure::Refused {
            refusal: Refusal::BadConfig,
        },
        StormError::Exhausted => Failure::Refused {
            refusal: Refusal::Exhausted,
        },
        StormError::NoThread => Failure::Refused {
            refusal: Refusal::NoThread,
        },
        StormError::Memory => Failure::Memory,
    }
}

// The orders but for the reports of workers.
fn orders_for_writer(alloc: Global, orders: &[Order]) -> Result<Vec<Order>, AllocError>
    ensures { IfOk result (λ v. v.items ≡ orders_for_writer orders.now) }
{
    let mut kept = Vec::new(alloc);
    for order in orders {
        if is_for_writer(order) {
            kept.push(*order)?;
        }
    }
    Ok(kept)
}

// Whether the order is one for the writer: a worker of a storm reports by itself.
fn is_for_writer(order: &Order) -> bool
    ensures { result ≡ is_for_writer order.now }
{
    !matches!(
        order,
        Order::Online(_) | Order::Offline(_) | Order::Quiescent(_)
    )
}
