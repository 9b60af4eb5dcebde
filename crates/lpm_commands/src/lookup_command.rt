//! `lookup`: the next hops of addresses, by routes.
ghost use Rattle.std.specs.Prelude.{◌≡◌, ◌≢◌, IfOk, IfErr, OnOk, IsErrOf};
ghost use Rattle.lpm_limits.specs.Limits.{IsConfig};
ghost use Rattle.lpm_files.specs.Output.{Writes, WritesBeginning};
ghost use Rattle.lpm_commands.specs.Lookup.{IsLookupText, EndsLookup};

use crate::answers::text_of_live_answers;
use crate::tables::open_for_lookups;
use bulk::Gate;
use lpm_files::{Failure, Files, put_text, read_addresses_on, read_routes_on};
use lpm_limits::Config;
use std::alloc::Global;
use std::io::Write;
use std::thread::Threads;

/// Writes a line for each address with the next hop of its longest matching route, answered by as
/// many threads as the table has workers. Each calls the gate directly before each address.
///
/// Each file is read and parsed before the next, and all before a route is loaded. The text is
/// formed whole before it is written.
pub fn lookup<'a, R: Threads + Sync, F: Files, G: Gate, W: Write>(
    rt: &R,
    alloc: Global,
    files: &F,
    routes: &'a str,
    addresses: &'a str,
    config: Config,
    gate: &G,
    out: &mut W,
) -> Result<(), Failure<'a>>
    requires { IsConfig config }
    ensures done { OnOk result (Writes
        (IsLookupText config
        (F.bytes files.now routes.entry.now) (F.bytes files.now addresses.entry.now))
        (W.contents out.old) (W.contents out.new)) }

    // Only a failed write leaves something written, a beginning of that text.
    ensures beginning { IsErrOf result Failure.CannotWrite → WritesBeginning
        (IsLookupText config
        (F.bytes files.now routes.entry.now) (F.bytes files.now addresses.entry.now))
        (W.contents out.old) (W.contents out.new) }
    ensures untouched { IfErr result (λ e. e ≢ Failure.CannotWrite → out.new ≡ out.old) }
    ensures failure { IfErr result
        (EndsLookup config routes.entry.now addresses.entry.now (F.bytes files.now)) }
{
    let list = read_routes_on(rt, alloc, files, routes, config.workers)?;
    let addrs = read_addresses_on(rt, alloc, files, addresses, config.workers)?;
    let running = open_for_lookups(alloc, routes, list, config)?;
    let text = text_of_live_answers(rt, alloc, running, config.workers, &addrs, gate)?;
    put_text(out, &text)
}
