//! Files whose bytes are known, and a writer whose contents are: what each command promises there.
ghost use Rattle.std.specs.Prelude.{Some, ◌≡◌, ◌++◌, true, false, ℕ, List};
ghost use Rattle.lpm_limits.specs.Limits.{IsConfig};
ghost use Rattle.lpm_commands.specs.Lookup.{IsLookupText};
ghost use Rattle.lpm_commands.specs.Explain.{IsExplainText};
ghost use Rattle.lpm_commands.specs.Apply.{IsApplyText};
ghost use Rattle.lpm_commands.specs.Report.{IsReportText};
ghost use Rattle.lpm_commands.specs.Storm.{IsStormText};
ghost use Rattle.lpm_commands.specs.Migrate.{IsMigrateText};

use bulk::{Gate, Open};
use lpm_commands::{apply, explain, lookup, migrate, report, storm};
use lpm_files::Files;
use lpm_limits::Config;
use std::alloc::Global;
use std::io;
use std::io::Read;
use std::process::Abort;
use std::sync::Wait;
use std::thread::Threads;

/// Bytes that are left to read.
#[derive(Drop)]
pub(crate) struct Known {
    bytes: Vec<u8>,
}

impl Read for Known {
    ghost remaining = { λ r. Some r.bytes.items };

    fn read(&mut self, buf: &mut [u8]) -> io::Result<usize> {
        let n = self.bytes.len().min(buf.len());
        let rest = self.bytes.split_off(n)?;
        buf[..n].copy_from_slice(&self.bytes);
        self.bytes = rest;
        Ok(n)
    }
}

/// Files whose bytes are their paths.
#[derive(Drop)]
pub(crate) struct Paths {
    pub(crate) alloc: Global,
}

impl Files for Paths {
    type Reader = Known;

    ghost bytes = { λ _ path. Some path };

    fn open(&self, path: &str) -> io::Result<Known> {
        let mut bytes = Vec::new(self.alloc);
        bytes.extend_from_slice(path.as_bytes())?;
        Ok(Known { bytes })
    }
}

/// `lookup` where the bytes are known.
pub(crate) fn known_lookup<R: Threads + Sync, G: Gate>(
    rt: &R,
    alloc: Global,
    routes: &str,
    addresses: &str,
    config: Config,
    gate: &G,
    out: &mut Vec<u8>,
) -> bool
    requires { IsConfig config }
    ensures { result ≡ true → (text : List ℕ)
        × IsLookupText config (Some routes.now) (Some addresses.now) text
        × (out.new.items ≡ out.old.items ++ text) }
{
    let files = Paths { alloc };
    lookup(rt, alloc, &files, routes, addresses, config, gate, out).is_ok()
}

/// `explain` where the bytes are known.
fn known_explain(
    alloc: Global,
    routes: &str,
    addrs: &[u32],
    config: Config,
    out: &mut Vec<u8>,
) -> bool
    requires { IsConfig config }
    ensures { result ≡ true → (text : List ℕ)
        × IsExplainText config (Some routes.now) addrs.now text
        × (out.new.items ≡ out.old.items ++ text) }
{
    let files = Paths { alloc };
    explain(alloc, &files, routes, addrs, config, out).is_ok()
}

/// `apply` where the bytes are known.
pub(crate) fn known_apply<R: Threads + Sync, G: Gate>(
    rt: &R,
    alloc: Global,
    routes: &str,
    updates: &str,
    addresses: &str,
    config: Config,
    gate: &G,
    out: &mut Vec<u8>,
) -> bool
    requires { IsConfig config }
    ensures { result ≡ true → (text : List ℕ)
        × IsApplyText config (Some routes.now) (Some updates.now) (Some addresses.now) text
        × (out.new.items ≡ out.old.items ++ text) }
{
    let files = Paths { alloc };
    apply(
        rt, alloc, &files, routes, updates, addresses, config, gate, out,
    )
    .is_ok()
}

/// `report` where the bytes are known.
fn known_report(
    alloc: Global,
    routes: &str,
    updates: &str,
    config: Config,
    out: &mut Vec<u8>,
) -> bool
    requires { IsConfig config }
    ensures { result ≡ true → (text : List ℕ)
        × IsReportText config (Some routes.now) (Some updates.now) text
        × (out.new.items ≡ out.old.items ++ text) }
{
    let files = Paths { alloc };
    report(alloc, &files, routes, updates, config, out).is_ok()
}

/// `storm` without a stuck worker, where the bytes are known.
pub(crate) fn known_storm<R: Threads + Wait + Sync, G: Gate>(
    rt: &R,
    alloc: Global,
    routes: &str,
    updates: &str,
    addresses: &str,
    config: Config,
    rounds: usize,
    gate: &G,
    out: &mut Vec<u8>,
) -> bool
    ensures { result ≡ true → (text : List ℕ)
        × IsStormText config rounds false (Some routes.now) (Some updates.now) (Some addresses.now) text
        × (out.new.items ≡ out.old.items ++ text) }
{
    let files = Paths { alloc };
    storm(
        rt, alloc, &files, routes, updates, addresses, config, rounds, false, gate, out,
    )
    .is_ok()
}

/// `migrate` where the bytes are known.
fn known_migrate(alloc: Global, old: &str, out: &mut Vec<u8>) -> bool
    ensures { result ≡ true → (text : List ℕ)
        × IsMigrateText (Some old.now) text
        × (out.new.items ≡ out.old.items ++ text) }
{
    let files = Paths { alloc };
    migrate(alloc, &files, old, out).is_ok()
}

const ROUTES: &str = "10.0.0.0/8 1\n10.1.1.128/25 3\n";

const UPDATES: &str = "lpm-updates 2\ndel 10.1.1.128/25\n";

const ADDRESSES: &str = "10.1.1.128\n";

const OLD: &str = "del 1.2.3.4/8\n";

// What the six commands write, one after the other.
const TEXT: &str = "10.1.1.128 3\n\
    address 10.1.1.128\nhop 3\nrule 10.1.1.128/25\ncover 10.0.0.0/8 1\n\
    tbl24 655617 0x03000000\ngroup 0\ntbl8 128 0x65000003\n\
    deleted 3\n10.1.1.128 1\n\
    rules 1\nversions 3\nin use 0\nlimbo 1\nfree 255\ntoken 2\n\
    answers 2\nrefused 0\nwrong 0\n\
    rules 1\nversions 3\nin use 0\nlimbo 0\nfree 256\ntoken 3\n\
    lpm-updates 2\ndel 1.0.0.0/8\n";

/// What was asked for is done, and this text was written.
pub(crate) fn assert_wrote(rt: &impl Abort, is_done: bool, out: &[u8], text: &str) {
    assert!(rt; is_done);
    assert_eq!(rt; str::from_utf8(out), Ok(text));
}

// Runs the six commands. Which of them were done.
fn run_each<R: Threads + Wait + Sync>(rt: &R, alloc: Global, out: &mut Vec<u8>) -> [bool; 6] {
    let config = Config::default();
    [
        known_lookup(rt, alloc, ROUTES, ADDRESSES, config, &Open, out),
        known_explain(alloc, ROUTES, &[0x0a01_0180], config, out),
        known_apply(rt, alloc, ROUTES, UPDATES, ADDRESSES, config, &Open, out),
        known_report(alloc, ROUTES, UPDATES, config, out),
        known_storm(rt, alloc, ROUTES, UPDATES, ADDRESSES, config, 2, &Open, out),
        known_migrate(alloc, OLD, out),
    ]
}

#[test]
fn known_bytes_in_and_out(rt: HostRuntime) {
    let mut out = Vec::new(rt.alloc());
    let done = run_each(&rt, rt.alloc(), &mut out);
    assert_wrote(&rt, done == [true; 6], &out, TEXT);
}
