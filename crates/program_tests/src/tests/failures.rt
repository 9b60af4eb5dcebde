//! Reads and writes that fail.

use super::asserts::assert_at;
use super::cases::{Ending, assert_ends, run_line, text};
use super::fakes::{AtBad, BreakingFiles, Named, whole, writer};
use std::io::ErrorKind;
use std::process::Abort;
use std::sync::Wait;
use std::test::Fail;
use std::thread::Threads;

const ROUTES: &[u8] = b"10.0.0.0/8 1\n";

const UPDATES: &[u8] = b"lpm-updates 2\nflush\n";

const ADDRESSES: &[u8] = b"10.1.1.1\n11.0.0.0\n";

static FILES: [Named<'static>; 4] = [
    ("r", ROUTES),
    ("u", UPDATES),
    ("a", ADDRESSES),
    ("o", b"flush\n"),
];

const LOOKUP: &str = "lpmtool lookup r a";

const EXPLAIN: &str = "lpmtool explain r 10.1.1.1";

const APPLY: &str = "lpmtool apply r u a";

const REPORT: &str = "lpmtool report r u";

const STORM: &str = "lpmtool storm r u a";

const MIGRATE: &str = "lpmtool migrate o";

// A command, and each of its files with the number of reads that are made of it: one for each byte,
// and one that finds the end.
static READS: [(&str, &[(&str, usize)]); 6] = [
    (LOOKUP, &[("r", 14), ("a", 19)]),
    (EXPLAIN, &[("r", 14)]),
    (APPLY, &[("r", 14), ("u", 21), ("a", 19)]),
    (REPORT, &[("r", 14), ("u", 21)]),
    (STORM, &[("r", 14), ("u", 21), ("a", 19)]),
    (MIGRATE, &[("o", 7)]),
];

// A run ends so at which a read fails.
fn assert_broken<R: Abort + AllocGlobal + Threads + Wait + Sync>(
    rt: &R,
    line: &str,
    breaks: &str,
    bad: usize,
    kind: ErrorKind,
    ending: Ending<'_>,
) -> Result<(), Fail> {
    let files = BreakingFiles {
        files: &FILES,
        breaks,
        bad,
        kind,
    };
    assert_ends(rt, (line, breaks, bad), line, &files, ending)
}

const WANTS_MEMORY: Ending<'static> = (5, "", "lpmtool: out of memory\n");

// Each read of the file fails in turn, and one for want of memory.
fn each_read_fails<R: Abort + AllocGlobal + Threads + Wait + Sync>(
    rt: &R,
    line: &str,
    breaks: &str,
    reads: usize,
) -> Result<(), Fail> {
    let fault = format!(in rt.alloc(); "lpmtool: cannot read {breaks}\n")?;
    for bad in 1..=reads {
        let ending = (3, "", fault.as_str());
        assert_broken(rt, line, breaks, bad, ErrorKind::Other, ending)?;
    }
    assert_broken(rt, line, breaks, 3, ErrorKind::OutOfMemory, WANTS_MEMORY)
}

#[test]
fn reads_that_fail(rt: HostRuntime) -> Result<(), Fail> {
    for (line, files) in &READS {
        for (breaks, reads) in *files {
            each_read_fails(&rt, line, breaks, *reads)?;
        }
    }
    Ok(())
}

// A command, its text, and the number of writes of at most three bytes that it takes.
static WRITES: [(&str, &str, usize); 5] = [
    (LOOKUP, "10.1.1.1 1\n11.0.0.0 -\n", 8),
    (
        EXPLAIN,
        "address 10.1.1.1\nhop 1\nrule 10.0.0.0/8\ntbl24 655617 0x21000001\n",
        21,
    ),
    (APPLY, "flushed 1\n10.1.1.1 -\n11.0.0.0 -\n", 11),
    (
        REPORT,
        "rules 0\nversions 2\nin use 0\nlimbo 0\nfree 256\ntoken 1\n",
        18,
    ),
    (MIGRATE, "lpm-updates 2\nflush\n", 7),
];

// A run can't write, and what the earlier writes took is a beginning of the text.
fn assert_stopped(rt: &impl Abort, row: (&str, usize), ending: Ending<'_>, text: &str) {
    let (status, out, err) = ending;
    let (_, bad) = row;
    assert_at(rt, row, err, "lpmtool: cannot write\n");
    assert_at(rt, row, status, 3);
    assert_at(rt, row, out.len(), bad.saturating_sub(1).saturating_mul(3));
    assert_at(rt, row, text.starts_with(out), true);
}

// A write that was interrupted is made again: the text is whole.
fn assert_whole(rt: &impl Abort, row: (&str, usize), ending: Ending<'_>, text: &str) {
    let (status, out, err) = ending;
    assert_at(rt, row, (status, err.len()), (0, 0));
    assert_at(rt, row, out, text);
}

// A run of which one write is bad.
fn assert_written<R: Abort + AllocGlobal + Threads + Wait + Sync>(
    rt: &R,
    line: &str,
    whole_text: &str,
    bad: usize,
    at_bad: AtBad,
) -> Result<(), Fail> {
    let mut out = writer(rt.alloc(), bad, at_bad);
    let mut err = writer(rt.alloc(), 0, AtBad::Fails);
    let status = run_line(rt, line, &whole(&FILES), &mut out, &mut err)?;
    let ending = (status, text(rt, &out), text(rt, &err));
    if at_bad == AtBad::IsInterrupted {
        assert_whole(rt, (line, bad), ending, whole_text);
    } else {
        assert_stopped(rt, (line, bad), ending, whole_text);
    }
    Ok(())
}

#[test]
fn writes_that_fail(rt: HostRuntime) -> Result<(), Fail> {
    for (line, text, writes) in &WRITES {
        for bad in 1..=*writes {
            assert_written(&rt, line, text, bad, AtBad::Fails)?;
            assert_written(&rt, line, text, bad, AtBad::TakesNone)?;
            assert_written(&rt, line, text, bad, AtBad::IsInterrupted)?;
        }
    }
    Ok(())
}

const STORM_TEXT: &str = "answers 2\nrefused 0\nwrong 0\n\
    rules 0\nversions 2\nin use 0\nlimbo 0\nfree 256\ntoken 2\n";

// Each write of a storm's text fails in turn. Each run makes a table of threads, which takes long.
#[test]
fn writes_of_a_storm_that_fail(rt: HostRuntime) -> Result<(), Fail> {
    for bad in 1..=27 {
        assert_written(&rt, STORM, STORM_TEXT, bad, AtBad::Fails)?;
    }
    Ok(())
}
