//! A run of a command line, and how it ends.

use super::asserts::assert_at;
use super::fakes::{AtBad, BreakingFiles, Short, writer};
use lpm_program::run::run;
use std::fmt::Debug;
use std::process::Abort;
use std::sync::Wait;
use std::test::Fail;
use std::thread::Threads;

/// The exit status, and the texts on standard output and standard error.
pub type Ending<'a> = (u8, &'a str, &'a str);

/// The exit status of a run of the words of this line.
pub(crate) fn run_line<R: AllocGlobal + Threads + Wait + Sync>(
    rt: &R,
    line: &str,
    files: &BreakingFiles<'_>,
    out: &mut Short,
    err: &mut Short,
) -> Result<u8, Fail> {
    let words: Vec<&str> = line.split_whitespace().collect(rt.alloc())?;
    Ok(run(rt, rt.alloc(), words.as_slice(), files, out, err))
}

/// What was written, which is text.
pub(crate) fn text<'a>(rt: &impl Abort, writer: &'a Short) -> &'a str {
    str::from_utf8(&writer.got).expect(rt, "a text")
}

/// A run of this line with these files ends so.
pub(crate) fn assert_ends<R: Abort + AllocGlobal + Threads + Wait + Sync, N: Debug + Copy>(
    rt: &R,
    row: N,
    line: &str,
    files: &BreakingFiles<'_>,
    ending: Ending<'_>,
) -> Result<(), Fail> {
    let mut out = writer(rt.alloc(), 0, AtBad::Fails);
    let mut err = writer(rt.alloc(), 0, AtBad::Fails);
    let status = run_line(rt, line, files, &mut out, &mut err)?;
    assert_at(rt, row, (status, text(rt, &out), text(rt, &err)), ending);
    Ok(())
}
