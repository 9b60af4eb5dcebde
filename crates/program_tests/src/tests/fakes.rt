//! Files and writers in memory, which may fail.
ghost use Rattle.std.specs.Prelude.{None, Some};

use lpm_files::Files;
use std::alloc::Global;
use std::io;
use std::io::{ErrorKind, Read, Write};

/// A file: its path and its bytes.
pub type Named<'a> = (&'a str, &'a [u8]);

/// A reader that gives a byte a call, and fails at one of its calls.
#[derive(Drop)]
pub struct Breaking<'a> {
    bytes: &'a [u8],
    calls: usize,
    bad: usize,
    kind: ErrorKind,
}

impl Read for Breaking<'_> {
    fn read(&mut self, buf: &mut [u8]) -> io::Result<usize> {
        self.calls = self.calls.saturating_add(1);
        if self.calls == self.bad {
            return Err(self.kind.into());
        }
        if self.bytes.is_empty() || buf.is_empty() {
            return Ok(0);
        }
        buf[0] = self.bytes[0];
        self.bytes = &self.bytes[1..];
        Ok(1)
    }
}

/// Files, of which one breaks at a read.
#[derive(Clone, Copy)]
pub struct BreakingFiles<'a> {
    pub files: &'a [Named<'a>],
    pub breaks: &'a str,
    pub bad: usize,
    pub kind: ErrorKind,
}

impl<'a> Files for BreakingFiles<'a> {
    type Reader = Breaking<'a>;

    ghost bytes = { λ _ _. None };

    fn open(&self, path: &str) -> io::Result<Breaking<'a>> {
        for (name, bytes) in self.files {
            if *name == path {
                return Ok(Breaking {
                    bytes,
                    calls: 0,
                    bad: if path == self.breaks { self.bad } else { 0 },
                    kind: self.kind,
                });
            }
        }
        Err(ErrorKind::NotFound.into())
    }
}

/// Files that don't break.
pub(crate) fn whole<'a>(files: &'a [Named<'a>]) -> BreakingFiles<'a> {
    BreakingFiles {
        files,
        breaks: "",
        bad: 0,
        kind: ErrorKind::Other,
    }
}

/// What a writer does at its bad call.
#[derive(Clone, Copy, PartialEq, Eq)]
pub enum AtBad {
    Fails,
    TakesNone,
    IsInterrupted,
}

/// A writer that takes at most three bytes a call.
#[derive(Drop)]
pub struct Short {
    pub got: Vec<u8>,
    calls: usize,
    bad: usize,
    at_bad: AtBad,
}

impl Write for Short {
    ghost contents = { λ w. Some w.got.items };

    fn write(&mut self, buf: &[u8]) -> io::Result<usize> {
        self.calls = self.calls.saturating_add(1);
        if self.calls == self.bad {
            return match self.at_bad {
                AtBad::Fails => Err(ErrorKind::Other.into()),
                AtBad::TakesNone => Ok(0),
                AtBad::IsInterrupted => Err(ErrorKind::Interrupted.into()),
            };
        }
        let taken = buf.len().min(3);
        self.got.extend_from_slice(&buf[..taken])?;
        Ok(taken)
    }

    fn flush(&mut self) -> io::Result<()> {
        Ok(())
    }
}

/// A writer that is bad at one of its calls, and at none where that is 0.
pub(crate) fn writer(alloc: Global, bad: usize, at_bad: AtBad) -> Short {
    Short {
        got: Vec::new(alloc),
        calls: 0,
        bad,
        at_bad,
    }
}
