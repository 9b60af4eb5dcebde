//! `lpmtool`: longest-prefix match of IPv4 addresses, from files.
#![tactic(auto)]

ghost use Rattle.std.specs.Prelude.{None};

use lpm_files::Files;
use lpm_program::run::{refuse_words, run};
use std::fs::File;
use std::io::{Read, Stdin};
use std::process::ExitCode;
use std::{env, fs, io};

/// The path of standard input.
const STANDARD_INPUT: &str = "-";

/// A file of the system, or standard input.
#[derive(Drop)]
enum Source {
    File(File),
    Input(Stdin),
}

impl Read for Source {
    fn read(&mut self, buf: &mut [u8]) -> io::Result<usize> {
        match self {
            Source::File(file) => file.read(buf),
            Source::Input(input) => input.read(buf),
        }
    }
}

/// The files of the system, and standard input under the path `-`.
#[derive(Drop)]
struct Disk<'a> {
    rt: &'a HostRuntime,
}

impl Files for Disk<'_> {
    type Reader = Source;

    ghost bytes = { λ _ _. None };

    fn open(&self, path: &str) -> io::Result<Source> {
        if path == STANDARD_INPUT {
            return Ok(Source::Input(self.rt.stdin()));
        }
        Ok(Source::File(fs::open(self.rt, path)?))
    }
}

fn main(rt: HostRuntime) -> ExitCode {
    let mut out = rt.stdout();
    let mut err = rt.stderr();
    let words = match command_words(&rt) {
        Ok(words) => words,
        Err(e) => return ExitCode::from(refuse_words(e.kind(), &mut err)),
    };
    let files = Disk { rt: &rt };
    let status = run(
        &rt,
        rt.alloc(),
        words.as_slice(),
        &files,
        &mut out,
        &mut err,
    );
    ExitCode::from(status)
}

// The words of the command line, each of which has to be UTF-8.
fn command_words(rt: &HostRuntime) -> io::Result<Vec<String>> {
    let mut words = Vec::new(rt.alloc());
    for word in env::args(rt)? {
        words.push(word)?;
    }
    Ok(words)
}
