//! What ends a run before its output is written, and its exit status.
ghost use Rattle.std.specs.Prelude.{◌≡◌};
ghost use Rattle.lpm_files.specs.Status.{status_of};
ghost use Rattle.lpm_files.specs.declared.failure.Failure.TheVariants.{Memory as IsMemory};

use lpm_limits::Refusal;
use route_text::Fault;
use std::alloc::AllocError;
use thiserror::Error;

/// The exit status where the command line isn't accepted.
pub const USAGE: u8 = 2;

/// The exit status where a file can't be read or the output can't be written.
pub const INPUT_OUTPUT: u8 = 3;

/// The exit status where a file has a fault.
pub const BAD_FILE: u8 = 4;

/// The exit status where memory was wanted.
pub const MEMORY: u8 = 5;

/// The exit status of another refusal.
pub const REFUSED: u8 = 6;

/// What ends a run. Its text is the line that standard error gets.
#[derive(Clone, Copy, Debug, PartialEq, Eq, Error)]
pub enum Failure<'a> {
    /// The file of this path can't be opened, or a read of it failed.
    #[error("lpmtool: cannot read {path}")]
    CannotRead {
        path: &'a str,
    },
    /// A write of the output failed, or took no byte.
    #[error("lpmtool: cannot write")]
    CannotWrite,
    /// The first fault of a file.
    #[error("lpmtool: {path}:{fault}")]
    Bad {
        path: &'a str,
        fault: Fault,
    },
    /// A growth was refused.
    #[error("lpmtool: out of memory")]
    Memory,
    /// The table refused the route on this line of the route file, for another reason than memory.
    #[error("lpmtool: {path}:{line}: refused {} {}", .refusal.number(), .refusal.name())]
    RefusedRoute {
        path: &'a str,
        line: usize,
        refusal: Refusal,
    },
    /// Another refusal, that of no line: `NoWorkers` where addresses are to be answered, or one of a
    /// storm, `BadConfig`, `Exhausted` or `NoThread`.
    #[error("lpmtool: refused {} {}", .refusal.number(), .refusal.name())]
    Refused {
        refusal: Refusal,
    },
}

impl From<AllocError> for Failure<'_> {
    ghost from_gives = { λ _ failure. failure ≡ IsMemory };

    fn from(_error: AllocError) -> Self {
        Self::Memory
    }
}

impl Failure<'_> {
    /// The exit status of the run that it ends.
    pub fn status(&self) -> u8
        ensures { result ≡ status_of self.now }
    {
        match self {
            Failure::CannotRead { .. } | Failure::CannotWrite => INPUT_OUTPUT,
            Failure::Bad { .. } => BAD_FILE,
            Failure::Memory => MEMORY,
            Failure::RefusedRoute { .. } | Failure::Refused { .. } => REFUSED,
        }
    }
}
