//! Why a run has no trace.

ghost use Rattle.std.specs.Prelude.{◌≡◌, ◌↔◌};
ghost use Rattle.interleave.specs.declared.run_error.RunError.TheVariants.{BadConfig as IsBadConfig, Memory as IsMemory};
ghost use Rattle.lpm_writer.specs.declared.open_error.OpenError.TheVariants as opened;

use lpm_writer::OpenError;
use std::alloc::AllocError;
use std::error::Error;
use std::fmt;

/// Why a run has no trace.
#[derive(Clone, Copy, Debug, PartialEq, Eq)]
pub enum RunError {
    /// A limit lies outside its range.
    BadConfig,
    /// There is too little memory for the table, the rules or what the run shows.
    Memory,
}

impl fmt::Display for RunError {
    fn fmt<W: fmt::Write>(&self, f: &mut fmt::Formatter<W>) -> fmt::Result {
        match self {
            RunError::BadConfig => write!(f, "{}", OpenError::BadConfig),
            RunError::Memory => write!(f, "{}", OpenError::Memory),
        }
    }
}

impl Error for RunError {}

impl From<OpenError> for RunError {
    ghost from_gives = { λ cause error. (error ≡ IsBadConfig) ↔ (cause ≡ opened.BadConfig) };

    fn from(error: OpenError) -> Self {
        match error {
            OpenError::BadConfig => Self::BadConfig,
            OpenError::Memory => Self::Memory,
        }
    }
}

impl From<AllocError> for RunError {
    ghost from_gives = { λ _ error. error ≡ IsMemory };

    fn from(_error: AllocError) -> Self {
        Self::Memory
    }
}
