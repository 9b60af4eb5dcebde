//! Why a table was not opened.

ghost use Rattle.std.specs.Prelude.{◌≡◌};
ghost use Rattle.lpm_writer.specs.declared.open_error.OpenError.TheVariants.{BadConfig as IsBadConfig, Memory as IsMemory};

use lpm_limits::BadConfig;
use std::alloc::AllocError;
use std::error::Error;
use std::fmt;

/// Why a table was not opened.
#[derive(Clone, Copy, Debug, PartialEq, Eq)]
pub enum OpenError {
    /// A limit lies outside its range.
    BadConfig,
    /// There is too little memory, or a list has more than 67,108,864 rules.
    Memory,
}

impl fmt::Display for OpenError {
    fn fmt<W: fmt::Write>(&self, f: &mut fmt::Formatter<W>) -> fmt::Result {
        match self {
            OpenError::BadConfig => write!(f, "{BadConfig}"),
            OpenError::Memory => f.write_str("out of memory"),
        }
    }
}

impl Error for OpenError {}

impl From<BadConfig> for OpenError {
    ghost from_gives = { λ _ error. error ≡ IsBadConfig };

    fn from(_error: BadConfig) -> Self {
        Self::BadConfig
    }
}

impl From<AllocError> for OpenError {
    ghost from_gives = { λ _ error. error ≡ IsMemory };

    fn from(_error: AllocError) -> Self {
        Self::Memory
    }
}
