//! Why addresses were not answered.

ghost use Rattle.std.specs.Prelude.{◌≡◌};
ghost use Rattle.bulk.specs.declared.bulk_error.BulkError.TheVariants.{Memory as IsMemory};

use std::alloc::AllocError;
use thiserror::Error;

/// Why addresses were not answered.
#[derive(Clone, Copy, Debug, PartialEq, Eq, Error)]
pub enum BulkError {
    /// There are no workers.
    #[error("no workers")]
    NoWorkers,
    /// There is too little memory for the pieces or the answers.
    #[error("out of memory")]
    Memory,
}

impl From<AllocError> for BulkError {
    ghost from_gives = { λ _ error. error ≡ IsMemory };

    fn from(_error: AllocError) -> Self {
        Self::Memory
    }
}
