//! Addresses that are read in pieces.
ghost use Rattle.std.specs.Prelude.{◌≡◌, [], ◌∷◌, ◌++◌, IfOk};
ghost use Rattle.route_text.specs.Files.{SpellsAddress, HasAddressFault};

use crate::pieces::PiecewiseFile;
use route_text::{ReadError, read_addresses};
use std::alloc::{AllocError, Global};

/// Address files. An address is the same on each line.
pub(crate) struct AddressFile;

impl PiecewiseFile for AddressFile {
    type Item = u32;

    ghost Spells = { SpellsAddress };

    ghost HasFault = { HasAddressFault };

    ghost later = { λ _ addr. addr };

    ghost spells_later = { λ k n. elim [
      | [] ↦ λ addr is. is
      | a ∷ [] ↦ λ addr is. is
      | a ∷ b ∷ fs ↦ λ addr is. is
    ] };

    fn read(alloc: Global, bytes: &[u8]) -> Result<Vec<u32>, ReadError> {
        read_addresses(alloc, bytes)
    }

    fn append(list: Vec<u32>, _front: &[u8], more: &[u32]) -> Result<Vec<u32>, AllocError>
        ensures { IfOk result (λ v. v.items ≡ list.items ++ more.now) }
    {
        let mut list = list;
        list.extend_from_slice(more)?;
        Ok(list)
    }
}
