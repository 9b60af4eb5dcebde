//! The address file.
ghost use Rattle.std.specs.Prelude.{IfOk, IfErr};
ghost use Rattle.route_text.specs.Files.{AreAddresses, IsAddressesFault, SpellsAddress, HasAddressFault, IsReadError};

use super::fault::{FaultKind, ReadError};
use super::grammar::{Grammar, read_items};
use super::lines::{End, next_field};
use super::numbers::{ADDRESS_ROOM, address, address_before};
use std::alloc::Global;

/// The grammar of an address file: an address.
struct AddressLines;

impl Grammar for AddressLines {
    type Item = u32;

    ghost Spells = { SpellsAddress };

    ghost HasFault = { HasAddressFault };

    fn item(_line: usize, first: &[u8], rest: &[u8]) -> Result<u32, FaultKind> {
        if next_field(rest).is_some() {
            return Err(FaultKind::Fields);
        }
        match address(first) {
            Some(addr) => Ok(addr),
            None => Err(FaultKind::Address),
        }
    }

    #[inline(always)]
    fn plain_line(_line: usize, bytes: &[u8], at: usize) -> Option<(u32, usize)> {
        if bytes.len() - at < ADDRESS_ROOM {
            return None;
        }
        let (addr, next) = address_before(bytes, at, End::Line)?;
        Some((addr, next))
    }
}

/// The addresses of the file, in the order of their lines.
///
/// `Fault` gives the first faulty line where there is one. `Memory` comes where room for the
/// addresses is refused.
pub fn read_addresses(alloc: Global, bytes: &[u8]) -> Result<Vec<u32>, ReadError>
    ensures addrs { IfOk result (λ v. AreAddresses bytes.now v.items) }
    ensures error { IfErr result (IsReadError (IsAddressesFault bytes.now)) }
{
    read_items::<AddressLines>(alloc, 1, bytes)
}
