//! Pieces of lines that are written.
ghost use Rattle.std.specs.Prelude.{◌≡◌, ◌++◌, OnOk, decimal};
ghost use Rattle.lpm_bits.specs.Network.{IsNetwork};
ghost use Rattle.lpm_bits.specs.Texts.{prefix_text};
ghost use Rattle.route_text.specs.Texts.{address_text};

use crate::answers::{ADDRESS_ROOM, put_address};
use itoa::Buffer;
use lpm_bits::Prefix;
use std::alloc::AllocError;

/// Adds a name and a number after it.
pub(crate) fn put_named(text: &mut Vec<u8>, name: &[u8], number: u64) -> Result<(), AllocError>
    ensures { OnOk result (text.new.items ≡ text.old.items ++ (name.now ++ decimal number)) }
{
    let mut buffer = Buffer::new();
    text.extend_from_slice(name)?;
    text.extend_from_slice(buffer.format(number).as_bytes())
}

/// Adds the address as four octets.
pub(crate) fn put_octets(text: &mut Vec<u8>, addr: u32) -> Result<(), AllocError>
    ensures { OnOk result (text.new.items ≡ text.old.items ++ address_text addr) }
{
    let mut octets = [0; ADDRESS_ROOM];
    let start = put_address(addr, &mut octets, ADDRESS_ROOM);
    text.extend_from_slice(&octets[start..])
}

/// Adds the prefix as an address, a slash and a length.
pub(crate) fn put_prefix(text: &mut Vec<u8>, prefix: Prefix<24, 8>) -> Result<(), AllocError>
    ensures written { OnOk result (text.new.items ≡ text.old.items ++ prefix_text prefix) }
    ensures network { OnOk result (IsNetwork 32 prefix) }
{
    put_octets(text, prefix.bits())?;
    put_named(text, b"/", u64::from(prefix.len()))
}
