//! Prefixes of the kit's IPv4 addresses.

ghost use Rattle.std.specs.Prelude.{◌≡◌, ◌<◌, ◌↔◌, IfOk, IsErr};
ghost use Rattle.std.specs.Net.Addr.{IsIpv4OfBits, ipv4_bits};
ghost use Rattle.lpm_bits.specs.Network.{prefix_of};

use crate::{BadLength, Prefix};
use std::net::Ipv4Addr;

impl Prefix<24, 8> {
    /// The prefix of `len` bits that covers an address, whose host bits are cleared.
    ///
    /// `BadLength` exactly where `len` is past 32.
    pub fn of_ipv4(addr: Ipv4Addr, len: u32) -> Result<Self, BadLength>
        ensures ok { IfOk result (λ p. p ≡ prefix_of 32 len (ipv4_bits addr)) }
        ensures err { IsErr result ↔ (32 < len) }
    {
        Prefix::new(addr.to_bits(), len)
    }

    /// Its first address.
    pub fn to_ipv4(&self) -> Ipv4Addr
        ensures { IsIpv4OfBits result self.now.bits }
    {
        Ipv4Addr::from_bits(self.bits())
    }
}
