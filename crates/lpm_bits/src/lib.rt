//! Addresses, prefixes and next hops of a table for longest-prefix match.
//!
//! A table has two widths: `FIRST` bits of an address index its first table, and the `SECOND` bits
//! below them index a group. An address has `FIRST + SECOND` bits, at most 32.
#![tactic(auto)]

ghost use Rattle.std.specs.Prelude.{◌≡◌, ℕ, ◌+◌, ◌-◌, ◌*◌, ◌/◌, ◌%◌, ◌^◌, ◌<◌, ◌≤◌, ◌↔◌, IsTrue, IfOk, IsErr};
ghost use Rattle.lpm_bits.specs.Widths.{IsShape};
ghost use Rattle.lpm_bits.specs.Network.{Covers, IsNetwork, prefix_of};

mod address;
mod text;

use std::error::Error;
use std::fmt;
use std::marker::Model;
pub use text::ParseError;

/// The two widths of a table: the bits that index the first table, and those that index a group.
///
/// Each is at least 1, and together they are at most 32.
pub struct Shape<const FIRST: u32, const SECOND: u32>;

impl<const FIRST: u32, const SECOND: u32> Shape<FIRST, SECOND> {
    /// Whether the number is an address: below `2^(FIRST + SECOND)`.
    pub fn is_addr(addr: u32) -> bool
        requires { IsShape FIRST SECOND }
        ensures { IsTrue result ↔ (addr < 2 ^ (FIRST + SECOND)) }
    {
        u64::from(addr) >> (FIRST + SECOND) == 0
    }

    /// The place of the address in the first table: its first `FIRST` bits.
    pub fn first_index(addr: u32) -> usize
        requires shape { IsShape FIRST SECOND }
        requires addr { addr < 2 ^ (FIRST + SECOND) }
        ensures value { result ≡ addr / 2 ^ SECOND }
        ensures bound { result < 2 ^ FIRST }
    {
        (addr >> SECOND) as usize
    }

    /// The place of the address in its block's group: its last `SECOND` bits.
    pub fn second_index(addr: u32) -> usize
        requires { IsShape FIRST SECOND }
        ensures value { result ≡ addr % 2 ^ SECOND }
        ensures bound { result < 2 ^ SECOND }
    {
        (addr & ((1 << SECOND) - 1)) as usize
    }
}

/// A prefix length past the bits of an address.
#[derive(Clone, Copy, Debug, PartialEq, Eq)]
pub struct BadLength;

impl fmt::Display for BadLength {
    fn fmt<W: fmt::Write>(&self, f: &mut fmt::Formatter<W>) -> fmt::Result {
        f.write_str("prefix length past the bits of an address")
    }
}

impl Error for BadLength {}

/// A prefix: the addresses that share its first `len` bits. Its host bits, those after them, are 0.
///
/// The prefix of length 0 covers every address. Prefixes are ordered by their first addresses, and a
/// shorter one comes before a longer one with the same first address.
#[derive(Clone, Copy, Debug, PartialEq, Eq, PartialOrd, Ord, Hash)]
pub struct Prefix<const FIRST: u32, const SECOND: u32> {
    bits: u32,
    len: u32,
}

impl<const FIRST: u32, const SECOND: u32> Model for Prefix<FIRST, SECOND> {
    ghost use Rattle.std.specs.Prelude.{ℕ, ◌+◌};
    ghost use Rattle.lpm_bits.specs.Widths.{IsShape};
    ghost use Rattle.lpm_bits.specs.Network.{Network, IsNetwork};

    ghost Value = { Network };

    ghost view = { λ a. record { bits = a.bits; len = a.len } };

    ghost invariant = { λ a. IsShape FIRST SECOND
        × IsNetwork (FIRST + SECOND) (record { bits = a.bits; len = a.len }) };

    ghost inverse = { λ p. record { bits = p.bits; len = p.len } };
}

impl<const FIRST: u32, const SECOND: u32> Prefix<FIRST, SECOND> {
    /// The prefix of `len` bits that covers the address `bits`, whose host bits are masked to 0.
    ///
    /// `BadLength` exactly where `len` is past `FIRST + SECOND`.
    pub fn new(bits: u32, len: u32) -> Result<Self, BadLength>
        requires shape { IsShape FIRST SECOND }
        requires addr { bits < 2 ^ (FIRST + SECOND) }
        ensures ok { IfOk result (λ p. p ≡ prefix_of (FIRST + SECOND) len bits) }
        ensures err { IsErr result ↔ (FIRST + SECOND < len) }
    {
        if len > FIRST + SECOND {
            return Err(BadLength);
        }
        let host = FIRST + SECOND - len;
        let bits = ((u64::from(bits) >> host) << host) as u32;
        Ok(Prefix { bits, len })
    }

    /// Its first address: the bits of the prefix, and then host bits of 0.
    pub fn bits(&self) -> u32
        ensures value { result ≡ self.now.bits }
        ensures shape { IsShape FIRST SECOND }
        ensures network { IsNetwork (FIRST + SECOND) self.now }
    {
        self.bits
    }

    /// Its length in bits, from 0 to `FIRST + SECOND`.
    pub fn len(&self) -> u32
        ensures value { result ≡ self.now.len }
        ensures bound { result ≤ FIRST + SECOND }
    {
        self.len
    }

    /// Whether the address has the first `len` bits of the prefix.
    pub fn covers(&self, addr: u32) -> bool
        ensures { IsTrue result ↔ Covers (FIRST + SECOND) self.now addr }
    {
        let len = self.len;
        let host = FIRST + SECOND - len;
        u64::from(addr) >> host == u64::from(self.bits) >> host
    }
}

/// A number past the next hops.
#[derive(Clone, Copy, Debug, PartialEq, Eq)]
pub struct BadHop;

impl fmt::Display for BadHop {
    fn fmt<W: fmt::Write>(&self, f: &mut fmt::Formatter<W>) -> fmt::Result {
        f.write_str("next hop past 24 bits")
    }
}

impl Error for BadHop {}

/// A next hop: a number of 24 bits, from 0 to 16,777,215. What it stands for is the program's.
#[derive(Clone, Copy, Debug, PartialEq, Eq, PartialOrd, Ord, Hash)]
pub struct Hop {
    number: u32,
}

impl Model for Hop {
    ghost use Rattle.std.specs.Prelude.{ℕ, ◌<◌};

    ghost Value = { ℕ };

    ghost view = { λ a. a.number };

    ghost invariant = { λ a. a.number < 16777216 };

    ghost inverse = { λ n. record { number = n } };
}

impl Hop {
    /// The next hop of this number; `BadHop` exactly at 16,777,216 and above.
    pub fn new(number: u32) -> Result<Self, BadHop>
        ensures ok { IfOk result (λ h. h ≡ number) }
        ensures err { IsErr result ↔ (16777216 ≤ number) }
    {
        if number < 16_777_216 {
            Ok(Hop { number })
        } else {
            Err(BadHop)
        }
    }

    /// Its number, below 16,777,216.
    #[inline]
    pub fn number(self) -> u32
        ensures value { result ≡ self }
        ensures bound { result < 16777216 }
    {
        self.number
    }
}
