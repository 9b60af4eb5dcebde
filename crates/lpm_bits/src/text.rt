//! Prefixes and next hops as people write them.

ghost use Rattle.std.specs.Prelude.{IfOk, IfSome, Some, decimal};
ghost use Rattle.std.specs.Net.Grammar.{IsNumber};
ghost use Rattle.lpm_bits.specs.Texts.{IsPrefixText, prefix_text};

use crate::{Hop, Prefix};
use std::error::Error;
use std::fmt;
use std::net::Ipv4Addr;
use std::str::FromStr;

/// Why a text is no prefix, or no next hop.
#[derive(Clone, Copy, Debug, PartialEq, Eq)]
pub enum ParseError {
    /// A prefix has a slash behind its address.
    NoSlash,
    /// An address has four numbers from 0 to 255, with no leading zeros, and dots between them.
    BadAddress,
    /// The length of a prefix is a number from 0 to 32.
    BadLength,
    /// A next hop is a number from 0 to 16,777,215.
    BadHop,
}

impl fmt::Display for ParseError {
    fn fmt<W: fmt::Write>(&self, f: &mut fmt::Formatter<W>) -> fmt::Result {
        f.write_str(match self {
            ParseError::NoSlash => "a prefix has no slash",
            ParseError::BadAddress => "an address isn't four numbers up to 255",
            ParseError::BadLength => "a length isn't a number up to 32",
            ParseError::BadHop => "a next hop isn't a number up to 16777215",
        })
    }
}

impl Error for ParseError {}

impl fmt::Display for Prefix<24, 8> {
    ghost output = { λ p. Some (prefix_text p) };

    fn fmt<W: fmt::Write>(&self, f: &mut fmt::Formatter<W>) -> fmt::Result {
        write!(f, "{}/{}", Ipv4Addr::from_bits(self.bits()), self.len())
    }
}

impl fmt::Display for Hop {
    ghost output = { λ h. Some (decimal h) };

    fn fmt<W: fmt::Write>(&self, f: &mut fmt::Formatter<W>) -> fmt::Result {
        write!(f, "{}", self.number())
    }
}

/// The number that a text writes in decimal digits, with no sign.
fn number_of(text: &str) -> Option<u32>
    ensures { IfSome result (IsNumber 10 text.now) }
{
    if text.starts_with('+') {
        return None;
    }
    text.parse::<u32>().ok()
}

/// Reads a prefix as `10.0.0.0/8`. Host bits are cleared.
impl FromStr for Prefix<24, 8> {
    type Err = ParseError;

    ghost from_str_gives = { λ text r. IfOk r (IsPrefixText text) };

    fn from_str(text: &str) -> Result<Prefix<24, 8>, ParseError> {
        let Some((addr, len)) = text.split_once('/') else {
            return Err(ParseError::NoSlash);
        };
        let Ok(addr) = addr.parse::<Ipv4Addr>() else {
            return Err(ParseError::BadAddress);
        };
        let Some(len) = number_of(len) else {
            return Err(ParseError::BadLength);
        };
        match Prefix::new(addr.to_bits(), len) {
            Ok(prefix) => Ok(prefix),
            Err(_) => Err(ParseError::BadLength),
        }
    }
}

/// Reads a next hop, a number in decimal digits.
impl FromStr for Hop {
    type Err = ParseError;

    ghost from_str_gives = { λ text r. IfOk r (IsNumber 10 text) };

    fn from_str(text: &str) -> Result<Hop, ParseError> {
        let Some(number) = number_of(text) else {
            return Err(ParseError::BadHop);
        };
        match Hop::new(number) {
            Ok(hop) => Ok(hop),
            Err(_) => Err(ParseError::BadHop),
        }
    }
}
