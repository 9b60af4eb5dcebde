//! Addresses, and what answers lookups at many of them.

use fib::Fib;
use lpm_bits::Hop;
use rand_core::Rng;
use std::alloc::{AllocError, Global};

/// What has a next hop for each address.
pub(crate) trait Table {
    /// The number of the address's next hop, 0 where it has none.
    fn number(&self, addr: u32) -> u64;
}

impl Table for Fib<24, 8> {
    #[inline]
    fn number(&self, addr: u32) -> u64 {
        number_of(self.lookup(addr))
    }
}

/// The number of a next hop, 0 where there is none.
#[inline]
pub(crate) fn number_of(hop: Option<Hop>) -> u64 {
    match hop {
        Some(hop) => u64::from(hop.number()),
        None => 0,
    }
}

/// The addresses at which a table is read.
#[derive(Clone, Copy)]
pub(crate) enum Addresses<'a> {
    /// These.
    Listed(&'a [u32]),
    /// One in each 251, upwards: from the one of this place on, and those before the one of that place.
    Ascending(u32, u32),
}

/// How many addresses a list has.
const LISTED: usize = 4_194_304;
/// All ascending addresses.
pub(crate) const ASCENDING: Addresses<'static> = Addresses::Ascending(0, 16_777_216);
/// How far one ascending address is from the next.
const STRIDE: u32 = 251;
/// How many addresses are timed together.
const PIECE: u32 = 65_536;

impl<'a> Addresses<'a> {
    /// How many there are.
    pub(crate) fn count(self) -> usize {
        match self {
            Addresses::Listed(addrs) => addrs.len(),
            Addresses::Ascending(from, to) => to.saturating_sub(from) as usize,
        }
    }

    /// How many pieces they have.
    pub(crate) fn pieces(self) -> usize {
        self.count() / PIECE as usize + 1
    }

    /// The first piece, and the addresses behind it. The last piece may be shorter, or empty.
    pub(crate) fn split(self) -> (Addresses<'a>, Addresses<'a>) {
        match self {
            Addresses::Listed(addrs) => {
                let (piece, rest) = addrs.split_at(addrs.len().min(PIECE as usize));
                (Addresses::Listed(piece), Addresses::Listed(rest))
            }
            Addresses::Ascending(from, to) => {
                let middle = from.saturating_add(PIECE).min(to);
                (
                    Addresses::Ascending(from, middle),
                    Addresses::Ascending(middle, to),
                )
            }
        }
    }
}

/// The ascending address of this place.
#[inline]
pub(crate) fn ascending(place: u32) -> u32 {
    place.wrapping_mul(STRIDE)
}

/// Where drawn addresses are.
#[derive(Clone, Copy)]
pub(crate) enum Kind {
    /// Anywhere: they have any bits.
    Random,
    /// In blocks that have a deep route.
    Deep,
    /// Each in such a block or anywhere, as a coin falls.
    HalfDeep,
}

impl Kind {
    /// What the kind is called.
    pub(crate) fn name(self) -> &'static str {
        match self {
            Kind::Random => "random",
            Kind::Deep => "deep",
            Kind::HalfDeep => "half deep",
        }
    }
}

/// Addresses of this kind, drawn anew. These blocks have a deep route, each given by its first address.
/// Where there is none, the addresses are anywhere.
pub(crate) fn draw_addresses<R: Rng>(
    alloc: Global,
    random: &mut R,
    kind: Kind,
    blocks: &[u32],
) -> Result<Vec<u32>, AllocError> {
    let mut addrs = Vec::with_capacity(alloc, LISTED)?;
    for _ in 0..LISTED {
        addrs.push(draw_address(random, kind, blocks))?;
    }
    Ok(addrs)
}

/// An address of this kind.
fn draw_address<R: Rng>(random: &mut R, kind: Kind, blocks: &[u32]) -> u32 {
    let is_deep = match kind {
        Kind::Random => false,
        Kind::Deep => true,
        Kind::HalfDeep => random.next_u32() % 2 == 1,
    };
    let drawn = random.next_u32();
    if !is_deep || blocks.is_empty() {
        return drawn;
    }
    blocks[drawn as usize % blocks.len()] | (random.next_u32() % 256)
}

/// What answers lookups at many addresses.
pub(crate) trait Side {
    /// The sum of the numbers of the next hops at these addresses.
    fn sum(&mut self, addresses: Addresses<'_>) -> u64;
}

impl<T: Table> Side for &T {
    fn sum(&mut self, addresses: Addresses<'_>) -> u64 {
        match addresses {
            Addresses::Listed(addrs) => sum_listed(*self, addrs),
            Addresses::Ascending(from, to) => sum_ascending(*self, from, to),
        }
    }
}

#[inline(never)]
fn sum_listed<T: Table>(table: &T, addrs: &[u32]) -> u64 {
    let mut sum = 0u64;
    for addr in addrs {
        sum = sum.wrapping_add(table.number(*addr));
    }
    sum
}

#[inline(never)]
fn sum_ascending<T: Table>(table: &T, from: u32, to: u32) -> u64 {
    let mut sum = 0u64;
    for place in from..to {
        sum = sum.wrapping_add(table.number(ascending(place)));
    }
    sum
}
