use super::asserts::{assert_at, assert_shown};
use lpm_bits::{BadHop, BadLength, Hop, Prefix, Shape};
use std::process::Abort;
use test_support::hop_number;

// The definition of covering, computed digit by digit: both have the same first bits.
pub(crate) fn covers_plainly(width: u32, bits: u32, len: u32, addr: u32) -> bool {
    let mut a = u64::from(addr);
    let mut b = u64::from(bits);
    for _ in len..width {
        a /= 2;
        b /= 2;
    }
    a == b
}

#[test]
fn covering_by_the_definition(rt: HostRuntime) {
    for bits in 0..32u32 {
        for len in 0..6u32 {
            let prefix = Prefix::<3, 2>::new(bits, len).expect(&rt, "a length");
            for addr in 0..32u32 {
                let plainly = covers_plainly(5, bits, len, addr);
                assert_at(&rt, (bits, len, addr), prefix.covers(addr), plainly);
            }
        }
    }
}

type Ipv4 = Prefix<24, 8>;

// The bits and the length that a prefix is made of, the bits that it keeps, an address, and whether it is
// covered.
type Covering = (u32, u32, u32, u32, bool);

static COVERS: [Covering; 6] = [
    (0xffff_ffff, 0, 0, 0, true),
    (0xffff_ffff, 0, 0, 0xffff_ffff, true),
    (0x0a01_0203, 8, 0x0a00_0000, 0x0a09_0909, true),
    (0x0a01_0203, 8, 0x0a00_0000, 0x0b00_0000, false),
    (0xffff_ffff, 32, 0xffff_ffff, 0xffff_ffff, true),
    (0xffff_ffff, 32, 0xffff_ffff, 0xffff_fffe, false),
];

fn assert_covering(rt: &impl Abort, covering: &Covering) {
    let (bits, len, kept, addr, is_covered) = *covering;
    let prefix = Ipv4::new(bits, len).expect(rt, "a length");
    let found = (prefix.bits(), prefix.len(), prefix.covers(addr));
    assert_at(rt, *covering, found, (kept, len, is_covered));
}

#[test]
fn prefixes_of_32_bits(rt: HostRuntime) {
    for covering in &COVERS {
        assert_covering(&rt, covering);
    }
    let are_refused = [
        Ipv4::new(0, 33).is_err(),
        Prefix::<4, 4>::new(0, 9).is_err(),
    ];
    assert_at(&rt, "33 of 32 bits, 9 of 8", are_refused, [true, true]);
}

#[test]
fn indices_and_hops(rt: HostRuntime) {
    let last_of_32 = Shape::<24, 8>::is_addr(0xffff_ffff);
    let last_of_8 = Shape::<4, 4>::is_addr(0xff);
    let past_8 = Shape::<4, 4>::is_addr(0x100);
    let are_addresses = [last_of_32, last_of_8, past_8];
    assert_at(&rt, "addresses", are_addresses, [true, true, false]);
    let addr = 0x0a01_0180;
    let first = Shape::<24, 8>::first_index(addr);
    let second = Shape::<24, 8>::second_index(addr);
    assert_at(&rt, "indices", [first, second], [0x0a_0101, 0x80]);
    let last = hop_number(Hop::new(16_777_215).ok());
    let past = hop_number(Hop::new(16_777_216).ok());
    assert_at(&rt, "last hop", (last, past), (Some(16_777_215), None));
}

#[test]
fn texts_of_the_faults(rt: HostRuntime) {
    let alloc = rt.alloc();
    assert_shown(
        &rt,
        alloc,
        &BadLength,
        "prefix length past the bits of an address",
    );
    assert_shown(&rt, alloc, &BadHop, "next hop past 24 bits");
}
