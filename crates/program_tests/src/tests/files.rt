//! The tests of `route_text`: files of routes, addresses and updates, and the texts of what
//! comes out.

use super::asserts::{assert_at, assert_shown};
use defer_queue::Reclaimed;
use fib_model::Outcome;
use lpm_bits::{BadHop, Hop, Prefix};
use lpm_limits::{Busy, Refusal};
use lpm_rules::Put;
use route_text::{
    Fault, FaultKind, Order, ReadError, Route, answers_text, outcomes_text, read_addresses,
    read_routes, read_updates, updates_text,
};
use std::alloc::Global;
use std::process::Abort;
use std::test::Fail;

const KINDS: [(FaultKind, &str); 8] = [
    (FaultKind::Word, "7: bad word"),
    (FaultKind::Fields, "7: bad fields"),
    (FaultKind::Address, "7: bad address"),
    (FaultKind::Length, "7: bad length"),
    (FaultKind::Hop, "7: bad hop"),
    (FaultKind::Count, "7: bad count"),
    (FaultKind::Worker, "7: bad worker"),
    (FaultKind::Header, "7: bad header"),
];

#[test]
fn texts_of_faults(rt: HostRuntime) {
    for (kind, text) in KINDS {
        let fault = ReadError::Fault(Fault { line: 7, kind });
        assert_shown(&rt, rt.alloc(), &fault, text);
    }
    assert_shown(&rt, rt.alloc(), &ReadError::Memory, "out of memory");
}

/// A file of one route: its text, and the route's line, bits, length and hop.
type OneRoute = (&'static str, usize, u32, u32, u32);

static ONE_ROUTE: [OneRoute; 5] = [
    ("10.1.2.3/8 5", 1, 0x0a00_0000, 8, 5),
    ("0.0.0.0/0 1", 1, 0, 0, 1),
    ("# c\r\n10.0.0.0/8 1\r\n", 2, 0x0a00_0000, 8, 1),
    ("10.0.0.0/8 1", 1, 0x0a00_0000, 8, 1),
    (
        "\n \t\n\t192.168.255.1/24\t \t16777215 \n",
        3,
        0xc0a8_ff00,
        24,
        16_777_215,
    ),
];

fn assert_route(rt: &impl Abort, alloc: Global, row: &OneRoute) -> Result<(), Fail> {
    let (file, line, bits, len, hop) = *row;
    let prefix = Prefix::new(bits, len)?;
    let hop = Hop::new(hop)?;
    let routes = read_routes(alloc, file.as_bytes())?;
    assert_at(rt, file, routes.as_slice(), &[Route { line, prefix, hop }]);
    Ok(())
}

#[test]
fn routes_of_the_cases(rt: HostRuntime) -> Result<(), Fail> {
    for row in &ONE_ROUTE {
        assert_route(&rt, rt.alloc(), row)?;
    }
    Ok(())
}

/// What a line of routes says: nothing, or the bits, the length and the hop of its route.
type Said = Result<Option<(u32, u32, u32)>, FaultKind>;

fn slow_number(text: &str, max: u32) -> Option<u32> {
    if text.starts_with('+') || (text.len() > 1 && text.starts_with('0')) {
        return None;
    }
    text.parse::<u32>().ok().filter(|number| *number <= max)
}

fn slow_address(text: &str) -> Option<u32> {
    let mut addr = 0;
    for part in text.split('.') {
        addr = (addr << 8) | slow_number(part, 255)?;
    }
    if text.split('.').count() == 4 {
        Some(addr)
    } else {
        None
    }
}

fn slow_prefix(text: &str) -> Result<(u32, u32), FaultKind> {
    let (front, back) = text.split_once('/').unwrap_or((text, ""));
    let addr = slow_address(front).ok_or(FaultKind::Address)?;
    let len = slow_number(back, 32).ok_or(FaultKind::Length)?;
    let host = u32::MAX.checked_shr(len).unwrap_or(0);
    Ok((addr & !host, len))
}

/// A line of routes, read by splitting it.
fn slow_route(alloc: Global, line: &str) -> Result<Said, Fail> {
    let mut fields = Vec::new(alloc);
    for field in line.split([' ', '\t']) {
        if !field.is_empty() {
            fields.push(field)?;
        }
    }
    if fields.is_empty() || fields[0].starts_with('#') {
        return Ok(Ok(None));
    }
    if fields.len() != 2 {
        return Ok(Err(FaultKind::Fields));
    }
    let (bits, len) = match slow_prefix(fields[0]) {
        Ok(prefix) => prefix,
        Err(kind) => return Ok(Err(kind)),
    };
    match slow_number(fields[1], 16_777_215) {
        Some(hop) => Ok(Ok(Some((bits, len, hop)))),
        None => Ok(Err(FaultKind::Hop)),
    }
}

fn said(read: Result<Vec<Route>, ReadError>) -> Result<Said, Fail> {
    match read {
        Ok(routes) => Ok(Ok(
            routes.as_slice().first().map(|route| {
                let prefix = route.prefix;
                (prefix.bits(), prefix.len(), route.hop.number())
            }),
        )),
        Err(ReadError::Fault(fault)) => Ok(Err(fault.kind)),
        Err(ReadError::Memory) => Err(Fail::from(ReadError::Memory)),
    }
}

/// Lines of route files, good ones and bad ones.
const LINES: [&str; 28] = [
    "10.1.2.3/8 5",
    "255.255.255.255/24 16777215",
    "1.2.3.4/0 0",
    " \t 1.2.3.4/24\t\t7 ",
    "#10.0.0.0/8 1",
    "  # 10.0.0.0/8 1",
    "10.0.0.0/8 #",
    "10.0.0.0/8",
    "10.0.0.0/8 1 2",
    "10.0.0.0/24x 1",
    "10.0.0.0/+8 1",
    "10.0.0.0/ 1",
    "/8 1",
    "10.0.0/8 1",
    "10.0.0.0.0/8 1",
    "10.0.0.256/8 1",
    "10..0.0/8 1",
    ".10.0.0.0/8 1",
    "10.0.0.0./8 1",
    "1a.0.0.0/8 1",
    "10.0.0.0/8 01",
    "10.0.0.0/8 00",
    "10.0.0.0/8 -1",
    "10.0.0.0/8 1\r",
    "10.0.0.0/8\r 1",
    "99999999999999999999.0.0.0/8 1",
    "10.0.0.0/99999999999999999999 1",
    "10.0.0.0/8 99999999999999999999",
];

#[test]
fn lines_by_splitting(rt: HostRuntime) -> Result<(), Fail> {
    for line in LINES {
        let fast = said(read_routes(rt.alloc(), line.as_bytes()))?;
        assert_at(&rt, line, fast, slow_route(rt.alloc(), line)?);
    }
    Ok(())
}

const LOOKED_UP: &[u8] =
    b"10.1.1.127\n10.1.1.128\n10.2.0.0\n11.0.0.0\n# 1.2.3.4\n0.0.0.0\r\n255.255.255.255";

const ANSWERS: &str =
    "10.1.1.127 2\n10.1.1.128 3\n10.2.0.0 1\n11.0.0.0 -\n0.0.0.0 -\n255.255.255.255 16777215\n";

fn hops_of_answers() -> Result<[Option<Hop>; 6], BadHop> {
    let (one, two, three) = (Hop::new(1)?, Hop::new(2)?, Hop::new(3)?);
    let last = Hop::new(16_777_215)?;
    Ok([Some(two), Some(three), Some(one), None, None, Some(last)])
}

#[test]
fn answers_of_three_routes(rt: HostRuntime) -> Result<(), Fail> {
    let addrs = read_addresses(rt.alloc(), LOOKED_UP)?;
    let hops = hops_of_answers()?;
    assert!(rt; addrs.len() == hops.len());
    let text = answers_text(rt.alloc(), &addrs, &hops)?;
    assert_at(&rt, "answers", text.as_slice(), ANSWERS.as_bytes());
    assert!(rt; answers_text(rt.alloc(), &[], &[])?.is_empty());
    Ok(())
}

/// The updates of this file, one of each kind, as they stand there.
fn updates_of_each_kind() -> Result<[Order; 7], Fail> {
    let prefix = Prefix::new(0x0a00_0000, 8)?;
    Ok([
        Order::Add(prefix, Hop::new(5)?),
        Order::Del(prefix),
        Order::Flush,
        Order::Reclaim(65_536),
        Order::Online(0),
        Order::Offline(4_294_967_295),
        Order::Quiescent(7),
    ])
}

const EACH_KIND: &str =
    "lpm-updates 2\nadd 10.0.0.0/8 5\ndel 10.0.0.0/8\nflush\nreclaim 65536\nonline 0\n\
        offline 4294967295\nquiescent 7\n";

#[test]
fn updates_are_read(rt: HostRuntime) -> Result<(), Fail> {
    let file =
        "lpm-updates 2\r\n# c\n\nadd 10.1.2.3/8 5\r\n del\t10.255.0.0/8 \nflush\nreclaim 65536\n\
            online 0\n \noffline 4294967295\nquiescent 7";
    let orders = read_updates(rt.alloc(), file.as_bytes())?;
    assert_at(&rt, "updates", orders.as_slice(), &updates_of_each_kind()?);
    Ok(())
}

#[test]
fn updates_are_written(rt: HostRuntime) -> Result<(), Fail> {
    let orders = read_updates(rt.alloc(), EACH_KIND.as_bytes())?;
    let text = updates_text(rt.alloc(), &orders)?;
    assert_at(&rt, "updates", orders.len(), 7);
    assert_at(&rt, "text", text.as_slice(), EACH_KIND.as_bytes());
    Ok(())
}

const LINES_OF_OUTCOMES: &str = "added\nreplaced\nunchanged\ndeleted 7\nflushed 3\nreclaimed 1\n\
        reclaimed 0 stopped worker 0 counter 1\nok\nrefused 4 NoSuchRule\nrefused 7 NoGroups\n\
        refused 7 NoGroups worker 2 counter 17\nrefused 10 NoSuchWorker\nrefused 13 NotOnline\n\
        refused 14 AlreadyOnline\n";

fn busy(worker: usize, counter: u64) -> Option<Busy> {
    Some(Busy { worker, counter })
}

#[test]
fn outcomes_are_written(rt: HostRuntime) -> Result<(), Fail> {
    let outcomes = [
        Outcome::Put(Put::Added),
        Outcome::Put(Put::Replaced),
        Outcome::Put(Put::Unchanged),
        Outcome::Deleted(Hop::new(7)?),
        Outcome::Flushed(3),
        Outcome::Reclaimed(Reclaimed {
            freed: 1,
            stopped: None,
        }),
        Outcome::Reclaimed(Reclaimed {
            freed: 0,
            stopped: busy(0, 1),
        }),
        Outcome::Told,
        Outcome::Refused(Refusal::NoSuchRule),
        Outcome::Refused(Refusal::NoGroups { oldest: None }),
        Outcome::Refused(Refusal::NoGroups {
            oldest: busy(2, 17),
        }),
        Outcome::Refused(Refusal::NoSuchWorker),
        Outcome::Refused(Refusal::NotOnline),
        Outcome::Refused(Refusal::AlreadyOnline),
    ];
    let text = outcomes_text(rt.alloc(), &outcomes)?;
    assert_at(&rt, "text", text.as_slice(), LINES_OF_OUTCOMES.as_bytes());
    Ok(())
}
