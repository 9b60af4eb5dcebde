//! A file that is read, and a text that is written, in pieces on threads: as one thread does it.

use super::asserts::assert_at;
use super::known_files::Paths;
use lpm_bits::Hop;
use lpm_files::{Failure, answers_text_on, read_addresses_on, read_routes_on};
use route_text::{Fault, FaultKind, Route, answers_text, read_addresses, read_routes};
use std::alloc::Global;
use std::process::Abort;
use std::thread::Threads;
use test_support::hop;

// How many lines the file has: they are over 400 KiB.
const LINES: u32 = 40_000;

// On how many threads it is read.
const THREADS: [usize; 6] = [0, 1, 2, 3, 8, 1_000_000];

// The numbers of the lines that are bad, from 0 on: one of the first, of the middle and of the last.
const BAD: [u32; 3] = [1, 20_000, 39_998];

// A line for each address, with this text after it. Each third ends in CR LF, each seventh is a comment,
// and the one of this number is bad.
fn file(rt: &impl Abort, alloc: Global, after: &str, bad: u32) -> String {
    let mut text = String::new(alloc);
    for number in 0..LINES {
        let mark = if number == bad {
            "x"
        } else if number % 7 == 0 {
            "#"
        } else {
            ""
        };
        let end = if number % 3 == 0 { "\r\n" } else { "\n" };
        let (third, last) = (number / 256, number % 256);
        let line = format!(in alloc; "{mark}10.0.{third}.{last}{after}{end}").expect(rt, "memory");
        text.push_str(&line).expect(rt, "memory");
    }
    text
}

// What stands after the address of each route.
const ROUTE: &str = "/32 7";

// What a file has.
#[derive(Clone, Copy)]
enum Lines {
    Addresses,
    Routes,
}

impl Lines {
    fn after(self) -> &'static str {
        match self {
            Lines::Addresses => "",
            Lines::Routes => ROUTE,
        }
    }

    // Whether so many threads read the list that one reads.
    fn is_same<R: Threads + Abort + Sync>(
        self,
        rt: &R,
        alloc: Global,
        text: &str,
        threads: usize,
    ) -> bool {
        let files = Paths { alloc };
        match self {
            Lines::Addresses => {
                let list = read_addresses(alloc, text.as_bytes()).expect(rt, "a list");
                let found = read_addresses_on(rt, alloc, &files, text, threads);
                found.expect(rt, "a list").as_slice() == list.as_slice()
            }
            Lines::Routes => {
                let list = read_routes(alloc, text.as_bytes()).expect(rt, "a list");
                let found = read_routes_on(rt, alloc, &files, text, threads);
                found.expect(rt, "a list").as_slice() == list.as_slice()
            }
        }
    }

    fn failure<'a, R: Threads + Abort + Sync>(
        self,
        rt: &R,
        alloc: Global,
        text: &'a str,
        threads: usize,
    ) -> Option<Failure<'a>> {
        let files = Paths { alloc };
        match self {
            Lines::Addresses => read_addresses_on(rt, alloc, &files, text, threads).err(),
            Lines::Routes => read_routes_on(rt, alloc, &files, text, threads).err(),
        }
    }
}

fn assert_read<R: Threads + Abort + Sync>(rt: &R, alloc: Global, lines: Lines) {
    let text = file(rt, alloc, lines.after(), LINES);
    for threads in THREADS {
        assert_at(rt, threads, lines.is_same(rt, alloc, &text, threads), true);
    }
}

#[test]
fn pieces_of_a_file(rt: HostRuntime) {
    let files = Paths { alloc: rt.alloc() };
    let list = read_addresses_on(&rt, rt.alloc(), &files, "10.0.0.1", 8);
    let is_one = list.expect(&rt, "a list").as_slice() == [0x0a00_0001].as_slice();
    assert_at(&rt, "one address", is_one, true);
    assert_read(&rt, rt.alloc(), Lines::Addresses);
}

#[test]
fn pieces_of_routes(rt: HostRuntime) {
    let files = Paths { alloc: rt.alloc() };
    let text = file(&rt, rt.alloc(), ROUTE, LINES);
    let list = read_routes_on(&rt, rt.alloc(), &files, &text, 8).expect(&rt, "a list");
    let last = list.last().map(|route| route.line);
    assert_at(&rt, "last line", last, Some(40_000));
    assert_read(&rt, rt.alloc(), Lines::Routes);
}

// Whatever the number of threads, the fault is that of the bad address.
fn assert_fault<R: Threads + Abort + Sync>(
    rt: &R,
    alloc: Global,
    lines: Lines,
    text: &str,
    line: usize,
) {
    let fault = Fault {
        line,
        kind: FaultKind::Address,
    };
    for threads in THREADS {
        let found = lines.failure(rt, alloc, text, threads);
        let is_found = found == Some(Failure::Bad { path: text, fault });
        assert_at(rt, (line, threads), is_found, true);
    }
}

fn assert_faults<R: Threads + Abort + Sync>(rt: &R, alloc: Global, lines: Lines) {
    for bad in BAD {
        let text = file(rt, alloc, lines.after(), bad);
        assert_fault(rt, alloc, lines, &text, bad as usize + 1);
    }
}

#[test]
fn fault_in_a_piece(rt: HostRuntime) {
    assert_faults(&rt, rt.alloc(), Lines::Addresses);
}

#[test]
fn fault_in_a_piece_of_routes(rt: HostRuntime) {
    assert_faults(&rt, rt.alloc(), Lines::Routes);
}

// The next hop of each address: its number, or none for each fifth.
fn hops(rt: &impl Abort, alloc: Global) -> Vec<Option<Hop>> {
    let mut hops = Vec::new(alloc);
    for number in 0..LINES {
        let found = if number % 5 == 0 {
            None
        } else {
            Some(hop(number))
        };
        hops.push(found).expect(rt, "memory");
    }
    hops
}

fn addresses(rt: &impl Abort, alloc: Global) -> Vec<u32> {
    let mut addrs = Vec::new(alloc);
    for number in 0..LINES {
        addrs.push(number.wrapping_mul(65_537)).expect(rt, "memory");
    }
    addrs
}

// The text that any number of threads writes is that of one.
fn assert_texts<R: Threads + Abort + Sync>(
    rt: &R,
    alloc: Global,
    addrs: &[u32],
    hops: &[Option<Hop>],
) {
    assert!(rt; hops.len() == addrs.len());
    let text = answers_text(alloc, addrs, hops).expect(rt, "memory");
    for threads in THREADS {
        let found = answers_text_on(rt, alloc, addrs, hops, threads).expect(rt, "memory");
        assert_at(rt, threads, found.as_slice() == text.as_slice(), true);
    }
}

#[test]
fn pieces_of_a_text(rt: HostRuntime) {
    let hops = hops(&rt, rt.alloc());
    assert_texts(&rt, rt.alloc(), &addresses(&rt, rt.alloc()), &hops);
}
