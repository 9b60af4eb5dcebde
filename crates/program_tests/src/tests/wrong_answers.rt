//! The count of wrong answers: worked cases, a slow program beside it, and a long history.

ghost use Rattle.std.specs.Prelude.{◌^◌, ◌<◌, ◌≤◌, All, length};

use super::asserts::assert_at;
use audit::{Past, wrong};
use lpm_bits::{Hop, Prefix};
use lpm_rules::{Answer, Change};
use std::alloc::Global;
use std::process::Abort;
use std::thread::Threads;
use test_support::{Edit, draw, hop};

type History = Vec<Change<24, 8>>;

type Answers = Vec<(u32, Answer)>;

// 10.0.0.1.
const ADDR: u32 = 0x0a00_0001;

// The answer with the next hop of this number, or none for 0, of a version from `lo` to `hi`.
fn answer(number: u32, lo: u64, hi: u64) -> Answer {
    if number == 0 {
        return Answer { hop: None, lo, hi };
    }
    let hop = Some(hop(number));
    Answer { hop, lo, hi }
}

// The answers of these numbers and spans for one address.
fn answers_for(rt: &impl Abort, alloc: Global, addr: u32, rows: &[(u32, u64, u64)]) -> Answers {
    let mut answers = Vec::new(alloc);
    for (number, lo, hi) in rows {
        let answer = answer(*number, *lo, *hi);
        answers.push((addr, answer)).expect(rt, "memory");
    }
    answers
}

// An address has 32 bits.
fn read_address(addr: u32)
    ensures { addr < 2 ^ 32 }
{
    let _ = addr;
}

// Each address has 32 bits: a proof knows it of those that were read.
fn read_addresses(answers: &[(u32, Answer)])
    ensures { All (λ x. x.0 < 2 ^ 32) answers.now }
{
    for x in answers {
        read_address(x.0);
    }
}

fn count(
    rt: &(impl Abort + Threads + Sync),
    alloc: Global,
    history: &[Change<24, 8>],
    answers: &[(u32, Answer)],
) -> u64 {
    read_addresses(answers);
    wrong(rt, alloc, history, answers).expect(rt, "memory")
}

// The answers count their versions from version `start` on.
fn count_from(
    rt: &(impl Abort + Threads + Sync),
    alloc: Global,
    past: &Past<24, 8>,
    start: usize,
    answers: &[(u32, Answer)],
) -> u64
    requires { start ≤ length past.now }
{
    read_addresses(answers);
    past.count_wrong(rt, alloc, start, answers)
        .expect(rt, "memory")
}

fn changed(rt: &impl Abort, edit: Edit) -> Change<24, 8> {
    edit.change().expect(rt, "a change")
}

fn history_of(rt: &impl Abort, alloc: Global, edits: &[Edit]) -> History {
    let mut history = Vec::new(alloc);
    for edit in edits {
        history.push(changed(rt, *edit)).expect(rt, "memory");
    }
    history
}

// A history, answers for an address, and how many of these are wrong.
type Counted = (&'static [Edit], u32, &'static [(u32, u64, u64)], u64);

const OVER_A_FLUSH: &[Edit] = &[
    Edit::Add(0x0a00_0000, 8, 1),
    Edit::Flush,
    Edit::Add(0x0a00_0000, 8, 2),
];

static COUNTED: [Counted; 7] = [
    // The case audit-count.
    (
        &[Edit::Add(0x0a00_0000, 8, 1), Edit::Add(0x0a00_0000, 8, 2)],
        ADDR,
        &[(1, 1, 1), (1, 2, 2), (0, 0, 1), (2, 0, 5), (3, 0, 2)],
        2,
    ),
    // A flush is one version. The third row is wrong.
    (
        OVER_A_FLUSH,
        ADDR,
        &[(1, 1, 1), (0, 2, 2), (1, 2, 3), (2, 3, 3), (0, 0, 0)],
        1,
    ),
    // The first begins after the last version, and the second ends before it begins.
    (OVER_A_FLUSH, ADDR, &[(0, 4, 9), (0, 3, 1)], 2),
    // 10.0.0.0/8 stands again behind 10.1.0.0/16 once that is deleted. The second and the fourth row are
    // wrong.
    (
        &[
            Edit::Add(0x0a00_0000, 8, 1),
            Edit::Add(0x0a01_0000, 16, 2),
            Edit::Delete(0x0a01_0000, 16),
        ],
        0x0a01_0001,
        &[(1, 3, 3), (2, 3, 3), (2, 2, 2), (0, 3, 3), (0, 0, 3)],
        2,
    ),
    // Reclaim and Synchronize are versions too, and leave the rules as they are. The last two rows are
    // wrong.
    (
        &[
            Edit::Add(0, 0, 7),
            Edit::Reclaim(1),
            Edit::Synchronize,
            Edit::Add(ADDR, 32, 8),
        ],
        ADDR,
        &[(7, 3, 3), (7, 3, 4), (8, 1, 4), (8, 1, 3), (7, 4, 4)],
        2,
    ),
    // No history has no rules.
    (&[], ADDR, &[(0, 0, 0), (0, 0, 9), (1, 0, 9), (0, 1, 9)], 2),
    (&[], ADDR, &[], 0),
];

fn assert_counted(
    rt: &(impl Abort + Threads + Sync),
    alloc: Global,
    row: usize,
    counted: &Counted,
) {
    let (edits, addr, rows, wanted) = *counted;
    let history = history_of(rt, alloc, edits);
    let answers = answers_for(rt, alloc, addr, rows);
    assert_at(rt, row, count(rt, alloc, &history, &answers), wanted);
}

#[test]
fn counts_of_worked_histories(rt: HostRuntime) {
    for (row, counted) in COUNTED.iter().enumerate() {
        assert_counted(&rt, rt.alloc(), row, counted);
    }
}

// A drawn number below the bound.
fn below(seed: &mut u32, bound: u32) -> u32 {
    draw(seed) % bound.max(1)
}

// A change of one of a few prefixes, which lie in one another; a flush is rare.
fn draw_change(rt: &impl Abort, seed: &mut u32) -> Change<24, 8> {
    let lengths = [0, 8, 16, 24, 25, 32];
    let len = lengths[below(seed, 6) as usize % 6];
    let bits = 0x0a01_0100 | below(seed, 2).wrapping_mul(0x81);
    let edit = match below(seed, 12) {
        0 => Edit::Flush,
        1 => Edit::Synchronize,
        2 => Edit::Reclaim(1),
        3 | 4 | 5 | 6 => Edit::Delete(bits, len),
        _ => Edit::Add(bits, len, below(seed, 3).saturating_add(1)),
    };
    changed(rt, edit)
}

// A slow program: the rules of a version as a plain list, made anew for each question.
fn rules_at(
    rt: &impl Abort,
    alloc: Global,
    versions: &[Change<24, 8>],
) -> Vec<(Prefix<24, 8>, Hop)> {
    let mut rules: Vec<(Prefix<24, 8>, Hop)> = Vec::new(alloc);
    for change in versions {
        match change {
            Change::Add(prefix, hop) => {
                rules.retain(|rule| rule.0 != *prefix);
                rules.push((*prefix, *hop)).expect(rt, "memory");
            }
            Change::Delete(prefix) => rules.retain(|rule| rule.0 != *prefix),
            Change::Flush => rules.clear(),
            Change::Reclaim(_) | Change::Synchronize => {}
        }
    }
    rules
}

// The next hop of the longest of the rules that cover the address.
fn longest(rules: &[(Prefix<24, 8>, Hop)], addr: u32) -> Option<Hop> {
    let covering = rules.iter().filter(|rule| rule.0.covers(addr));
    covering.max_by_key(|rule| rule.0.len()).map(|rule| rule.1)
}

// Whether a version explains the answer, by the slow program.
fn is_explained(
    rt: &impl Abort,
    alloc: Global,
    history: &[Change<24, 8>],
    addr: u32,
    answer: &Answer,
) -> bool {
    for version in 0..=history.len() {
        if answer.lo <= version as u64 && version as u64 <= answer.hi {
            let rules = rules_at(rt, alloc, &history[..version]);
            if longest(&rules, addr) == answer.hop {
                return true;
            }
        }
    }
    false
}

fn count_slowly(
    rt: &impl Abort,
    alloc: Global,
    history: &[Change<24, 8>],
    answers: &[(u32, Answer)],
) -> u64 {
    let mut count = 0_u64;
    for (addr, answer) in answers {
        if !is_explained(rt, alloc, history, *addr, answer) {
            count = count.saturating_add(1);
        }
    }
    count
}

fn draw_history(rt: &impl Abort, alloc: Global, seed: &mut u32) -> History {
    let mut history = Vec::new(alloc);
    for _ in 0..60 {
        history.push(draw_change(rt, seed)).expect(rt, "memory");
    }
    history
}

// Answers with each `lo`, and spans of up to three versions, which may end before they begin.
fn draw_answers(rt: &impl Abort, alloc: Global, seed: &mut u32) -> Answers {
    let mut answers = Vec::new(alloc);
    for i in 0..400_u64 {
        let lo = i % 63;
        let hi = lo
            .saturating_add(u64::from(below(seed, 5)))
            .saturating_sub(1);
        let addr = 0x0a01_0100 | below(seed, 2).wrapping_mul(0x81);
        let answer = answer(below(seed, 4), lo, hi);
        answers.push((addr, answer)).expect(rt, "memory");
    }
    answers
}

#[test]
fn counts_as_a_slow_program(rt: HostRuntime) {
    let mut seed = 1;
    for _ in 0..3 {
        let history = draw_history(&rt, rt.alloc(), &mut seed);
        let answers = draw_answers(&rt, rt.alloc(), &mut seed);
        let slow = count_slowly(&rt, rt.alloc(), &history, &answers);
        let found = count(&rt, rt.alloc(), &history, &answers);
        assert_at(&rt, "wrong", (found, 0 < slow && slow < 400), (slow, true));
    }
}

// How many changes, and prefixes: change i gives prefix `i % PREFIXES` the next hop i + 1.
const CHANGES: u32 = 2_000;

const PREFIXES: u32 = 500;

// The first address of the prefix of this number, of 24 bits.
fn block(number: u32) -> u32 {
    0x0a00_0000 | (number % PREFIXES) << 8
}

fn long_history(rt: &impl Abort, alloc: Global) -> History {
    let mut history = Vec::new(alloc);
    for i in 0..CHANGES {
        let edit = Edit::Add(block(i), 24, i.saturating_add(1));
        history.push(changed(rt, edit)).expect(rt, "memory");
    }
    history
}

// For each change the answer that it gives just after it, and one more for every second change: the
// same answer at a span that ends before that change.
fn long_answers(rt: &impl Abort, alloc: Global) -> Answers {
    let mut answers = Vec::new(alloc);
    for i in 0..CHANGES {
        let number = i.saturating_add(1);
        let version = u64::from(number);
        let after = (block(i) | 255, answer(number, version, version));
        answers.push(after).expect(rt, "memory");
        if i % 2 == 1 {
            let before = (block(i), answer(number, 0, u64::from(i)));
            answers.push(before).expect(rt, "memory");
        }
    }
    answers
}

// Version 2, with the next hop 2, is version 0 of these answers, and the history ends with their version 1. The
// first and the third are right.
#[test]
fn counts_from_a_later_version(rt: HostRuntime) {
    let edits = [
        Edit::Add(0x0a00_0000, 8, 1),
        Edit::Add(0x0a00_0000, 8, 2),
        Edit::Add(0x0a00_0000, 8, 3),
    ];
    let history = history_of(&rt, rt.alloc(), &edits);
    assert_eq!(&rt; history.len(), 3);
    let rows = [(2, 0, 0), (1, 0, 1), (3, 1, 5), (3, 0, 0), (3, 2, 9)];
    let answers = answers_for(&rt, rt.alloc(), ADDR, &rows);
    let past = Past::new(rt.alloc(), &history).expect(&rt, "memory");
    let found = count_from(&rt, rt.alloc(), &past, 2, &answers);
    assert_at(&rt, "wrong", found, 3);
}

// One index serves both halves of the answers.
#[test]
fn counts_over_a_long_history(rt: HostRuntime) {
    let history = long_history(&rt, rt.alloc());
    let answers = long_answers(&rt, rt.alloc());
    assert_eq!(&rt; answers.len(), 3_000);
    let all = count(&rt, rt.alloc(), &history, &answers);
    assert_at(&rt, "all", all, 1_000);
    let past = Past::new(rt.alloc(), &history).expect(&rt, "memory");
    let (front, back) = answers.split_at(1_500);
    let first = count_from(&rt, rt.alloc(), &past, 0, front);
    let second = count_from(&rt, rt.alloc(), &past, 0, back);
    assert_at(&rt, "halves", (first, second), (500, 500));
}
