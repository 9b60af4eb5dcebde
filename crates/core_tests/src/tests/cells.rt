ghost use Rattle.std.specs.Prelude.{◌<◌, length};

use super::asserts::assert_at;
use lpm_bits::Hop;
use lpm_cells::{Cells, Entry, PlainCells};
use lpm_rules::Rule;
use lpm_sweep::sweep;
use std::alloc::Global;
use std::process::Abort;
use test_support::{are_in_order, rules_of};

// Stores and loads through the trait alone.
fn link<C: Cells>(cells: &mut C, i: usize, word: u64) -> u64
    requires in_range { i < length (C.words cells.old).firsts }
    requires allowed { C.may_set_first cells.old i word }
    ensures { C.sets_first cells.old i word cells.new }
{
    let old = cells.first(i);
    cells.set_first(i, word);
    old
}

fn fill<C: Cells>(cells: &mut C, i: usize, word: u64) -> u64
    requires in_range { i < length (C.words cells.old).seconds }
    requires allowed { C.may_set_second cells.old i word }
    ensures { C.sets_second cells.old i word cells.new }
{
    let old = cells.second(i);
    cells.set_second(i, word);
    old
}

fn assert_misses(rt: &impl Abort, cells: &PlainCells<4, 4>) {
    for addr in 0..256u32 {
        assert_at(rt, addr, cells.read(addr), None);
    }
}

// The hop of an address where hop 7 is that of block 2, and hop 5 is in the group of block 1.
fn hop_plainly(addr: u32) -> Option<Hop> {
    match addr {
        0x12 => Hop::new(5).ok(),
        0x20..0x30 => Hop::new(7).ok(),
        _ => None,
    }
}

fn assert_hops(rt: &impl Abort, cells: &PlainCells<4, 4>) {
    for addr in 0..256u32 {
        assert_at(rt, addr, cells.read(addr), hop_plainly(addr));
    }
}

#[test]
#[tactic(auto, unfolding(lpm_cells::specs::Words::entry_in))]
fn reads_one_word_or_two(rt: HostRuntime) {
    let mut cells = PlainCells::<4, 4>::new(rt.alloc(), 1).expect(&rt, "memory");
    assert_at(&rt, "second words", cells.seconds(), 16);
    assert_misses(&rt, &cells);
    // Hop 5, the link of its group, and hop 7.
    let before = [
        fill(&mut cells, 2, 0x2100_0005),
        link(&mut cells, 1, 0x0300_0000),
        link(&mut cells, 2, 0x1100_0007),
    ];
    assert_at(&rt, "words before", before, [0, 0, 0]);
    assert_hops(&rt, &cells);
    let group = Entry::of_word(cells.first(1));
    let five = Entry::of_word(cells.second(2)).hop();
    assert_at(
        &rt,
        "words",
        (group, five),
        (Entry::Group(0), Hop::new(5).ok()),
    );
}

fn swept_cells(rt: &impl Abort, alloc: Global, rules: &[Rule<4, 4>]) -> PlainCells<4, 4> {
    assert!(rt; are_in_order(rules));
    let words = sweep(alloc, rules, 1).expect(rt, "memory");
    let swept = words.expect(rt, "groups that suffice");
    PlainCells::of_words(swept.first_words, swept.second_words)
}

// The same words as the test above stores, made by a sweep.
#[test]
fn takes_words_made_elsewhere(rt: HostRuntime) {
    let rules = rules_of::<4, 4>(rt.alloc(), &[(0x12, 8, 5), (0x20, 4, 7)]).expect(&rt, "rules");
    let cells = swept_cells(&rt, rt.alloc(), &rules);
    assert_at(&rt, "second words", cells.seconds(), 16);
    assert_hops(&rt, &cells);
}
