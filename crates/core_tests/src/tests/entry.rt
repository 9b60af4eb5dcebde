use super::asserts::assert_at;
use lpm_cells::Entry;
use std::process::Abort;
use test_support::hop;

// The word of a hop with this number and this depth.
fn assert_word(rt: &impl Abort, number: u32, depth: u32, word: u32) {
    let word = u64::from(word);
    let hop = hop(number);
    assert!(rt; depth <= 32);
    let entry = Entry::from_word::<24, 8>(word);
    let (found, back) = (
        Entry::of_word(word).hop(),
        Entry::Hop { hop, depth }.to_word(),
    );
    assert_at(rt, word, entry, Some(Entry::Hop { hop, depth }));
    assert_at(rt, word, (found, back), (Some(hop), word));
}

#[test]
fn words_of_the_layout(rt: HostRuntime) {
    let rows = [
        (1, 0, 0x0100_0001),
        (1, 8, 0x2100_0001),
        (2, 16, 0x4100_0002),
        (3, 25, 0x6500_0003),
        (16_777_215, 32, 0x81ff_ffff),
    ];
    for (number, depth, word) in rows {
        assert_word(&rt, number, depth, word);
    }
    let words = [Entry::Group(0).to_word(), Entry::Miss.to_word()];
    assert_at(&rt, "group 0, a miss", words, [0x0300_0000, 0]);
    let seven = Entry::from_word::<24, 8>(0x0300_0007);
    let miss = Entry::from_word::<24, 8>(0);
    let entries = [Some(Entry::Group(7)), Some(Entry::Miss)];
    assert_at(&rt, "group 7, a miss", [seven, miss], entries);
}

#[test]
fn words_of_no_entry(rt: HostRuntime) {
    let rows = [
        1,
        0x0200_0000,
        0x0700_0000,
        0x8500_0001,
        0x1_0000_0000,
        u64::MAX,
    ];
    for word in rows {
        assert_at(&rt, word, Entry::from_word::<24, 8>(word), None);
    }
    let narrow = Entry::from_word::<4, 4>(0x2500_0001);
    assert_at(&rt, "over 4 and 4 bits", narrow, None);
}
