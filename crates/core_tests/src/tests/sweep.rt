//! Swept words, and a rule list that is filled in bulk, beside a rule list into which the same rules
//! were put one by one.

ghost use Rattle.std.specs.Prelude.{◌≡◌, ◌+◌, ◌^◌, ◌<◌, []};
ghost use Rattle.lpm_bits.specs.Widths.{IsShape};
ghost use Rattle.lpm_rules.specs.RuleMap.{AreInOrder};

use super::asserts::assert_at;
use lpm_bits::{Hop, Shape};
use lpm_cells::Entry;
use lpm_rules::{Put, Rule, RuleFault, Rules, count_rules, place_of};
use lpm_sweep::{MOST_SORTED, Swept, in_order, sweep, sweep_into};
use std::alloc::Global;
use std::process::Abort;
use test_support::{Plain, are_in_order, drawn_rules, hop_number, probes, rule_of, rules_of};

// The list that these rules fill in bulk, over a table of so many at most.
fn filled<const FIRST: u32, const SECOND: u32>(
    rt: &impl Abort,
    alloc: Global,
    max: usize,
    sorted: &[Rule<FIRST, SECOND>],
) -> Rules<FIRST, SECOND>
    requires shape { IsShape FIRST SECOND }
    ensures ordered { AreInOrder sorted.now }
{
    assert!(rt; are_in_order(sorted));
    Rules::of_sorted(alloc, max, sorted).expect(rt, "memory")
}

// The words of these rules over so many groups. `None` where there are too few.
fn swept<const FIRST: u32, const SECOND: u32>(
    rt: &impl Abort,
    alloc: Global,
    sorted: &[Rule<FIRST, SECOND>],
    groups: usize,
) -> Option<Swept>
    requires { IsShape FIRST SECOND }
{
    assert!(rt; are_in_order(sorted) && groups <= 65536);
    sweep(alloc, sorted, groups).expect(rt, "memory")
}

// The next hop that the words have for an address, by one read or two.
fn read<const FIRST: u32, const SECOND: u32>(swept: &Swept, addr: u32) -> Option<Hop>
    requires shape { IsShape FIRST SECOND }
    requires addr { addr < 2 ^ (FIRST + SECOND) }
{
    let block = Shape::<FIRST, SECOND>::first_index(addr);
    let word = swept.first_words.get(block).copied()?;
    let group = match Entry::of_word(u64::from(word)) {
        Entry::Group(group) => (group as usize).wrapping_mul(1 << SECOND),
        entry => return entry.hop(),
    };
    let place = group.wrapping_add(Shape::<FIRST, SECOND>::second_index(addr));
    let word = swept.second_words.get(place).copied()?;
    Entry::of_word(u64::from(word)).hop()
}

// Rules in the order of their prefixes, and a rule list into which they were put one by one.
#[derive(Drop)]
struct Subject<const FIRST: u32, const SECOND: u32> {
    sorted: Vec<Rule<FIRST, SECOND>>,
    list: Rules<FIRST, SECOND>,
}

impl<const FIRST: u32, const SECOND: u32> Subject<FIRST, SECOND> {
    // The rules may stand in any order.
    fn new(rt: &impl Abort, alloc: Global, rules: &[Rule<FIRST, SECOND>]) -> Self
        requires { IsShape FIRST SECOND }
    {
        assert!(rt; rules.len() <= MOST_SORTED);
        let sorted = in_order(alloc, rules).expect(rt, "memory");
        let mut list = Rules::new(alloc, rules.len());
        for rule in rules {
            let _put = list.put(&rule.prefix, rule.hop).expect(rt, "room");
        }
        Subject { sorted, list }
    }

    // A list that is filled in bulk has the same rules of each length.
    fn assert_filled(&self, rt: &impl Abort, alloc: Global)
        requires { IsShape FIRST SECOND }
    {
        let filled = filled(rt, alloc, 0, &self.sorted);
        let found = (count_rules(&self.sorted), filled.len());
        let len = self.list.len();
        assert_at(rt, "prefixes, rules", found, (len, len));
        for len in 0..33 {
            let is_same = filled.of_length(len) == self.list.of_length(len);
            assert_at(rt, len, is_same, true);
        }
    }

    // The words are those of the rule list, at these addresses.
    fn assert_words(&self, rt: &impl Abort, swept: &Swept, addrs: &[u32])
        requires { IsShape FIRST SECOND }
    {
        let deep = self.list.deep_blocks();
        assert_at(rt, "groups", swept.blocks.len(), deep);
        for addr in addrs {
            if Shape::<FIRST, SECOND>::is_addr(*addr) {
                let hop = read::<FIRST, SECOND>(swept, *addr);
                assert_at(rt, *addr, hop, self.list.longest(*addr));
            }
        }
    }

    // With a group for each block that needs one the words are those of the rule list, and with one
    // fewer there are none.
    fn assert_swept(&self, rt: &impl Abort, alloc: Global)
        requires { IsShape FIRST SECOND }
    {
        let deep = self.list.deep_blocks();
        let words = swept(rt, alloc, &self.sorted, deep).expect(rt, "groups that suffice");
        let addrs = probes(alloc, 65_536, &self.sorted).expect(rt, "memory");
        self.assert_words(rt, &words, &addrs);
        if deep > 0 {
            let fewer = swept(rt, alloc, &self.sorted, deep - 1).is_none();
            assert_at(rt, "a group is lacking", fewer, true);
        }
    }
}

// Sorts and sweeps the rules.
fn assert_rules<const FIRST: u32, const SECOND: u32>(
    rt: &impl Abort,
    alloc: Global,
    rules: &[Rule<FIRST, SECOND>],
)
    requires { IsShape FIRST SECOND }
{
    let subject = Subject::new(rt, alloc, rules);
    subject.assert_filled(rt, alloc);
    subject.assert_swept(rt, alloc);
}

fn assert_plain(rt: &impl Abort, alloc: Global, plain: &[Plain]) {
    let rules = rules_of::<4, 4>(alloc, plain).expect(rt, "rules");
    assert_rules(rt, alloc, &rules);
}

// So many rules of any prefixes and lengths.
fn drawn<const FIRST: u32, const SECOND: u32>(
    rt: &impl Abort,
    alloc: Global,
    count: u32,
) -> Vec<Rule<FIRST, SECOND>>
    requires { IsShape FIRST SECOND }
{
    let varied = u32::MAX >> (32 - FIRST - SECOND);
    let drawing = (0, varied, FIRST + SECOND + 1);
    drawn_rules(alloc, &mut 1, drawing, count).expect(rt, "rules")
}

fn assert_drawn<const FIRST: u32, const SECOND: u32>(rt: &impl Abort, alloc: Global, count: u32)
    requires { IsShape FIRST SECOND }
{
    let rules: Vec<Rule<FIRST, SECOND>> = drawn(rt, alloc, count);
    assert_rules(rt, alloc, &rules);
}

// Rules of small tables.
static SMALL: [&[Plain]; 6] = [
    &[],
    &[(0, 0, 9)],
    // A rule longer than 4 bits, under a shorter one that comes later.
    &[(0x12, 8, 5), (0x10, 4, 7)],
    // Prefixes that come more than once.
    &[
        (0x10, 4, 7),
        (0x12, 8, 5),
        (0x10, 4, 3),
        (0x12, 8, 6),
        (0x10, 4, 4),
    ],
    // Rules with the same first address.
    &[(0, 8, 1), (0, 5, 2), (0, 4, 3), (0, 1, 4), (0, 0, 5)],
    // Rules with the same last address, and two blocks that need a group.
    &[
        (0, 0, 4),
        (0xff, 8, 2),
        (0xfe, 7, 3),
        (0xf0, 4, 1),
        (0x7f, 8, 6),
    ],
];

#[test]
fn small_tables(rt: HostRuntime) {
    for plain in SMALL {
        assert_plain(&rt, rt.alloc(), plain);
    }
}

#[test]
fn tables_of_drawn_rules(rt: HostRuntime) {
    let alloc = rt.alloc();
    assert_drawn::<4, 4>(&rt, alloc, 3000);
    assert_drawn::<8, 8>(&rt, alloc, 3000);
    assert_drawn::<24, 8>(&rt, alloc, 5000);
}

#[test]
fn filled_with_many(rt: HostRuntime) {
    let rules: Vec<Rule<24, 8>> = drawn(&rt, rt.alloc(), 100_000);
    Subject::new(&rt, rt.alloc(), &rules).assert_filled(&rt, rt.alloc());
}

// What comes of a rule that is put into the list.
fn put_rule(rt: &impl Abort, list: &mut Rules<4, 4>, plain: Plain) -> Result<Put, RuleFault> {
    let rule = rule_of::<4, 4>(plain).expect(rt, "a rule");
    list.put(&rule.prefix, rule.hop)
}

// The list has two rules where it has room for one, and takes no third.
fn assert_full(rt: &impl Abort, list: &mut Rules<4, 4>) {
    assert_at(rt, "rules", (list.len(), list.is_full()), (2, true));
    let hops = [list.longest(0x11), list.longest(0x12)];
    let numbers = [hop_number(hops[0]), hop_number(hops[1])];
    assert_at(rt, "hops", numbers, [Some(3), Some(5)]);
    let new = put_rule(rt, list, (0x20, 4, 9));
    let old = put_rule(rt, list, (0x10, 4, 9));
    assert_at(
        rt,
        "put",
        [new, old],
        [Err(RuleFault::TooManyRules), Ok(Put::Replaced)],
    );
}

// Of two rules of one prefix the last counts.
#[test]
fn filled_beyond_its_room(rt: HostRuntime) {
    let plain = [(0x10, 4, 7), (0x10, 4, 3), (0x12, 8, 5)];
    let rules = rules_of::<4, 4>(rt.alloc(), &plain).expect(&rt, "rules");
    let mut list = filled(&rt, rt.alloc(), 1, &rules);
    assert_full(&rt, &mut list);
}

#[test]
fn place_in_the_order(rt: HostRuntime) {
    let rule = rule_of::<4, 4>((0x12, 8, 5)).expect(&rt, "a rule");
    assert_at(&rt, "place", place_of(&rule), 0x12 * 64 + 8);
}

// The rules of the example on the crate's page.
static EXAMPLE: [Plain; 3] = [(0, 0, 7), (4, 2, 1), (6, 3, 2)];

// The words and the blocks of that example, in full.
static FIRSTS: [u32; 4] = [0x0100_0007, 0x0300_0000, 0x0100_0007, 0x0100_0007];

static SECONDS: [u32; 4] = [0x0900_0001, 0x0900_0001, 0x0d00_0002, 0x0d00_0002];

fn assert_example(rt: &impl Abort, firsts: &[u32], seconds: &[u32], blocks: &[usize]) {
    let wanted = (FIRSTS.as_slice(), SECONDS.as_slice(), [1usize].as_slice());
    assert_at(rt, "words", (firsts, seconds, blocks), wanted);
}

#[test]
fn words_of_an_example(rt: HostRuntime) {
    let rules = rules_of::<2, 2>(rt.alloc(), &EXAMPLE).expect(&rt, "rules");
    let words = swept(&rt, rt.alloc(), &rules, 1).expect(&rt, "groups that suffice");
    assert_example(&rt, &words.first_words, &words.second_words, &words.blocks);
}

// The lists of words are empty so far.
fn assert_put(
    rt: &impl Abort,
    alloc: Global,
    rules: &[Rule<2, 2>],
    firsts: &mut Vec<u32>,
    seconds: &mut Vec<u32>,
)
    requires firsts { firsts.old.items ≡ [] }
    requires seconds { seconds.old.items ≡ [] }
{
    assert!(rt; are_in_order(rules));
    let swept = sweep_into(alloc, rules, 1, firsts, seconds).expect(rt, "memory");
    let blocks = swept.expect(rt, "groups that suffice");
    assert_example(rt, firsts, seconds, &blocks);
}

#[test]
fn words_put_into_lists(rt: HostRuntime) {
    let rules = rules_of::<2, 2>(rt.alloc(), &EXAMPLE).expect(&rt, "rules");
    let mut firsts: Vec<u32> = Vec::new(rt.alloc());
    let mut seconds: Vec<u32> = Vec::new(rt.alloc());
    assert_put(&rt, rt.alloc(), &rules, &mut firsts, &mut seconds);
}
