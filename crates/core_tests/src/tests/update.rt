ghost use Rattle.std.specs.Prelude.{◌≡◌, ℕ, ◌<◌, ◌↔◌, IsSome, IsTrue};
ghost use Rattle.lpm_bits.specs.Widths.{IsShape};
ghost use Rattle.lpm_rules.specs.RuleMap.{RuleMap};
ghost use Rattle.lpm_update.specs.BlockGroups.{IsTable, IsLinkTo};
ghost use Rattle.lpm_update.specs.Represents.{Represents, IsBegun, TurnsInto, AddFits, LastFits};

use super::asserts::assert_at;
use lpm_bits::{Hop, Prefix, Shape};
use lpm_cells::{Cells, Entry, PlainCells};
use lpm_rules::Rules;
use lpm_update::{Did, Update};
use std::alloc::{AllocError, Global};
use std::marker::Model;
use std::process::Abort;
use test_support::words::{FIVE, GROUP, SEVEN};
use test_support::{
    COLLAPSE, COVER, Change, DEFAULT_UNDER_A_GROUP, FILLED, RuleEdit, UNDER_A_GROUP,
};

// Makes all stores of a change, and notes what each step did.
fn record(rt: &impl Abort, made: &mut Vec<Did>, update: Update, cells: &mut PlainCells<4, 4>)
    requires table { IsTable 4 4 cells.old }
    requires begun { IsBegun 4 4 update cells.old }
    ensures represents { (R R' : RuleMap) → Represents 4 4 R cells.old → TurnsInto 4 4 update R R'
        → Represents 4 4 R' cells.new }
{
    let mut update = update;
    let _words = cells.seconds();
    made.clear();
    loop {
        match update.step::<4, 4, PlainCells<4, 4>>(cells) {
            Did::Done => return,
            did => made.push(did).expect(rt, "memory"),
        }
    }
}

// Whether a block has a group: its first word is a group's.
fn is_linked(cells: &PlainCells<4, 4>, block: usize) -> bool
    requires { block < 16 }
    ensures { IsTrue result ↔ ((g : ℕ) × IsLinkTo cells.now.firsts block g) }
{
    let _words = cells.seconds();
    let word = u64::from(cells.first_words()[block]);
    match Entry::group_of_word::<4, 4>(word) {
        Some(_) => return true,
        None => return false,
    }
}

// Whether no block has a group.
fn is_unlinked(cells: &PlainCells<4, 4>) -> bool
    ensures { IsTrue result → (i g : ℕ) → IsLinkTo cells.now.firsts i g → ⊥ }
{
    let _words = cells.seconds();
    for block in 0..16usize {
        if is_linked(cells, block) {
            return false;
        }
    }
    true
}

// The group by which a rule is added: none where it needs no new one, or group 0, the only one.
fn group_for(rt: &impl Abort, prefix: &Prefix<4, 4>, cells: &PlainCells<4, 4>) -> Option<u32>
    ensures some { IsSome result → 4 < prefix.now.len }
    ensures fits { (R : RuleMap) → Represents 4 4 R cells.now
        → AddFits 4 4 R prefix.now cells.now result }
{
    let block = Shape::<4, 4>::first_index(prefix.bits());
    if prefix.len() <= 4 {
        return None;
    }
    if is_linked(cells, block) {
        return None;
    }
    assert!(rt; cells.seconds() == 16);
    assert!(rt; is_unlinked(cells));
    Some(0)
}

// Whether no rule longer than 4 bits is left in the block of one that was so long.
fn is_last(rules: &Rules<4, 4>, prefix: &Prefix<4, 4>) -> bool
    ensures { LastFits 4 4 rules.now.rules prefix.now result }
{
    let bits = prefix.bits();
    if prefix.len() <= 4 {
        return false;
    }
    rules.deep_in(Shape::<4, 4>::first_index(bits)) == 0
}

// A table with one group that shows its words, and the steps of its last change.
#[derive(Drop)]
struct Table {
    rules: Rules<4, 4>,
    cells: PlainCells<4, 4>,
    made: Vec<Did>,
}

impl Model for Table {
    ghost use Rattle.lpm_rules.specs.RuleMap.{RuleList, coded_rule_list};
    ghost use Rattle.lpm_update.specs.Represents.{Represents};

    ghost Value = { RuleList };

    ghost coded = { coded_rule_list };

    ghost view = { λ a. a.rules };

    ghost invariant = { λ a. Represents 4 4 a.rules.rules a.cells };
}

impl Table {
    fn open(alloc: Global) -> Result<Self, AllocError> {
        Ok(Table {
            cells: PlainCells::new(alloc, 1)?,
            rules: Rules::new(alloc, 100),
            made: Vec::new(alloc),
        })
    }

    fn add(&mut self, rt: &impl Abort, bits: u32, len: u32, hop: u32) {
        assert!(rt; Shape::<4, 4>::is_addr(bits));
        let prefix = Prefix::new(bits, len).expect(rt, "a length");
        let hop = Hop::new(hop).expect(rt, "a next hop");
        match self.rules.put(&prefix, hop) {
            Ok(_) => {
                let group = group_for(rt, &prefix, &self.cells);
                let update = Update::add(&prefix, hop, group);
                record(rt, &mut self.made, update, &mut self.cells);
            }
            Err(_) => panic!(rt; "the rule has no room"),
        }
    }

    fn delete(&mut self, rt: &impl Abort, bits: u32, len: u32) {
        assert!(rt; Shape::<4, 4>::is_addr(bits));
        let prefix = Prefix::new(bits, len).expect(rt, "a length");
        let cover = self.rules.cover(&prefix);
        match self.rules.remove(&prefix) {
            Ok(_) => {
                let last = is_last(&self.rules, &prefix);
                let update = Update::delete(&prefix, cover, last);
                record(rt, &mut self.made, update, &mut self.cells);
            }
            Err(_) => panic!(rt; "no such rule"),
        }
    }

    fn flush(&mut self, rt: &impl Abort) {
        let _count = self.rules.clear();
        let update = Update::flush::<4, 4>();
        record(rt, &mut self.made, update, &mut self.cells);
    }

    fn assert_first(&mut self, rt: &impl Abort, place: usize, word: u64) {
        let _words = self.cells.seconds();
        assert!(rt; place < 16);
        assert_at(rt, ("first word", place), self.cells.first(place), word);
    }

    fn assert_second(&mut self, rt: &impl Abort, place: usize, word: u64) {
        assert!(rt; place < self.cells.seconds());
        assert_at(rt, ("second word", place), self.cells.second(place), word);
    }

    // These first words and second words, each at its place.
    fn assert_words(&mut self, rt: &impl Abort, firsts: &[Word], seconds: &[Word]) {
        for (place, word) in firsts {
            self.assert_first(rt, *place, *word);
        }
        for (place, word) in seconds {
            self.assert_second(rt, *place, *word);
        }
    }

    // The group's word at place 2 is the first of these, and each other word of the group the second.
    fn assert_group(&mut self, rt: &impl Abort, words: (u64, u64)) {
        let (at_two, around) = words;
        for place in 0..16usize {
            self.assert_second(rt, place, if place == 2 { at_two } else { around });
        }
    }

    // The stores of the last change were these, in this order.
    fn assert_made(&self, rt: &impl Abort, expected: &[Stores]) {
        let mut made: usize = 0;
        for stores in expected {
            assert_stores(rt, &self.made, made, *stores);
            made = made.saturating_add(stores.len());
        }
        assert_at(rt, "stores", self.made.len(), made);
    }
}

// Stores that follow each other upwards, from the first place up to, not including, the second.
#[derive(Clone, Copy)]
enum Stores {
    Firsts(usize, usize),
    Seconds(usize, usize),
    Unlinked(usize, u32),
}

impl Stores {
    fn len(self) -> usize {
        match self {
            Stores::Firsts(from, end) | Stores::Seconds(from, end) => end.saturating_sub(from),
            Stores::Unlinked(_, _) => 1,
        }
    }

    // What the store of this number among them did.
    fn did(self, number: usize) -> Did {
        match self {
            Stores::Firsts(from, _) => Did::First(from.saturating_add(number)),
            Stores::Seconds(from, _) => Did::Second(from.saturating_add(number)),
            Stores::Unlinked(block, group) => Did::Unlinked { block, group },
        }
    }
}

// The steps after this many are these stores.
fn assert_stores(rt: &impl Abort, made: &[Did], before: usize, stores: Stores) {
    for number in 0..stores.len() {
        let place = before.saturating_add(number);
        let did = made.get(place).copied();
        assert_at(rt, place, did, Some(stores.did(number)));
    }
}

// A place among the first words or among the second words, and the word there.
type Word = (usize, u64);

// The stores of a change, and words after it: of the blocks, and of the group.
#[derive(Clone, Copy)]
struct Stage {
    made: &'static [Stores],
    firsts: &'static [Word],
    seconds: &'static [Word],
    // all words of the group: the one at place 2, and each other
    group: Option<(u64, u64)>,
}

// Changes of rules, and what is there after each. A stage past the changes is that of a flush.
#[derive(Clone, Copy)]
struct Case {
    edits: &'static [RuleEdit],
    stages: &'static [Stage],
}

const LINK: &[Stores] = &[Stores::Seconds(0, 16), Stores::Firsts(1, 2)];

// The words of a hop 6 of length 6, 3 of length 4 and 9 of length 0.
const SIX: u64 = 0x1900_0006;

const THREE: u64 = 0x1100_0003;

const NINE: u64 = 0x0100_0009;

// A change that stores nothing.
const BARE: Stage = Stage {
    made: &[],
    firsts: &[],
    seconds: &[],
    group: None,
};

// A block has a next hop.
const COVERED: Stage = Stage {
    made: &[Stores::Firsts(1, 2)],
    ..BARE
};

// And an address in it another one, for which it takes group 0.
const LINKED: Stage = Stage {
    made: LINK,
    firsts: &[(1, GROUP)],
    group: Some((FIVE, SEVEN)),
    ..BARE
};

// An address alone has a next hop.
const ALONE: Stage = Stage { made: LINK, ..BARE };

const COVER_ANSWER: Case = Case {
    edits: &[COVER, FILLED, (Change::Delete, (0x12, 8, 5))],
    stages: &[
        COVERED,
        LINKED,
        Stage {
            made: &[Stores::Seconds(2, 3), Stores::Unlinked(1, 0)],
            firsts: &[(1, SEVEN)],
            seconds: &[(2, SEVEN)],
            ..BARE
        },
    ],
};

const OTHER_COVER: Case = Case {
    edits: UNDER_A_GROUP,
    stages: &[
        COVERED,
        LINKED,
        Stage {
            made: &[Stores::Seconds(0, 2), Stores::Seconds(3, 16)],
            firsts: &[(1, GROUP)],
            group: Some((FIVE, THREE)),
            ..BARE
        },
    ],
};

const COLLAPSED: Case = Case {
    edits: COLLAPSE,
    stages: &[
        COVERED,
        LINKED,
        Stage {
            made: &[Stores::Seconds(0, 2), Stores::Seconds(3, 4)],
            ..BARE
        },
        Stage {
            made: &[Stores::Seconds(2, 3)],
            firsts: &[(1, GROUP)],
            seconds: &[(1, SIX), (2, SIX), (4, SEVEN)],
            ..BARE
        },
        Stage {
            made: &[Stores::Seconds(0, 4), Stores::Unlinked(1, 0)],
            firsts: &[(1, SEVEN)],
            ..BARE
        },
    ],
};

const ANSWER_FROM_UNLINKED_GROUP: Case = Case {
    edits: &[FILLED],
    stages: &[
        ALONE,
        Stage {
            made: &[Stores::Unlinked(1, 0)],
            firsts: &[(1, 0)],
            seconds: &[(2, FIVE)],
            ..BARE
        },
    ],
};

const ORDER_UNDER_A_GROUP: Case = Case {
    edits: DEFAULT_UNDER_A_GROUP,
    stages: &[
        ALONE,
        Stage {
            made: &[
                Stores::Firsts(0, 1),
                Stores::Seconds(0, 2),
                Stores::Seconds(3, 16),
                Stores::Firsts(2, 16),
            ],
            firsts: &[(15, NINE)],
            seconds: &[(2, FIVE), (3, NINE)],
            ..BARE
        },
        Stage {
            made: &[
                Stores::Firsts(0, 1),
                Stores::Unlinked(1, 0),
                Stores::Firsts(2, 16),
            ],
            ..BARE
        },
        BARE,
    ],
};

static CASES: [Case; 5] = [
    COVER_ANSWER,
    OTHER_COVER,
    COLLAPSED,
    ANSWER_FROM_UNLINKED_GROUP,
    ORDER_UNDER_A_GROUP,
];

// Makes the change, or a flush.
fn make_change(rt: &impl Abort, table: &mut Table, edit: Option<RuleEdit>) {
    match edit {
        Some((Change::Add(_), (bits, len, hop))) => table.add(rt, bits, len, hop),
        Some((Change::Delete, (bits, len, _))) => table.delete(rt, bits, len),
        None => table.flush(rt),
    }
}

fn play(rt: &impl Abort, table: &mut Table, case: &Case) {
    assert!(rt; case.edits.len() <= case.stages.len());
    for (place, stage) in case.stages.iter().enumerate() {
        make_change(rt, table, case.edits.get(place).copied());
        table.assert_made(rt, stage.made);
        table.assert_words(rt, stage.firsts, stage.seconds);
        if let Some(words) = stage.group {
            table.assert_group(rt, words);
        }
    }
}

fn assert_case(rt: &impl Abort, alloc: Global, case: &Case) {
    let mut table = Table::open(alloc).expect(rt, "memory");
    play(rt, &mut table, case);
}

#[test]
fn stores_of_changes(rt: HostRuntime) {
    for case in &CASES {
        assert_case(&rt, rt.alloc(), case);
    }
}
