//! Changes under a group, each case by a table of one thread and by a running one: after each change the
//! counts and every answer.
ghost use Rattle.std.specs.Prelude.{◌≡◌, ◌<◌, true, false};

use super::asserts::assert_at;
use super::changes::{SMALL, SmallTable, SmallWriter, change, close, figures};
use fib::Fib;
use lpm_rules::Rule;
use shared_fib::{Pass, open};
use std::alloc::Global;
use std::process::Abort;
use test_support::{
    ADDED, COLLAPSE, Change, DEFAULT_UNDER_A_GROUP, Figures, Plain, RuleEdit, UNDER_A_GROUP,
    figures_with, hop_number, rule_of,
};

// The first and the last of some addresses, and the number of the next hop of each.
type Span = (u32, u32, u32);

// What the table has after a change. An address in none of the spans has no next hop.
#[derive(Clone, Copy)]
struct Stage {
    figures: Figures,
    spans: &'static [Span],
}

// Changes, and a stage for each.
#[derive(Clone, Copy)]
struct Case {
    edits: &'static [RuleEdit],
    stages: &'static [Stage],
}

// The rule of a whole block.
const COVERED: Stage = Stage {
    figures: (1, 1, 0, 0, 1, 1),
    spans: &[(0x10, 0x1f, 7)],
};

// And that of an address in it, which takes the group.
const LINKED: Stage = Stage {
    figures: (2, 2, 1, 0, 0, 1),
    spans: &[(0x10, 0x11, 7), (0x12, 0x12, 5), (0x13, 0x1f, 7)],
};

const OTHER_COVER: Case = Case {
    edits: UNDER_A_GROUP,
    stages: &[
        COVERED,
        LINKED,
        Stage {
            figures: (2, 3, 1, 0, 0, 1),
            spans: &[(0x10, 0x11, 3), (0x12, 0x12, 5), (0x13, 0x1f, 3)],
        },
    ],
};

const COLLAPSED: Case = Case {
    edits: COLLAPSE,
    stages: &[
        COVERED,
        LINKED,
        Stage {
            figures: (3, 3, 1, 0, 0, 1),
            spans: &[
                (0x10, 0x11, 6),
                (0x12, 0x12, 5),
                (0x13, 0x13, 6),
                (0x14, 0x1f, 7),
            ],
        },
        Stage {
            figures: (2, 4, 1, 0, 0, 1),
            spans: &[(0x10, 0x13, 6), (0x14, 0x1f, 7)],
        },
        Stage {
            figures: (1, 5, 0, 1, 0, 2),
            spans: &[(0x10, 0x1f, 7)],
        },
    ],
};

const DEFAULT_RULE: Case = Case {
    edits: DEFAULT_UNDER_A_GROUP,
    stages: &[
        Stage {
            figures: (1, 1, 1, 0, 0, 1),
            spans: &[(0x12, 0x12, 5)],
        },
        Stage {
            figures: (2, 2, 1, 0, 0, 1),
            spans: &[(0x00, 0x11, 9), (0x12, 0x12, 5), (0x13, 0xff, 9)],
        },
    ],
};

// The group stays while one of two long rules is left in its block, and goes with the other one.
const SECOND_HALF: Case = Case {
    edits: &[
        (ADDED, (0x10, 5, 1)),
        (ADDED, (0x18, 5, 2)),
        (Change::Delete, (0x10, 5, 1)),
        (Change::Delete, (0x18, 5, 2)),
    ],
    stages: &[
        Stage {
            figures: (1, 1, 1, 0, 0, 1),
            spans: &[(0x10, 0x17, 1)],
        },
        Stage {
            figures: (2, 2, 1, 0, 0, 1),
            spans: &[(0x10, 0x17, 1), (0x18, 0x1f, 2)],
        },
        Stage {
            figures: (1, 3, 1, 0, 0, 1),
            spans: &[(0x18, 0x1f, 2)],
        },
        Stage {
            figures: (0, 4, 0, 1, 0, 2),
            spans: &[],
        },
    ],
};

static CASES: [Case; 4] = [OTHER_COVER, COLLAPSED, DEFAULT_RULE, SECOND_HALF];

// The number of the next hop of this address.
fn number_at(spans: &[Span], addr: u32) -> Option<u32> {
    for (first, last, number) in spans {
        if *first <= addr && addr <= *last {
            return Some(*number);
        }
    }
    None
}

fn change_fib(rt: &impl Abort, fib: &mut Fib<4, 4>, edit: RuleEdit, stage: &Stage) {
    let (kind, plain) = edit;
    let Rule { prefix, hop } = rule_of::<4, 4>(plain).expect(rt, "a rule");
    match kind {
        Change::Add(put) => assert_at(rt, plain, fib.add(&prefix, hop), Ok(put)),
        Change::Delete => assert_at(rt, plain, fib.delete(&prefix), Ok(hop)),
    }
    let found = figures_with(fib.rules(), fib.versions(), fib.counts(), fib.token());
    assert_at(rt, plain, found, stage.figures);
}

// Each answer after the change of this rule.
fn look_up_by_fib(rt: &impl Abort, fib: &Fib<4, 4>, plain: Plain, stage: &Stage) {
    for addr in 0..256u32 {
        let found = hop_number(fib.lookup(addr));
        assert_at(rt, (plain, addr), found, number_at(stage.spans, addr));
    }
}

fn play_by_fib(rt: &impl Abort, fib: &mut Fib<4, 4>, case: &Case) {
    for (edit, stage) in case.edits.iter().zip(case.stages) {
        change_fib(rt, fib, *edit, stage);
        look_up_by_fib(rt, fib, edit.1, stage);
    }
}

fn change_table(
    rt: &impl Abort,
    table: &SmallTable,
    writer: &mut SmallWriter,
    edit: RuleEdit,
    stage: &Stage,
)
    requires own { writer.old.identity ≡ table.now }
    ensures own { writer.new.identity ≡ writer.old.identity }
{
    let (kind, plain) = edit;
    change(rt, table, writer, kind, plain);
    assert_at(rt, plain, figures(table, writer), stage.figures);
}

// Each answer after the change of this rule.
fn look_up_by_pass(
    rt: &impl Abort,
    table: &SmallTable,
    pass: &mut Pass,
    plain: Plain,
    stage: &Stage,
)
    requires own { pass.old.table ≡ table.now }
    requires online { pass.old.online ≡ true }
    ensures own { pass.new.table ≡ pass.old.table }
    ensures online { pass.new.online ≡ true }
{
    let (_, version, _, _, _, _) = stage.figures;
    for addr in 0..256u32 {
        let answer = pass.lookup(table, addr);
        let found = (hop_number(answer.hop), answer.lo, answer.hi);
        let wanted = (number_at(stage.spans, addr), version, version);
        assert_at(rt, (plain, addr), found, wanted);
    }
}

fn play_by_table(
    rt: &impl Abort,
    table: &SmallTable,
    writer: &mut SmallWriter,
    pass: &mut Pass,
    case: &Case,
)
    requires writer { writer.old.identity ≡ table.now }
    requires pass { (pass.old.table ≡ table.now) × (pass.old.online ≡ false) }
{
    pass.online(table);
    for (edit, stage) in case.edits.iter().zip(case.stages) {
        change_table(rt, table, writer, *edit, stage);
        look_up_by_pass(rt, table, pass, edit.1, stage);
    }
}

fn play_fib(rt: &impl Abort, alloc: Global, case: &Case) {
    let mut fib = Fib::<4, 4>::open(alloc, SMALL).expect(rt, "memory");
    play_by_fib(rt, &mut fib, case);
    drop(fib);
}

// The case, by a table of one thread that was just opened, and by a running one.
fn play(rt: &impl Abort, alloc: Global, case: &Case) {
    assert_at(rt, "stages", case.edits.len(), case.stages.len());
    play_fib(rt, alloc, case);
    let (table, mut writer, mut bench) = open::<4, 4>(alloc, SMALL).expect(rt, "memory");
    let mut pass = bench.register(&table, 0).expect(rt, "a pass");
    play_by_table(rt, &table, &mut writer, &mut pass, case);
    close(table, writer, bench);
}

#[test]
fn changes_under_a_group(rt: HostRuntime) {
    for case in &CASES {
        play(&rt, rt.alloc(), case);
    }
}
