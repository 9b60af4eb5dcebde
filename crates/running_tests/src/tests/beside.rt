//! Lookups on threads of their own, while the writer changes the table on another.
ghost use Rattle.std.specs.Prelude.{◌≡◌, ◌<◌, true};
ghost use Rattle.std.specs.Thread.{IsSync};

use super::asserts::assert_at;
use super::changes::{SmallTable, SmallWriter, close};
use lpm_bits::{Hop, Prefix};
use lpm_limits::Config;
use lpm_rules::Answer;
use shared_fib::{Pass, open};
use std::process::Abort;
use std::thread::{Threads, join, yield_now};
use test_support::{Plain, rule_of};

// Two groups. One that waits is reclaimed at the next unlinking, or where the next addition finds none free,
// once no worker holds it.
const LIMITS: Config = Config {
    rules: 9,
    groups: 2,
    workers: 2,
    threshold: 0,
    reclaim_max: 2,
    first_token: 1,
};

const CHANGES: u64 = 100_000;
// The version after the last change: that of the cover is 1.
const LAST: u64 = CHANGES + 1;
// How often the writer tries at most, where a worker may hold the groups.
const TRIES: u64 = 1_000_000_000;

// How many addresses a pass looks up at most. It ends when it has seen the last version.
const LOOKUPS: u64 = 500_000_000;

const BETWEEN_REPORTS: u64 = 32;
// At least so many lookups of each pass begin before the last change is done, where the pass was online from
// before the first one on. Half of the changes are additions that take a group, of which there are two, so
// one group is taken at least as often as a quarter of the changes. Once it was given up, each online pass
// holds it until it reports. So between two takings of it each pass reports, after its next lookups.
const BESIDE: u64 = (CHANGES / 4 - 1) * BETWEEN_REPORTS;

// The changes come round: a long rule in one block, and none, and one in another block, and none.
const ROUND: u64 = 4;

type Rule = (Prefix<4, 4>, Hop);

// The rules of the table: one of a whole block, which stays, and two long ones, which come and go. The first
// of these lies under it.
#[derive(Clone, Copy)]
struct Rules {
    cover: Rule,
    long: [Rule; 2],
}

// Makes the change after so many. Whether it was made.
fn change(table: &SmallTable, writer: &mut SmallWriter, rules: &Rules, made: u64) -> bool
    requires own { writer.old.identity ≡ table.now }
    ensures own { writer.new.identity ≡ writer.old.identity }
{
    let (prefix, hop) = rules.long[(made % ROUND / 2) as usize];
    if made % 2 == 0 {
        return writer.add(table, &prefix, hop).is_ok();
    }
    writer.delete(table, &prefix).is_ok()
}

// Makes all changes, and returns how many it has made. Where one is refused, a worker has to report first, so
// another thread may run.
fn change_all(table: &SmallTable, writer: &mut SmallWriter, rules: &Rules) -> u64
    requires own { writer.old.identity ≡ table.now }
{
    let mut made = 0u64;
    for _ in 0..TRIES {
        if made >= CHANGES {
            break;
        }
        if change(table, writer, rules, made) {
            made += 1;
        } else {
            yield_now();
        }
    }
    made
}

// The next hop of an address at a version, found by the rules that the version has: first none, then the
// cover alone, and from then on one long rule more after each other change.
fn hop_plainly(rules: &Rules, version: u64, addr: u32) -> Option<Hop> {
    let made = version.checked_sub(1)?;
    let (prefix, hop) = rules.long[(made % ROUND / 2) as usize];
    if made % 2 == 1 && prefix.covers(addr) {
        return Some(hop);
    }
    let (prefix, hop) = rules.cover;
    if prefix.covers(addr) { Some(hop) } else { None }
}

// Whether the answer is that of a version from `lo` to `hi`. From version 1 on the rules come round.
fn is_of_a_version(rules: &Rules, addr: u32, answer: &Answer) -> bool {
    let Answer { hop, lo, hi } = *answer;
    for step in 0..=ROUND {
        let version = lo.saturating_add(step);
        if version <= hi && hop_plainly(rules, version, addr) == hop {
            return true;
        }
    }
    false
}

// Looks one address up, and reports now and then that the worker is quiescent. Then another thread may run.
fn look(table: &SmallTable, pass: &mut Pass, addr: u32, i: u64) -> Answer
    requires own { pass.old.table ≡ table.now }
    requires online { pass.old.online ≡ true }
    requires addr { addr < 256 }
    ensures own { pass.new.table ≡ pass.old.table }
    ensures online { pass.new.online ≡ true }
{
    let answer = pass.lookup(table, addr);
    if i % BETWEEN_REPORTS == BETWEEN_REPORTS - 1 {
        pass.quiescent(table);
        yield_now();
    }
    answer
}

// How many lookups of a pass began before the last change was done, whether a later one was made, and how
// many of all answers are of no version from `lo` to `hi`.
#[derive(Clone, Copy)]
struct Looked {
    beside: u64,
    saw_last: bool,
    wrong: u64,
}

// Looks up all addresses, again and again, until the last change is done, and goes offline.
fn look_all(table: &SmallTable, pass: &mut Pass, rules: &Rules) -> Looked
    requires own { pass.old.table ≡ table.now }
    requires online { pass.old.online ≡ true }
{
    let mut beside = 0u64;
    let mut saw_last = false;
    let mut wrong = 0u64;
    for i in 0..LOOKUPS {
        let addr = (i % 256) as u32;
        let answer = look(table, pass, addr, i);
        wrong = wrong.saturating_add(u64::from(!is_of_a_version(rules, addr, &answer)));
        if answer.lo >= LAST {
            saw_last = true;
            break;
        }
        beside = beside.saturating_add(1);
    }
    pass.offline(table);
    Looked {
        beside,
        saw_last,
        wrong,
    }
}

// Two passes look up, each on a thread.
fn look_beside<R: Threads + Sync>(
    rt: &R,
    table: &SmallTable,
    one: &mut Pass,
    other: &mut Pass,
    rules: &Rules,
) -> (Looked, Looked)
    requires one { (one.old.table ≡ table.now) × (one.old.online ≡ true) }
    requires other { (other.old.table ≡ table.now) × (other.old.online ≡ true) }
{
    join(
        rt,
        || -> Looked
            requires { (one.now.table ≡ table.now) × (one.now.online ≡ true) }
        { look_all(table, one, rules) },
        || -> Looked
            requires { (other.now.table ≡ table.now) × (other.now.online ≡ true) }
        { look_all(table, other, rules) },
    )
}

// The writer makes its changes on a thread, while two passes look up on theirs. How many changes were made,
// and what each pass looked up.
fn change_beside<R: Threads + Sync>(
    rt: &R,
    table: &SmallTable,
    writer: &mut SmallWriter,
    rules: &Rules,
    one: &mut Pass,
    other: &mut Pass,
) -> (u64, (Looked, Looked))
    requires writer { writer.old.identity ≡ table.now }
    requires one { (one.old.table ≡ table.now) × (one.old.online ≡ true) }
    requires other { (other.old.table ≡ table.now) × (other.old.online ≡ true) }
{
    join(
        rt,
        || -> u64
            requires { writer.now.identity ≡ table.now }
        { change_all(table, writer, rules) },
        || -> (Looked, Looked)
            requires sync { IsSync R.row }
            requires one { (one.now.table ≡ table.now) × (one.now.online ≡ true) }
            requires other { (other.now.table ≡ table.now) × (other.now.online ≡ true) }
        { look_beside(rt, table, one, other, rules) },
    )
}

fn rule(rt: &impl Abort, plain: Plain) -> Rule {
    let rule = rule_of::<4, 4>(plain).expect(rt, "a rule");
    (rule.prefix, rule.hop)
}

fn three_rules(rt: &impl Abort) -> Rules {
    Rules {
        cover: rule(rt, (0x10, 4, 3)),
        long: [rule(rt, (0x12, 8, 1)), rule(rt, (0x35, 8, 2))],
    }
}

fn add_cover(rt: &impl Abort, table: &SmallTable, writer: &mut SmallWriter, rules: &Rules)
    requires own { writer.old.identity ≡ table.now }
    ensures own { writer.new.identity ≡ writer.old.identity }
{
    let (prefix, hop) = rules.cover;
    assert!(rt; writer.add(table, &prefix, hop).is_ok());
}

// All changes were made, no answer was wrong, and each pass looked up beside the changes.
fn assert_looked(rt: &impl Abort, made: u64, by_one: &Looked, by_other: &Looked) {
    assert_at(rt, "changes", made, CHANGES);
    assert_at(rt, "wrong", (by_one.wrong, by_other.wrong), (0, 0));
    assert!(rt; by_one.saw_last && by_other.saw_last);
    assert!(rt; by_one.beside >= BESIDE && by_other.beside >= BESIDE);
}

#[test]
fn lookups_beside_updates(rt: HostRuntime) {
    let rules = three_rules(&rt);
    let (table, mut writer, mut bench) = open::<4, 4>(rt.alloc(), LIMITS).expect(&rt, "memory");
    add_cover(&rt, &table, &mut writer, &rules);
    let mut one = bench.register(&table, 0).expect(&rt, "a pass");
    let mut other = bench.register(&table, 1).expect(&rt, "a pass");
    one.online(&table);
    other.online(&table);
    let (made, (by_one, by_other)) = change_beside(
        &rt,
        &table,
        &mut writer,
        &rules,
        &mut one,
        &mut other,
    );
    assert_looked(&rt, made, &by_one, &by_other);
    close(table, writer, bench);
}
