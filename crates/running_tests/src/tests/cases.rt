//! Worked cases, on one thread.
ghost use Rattle.std.specs.Prelude.{◌≡◌, true, false};
ghost use Rattle.shared_fib.specs.Passes.{IsBenchOf};

use super::asserts::assert_at;
use super::changes::{
    Ipv4Table, Ipv4Writer, SMALL, SmallTable, SmallWriter, change, close, figures,
};
use defer_queue::Reclaimed;
use fib::Fib;
use lpm_bits::Shape;
use lpm_limits::{Busy, Config, Refusal};
use lpm_rules::Put;
use lpm_writer::Exhausted;
use shared_fib::{Bench, Pass, RegisterError, go_live, open};
use std::alloc::Global;
use std::process::Abort;
use std::sync::Wait;
use std::test::Fail;
use test_support::{
    ADDED, Change, DEFAULT_HOP, FOUR, FOUR_HOPS, Plain, THREE, hop_number, rule_of,
};

// A pass that has met the writer answers by the rule that was added before. Each case is played by a
// function that is lent its table: what a function owns makes its proof longer at each early end.
fn meet_and_look_up(rt: &impl Abort, table: &Ipv4Table, writer: &mut Ipv4Writer, pass: &mut Pass)
    requires writer { writer.old.identity ≡ table.now }
    requires pass { (pass.old.table ≡ table.now) × (pass.old.online ≡ false) }
{
    change(rt, table, writer, ADDED, (0x0a00_0000, 8, 1));
    pass.meet(table, writer);
    pass.online(table);
    let answer = pass.lookup(table, 0x0a00_0001);
    let found = (hop_number(answer.hop), answer.lo, answer.hi);
    assert_at(rt, "answer", found, (Some(1), 1, 1));
}

#[test]
fn meet_then_lookup(rt: HostRuntime) -> Result<(), Fail> {
    let (table, mut writer, mut bench) = open::<24, 8>(rt.alloc(), Config::default())?;
    let mut pass = bench.register(&table, 0).expect(&rt, "a pass");
    meet_and_look_up(&rt, &table, &mut writer, &mut pass);
    close(table, writer, bench);
    Ok(())
}

// Adds a rule longer than `FIRST` bits, and deletes it.
fn add_and_delete(rt: &impl Abort, table: &SmallTable, writer: &mut SmallWriter)
    requires own { writer.old.identity ≡ table.now }
    ensures own { writer.new.identity ≡ writer.old.identity }
{
    change(rt, table, writer, ADDED, (0x12, 8, 5));
    change(rt, table, writer, Change::Delete, (0x12, 8, 5));
}

// The only group is taken again, by a rule in another block.
fn reuse(rt: &impl Abort, table: &SmallTable, writer: &mut SmallWriter)
    requires own { writer.old.identity ≡ table.now }
{
    add_and_delete(rt, table, writer);
    change(rt, table, writer, ADDED, (0x35, 8, 6));
    let rule = rule_of::<4, 4>((0x35, 8, 6)).expect(rt, "a rule");
    assert_at(rt, "there", writer.get(&rule.prefix), Some(rule.hop));
    assert_at(rt, "figures", figures(table, writer), (1, 3, 1, 0, 0, 2));
}

// The group is given back once a synchronize has returned.
fn synchronize_and_reclaim<R: Wait + Abort>(rt: &R, table: &SmallTable, writer: &mut SmallWriter)
    requires own { writer.old.identity ≡ table.now }
{
    add_and_delete(rt, table, writer);
    assert_at(rt, "before", figures(table, writer), (0, 2, 0, 1, 0, 2));
    let synchronized = writer.synchronize(rt, table);
    let reclaimed = writer.reclaim(table, 1);
    assert_at(
        rt,
        "synchronize",
        (synchronized, reclaimed),
        (Ok(()), unstopped(1)),
    );
    assert_at(rt, "after", figures(table, writer), (0, 2, 0, 0, 1, 3));
}

// A table of no rules, whose first token is this one.
fn tokens_from(first_token: u64) -> Config {
    Config {
        first_token,
        ..SMALL
    }
}

// A synchronize comes to this, and then the token is the greatest.
fn assert_last<R: Wait + Abort>(
    rt: &R,
    table: &SmallTable,
    writer: &mut SmallWriter,
    wanted: Result<(), Exhausted>,
)
    requires own { writer.old.identity ≡ table.now }
    ensures own { writer.new.identity ≡ writer.old.identity }
{
    let found = (writer.synchronize(rt, table), writer.token(table));
    assert_at(rt, "synchronize", found, (wanted, 1 << 62));
}

#[test]
fn text_of_exhausted(rt: HostRuntime) {
    let text = format!(in rt.alloc(); "{Exhausted}").expect(&rt, "memory");
    assert_at(&rt, "text", text.as_str(), "tokens are exhausted");
}

// Nobody else gets the pass of worker 0, and there is no worker 1.
fn register_each(rt: &impl Abort, table: &SmallTable, bench: &mut Bench)
    requires { IsBenchOf table.now bench.old }
{
    let pass = bench.register(table, 0).expect(rt, "a pass");
    assert_at(rt, "worker", pass.worker_number(), 0);
    let refused = [
        bench.register(table, 0).err(),
        bench.register(table, 1).err(),
    ];
    let wanted = [
        Some(RegisterError::Taken),
        Some(RegisterError::NoSuchWorker),
    ];
    assert_at(rt, "worker 0 again, worker 1", refused, wanted);
}

// What is played over a small table that was just opened.
#[derive(Clone, Copy)]
enum Play {
    Reuse,
    Reclaim,
    // One synchronize is refused, or the first of two isn't.
    Refused,
    LastTokens,
    Register,
}

fn play_small<R: Wait + Abort>(
    rt: &R,
    table: &SmallTable,
    writer: &mut SmallWriter,
    bench: &mut Bench,
    what: Play,
)
    requires own { writer.old.identity ≡ table.now }
    requires bench { IsBenchOf table.now bench.old }
{
    match what {
        Play::Reuse => reuse(rt, table, writer),
        Play::Reclaim => synchronize_and_reclaim(rt, table, writer),
        Play::Refused => assert_last(rt, table, writer, Err(Exhausted)),
        Play::LastTokens => {
            assert_last(rt, table, writer, Ok(()));
            assert_last(rt, table, writer, Err(Exhausted));
        }
        Play::Register => register_each(rt, table, bench),
    }
}

fn open_and_play<R: Wait + Abort>(rt: &R, alloc: Global, config: Config, what: Play) {
    let (table, mut writer, mut bench) = open::<4, 4>(alloc, config).expect(rt, "memory");
    play_small(rt, &table, &mut writer, &mut bench, what);
    close(table, writer, bench);
}

#[test]
fn small_tables(rt: HostRuntime) {
    open_and_play(&rt, rt.alloc(), SMALL, Play::Reuse);
    open_and_play(&rt, rt.alloc(), SMALL, Play::Reclaim);
    open_and_play(&rt, rt.alloc(), tokens_from(1 << 62), Play::Refused);
    open_and_play(
        &rt,
        rt.alloc(),
        tokens_from((1 << 62) - 1),
        Play::LastTokens,
    );
    open_and_play(&rt, rt.alloc(), SMALL, Play::Register);
}

// 10.0.0.0/25 to next hop 1, and 10.0.1.0/25 to next hop 2.
const FIRST_RULE: Plain = (0x0a00_0000, 25, 1);

const SECOND_RULE: Plain = (0x0a00_0100, 25, 2);

// The only group is held by worker 0, until it reports.
fn hold_and_let_go(rt: &impl Abort, table: &Ipv4Table, writer: &mut Ipv4Writer, pass: &mut Pass)
    requires writer { writer.old.identity ≡ table.now }
    requires pass { (pass.old.table ≡ table.now) × (pass.old.online ≡ false) }
    ensures pass { pass.new.table ≡ pass.old.table }
{
    pass.online(table);
    change(rt, table, writer, ADDED, FIRST_RULE);
    change(rt, table, writer, Change::Delete, FIRST_RULE);
    let oldest = Some(Busy {
        worker: 0,
        counter: 1,
    });
    let second = rule_of::<24, 8>(SECOND_RULE).expect(rt, "a rule");
    let refused = writer.add(table, &second.prefix, second.hop);
    assert_at(rt, "held", refused, Err(Refusal::NoGroups { oldest }));
    pass.quiescent(table);
    change(rt, table, writer, ADDED, SECOND_RULE);
    assert_at(rt, "figures", figures(table, writer), (1, 3, 1, 0, 0, 2));
}

// A pass that is given back is offline when it is handed out again.
fn hold_and_register_again(
    rt: &impl Abort,
    table: &Ipv4Table,
    writer: &mut Ipv4Writer,
    bench: &mut Bench,
)
    requires writer { writer.old.identity ≡ table.now }
    requires bench { IsBenchOf table.now bench.old }
{
    let mut pass = bench.register(table, 0).expect(rt, "a pass");
    hold_and_let_go(rt, table, writer, &mut pass);
    bench.unregister(table, pass);
    let again = bench.register(table, 0).expect(rt, "a pass");
    assert_at(rt, "online", again.is_online(), false);
}

#[test]
fn held_group(rt: HostRuntime) -> Result<(), Fail> {
    let (table, mut writer, mut bench) = open::<24, 8>(rt.alloc(), SMALL)?;
    hold_and_register_again(&rt, &table, &mut writer, &mut bench);
    close(table, writer, bench);
    Ok(())
}

// Each of two workers holds a group; one reports and the other goes offline.
fn hold_by_two(
    rt: &impl Abort,
    table: &Ipv4Table,
    writer: &mut Ipv4Writer,
    zero: &mut Pass,
    one: &mut Pass,
)
    requires writer { writer.old.identity ≡ table.now }
    requires zero { (zero.old.table ≡ table.now) × (zero.old.online ≡ false) }
    requires one { (one.old.table ≡ table.now) × (one.old.online ≡ false) }
{
    change(rt, table, writer, ADDED, FIRST_RULE);
    change(rt, table, writer, ADDED, SECOND_RULE);
    zero.online(table);
    change(rt, table, writer, Change::Delete, FIRST_RULE);
    one.online(table);
    change(rt, table, writer, Change::Delete, SECOND_RULE);
    assert_at(rt, "first", writer.reclaim(table, 16), stopped(0, 0, 1));
    zero.quiescent(table);
    assert_at(rt, "second", writer.reclaim(table, 16), stopped(1, 1, 2));
    one.offline(table);
    assert_at(rt, "third", writer.reclaim(table, 16), unstopped(1));
}

#[test]
fn two_workers(rt: HostRuntime) -> Result<(), Fail> {
    let config = Config {
        groups: 256,
        workers: 2,
        ..SMALL
    };
    let (table, mut writer, mut bench) = open::<24, 8>(rt.alloc(), config)?;
    let mut zero = bench.register(&table, 0).expect(&rt, "a pass");
    let mut one = bench.register(&table, 1).expect(&rt, "a pass");
    hold_by_two(&rt, &table, &mut writer, &mut zero, &mut one);
    close(table, writer, bench);
    Ok(())
}

// So many are freed, and the worker's counter stops it.
fn stopped(freed: usize, worker: usize, counter: u64) -> Reclaimed {
    let stopped = Some(Busy { worker, counter });
    Reclaimed { freed, stopped }
}

// So many are freed, and nothing stops it.
fn unstopped(freed: usize) -> Reclaimed {
    Reclaimed {
        freed,
        stopped: None,
    }
}

// Three routes, of which one is longer than 24 bits.
fn add_three(rt: &impl Abort, table: &Ipv4Table, writer: &mut Ipv4Writer)
    requires own { writer.old.identity ≡ table.now }
    ensures own { writer.new.identity ≡ writer.old.identity }
{
    for plain in &THREE {
        change(rt, table, writer, ADDED, *plain);
    }
}

// Four addresses are looked up at once, by three routes, and one of them after a flush.
fn look_up_four(rt: &impl Abort, table: &Ipv4Table, writer: &mut Ipv4Writer, pass: &mut Pass)
    requires writer { writer.old.identity ≡ table.now }
    requires pass { (pass.old.table ≡ table.now) × (pass.old.online ≡ false) }
{
    add_three(rt, table, writer);
    pass.online(table);
    let found = pass.lookup4(table, FOUR, DEFAULT_HOP);
    let hops = found.hops;
    assert_at(rt, "hops", hops, FOUR_HOPS);
    assert_at(rt, "versions", (found.lo, found.hi), (3, 3));
    let flushed = writer.flush(table);
    let answer = pass.lookup(table, FOUR[0]);
    assert_at(rt, "flush", (flushed, answer.hop), (Ok(3), None));
}

#[test]
fn lookup4_by_a_pass(rt: HostRuntime) -> Result<(), Fail> {
    let (table, mut writer, mut bench) = open::<24, 8>(rt.alloc(), Config::default())?;
    let mut pass = bench.register(&table, 0).expect(&rt, "a pass");
    look_up_four(&rt, &table, &mut writer, &mut pass);
    close(table, writer, bench);
    Ok(())
}

// The next hop of the address is this one, by the version that stands.
fn assert_hop(
    rt: &impl Abort,
    table: &SmallTable,
    pass: &mut Pass,
    addr: u32,
    found: (Option<u32>, u64),
)
    requires own { pass.old.table ≡ table.now }
    requires online { pass.old.online ≡ true }
    ensures own { pass.new.table ≡ pass.old.table }
    ensures online { pass.new.online ≡ true }
{
    assert!(rt; Shape::<4, 4>::is_addr(addr));
    let answer = pass.lookup(table, addr);
    let (number, version) = found;
    let found = (hop_number(answer.hop), answer.lo, answer.hi);
    assert_at(rt, addr, found, (number, version, version));
}

// The rules that the table was loaded with are version 0, and a delete makes the next one.
fn look_up_and_delete(
    rt: &impl Abort,
    table: &SmallTable,
    writer: &mut SmallWriter,
    pass: &mut Pass,
)
    requires writer { writer.old.identity ≡ table.now }
    requires pass { (pass.old.table ≡ table.now) × (pass.old.online ≡ false) }
{
    pass.online(table);
    assert_hop(rt, table, pass, 0x12, (Some(5), 0));
    assert_hop(rt, table, pass, 0x3f, (Some(6), 0));
    change(rt, table, writer, Change::Delete, (0x12, 8, 5));
    assert_hop(rt, table, pass, 0x12, (None, 1));
    let counts = writer.counts();
    assert_at(
        rt,
        "groups",
        (counts.in_use, counts.limbo, counts.free),
        (0, 1, 0),
    );
}

// A table that was loaded on one thread goes on, and counts its versions from there.
#[test]
fn going_live(rt: HostRuntime) {
    let mut fib = Fib::<4, 4>::open(rt.alloc(), SMALL).expect(&rt, "memory");
    let first = rule_of::<4, 4>((0x12, 8, 5)).expect(&rt, "a rule");
    let other = rule_of::<4, 4>((0x30, 4, 6)).expect(&rt, "a rule");
    // What a proof has to know of both: it knows it of these, and not of `assert_at`.
    assert_eq!(rt; fib.add(&first.prefix, first.hop), Ok(Put::Added));
    assert_eq!(rt; fib.add(&other.prefix, other.hop), Ok(Put::Added));
    let (table, mut writer, mut bench) = go_live(rt.alloc(), fib).expect(&rt, "memory");
    let mut pass = bench.register(&table, 0).expect(&rt, "a pass");
    look_up_and_delete(&rt, &table, &mut writer, &mut pass);
    close(table, writer, bench);
}
