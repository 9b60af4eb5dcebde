//! Many addresses, answered in pieces.
ghost use Rattle.std.specs.Prelude.{◌≡◌, All};
ghost use Rattle.bulk.specs.Desks.{IsDeskOf};
ghost use Rattle.shared_fib.specs.Passes.{IsFullBench};

use super::asserts::assert_at;
use super::changes::{Ipv4Table, Ipv4Writer, SmallTable, SmallWriter, close};
use bulk::{BulkError, Desk, Open, bulk, bulk_plain, piece_start, seat_all};
use fib::Fib;
use lpm_bits::Hop;
use lpm_limits::{Config, Refusal};
use lpm_rules::{Put, Rule};
use shared_fib::Bench;
use std::alloc::Global;
use std::process::Abort;
use std::test::Fail;
use std::thread::Threads;
use test_support::{Meeting, THREE, other_hop, rule_of};

fn add_three(rt: &impl Abort, fib: &mut Fib<24, 8>) {
    for plain in &THREE {
        let Rule { prefix, hop } = rule_of::<24, 8>(*plain).expect(rt, "a rule");
        assert_at(rt, *plain, fib.add(&prefix, hop), Ok(Put::Added));
    }
}

// 10.1.1.127, 10.1.1.128, 10.2.0.0, 11.0.0.0 and 10.1.1.255.
static FIVE: [u32; 5] = [
    0x0a01_017f,
    0x0a01_0180,
    0x0a02_0000,
    0x0b00_0000,
    0x0a01_01ff,
];

// The numbers of their next hops.
static NUMBERS: [Option<u32>; 5] = [Some(2), Some(3), Some(1), None, Some(3)];

// The next hops of the five addresses, as so many workers found them.
fn assert_hops(rt: &impl Abort, workers: usize, hops: &[Option<Hop>]) {
    assert_at(rt, (workers, "place"), other_hop(hops, &NUMBERS), None);
}

// The five addresses, by a table of one thread with so many workers.
fn assert_five<R: Abort + Threads + Sync>(rt: &R, alloc: Global, fib: &Fib<24, 8>, workers: usize) {
    let answered = bulk_plain(rt, alloc, fib, workers, &FIVE, &Open);
    assert_hops(rt, workers, &answered.expect(rt, "answers"));
}

// Among the numbers of workers are more than addresses, and far more.
fn assert_five_in_pieces<R: Abort + Threads + Sync>(rt: &R, alloc: Global, fib: &Fib<24, 8>) {
    for workers in [1, 2, 3, 8, 4_000] {
        assert_five(rt, alloc, fib, workers);
    }
}

#[test]
fn pieces(rt: HostRuntime) {
    let mut fib = Fib::open(rt.alloc(), Config::default()).expect(&rt, "memory");
    add_three(&rt, &mut fib);
    assert_five_in_pieces(&rt, rt.alloc(), &fib);
    drop(fib);
}

// Five addresses, in as many pieces as there are ends.
fn assert_ends(rt: &impl Abort, ends: &[usize]) {
    let workers = ends.len();
    for i in 0..workers {
        assert_at(rt, (i, workers), piece_start(i + 1, 5, workers), ends[i]);
    }
}

// Adds the three rules. The error is want of memory: it ends a test by its result, where an assertion stops it.
fn add_rules(rt: &impl Abort, table: &Ipv4Table, writer: &mut Ipv4Writer) -> Result<(), Refusal>
    requires own { writer.old.identity ≡ table.now }
    ensures own { writer.new.identity ≡ writer.old.identity }
{
    for plain in &THREE {
        let Rule { prefix, hop } = rule_of::<24, 8>(*plain).expect(rt, "a rule");
        writer.add(table, &prefix, hop)?;
    }
    Ok(())
}

// The five addresses twice, by these desks: a call to which memory is refused leaves them as they were.
fn assert_five_at_desks<R: Abort + Threads + Sync>(
    rt: &R,
    alloc: Global,
    table: &Ipv4Table,
    writer: &mut Ipv4Writer,
    desks: &mut [Desk],
) -> Result<(), BulkError>
    requires own { writer.old.identity ≡ table.now }
    requires desks { All (IsDeskOf table.now) desks.old }
{
    let workers = desks.len();
    let first = bulk(rt, alloc, table, writer, desks, &FIVE, &Open);
    let again = bulk(rt, alloc, table, writer, desks, &FIVE, &Open);
    match first {
        Ok(hops) => {
            assert_hops(rt, workers, &hops);
            assert_hops(rt, workers, &again?);
        }
        Err(error) => {
            assert_at(rt, workers, error, BulkError::Memory);
            assert_hops(rt, workers, &again.expect(rt, "answers"));
        }
    }
    Ok(())
}

// The five addresses, by a running table that takes the rules, with so many workers.
fn assert_five_by_desks<R: Abort + Threads + Sync>(
    rt: &R,
    alloc: Global,
    table: &Ipv4Table,
    writer: &mut Ipv4Writer,
    bench: &mut Bench,
    workers: usize,
) -> Result<(), Fail>
    requires own { writer.old.identity ≡ table.now }
    requires full { IsFullBench table.now bench.old }
    requires workers { workers ≡ table.now.initial.workers }
{
    add_rules(rt, table, writer)?;
    let mut desks = seat_all(alloc, table, bench, workers)?;
    assert_five_at_desks(rt, alloc, table, writer, &mut desks)?;
    Ok(())
}

// The five addresses, by a running table with so many workers.
fn five_by_a_running_table<R: Abort + Threads + Sync>(
    rt: &R,
    alloc: Global,
    workers: usize,
) -> Result<(), Fail> {
    let config = Config {
        workers,
        ..Config::default()
    };
    let (table, mut writer, mut bench) = shared_fib::open(alloc, config)?;
    let answered = assert_five_by_desks(rt, alloc, &table, &mut writer, &mut bench, workers);
    close(table, writer, bench);
    answered
}

// Where a growth of the first call of `bulk` is refused (`tools/try_program.py` refuses each), the second one
// answers. Where another is, want of memory is the result.
#[test]
fn five_addresses_by_a_running_table(rt: HostRuntime) -> Result<(), Fail> {
    for workers in [1, 2, 3, 8] {
        five_by_a_running_table(&rt, rt.alloc(), workers)?;
    }
    Ok(())
}

#[test]
fn pieces_end_at_borders(rt: HostRuntime) {
    assert_ends(&rt, &[5]);
    assert_ends(&rt, &[2, 5]);
    assert_ends(&rt, &[1, 3, 5]);
    assert_ends(&rt, &[0, 1, 1, 2, 3, 3, 4, 5]);
    assert_at(&rt, "the most", piece_start(3, usize::MAX, 3), usize::MAX);
}

fn small(rt: &impl Abort, alloc: Global) -> Fib<4, 4> {
    Fib::open(alloc, Config::default()).expect(rt, "memory")
}

// No address has no answer, and no worker answers none.
fn assert_nothing<R: Abort + Threads + Sync>(rt: &R, alloc: Global, fib: &Fib<4, 4>) {
    let answered = bulk_plain(rt, alloc, fib, 3, &[], &Open);
    assert_at(rt, "no addresses", answered.expect(rt, "answers").len(), 0);
    let refused = bulk_plain(rt, alloc, fib, 0, &[1], &Open).err();
    assert_at(rt, "no workers", refused, Some(BulkError::NoWorkers));
}

#[test]
fn no_addresses_and_no_workers(rt: HostRuntime) {
    let fib = small(&rt, rt.alloc());
    assert_nothing(&rt, rt.alloc(), &fib);
    drop(fib);
}

static EIGHT: [u32; 8] = [1, 2, 3, 4, 5, 6, 7, 8];

// Two pieces of eight addresses, by a table of one thread.
fn meet_by_a_table<R: Abort + Threads + Sync>(rt: &R, alloc: Global, fib: &Fib<4, 4>) {
    let gate = Meeting::new();
    let answered = bulk_plain(rt, alloc, fib, 2, &EIGHT, &gate);
    let answers = answered.expect(rt, "answers").len();
    assert_at(rt, "answers", answers, EIGHT.len());
    assert_at(rt, "met", gate.is_kept(), true);
}

#[test]
fn two_pieces_see_each_other(rt: HostRuntime) {
    let fib = small(&rt, rt.alloc());
    meet_by_a_table(&rt, rt.alloc(), &fib);
    drop(fib);
}

// Two pieces of eight addresses, at these desks of a running table.
fn meet_at_desks<R: Abort + Threads + Sync>(
    rt: &R,
    alloc: Global,
    table: &SmallTable,
    writer: &mut SmallWriter,
    desks: &mut [Desk],
)
    requires own { writer.old.identity ≡ table.now }
    requires desks { All (IsDeskOf table.now) desks.old }
    ensures own { writer.new.identity ≡ writer.old.identity }
{
    let gate = Meeting::new();
    let answered = bulk(rt, alloc, table, writer, desks, &EIGHT, &gate);
    let answers = answered.expect(rt, "answers").len();
    assert_at(rt, "answers", answers, EIGHT.len());
    assert_at(rt, "met", gate.is_kept(), true);
}

fn assert_no_desks<R: Abort + Threads + Sync>(
    rt: &R,
    alloc: Global,
    table: &SmallTable,
    writer: &mut SmallWriter,
)
    requires own { writer.old.identity ≡ table.now }
{
    let refused = bulk(rt, alloc, table, writer, &mut [], &EIGHT, &Open).err();
    assert_at(rt, "no desks", refused, Some(BulkError::NoWorkers));
}

// Two pieces of eight addresses by a running table with two workers, and then none.
fn meet_by_a_running_table<R: Abort + Threads + Sync>(
    rt: &R,
    alloc: Global,
    table: &SmallTable,
    writer: &mut SmallWriter,
    bench: &mut Bench,
)
    requires own { writer.old.identity ≡ table.now }
    requires full { IsFullBench table.now bench.old }
    requires workers { 2 ≡ table.now.initial.workers }
{
    let mut desks = seat_all(alloc, table, bench, 2).expect(rt, "desks");
    meet_at_desks(rt, alloc, table, writer, &mut desks);
    assert_no_desks(rt, alloc, table, writer);
}

#[test]
fn two_pieces_of_a_running_table_see_each_other(rt: HostRuntime) {
    let config = Config {
        workers: 2,
        ..Config::default()
    };
    let alloc = rt.alloc();
    let (table, mut writer, mut bench) = shared_fib::open::<4, 4>(alloc, config).expect(
        &rt, "memory",
    );
    meet_by_a_running_table(&rt, alloc, &table, &mut writer, &mut bench);
    close(table, writer, bench);
}
