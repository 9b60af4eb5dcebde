//! The results of a storm: what is done and counted when its threads have ended.

ghost use Rattle.std.specs.Prelude.{◌≡◌, ◌+◌, ◌^◌, ◌<◌, ◌≤◌, [], ◌∷◌, ◌++◌, true, All, IfOk, MatchOption, OnErr, OnOk, length, map, drop};
ghost use Rattle.shared_fib.specs.RunningTable.{initial_state, steps_of, token_of};
ghost use Rattle.audit.specs.Wrong.{AreWrong, version_of};
ghost use Rattle.storm.specs.Writer.{addition_of, changes_by, change_by, is_refused, refused_among};
ghost use Rattle.storm.specs.Workers.{AreInSeats, HasAnswered, IsOver, answers_of_workers, number_of};
ghost use Rattle.storm.specs.Storm.{IsCountOf, Settles};

use crate::workers::Worker;
use audit::{Past, TableCounts};
use fib_model::{Order, Outcome};
use lpm_rules::{Change, Put, Rule};
use lpm_writer::Exhausted;
use shared_fib::{SharedTable, Writer};
use std::alloc::{AllocError, Global};
use std::sync::Wait;
use std::thread::Threads;

/// The worker's pass meets the writer: it has seen all that the writer has done.
fn meet_worker<const FIRST: u32, const SECOND: u32>(
    table: &SharedTable<FIRST, SECOND>,
    writer: &mut Writer<FIRST, SECOND>,
    worker: &mut Worker,
    addrs: &[u32],
    rounds: usize,
)
    requires own { writer.old.identity ≡ table.now }
    requires over { IsOver table.now addrs.now rounds worker.old }
    requires done { worker.old.is_done ≡ true }
    ensures same { writer.new ≡ writer.old }
    ensures seat { number_of worker.new ≡ number_of worker.old }
    ensures answered { HasAnswered table.now addrs.now rounds (steps_of writer.old) worker.new }
{
    let _ = addrs;
    let _ = rounds;
    worker.pass.meet(table, writer);
    worker.pass.history_is_sound();
}

/// Each worker's pass meets the writer.
pub fn meet_all<const FIRST: u32, const SECOND: u32>(
    table: &SharedTable<FIRST, SECOND>,
    writer: &mut Writer<FIRST, SECOND>,
    workers: &mut [Worker],
    addrs: &[u32],
    rounds: usize,
)
    requires own { writer.old.identity ≡ table.now }
    requires over { All (IsOver table.now addrs.now rounds) workers.old }
    requires done { All (λ w. w.is_done ≡ true) workers.old }
    requires seats { AreInSeats workers.old }
    ensures same { writer.new ≡ writer.old }
    ensures seats { AreInSeats workers.new }
    ensures len { length workers.new ≡ length workers.old }
    ensures answered { All (HasAnswered table.now addrs.now rounds (steps_of writer.old)) workers.new }
{
    for number in 0..workers.len() {
        meet_worker(table, writer, &mut workers[number], addrs, rounds);
    }
}

/// Synchronizes, and then frees all groups that wait. No worker is online any more, so none holds one.
pub fn settle<R: Wait, const FIRST: u32, const SECOND: u32>(
    rt: &R,
    table: &SharedTable<FIRST, SECOND>,
    writer: &mut Writer<FIRST, SECOND>,
) -> Result<(), Exhausted>
    requires own { writer.old.identity ≡ table.now }
    requires some { 0 < writer.old.config.workers }
    requires workers { (initial_state table.now).workers ≡ writer.old.config.workers }
    ensures settles { OnOk result (Settles table.now writer.old writer.new) }
    ensures own { writer.new.identity ≡ writer.old.identity }
    ensures config { writer.new.config ≡ writer.old.config }
    ensures exhausted { OnErr result
        (2 ^ 62 < token_of writer.old + writer.old.config.groups) }
{
    writer.synchronize(rt, table)?;
    let waiting = writer.counts().limbo;
    let _ = writer.reclaim(table, waiting);
    writer.table_rests();
    Ok(())
}

/// What the table counts.
pub fn report_of<const FIRST: u32, const SECOND: u32>(
    table: &SharedTable<FIRST, SECOND>,
    writer: &mut Writer<FIRST, SECOND>,
) -> TableCounts
    requires own { writer.old.identity ≡ table.now }
    ensures same { writer.new ≡ writer.old }
    ensures counts { IsCountOf FIRST SECOND writer.old.table writer.old.config.groups
        (token_of writer.old) result }
{
    let counts = writer.counts();
    TableCounts {
        rules: writer.rules(),
        versions: writer.versions(),
        in_use: counts.in_use,
        limbo: counts.limbo,
        free: counts.free,
        token: writer.token(table),
    }
}

/// The change of the rule list that a command made, by what came of it.
fn change_of<const FIRST: u32, const SECOND: u32>(
    order: &Order<FIRST, SECOND>,
    outcome: &Outcome,
) -> Option<Change<FIRST, SECOND>>
    ensures { MatchOption result (change_by order.now outcome.now ≡ [])
        (λ change. change_by order.now outcome.now ≡ change ∷ []) }
{
    match order {
        Order::Add(prefix, hop) => match outcome {
            Outcome::Put(Put::Added) => return Some(Change::Add(*prefix, *hop)),
            Outcome::Put(Put::Replaced) => return Some(Change::Add(*prefix, *hop)),
            _ => return None,
        },
        Order::Del(prefix) => match outcome {
            Outcome::Deleted(_) => return Some(Change::Delete(*prefix)),
            _ => return None,
        },
        Order::Flush => match outcome {
            Outcome::Flushed(count) => {
                if *count == 0 {
                    return None;
                }
                return Some(Change::Flush);
            }
            _ => return None,
        },
        _ => return None,
    }
}

/// The changes that put the rules in, one after another.
fn additions<const FIRST: u32, const SECOND: u32>(
    alloc: Global,
    rules: &[Rule<FIRST, SECOND>],
) -> Result<Vec<Change<FIRST, SECOND>>, AllocError>
    ensures { IfOk result (λ v. v.items ≡ map addition_of rules.now) }
{
    let mut changes = Vec::with_capacity(alloc, rules.len())?;
    for rule in rules {
        changes.push(Change::Add(rule.prefix, rule.hop))?;
    }
    Ok(changes)
}

/// Adds the changes that made a version of the rule list, in order.
fn push_accepted<const FIRST: u32, const SECOND: u32>(
    changes: &mut Vec<Change<FIRST, SECOND>>,
    orders: &[Order<FIRST, SECOND>],
    outcomes: &[Outcome],
) -> Result<(), AllocError>
    requires { length outcomes.now ≡ length orders.now }
    ensures { OnOk result (changes.new.items ≡ changes.old.items ++ changes_by orders.now outcomes.now) }
{
    for index in 0..orders.len() {
        if let Some(change) = change_of(&orders[index], &outcomes[index]) {
            changes.push(change)?;
        }
    }
    Ok(())
}

/// The changes that put the first rules in, and then those that made a version of the rule list, in order.
pub fn history_of<const FIRST: u32, const SECOND: u32>(
    alloc: Global,
    rules: &[Rule<FIRST, SECOND>],
    orders: &[Order<FIRST, SECOND>],
    outcomes: &[Outcome],
) -> Result<Vec<Change<FIRST, SECOND>>, AllocError>
    requires { length outcomes.now ≡ length orders.now }
    ensures { IfOk result (λ v. v.items
        ≡ map addition_of rules.now ++ changes_by orders.now outcomes.now) }
{
    let mut changes = additions(alloc, rules)?;
    push_accepted(&mut changes, orders, outcomes)?;
    Ok(changes)
}

/// Whether the command was refused.
fn is_refused(outcome: &Outcome) -> bool
    ensures { result ≡ is_refused outcome.now }
{
    match outcome {
        Outcome::Refused(_) => return true,
        Outcome::Put(_) => return false,
        Outcome::Deleted(_) => return false,
        Outcome::Flushed(_) => return false,
        Outcome::Reclaimed(_) => return false,
        Outcome::Told => return false,
    }
}

/// How many of the commands were refused.
pub fn count_refused(outcomes: &[Outcome]) -> u64
    ensures { result ≡ refused_among outcomes.now }
{
    outcomes
        .iter()
        .filter(|outcome| is_refused(outcome))
        .count() as u64
}

/// How many of the workers' answers are of no version of these changes, from this version on.
pub fn count_wrong_answers<R: Threads + Sync, const FIRST: u32, const SECOND: u32>(
    rt: &R,
    alloc: Global,
    history: &[Change<FIRST, SECOND>],
    start: usize,
    workers: &[Worker],
) -> Result<u64, AllocError>
    requires start { start ≤ length history.now }
    requires addrs { All (λ w. All (λ x. x.0 < 2 ^ (FIRST + SECOND)) w.answers.items) workers.now }
    requires few { length (answers_of_workers workers.now) < 2 ^ 63 }
    ensures { IfOk result (AreWrong (version_of history.now start) (drop start history.now)
        (answers_of_workers workers.now)) }
{
    let past = Past::new(alloc, history)?;
    let mut wrong = 0u64;
    for worker in workers {
        wrong += past.count_wrong(rt, alloc, start, &worker.answers)?;
    }
    Ok(wrong)
}
