//! How a running table begins.

ghost use Rattle.std.specs.Prelude.{◌≡◌, ◌↔◌, ℕ, ◌^◌, ◌<◌, ◌≤◌, [], IfOk, IfErr};
ghost use Rattle.std.specs.FinMap as map;
ghost use Rattle.lpm_bits.specs.Widths.{IsShape};
ghost use Rattle.lpm_limits.specs.Limits.{IsConfig};
ghost use Rattle.fib_model.specs.Counters.{by_counters};
ghost use Rattle.fib.specs.Fib.{IsSound};
ghost use Rattle.shared_fib.specs.Initial.{initial_data_by};
ghost use Rattle.lpm_writer.specs.Rest.{blank_initial_state};
ghost use Rattle.shared_fib.specs.InitialTable.{IsInitialTable};
ghost use Rattle.shared_fib.specs.Passes.{IsFullBench};
ghost use Rattle.shared_fib.specs.RunningTable.{initial_data_of, initial_writer, initial_state};

use crate::packed_words::pack_all;
use crate::{Bench, InitialTable, SharedTable, Writer};
use defer_queue::DeferQueue;
use fib::Fib;
use lpm_limits::Config;
use lpm_writer::{ControlState, GroupPool, OpenError, PlainMemory};
use std::alloc::{AllocError, Global};

/// The limits, the queue of the groups that wait, and what a running table is opened with. The words of one
/// thread are given up as soon as they are packed.
fn load<const FIRST: u32, const SECOND: u32>(
    alloc: Global,
    control: ControlState<FIRST, SECOND>,
    memory: PlainMemory<FIRST, SECOND>,
) -> Result<(Config, DeferQueue, InitialTable<FIRST, SECOND>), AllocError>
    requires sound { IsSound FIRST SECOND control memory }
    requires none { control.pool.queue.items ≡ [] }
    ensures config { IfOk result (λ r. r.0 ≡ control.entry.config) }
    ensures rules { IfOk result (λ r. r.2.rules ≡ control.entry.rules) }
    ensures initial { IfOk result (λ r. initial_data_of FIRST SECOND r.2 ≡ initial_data_by FIRST SECOND
        memory.entry.cells control.entry.rules.rules control.entry.pool.groups
        control.entry.config.workers memory.entry.domain.token) }
    ensures loaded { IfOk result (λ r. IsInitialTable FIRST SECOND r.0 r.1 r.2) }
{
    let PlainMemory { cells, domain } = memory;
    let ControlState {
        config,
        rules,
        pool,
        versions: _,
    } = control;
    let GroupPool {
        groups,
        queue,
        passed: _,
    } = pool;
    let (words, layout) = pack_all(alloc, cells, domain.token(), config.workers)?;
    let initial = InitialTable {
        words,
        layout,
        rules,
        groups,
    };
    Ok((config, queue, initial))
}

/// What the writer of a running table keeps at first: the rules that were loaded are version 0, and no token
/// has passed.
fn initial_control<const FIRST: u32, const SECOND: u32>(
    config: Config,
    queue: DeferQueue,
    initial: InitialTable<FIRST, SECOND>,
) -> ControlState<FIRST, SECOND>
    ensures { result ≡ record {
      config = config;
      rules = initial.entry.rules;
      pool = record { groups = initial.entry.groups; queue = queue; passed = 0 };
      versions = 0;
    } }
{
    let InitialTable { rules, groups, .. } = initial;
    let pool = GroupPool {
        groups,
        queue,
        passed: 0,
    };
    ControlState {
        config,
        rules,
        pool,
        versions: 0,
    }
}

/// A running table of these limits that goes on from what was loaded, with the queue of the groups that wait,
/// which is empty.
pub(crate) fn go_on<const FIRST: u32, const SECOND: u32>(
    alloc: Global,
    config: Config,
    queue: DeferQueue,
    initial: InitialTable<FIRST, SECOND>,
) -> Result<(SharedTable<FIRST, SECOND>, Writer<FIRST, SECOND>, Bench), AllocError>
    requires { IsInitialTable FIRST SECOND config queue initial }
    ensures initial { IfOk result (λ r. r.0.initial ≡ initial_data_of FIRST SECOND initial.entry) }
    ensures opened { IfOk result (λ r. r.1 ≡ initial_writer r.0 config initial.entry.rules.rules) }
    ensures token { IfOk result (λ r. r.0.initial.token
        ≡ (initial_data_of FIRST SECOND initial.entry).token) }
    ensures workers { IfOk result (λ r. r.0.initial.workers ≡ initial.entry.layout.workers) }
    ensures bench { IfOk result (λ r. IsFullBench r.0 r.2) }
{
    let list = initial.words.as_slice();
    let (words, mut seat) = shared_words::open(alloc, list, initial.layout, &initial)?;
    let bench = Bench::full(alloc, &words, &mut seat)?;
    let control = initial_control(config, queue, initial);
    Ok((SharedTable::new(words), Writer::new(control, seat), bench))
}

/// A running table that goes on from these parts, where no group waits.
fn begin<const FIRST: u32, const SECOND: u32>(
    alloc: Global,
    control: ControlState<FIRST, SECOND>,
    memory: PlainMemory<FIRST, SECOND>,
) -> Result<(SharedTable<FIRST, SECOND>, Writer<FIRST, SECOND>, Bench), AllocError>
    requires sound { IsSound FIRST SECOND control memory }
    requires none { control.pool.queue.items ≡ [] }
    ensures initial { IfOk result (λ r. r.0.initial ≡ initial_data_by FIRST SECOND memory.entry.cells
        control.entry.rules.rules control.entry.pool.groups control.entry.config.workers
        memory.entry.domain.token) }
    ensures opened { IfOk result (λ r.
        r.1 ≡ initial_writer r.0 control.entry.config control.entry.rules.rules) }
    ensures token { IfOk result (λ r. r.0.initial.token ≡ memory.entry.domain.token) }
    ensures workers { IfOk result (λ r. r.0.initial.workers ≡ control.entry.config.workers) }
    ensures bench { IfOk result (λ r. IsFullBench r.0 r.2) }
{
    let (config, queue, initial) = load(alloc, control, memory)?;
    go_on(alloc, config, queue, initial)
}

/// A running table without rules, its writer, and a pass for each worker, all offline. It refuses limits
/// out of range, and ends with `Memory` where there is no room for the words, the groups or the workers.
pub fn open<const FIRST: u32, const SECOND: u32>(
    alloc: Global,
    config: Config,
) -> Result<(SharedTable<FIRST, SECOND>, Writer<FIRST, SECOND>, Bench), OpenError>
    requires { IsShape FIRST SECOND }
    ensures initial { IfOk result (λ r. initial_state r.0 ≡ blank_initial_state FIRST SECOND config) }
    ensures opened { IfOk result (λ r. r.1 ≡ initial_writer r.0 config map.empty) }
    ensures token { IfOk result (λ r. r.0.initial.token ≡ config.first_token) }
    ensures workers { IfOk result (λ r. r.0.initial.workers ≡ config.workers) }
    ensures bench { IfOk result (λ r. IsFullBench r.0 r.2) }
    ensures limits { IfOk result (λ _. IsConfig config) }
    ensures bad_config { IfErr result
        (λ error. (error ≡ OpenError.BadConfig) ↔ (¬ IsConfig config)) }
{
    let (control, memory) = lpm_writer::open_memory(alloc, config)?;
    Ok(begin(alloc, control, memory)?)
}

/// Takes a table that was loaded on one thread, and goes on with it as a running one: its rules are version
/// 0, and no change of it is counted. What waits in limbo is free again at once, since no worker is online.
///
/// Its words are packed into a list, and given up then. That list is copied into the running table's words,
/// and given up in turn. So two lists of all words are held at once, and no third. A table whose rules are
/// known in order needs no `Fib` before it: [`open_sorted`](crate::open_sorted) sweeps them into the list.
///
/// The error is want of memory. Then the table is gone.
pub fn go_live<const FIRST: u32, const SECOND: u32>(
    alloc: Global,
    mut fib: Fib<FIRST, SECOND>,
) -> Result<(SharedTable<FIRST, SECOND>, Writer<FIRST, SECOND>, Bench), AllocError>
    requires offline { (worker : ℕ) → worker < fib.config.workers
        → ¬ by_counters.is_online fib.table.readers worker }
    ensures opened { IfOk result (λ r. r.1 ≡ initial_writer r.0 fib.entry.config fib.entry.table.rules) }
    ensures token { IfOk result (λ r. r.0.initial.token ≡ fib.entry.table.readers.token) }
    ensures workers { IfOk result (λ r. r.0.initial.workers ≡ fib.entry.config.workers) }
    ensures bench { IfOk result (λ r. IsFullBench r.0 r.2) }
{
    let waiting = fib.counts().limbo;
    let _ = fib.reclaim(waiting);
    let (control, memory) = fib.into_parts();
    begin(alloc, control, memory)
}
