//! A synchronize of the writer, which waits for the workers.

ghost use Rattle.std.specs.Prelude.{◌≡◌, ◌+◌, ◌^◌, ◌<◌, ◌≤◌, ◌↔◌, All, IsErr, OnOk, OnErr};
ghost use Rattle.lpm_trace.specs.Laws.{IsChecked};
ghost use Rattle.lpm_writer.specs.Limbo.{tokens_of};
ghost use Rattle.lpm_writer.specs.Steps.{Synchronizes};
ghost use Rattle.lpm_writer.specs.Commands.{IsWaiting, Rests};
ghost use Rattle.shared_words.specs.Layout.{initial_state_of};
ghost use Rattle.shared_words.specs.Rule.{IsLater};
ghost use Rattle.shared_words.specs.Seats.{IsOf};
ghost use Rattle.shared_fib.specs.LentSeats.{SharedDid, passed_by, token_by};
ghost use Rattle.shared_fib.specs.Grace.{PassesAtLast};
ghost use Rattle.shared_fib.specs.RunningTable.{IsSoundWriter, OnlySees, passed_of, steps_of, token_of};

use crate::table::Words;
use crate::{SharedMemory, SharedTable, Writer};
use lpm_writer::{ControlState, Exhausted, check_synchronize, start_synchronize};
use shared_words::WriterSeat;
use std::sync::Wait;
use std::thread::yield_now;

/// Checks the token that was just started, again and again, until a check passes.
fn check_until_passed<const FIRST: u32, const SECOND: u32, R: Wait>(
    rt: &R,
    control: &mut ControlState<FIRST, SECOND>,
    memory: &mut SharedMemory<'_, FIRST, SECOND>,
)
    requires did { SharedDid memory.old (initial_state_of memory.old.view.initial)
        memory.old.view.writer_steps }
    requires waits { IsWaiting FIRST SECOND (initial_state_of memory.old.view.initial)
        memory.old.view.writer_steps control.old.config control.old.rules control.old.pool control.old.versions }
    ensures passes { PassesAtLast (initial_state_of memory.old.view.initial) memory.old.view.writer_steps
        memory.new.view.writer_steps }
    ensures queued { 0 < control.old.config.workers
        → All (λ token. token ≤ passed_by memory.new.view)
        (tokens_of control.new.pool.queue.items) }
    ensures rests { Rests (initial_state_of memory.new.view.initial) memory.new.view.writer_steps
        control.new }
    ensures same { control.new ≡ record control.old {
      pool = record control.old.pool { passed = control.new.pool.passed };
    } }
    ensures name { memory.new.name ≡ memory.old.name }
    ensures table { memory.new.table ≡ memory.old.table }
    ensures view { OnlySees memory.old.view memory.new.view }
{
    for _ in rt.forever() {
        match check_synchronize(control, memory) {
            Ok(()) => return,
            Err(_) => yield_now(),
        }
    }
    unreachable!()
}

fn start_and_check<const FIRST: u32, const SECOND: u32, R: Wait>(
    rt: &R,
    control: &mut ControlState<FIRST, SECOND>,
    memory: &mut SharedMemory<'_, FIRST, SECOND>,
) -> Result<(), Exhausted>
    requires did { SharedDid memory.old (initial_state_of memory.old.view.initial)
        memory.old.view.writer_steps }
    requires rests { Rests (initial_state_of memory.old.view.initial) memory.old.view.writer_steps
        control.old }
    ensures exhausted { IsErr result
        ↔ (2 ^ 62 < token_by memory.old.view + control.old.config.groups) }
    ensures synchronizes { OnOk result (Synchronizes memory.old.view.initial.workers
        memory.old.view.initial.token memory.old.view.writer_steps memory.new.view.writer_steps) }
    ensures queued { OnOk result (0 < control.old.config.workers
        → All (λ token. token ≤ passed_by memory.new.view)
        (tokens_of control.new.pool.queue.items)) }
    ensures rests { Rests (initial_state_of memory.new.view.initial) memory.new.view.writer_steps
        control.new }
    ensures same { control.new ≡ record control.old {
      pool = record control.old.pool { passed = control.new.pool.passed };
    } }
    ensures unchanged { OnErr result (control.new ≡ control.old) }
    ensures untouched { OnErr result (memory.new ≡ memory.old) }
    ensures name { memory.new.name ≡ memory.old.name }
    ensures table { memory.new.table ≡ memory.old.table }
    ensures view { OnlySees memory.old.view memory.new.view }
{
    start_synchronize(control, memory)?;
    check_until_passed(rt, control, memory);
    Ok(())
}

fn synchronize_by<const FIRST: u32, const SECOND: u32, R: Wait>(
    rt: &R,
    control: &mut ControlState<FIRST, SECOND>,
    seat: &mut WriterSeat,
    table: &Words<FIRST, SECOND>,
) -> Result<(), Exhausted>
    requires own { IsOf table.now seat.old.table seat.old.view }
    requires ready { IsSoundWriter FIRST SECOND control.old seat.old.view }
    ensures exhausted { IsErr result
        ↔ (2 ^ 62 < token_by seat.old.view + control.old.config.groups) }
    ensures synchronizes { OnOk result (Synchronizes seat.old.view.initial.workers
        seat.old.view.initial.token seat.old.view.writer_steps seat.new.view.writer_steps) }
    ensures started { OnOk result (token_by seat.new.view
        ≡ token_by seat.old.view + 1) }
    ensures checked { OnOk result (IsChecked seat.new.view.initial.workers
        seat.new.view.initial.token seat.new.view.writer_steps (token_by seat.new.view)) }
    ensures queued { OnOk result (0 < control.old.config.workers
        → All (λ token. token ≤ passed_by seat.new.view)
        (tokens_of control.new.pool.queue.items)) }
    ensures ready { IsSoundWriter FIRST SECOND control.new seat.new.view }
    ensures same { control.new ≡ record control.old {
      pool = record control.old.pool { passed = control.new.pool.passed };
    } }
    ensures unchanged { OnErr result (control.new ≡ control.old) }
    ensures untouched { OnErr result (seat.new.view ≡ seat.old.view) }
    ensures seat { seat.new.table ≡ seat.old.table }
    ensures view { OnlySees seat.old.view seat.new.view }
    ensures later { IsLater seat.old.view.writer_steps seat.new.view.writer_steps }
{
    let mut memory = SharedMemory::new(table, seat);
    let came = start_and_check(rt, control, &mut memory);
    memory.into_seat();
    seat.steps_are_lawful();
    came
}

impl<const FIRST: u32, const SECOND: u32> Writer<FIRST, SECOND> {
    /// Starts a token and checks it again and again until a check passes. It waits for workers that are
    /// online and hold the token, so it returns only if each of them reports or goes offline. Once it has
    /// returned `Ok`, each worker's counter was loaded after the token was there, and was 0 or at least the
    /// token; and no group that was queued before is held at any later check.
    ///
    /// `Exhausted` where fewer tokens than groups are left; nothing was written then.
    pub fn synchronize<R: Wait>(
        &mut self,
        rt: &R,
        table: &SharedTable<FIRST, SECOND>,
    ) -> Result<(), Exhausted>
        requires own { self.old.identity ≡ table.now }
        ensures exhausted { IsErr result
            ↔ (2 ^ 62 < token_of self.old + self.old.config.groups) }
        ensures synchronizes { OnOk result (Synchronizes table.now.initial.workers
            table.now.initial.token (steps_of self.old) (steps_of self.new)) }
        ensures started { OnOk result (token_of self.new ≡ token_of self.old + 1) }
        ensures checked { OnOk result (IsChecked table.now.initial.workers
            table.now.initial.token (steps_of self.new) (token_of self.new)) }
        ensures queued { OnOk result (0 < self.old.config.workers
            → All (λ token. token ≤ passed_of self.new) self.new.table.limbo) }
        ensures same { self.new ≡ record self.old {
          table = record self.old.table { readers = steps_of self.new };
        } }
        ensures later { IsLater (steps_of self.old) (steps_of self.new) }
        ensures unchanged { OnErr result (self.new ≡ self.old) }
    {
        synchronize_by(rt, &mut self.control, &mut self.seat, &table.words)
    }
}
