//! A grace period that doesn't block: a token is started, and checked again whenever the program likes.

ghost use Rattle.std.specs.Prelude.{◌≡◌, ◌+◌, ◌^◌, ◌<◌, ◌≤◌, ◌↔◌, ◌∷◌, All, IfErr, IfOk, IsErr, OnErr, OnOk, Ok, Err};
ghost use Rattle.lpm_trace.specs.declared.step.WriterStep.TheVariants.{BumpToken};
ghost use Rattle.lpm_trace.specs.Laws.{IsChecked};
ghost use Rattle.lpm_writer.specs.Steps.{Checks};
ghost use Rattle.lpm_writer.specs.Limbo.{tokens_of};
ghost use Rattle.shared_words.specs.Seats.{IsOf, with_step};
ghost use Rattle.shared_fib.specs.LentSeats.{passed_by, token_by};
ghost use Rattle.shared_fib.specs.Grace.{IsInGrace};
ghost use Rattle.shared_fib.specs.RunningTable.{IsSoundWriter, OnlySees, passed_of, state_by, steps_of, token_of};

use crate::table::Words;
use crate::{SharedMemory, SharedTable, Writer};
use lpm_limits::Busy;
use lpm_writer::{ControlState, Exhausted, check_synchronize, start_synchronize};
use shared_words::WriterSeat;
use std::marker::Model;

/// The writer of a running table while a grace period lasts: a token was started, and no check of it has
/// passed. The check gives the writer back once it passes; until then there are no changes. Where this is
/// dropped the passes go on, and nobody changes the table any more.
#[derive(Drop)]
pub struct GracePeriod<const FIRST: u32, const SECOND: u32> {
    control: ControlState<FIRST, SECOND>,
    seat: WriterSeat,
}

impl<const FIRST: u32, const SECOND: u32> Model for GracePeriod<FIRST, SECOND> {
    ghost use Rattle.shared_fib.specs.Grace.{IsInGrace};
    ghost use Rattle.shared_fib.specs.RunningTable.{WriterState, coded_writer, state_by};

    ghost Value = { WriterState };

    ghost coded = { coded_writer };

    ghost view = { λ g. record {
      identity = record { words = g.seat.table; initial = g.seat.view.initial };
      config = g.control.config;
      table = state_by g.control g.seat.view;
    } };

    ghost invariant = { λ g. IsInGrace FIRST SECOND g.control g.seat.view };
}

/// A grace period that wasn't started: fewer tokens than groups are left.
#[derive(Drop)]
pub struct NotStarted<const FIRST: u32, const SECOND: u32> {
    /// The writer as it was.
    pub writer: Writer<FIRST, SECOND>,
}

/// A grace period that isn't over: a worker holds what was given up before it.
#[derive(Drop)]
pub struct Held<const FIRST: u32, const SECOND: u32> {
    /// The grace period, which goes on.
    pub period: GracePeriod<FIRST, SECOND>,
    /// The first worker that holds the token.
    pub busy: Busy,
}

/// Starts a token through the writer's seat.
fn start_token<const FIRST: u32, const SECOND: u32>(
    control: &ControlState<FIRST, SECOND>,
    seat: &mut WriterSeat,
    table: &Words<FIRST, SECOND>,
) -> Result<(), Exhausted>
    requires own { IsOf table.now seat.old.table seat.old.view }
    requires ready { IsSoundWriter FIRST SECOND control.now seat.old.view }
    ensures exhausted { IsErr result
        ↔ (2 ^ 62 < token_by seat.old.view + control.now.config.groups) }
    ensures started { OnOk result
        (seat.new.view ≡ with_step seat.old.view BumpToken) }
    ensures waits { OnOk result (IsInGrace FIRST SECOND control.now seat.new.view) }
    ensures untouched { OnErr result (seat.new.view ≡ seat.old.view) }
    ensures seat { seat.new.table ≡ seat.old.table }
{
    let mut memory = SharedMemory::new(table, seat);
    let came = start_synchronize(control, &mut memory);
    memory.into_seat();
    came
}

/// Checks the token that was started.
fn check_started_token<const FIRST: u32, const SECOND: u32>(
    control: &mut ControlState<FIRST, SECOND>,
    seat: &mut WriterSeat,
    table: &Words<FIRST, SECOND>,
) -> Result<(), Busy>
    requires own { IsOf table.now seat.old.table seat.old.view }
    requires waits { IsInGrace FIRST SECOND control.old seat.old.view }
    ensures checks { Checks seat.old.view.initial.workers seat.old.view.writer_steps
        (token_by seat.old.view) result seat.new.view.writer_steps }
    ensures token { token_by seat.new.view
        ≡ token_by seat.old.view }
    ensures checked { OnOk result (IsChecked seat.old.view.initial.workers
        seat.old.view.initial.token seat.new.view.writer_steps (token_by seat.old.view)) }
    ensures queued { OnOk result (0 < control.old.config.workers
        → All (λ token. token ≤ passed_by seat.new.view)
        (tokens_of control.new.pool.queue.items)) }
    ensures ready { OnOk result (IsSoundWriter FIRST SECOND control.new seat.new.view) }
    ensures waits { OnErr result (IsInGrace FIRST SECOND control.new seat.new.view) }
    ensures same { control.new ≡ record control.old {
      pool = record control.old.pool { passed = control.new.pool.passed };
    } }
    ensures seat { seat.new.table ≡ seat.old.table }
    ensures view { OnlySees seat.old.view seat.new.view }
{
    let mut memory = SharedMemory::new(table, seat);
    let came = check_synchronize(control, &mut memory);
    memory.into_seat();
    came
}

impl<const FIRST: u32, const SECOND: u32> Writer<FIRST, SECOND> {
    /// Starts a grace period: a token, which the program then checks as often as it likes. It never waits.
    /// Readers go on meanwhile; the writer is back once a check has passed.
    ///
    /// The error, which gives the writer back as it was, comes exactly where fewer tokens than groups are
    /// left.
    pub fn begin_grace_period(
        self,
        table: &SharedTable<FIRST, SECOND>,
    ) -> Result<GracePeriod<FIRST, SECOND>, NotStarted<FIRST, SECOND>>
        requires own { self.identity ≡ table.now }
        ensures exhausted { IsErr result
            ↔ (2 ^ 62 < token_of self.entry + self.entry.config.groups) }
        ensures starts { IfOk result (λ period. period ≡ record self.entry {
          table = record self.entry.table { readers = BumpToken ∷ steps_of self.entry };
        }) }
        ensures started { IfOk result
            (λ period. token_of period ≡ token_of self.entry + 1) }
        ensures unchanged { IfErr result (λ not_started. not_started.writer ≡ self.entry) }
    {
        let Writer { control, mut seat } = self;
        match start_token(&control, &mut seat, &table.words) {
            Ok(()) => Ok(GracePeriod::new(control, seat)),
            Err(Exhausted) => Err(NotStarted {
                writer: Writer::new(control, seat),
            }),
        }
    }
}

impl<const FIRST: u32, const SECOND: u32> GracePeriod<FIRST, SECOND> {
    // The grace period of this control state and this seat.
    fn new(control: ControlState<FIRST, SECOND>, seat: WriterSeat) -> Self
        requires { IsInGrace FIRST SECOND control seat.view }
        ensures { result ≡ record {
          identity = record { words = seat.table; initial = seat.view.initial };
          config = control.entry.config;
          table = state_by control.entry seat.view;
        } }
    {
        GracePeriod { control, seat }
    }

    /// Checks the token once: it loads each worker's counter, up to the first that is neither 0 nor at
    /// least the token. It never waits.
    ///
    /// Where all let the token pass the grace period is over, and the writer is back: each worker's counter
    /// was loaded after the token was there, and no group that was queued before is held at any later
    /// check. The error gives the grace period back, and names the worker that holds the token.
    pub fn try_end(
        self,
        table: &SharedTable<FIRST, SECOND>,
    ) -> Result<Writer<FIRST, SECOND>, Held<FIRST, SECOND>>
        requires own { self.identity ≡ table.now }
        ensures passes { IfOk result (λ writer. Checks table.now.initial.workers (steps_of self.entry)
            (token_of self.entry) (Ok tt) (steps_of writer)) }
        ensures checked { IfOk result (λ writer. IsChecked table.now.initial.workers
            table.now.initial.token (steps_of writer) (token_of self.entry)) }
        ensures queued { IfOk result (λ writer. 0 < self.entry.config.workers
            → All (λ token. token ≤ passed_of writer) writer.table.limbo) }
        ensures same { IfOk result (λ writer. writer ≡ record self.entry {
          table = record self.entry.table { readers = steps_of writer };
        }) }
        ensures token { IfOk result (λ writer. token_of writer ≡ token_of self.entry) }
        ensures stopped { IfErr result (λ held. Checks table.now.initial.workers (steps_of self.entry)
            (token_of self.entry) (Err held.busy) (steps_of held.period)) }
        ensures goes_on { IfErr result (λ held. held.period ≡ record self.entry {
          table = record self.entry.table { readers = steps_of held.period };
        }) }
        ensures waits { IfErr result
            (λ held. token_of held.period ≡ token_of self.entry) }
    {
        let GracePeriod {
            mut control,
            mut seat,
        } = self;
        match check_started_token(&mut control, &mut seat, &table.words) {
            Ok(()) => Ok(Writer::new(control, seat)),
            Err(busy) => Err(Held {
                period: GracePeriod::new(control, seat),
                busy,
            }),
        }
    }
}
