//! A grace period that doesn't block: a token is started, and checked again whenever the program likes.

ghost use Rattle.std.specs.Prelude.{◌≡◌, ◌+◌, ◌^◌, ◌<◌, ◌≤◌, ◌↔◌, ◌∷◌, All, IfErr, IfOk, IsErr, Ok, Err};
ghost use Rattle.std.specs.Arc.{arc_value};
ghost use Rattle.lpm_trace.specs.declared.step.WriterStep.TheVariants.{BumpToken};
ghost use Rattle.lpm_trace.specs.Laws.{IsChecked};
ghost use Rattle.lpm_writer.specs.Steps.{Checks};
ghost use Rattle.shared_fib.specs.Passes.{IsBenchOf, IsPutBack};
ghost use Rattle.shared_fib.specs.RunningTable.{passed_of, steps_of, token_of};
ghost use Rattle.saxiko.specs.Owners.{Registers};

use crate::reader::reader_of_worker;
use crate::{Owner, Reader};
use lpm_limits::{Busy, Refusal};
use shared_fib::{Bench, SharedTable};
use std::marker::Model;
use std::sync::Arc;

/// The owner of a running table while a grace period lasts: a token was started, and no check of it has
/// passed. The check gives the owner back once it passes; until then the table isn't changed, and its
/// readers go on. Where this is dropped they still do, and nobody changes the table any more.
#[derive(Drop)]
pub struct GracePeriod {
    table: Arc<SharedTable<24, 8>>,
    period: shared_fib::GracePeriod<24, 8>,
    bench: Bench,
}

impl Model for GracePeriod {
    ghost use Rattle.std.specs.Prelude.{◌≡◌};
    ghost use Rattle.std.specs.Arc.{arc_value};
    ghost use Rattle.shared_fib.specs.Passes.{IsBenchOf};
    ghost use Rattle.saxiko.specs.Owners.{OwnerState, coded_owner};

    ghost Value = { OwnerState };

    ghost coded = { coded_owner };

    ghost view = { λ g. record { writer = g.period; bench = g.bench } };

    ghost invariant = { λ g. (g.period.identity ≡ arc_value g.table)
        × IsBenchOf (arc_value g.table) g.bench };
}

/// A grace period that wasn't started: fewer tokens than groups are left.
#[derive(Drop)]
pub struct NotStarted {
    /// The owner as it was.
    pub owner: Owner,
}

/// A grace period that isn't over: a reader may hold what was given up before it.
#[derive(Drop)]
pub struct Held {
    /// The grace period, which goes on.
    pub period: GracePeriod,
    /// The first reader that holds the token.
    pub busy: Busy,
}

impl Owner {
    /// Starts a grace period: a token, which the program then checks as often as it likes, as
    /// [`synchronize`](Owner::synchronize) does by itself. It never waits.
    ///
    /// The error, which gives the owner back as it was, comes exactly where fewer tokens than groups are
    /// left.
    pub fn start(self) -> Result<GracePeriod, NotStarted>
        ensures exhausted { IsErr result
            ↔ (2 ^ 62 < token_of self.writer + self.writer.config.groups) }
        ensures starts { IfOk result (λ period. period.writer ≡ record self.writer {
          table = record self.writer.table { readers = BumpToken ∷ steps_of self.writer };
        }) }
        ensures started { IfOk result
            (λ period. token_of period.writer ≡ token_of self.writer + 1) }
        ensures bench { IfOk result (λ period. period.bench ≡ self.bench) }
        ensures unchanged { IfErr result (λ not_started. not_started.owner ≡ self) }
    {
        let Owner {
            table,
            writer,
            bench,
        } = self;
        match writer.begin_grace_period(&*table) {
            Ok(period) => Ok(GracePeriod::new(table, period, bench)),
            Err(not_started) => Err(NotStarted {
                owner: Owner::new(table, not_started.writer, bench),
            }),
        }
    }
}

impl GracePeriod {
    // The grace period of this table, with its writer's and its bench.
    fn new(
        table: Arc<SharedTable<24, 8>>,
        period: shared_fib::GracePeriod<24, 8>,
        bench: Bench,
    ) -> Self
        requires own { period.identity ≡ arc_value table }
        requires bench { IsBenchOf (arc_value table) bench }
        ensures { result ≡ record { writer = period; bench = bench } }
    {
        GracePeriod {
            table,
            period,
            bench,
        }
    }

    /// The reader of the worker of this number, which is offline, as [`Owner::register`] hands it out.
    pub fn register(&mut self, worker: usize) -> Result<Reader, Refusal>
        ensures { Registers self.old worker result self.new }
    {
        reader_of_worker(&self.table, &mut self.bench, worker)
    }

    /// Takes a reader back, as [`Owner::unregister`] does.
    pub fn unregister(&mut self, reader: Reader)
        requires own { reader.table ≡ self.old.writer.identity }
        ensures back { IsPutBack self.old.bench reader self.new.bench }
        ensures own { IsBenchOf self.new.writer.identity self.new.bench }
        ensures same { self.new.writer ≡ self.old.writer }
    {
        self.bench.unregister(&*self.table, reader.into_pass());
    }

    /// Checks the token once: it loads each reader's counter, up to the first that is neither 0 nor at
    /// least the token. It never waits.
    ///
    /// Where all let the token pass the grace period is over, and the owner is back: each counter was loaded
    /// after the token was there, and no group that was queued before is held at any later check. The error
    /// gives the grace period back, and names the reader that holds the token.
    pub fn check(self) -> Result<Owner, Held>
        ensures passes { IfOk result (λ owner. Checks self.writer.identity.initial.workers
            (steps_of self.writer) (token_of self.writer) (Ok tt)
            (steps_of owner.writer)) }
        ensures checked { IfOk result (λ owner. IsChecked
            self.writer.identity.initial.workers self.writer.identity.initial.token
            (steps_of owner.writer) (token_of self.writer)) }
        ensures queued { IfOk result (λ owner. 0 < self.writer.config.workers
            → All (λ token. token ≤ passed_of owner.writer) owner.writer.table.limbo) }
        ensures same { IfOk result (λ owner. owner.writer ≡ record self.writer {
          table = record self.writer.table { readers = steps_of owner.writer };
        }) }
        ensures token { IfOk result
            (λ owner. token_of owner.writer ≡ token_of self.writer) }
        ensures bench { IfOk result (λ owner. owner.bench ≡ self.bench) }
        ensures stopped { IfErr result (λ held. Checks self.writer.identity.initial.workers
            (steps_of self.writer) (token_of self.writer) (Err held.busy)
            (steps_of held.period.writer)) }
        ensures goes_on { IfErr result (λ held. held.period.writer ≡ record self.writer {
          table = record self.writer.table { readers = steps_of held.period.writer };
        }) }
        ensures waits { IfErr result
            (λ held. token_of held.period.writer ≡ token_of self.writer) }
        ensures bench_stays { IfErr result (λ held. held.period.bench ≡ self.bench) }
    {
        let GracePeriod {
            table,
            period,
            bench,
        } = self;
        match period.try_end(&*table) {
            Ok(writer) => Ok(Owner::new(table, writer, bench)),
            Err(held) => Err(Held {
                period: GracePeriod::new(table, held.period, bench),
                busy: held.busy,
            }),
        }
    }
}
