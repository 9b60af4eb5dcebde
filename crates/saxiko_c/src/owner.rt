//! The owner of a running table, at rest or in a grace period.

ghost use Rattle.std.specs.Prelude.{◌≡◌, ◌≤◌, ◌↔◌, ◌⊎◌, IfErr, IfOk, IsErrOf, OnErr, slice_get, slice_set, Some, None, false};
ghost use Rattle.lpm_limits.specs.declared.refusal.Refusal.{Refusal};
ghost use Rattle.shared_fib.specs.Passes.{IsBenchOf, IsPassOf, IsPutBack};

use crate::stage::Stage;
use lpm_limits::Refusal;
use saxiko::Reader;
use std::marker::Model;

/// The owner of a running table, which hands its readers out. At rest it changes the table; while a grace period lasts
/// the table isn't changed.
#[derive(Drop)]
pub struct Owner {
    pub(crate) stage: Stage,
}

impl Model for Owner {
    ghost use Rattle.saxiko_c.specs.RunningTable.{StagedOwner, coded_owner};
    ghost use Rattle.saxiko_c.specs.Stages.{IsNotMoving, owned_in, waits_in};

    ghost Value = { StagedOwner };

    ghost coded = { coded_owner };

    ghost view = { λ o. record {
      writer = (owned_in o.stage).writer;
      waits = waits_in o.stage;
      bench = (owned_in o.stage).bench;
    } };

    ghost invariant = { λ o. IsNotMoving o.stage };
}

impl Owner {
    // The owner that is at rest.
    pub(crate) fn new(owner: saxiko::Owner) -> Self
        ensures { result ≡ record { writer = owner.writer; waits = false; bench = owner.bench } }
    {
        Owner {
            stage: Stage::AtRest(owner),
        }
    }

    /// The reader of the worker of this number, which is offline.
    ///
    /// The refusals: `NoSuchWorker`, where the table has no such worker; `Taken`, where its reader is handed out and not
    /// given back yet; and `Memory`, where there are 2^63 readers.
    pub(crate) fn register_reader(&mut self, worker: usize) -> Result<Reader, Refusal>
        ensures reader { IfOk result (IsPassOf self.old.writer.identity worker) }
        ensures registered { IfOk result (λ p. (slice_get self.old.bench worker ≡ Some (Some p))
            × (self.new.bench ≡ slice_set self.old.bench worker None)) }
        ensures no_such_worker { IsErrOf result Refusal.NoSuchWorker
            ↔ (self.old.writer.identity.initial.workers ≤ worker) }
        ensures taken { IsErrOf result Refusal.Taken ↔ (slice_get self.old.bench worker ≡ Some None) }
        ensures refusals { IfErr result (λ e. (e ≡ Refusal.NoSuchWorker) ⊎ (e ≡ Refusal.Taken)
            ⊎ (e ≡ Refusal.Memory)) }
        ensures unchanged { OnErr result (self.new ≡ self.old) }
        ensures same { self.new.writer ≡ self.old.writer }
        ensures stage { self.new.waits ≡ self.old.waits }
    {
        match &mut self.stage {
            Stage::AtRest(owner) => owner.register(worker),
            Stage::Waiting(period) => period.register(worker),
            Stage::Moving => unreachable!(),
        }
    }

    /// Takes a reader back, so that its number can be registered again. One that is online goes offline first.
    pub(crate) fn unregister_reader(&mut self, reader: Reader)
        requires own { reader.table ≡ self.old.writer.identity }
        ensures back { IsPutBack self.old.bench reader self.new.bench }
        ensures own { IsBenchOf self.new.writer.identity self.new.bench }
        ensures same { self.new.writer ≡ self.old.writer }
        ensures stage { self.new.waits ≡ self.old.waits }
    {
        match &mut self.stage {
            Stage::AtRest(owner) => owner.unregister(reader),
            Stage::Waiting(period) => period.unregister(reader),
            Stage::Moving => unreachable!(),
        }
    }
}
