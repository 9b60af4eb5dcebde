//! A grace period: a token is started, and checked again whenever the program likes.

ghost use Rattle.std.specs.Prelude.{◌≡◌, ◌+◌, ◌^◌, ◌<◌, ◌≤◌, ◌↔◌, ◌∷◌, All, IsErr, OnErr, OnOk, true, false};
ghost use Rattle.lpm_trace.specs.declared.step.WriterStep.TheVariants.{BumpToken};
ghost use Rattle.lpm_trace.specs.Laws.{IsChecked};
ghost use Rattle.lpm_writer.specs.Steps.{Checks};
ghost use Rattle.shared_fib.specs.RunningTable.{passed_of, steps_of, token_of};
ghost use Rattle.saxiko_c.specs.Grace.{ChecksOnce, Starts};
ghost use Rattle.saxiko_c.specs.Stages.{IsNotMoving, waits_in};
ghost use Rattle.saxiko_c.specs.declared.stage.Stage.TheVariants.{AtRest, Moving, Waiting};

use crate::owner::Owner;
use crate::records::SaxikoHeld;
use crate::stage::Stage;
use crate::status::{EALREADY, EOVERFLOW, EPERM};
use lpm_limits::Busy;
use lpm_writer::Exhausted;
use saxiko::{GracePeriod, Held, NotStarted};
use std::mem;

/// Takes the owner out of a stage at rest.
#[inline]
fn take_owner(stage: &mut Stage) -> saxiko::Owner
    requires settled { IsNotMoving stage.old }
    requires at_rest { waits_in stage.old ≡ false }
    ensures out { stage.old ≡ AtRest result }
    ensures moves { stage.new ≡ Moving }
{
    match mem::replace(stage, Stage::Moving) {
        Stage::AtRest(owner) => owner,
        _ => unreachable!(),
    }
}

/// Takes the grace period out of a stage that waits.
#[inline]
fn take_period(stage: &mut Stage) -> GracePeriod
    requires waits { waits_in stage.old ≡ true }
    ensures out { stage.old ≡ Waiting result }
    ensures moves { stage.new ≡ Moving }
{
    match mem::replace(stage, Stage::Moving) {
        Stage::Waiting(period) => period,
        _ => unreachable!(),
    }
}

/// Puts a value in the place of another, which is dropped here alone.
#[inline]
fn put<T: Drop>(place: &mut T, value: T)
    ensures { place.new ≡ value }
{
    *place = value;
}

impl Owner {
    /// Whether a grace period lasts.
    pub(crate) fn is_waiting(&self) -> bool
        ensures { result ≡ self.now.waits }
    {
        match &self.stage {
            Stage::AtRest(_) => false,
            Stage::Waiting(_) => true,
            Stage::Moving => unreachable!(),
        }
    }

    /// Starts a grace period: from then on the table isn't changed, until a check has passed.
    ///
    /// `Exhausted` where fewer tokens than groups are left; nothing was written then.
    pub(crate) fn start_period(&mut self) -> Result<(), Exhausted>
        requires at_rest { self.old.waits ≡ false }
        ensures exhausted { IsErr result
            ↔ (2 ^ 62 < token_of self.old.writer + self.old.writer.config.groups) }
        ensures starts { OnOk result (self.new.writer ≡ record self.old.writer {
          table = record self.old.writer.table { readers = BumpToken ∷ steps_of self.old.writer };
        }) }
        ensures started { OnOk result
            (token_of self.new.writer ≡ token_of self.old.writer + 1) }
        ensures waits { OnOk result (self.new.waits ≡ true) }
        ensures bench { self.new.bench ≡ self.old.bench }
        ensures unchanged { OnErr result (self.new ≡ self.old) }
    {
        let owner = take_owner(&mut self.stage);
        match owner.start() {
            Ok(period) => {
                put(&mut self.stage, Stage::Waiting(period));
                Ok(())
            }
            Err(NotStarted { owner }) => {
                put(&mut self.stage, Stage::AtRest(owner));
                Err(Exhausted)
            }
        }
    }

    /// Checks the token once. Where no reader holds it the grace period is over. The error is the first reader that
    /// does: the grace period lasts.
    pub(crate) fn check_period(&mut self) -> Result<(), Busy>
        requires waits { self.old.waits ≡ true }
        ensures checks { Checks self.old.writer.identity.initial.workers
            (steps_of self.old.writer) (token_of self.old.writer) result
            (steps_of self.new.writer) }
        ensures over { OnOk result (self.new.waits ≡ false) }
        ensures lasts { OnErr result (self.new.waits ≡ true) }
        ensures token { token_of self.new.writer ≡ token_of self.old.writer }
        ensures checked { OnOk result (IsChecked self.old.writer.identity.initial.workers
            self.old.writer.identity.initial.token (steps_of self.new.writer)
            (token_of self.old.writer)) }
        ensures queued { OnOk result (0 < self.old.writer.config.workers
            → All (λ token. token ≤ passed_of self.new.writer) self.new.writer.table.limbo) }
        ensures same { self.new.writer ≡ record self.old.writer {
          table = record self.old.writer.table { readers = steps_of self.new.writer };
        } }
        ensures bench { self.new.bench ≡ self.old.bench }
    {
        let period = take_period(&mut self.stage);
        match period.check() {
            Ok(owner) => {
                put(&mut self.stage, Stage::AtRest(owner));
                Ok(())
            }
            Err(Held { period, busy }) => {
                put(&mut self.stage, Stage::Waiting(period));
                Err(busy)
            }
        }
    }
}

pub(crate) fn start_by_owner(owner: &mut Owner) -> i32
    ensures { Starts owner.old result owner.new }
{
    if owner.is_waiting() {
        return EALREADY;
    }
    match owner.start_period() {
        Ok(()) => 0,
        Err(Exhausted) => EOVERFLOW,
    }
}

/// Returns 1 where a reader holds the token, and names it.
pub(crate) fn check_by_owner(owner: &mut Owner, held: &mut SaxikoHeld) -> i32
    ensures { ChecksOnce held.old held.new owner.old result owner.new }
{
    if !owner.is_waiting() {
        return EPERM;
    }
    match owner.check_period() {
        Ok(()) => 0,
        Err(busy) => {
            *held = SaxikoHeld {
                reader: busy.worker as u64,
                counter: busy.counter,
            };
            1
        }
    }
}
