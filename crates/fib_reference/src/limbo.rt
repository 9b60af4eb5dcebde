//! What readers and the writer did, and what waits for readers.

ghost use Rattle.std.specs.Prelude.{◌≡◌, ℕ, ◌+◌, ◌^◌, ◌<◌, ◌≤◌, [], ◌∷◌, length, drop, MatchOption, MatchResult, OnOk, slice_index, slice_get, Some, Ok, Err, IfOk, IfErr, OnErr, IsTrue, IsFalse};
ghost use Rattle.lpm_limits.specs.Limits.{IsConfig};
ghost use Rattle.fib_model.specs.Outcomes as outcomes;
ghost use Rattle.fib_model.specs.Textbook as book;

use crate::intervals::{interval_start, token_at};
use defer_queue::Reclaimed;
use fib_model::{Event, Outcome, ReaderReport};
use lpm_limits::{Busy, Config, Refusal};
use std::alloc::{AllocError, Global};

/// The events, the oldest first, and the places of the unlinkings that wait.
#[derive(Drop)]
pub(crate) struct PlainLimbo {
    pub(crate) events: Vec<Event>,
    pub(crate) places: Vec<usize>,
}

impl PlainLimbo {
    ghost use Rattle.qsbr.specs.Intervals.{IsRunningSince, IsHeldByWorker, IsTidy};
    ghost use Rattle.fib_model.specs.Textbook.{by_reports, unlinkings_before, unlinkings, textbook, by_intervals};
    ghost use Rattle.fib_model.specs.State.{MakesRoom, Reclaims, UnlinksOne, Unlinks};
    ghost use Rattle.fib_reference.specs.Accounts.{IsSound, events_of, state_with};
    ghost use Rattle.fib_model.specs.Outcomes.{MayReport, Reports};
    ghost use Rattle.lpm_rules.specs.RuleMap.{RuleMap};

    /// Nothing has happened.
    pub(crate) fn new(alloc: Global) -> Self
        ensures events { events_of result ≡ [] }
        ensures limbo { result.places.items ≡ [] }
    {
        PlainLimbo {
            events: Vec::new(alloc),
            places: Vec::new(alloc),
        }
    }

    /// The token number.
    pub(crate) fn token(&self, config: &Config) -> u64
        requires { IsConfig config.now }
        ensures value { result ≡ (textbook config.now).token (events_of self.now) }
        ensures bound { result < 2 ^ 63 + 2 ^ 62 }
    {
        token_at(&self.events, config.first_token, self.events.len())
    }

    /// The worker, if a running reader interval of it holds the unlinking at this place, with the
    /// token number at the interval's beginning.
    fn held_by(&self, config: &Config, place: usize, worker: usize) -> Option<Busy>
        requires config { IsConfig config.now }
        requires sound { IsSound config.now self.now }
        ensures { MatchOption result
            (¬ IsHeldByWorker by_reports (events_of self.now) place worker)
            (λ busy. (busy.worker ≡ worker)
            × IsHeldByWorker by_reports (events_of self.now) place worker
            × ((start : ℕ) × IsRunningSince by_reports (events_of self.now) worker start
            × (busy.counter
            ≡ config.now.first_token + unlinkings_before (events_of self.now) start))) }
    {
        let start = interval_start(&self.events, worker)?;
        if start >= place {
            return None;
        }
        Some(Busy {
            worker,
            counter: token_at(&self.events, config.first_token, start),
        })
    }

    /// The first worker that holds the unlinking at this place, if one does.
    fn holder(&self, config: &Config, place: usize) -> Option<Busy>
        requires config { IsConfig config.now }
        requires sound { IsSound config.now self.now }
        ensures { let events = events_of self.now in MatchOption result
            ((textbook config.now).checks events place (Ok tt) events)
            (λ busy. (textbook config.now).checks events place (Err busy) events) }
    {
        for worker in 0..config.workers {
            if let Some(busy) = self.held_by(config, place, worker) {
                return Some(busy);
            }
        }
        None
    }

    /// What a reclaim of at most `max` would answer.
    fn front(&self, config: &Config, max: usize) -> Reclaimed
        requires config { IsConfig config.now }
        requires sound { IsSound config.now self.now }
        ensures { Reclaims (textbook config.now) (events_of self.now) max self.now.places.items
            result.freed result.stopped (drop result.freed self.now.places.items)
            (events_of self.now) }
    {
        let most = max.min(self.places.len());
        for freed in 0..most {
            if let Some(busy) = self.holder(config, self.places[freed]) {
                return Reclaimed {
                    freed,
                    stopped: Some(busy),
                };
            }
        }
        Reclaimed {
            freed: most,
            stopped: None,
        }
    }

    /// Takes so many unlinkings from the front of those that wait.
    fn drop_front(&mut self, count: usize)
        requires { count ≤ length self.old.places.items }
        ensures limbo { self.new.places.items ≡ drop count self.old.places.items }
        ensures events { self.new.events ≡ self.old.events }
    {
        for _taken in 0..count {
            self.places.remove(0);
        }
    }

    /// Reclaims at most `max`.
    pub(crate) fn reclaim(&mut self, config: &Config, max: usize) -> Reclaimed
        requires config { IsConfig config.now }
        requires sound { IsSound config.now self.old }
        ensures limbo { Reclaims (textbook config.now) (events_of self.old) max
            self.old.places.items result.freed result.stopped self.new.places.items
            (events_of self.new) }
        ensures events { self.new.events ≡ self.old.events }
    {
        let reclaimed = self.front(config, max);
        self.drop_front(reclaimed.freed);
        reclaimed
    }

    /// Takes the front, if no worker holds it; else answers the first worker that does.
    pub(crate) fn take_front(&mut self, config: &Config) -> Result<(), Option<Busy>>
        requires config { IsConfig config.now }
        requires sound { IsSound config.now self.old }
        ensures taken { OnOk result ((u : ℕ) × (self.old.places.items ≡ u ∷ self.new.places.items)
            × (textbook config.now).checks (events_of self.old) u (Ok tt) (events_of self.new)) }
        ensures held { IfErr result (λ oldest. MatchOption oldest (self.old.places.items ≡ [])
            (λ busy. (u : ℕ) × (slice_get self.old.places.items 0 ≡ Some u)
            × (textbook config.now).checks (events_of self.old) u (Err busy)
            (events_of self.new))) }
        ensures limbo { OnErr result (self.new.places ≡ self.old.places) }
        ensures events { self.new.events ≡ self.old.events }
    {
        if self.places.is_empty() {
            return Err(None);
        }
        if let Some(busy) = self.holder(config, self.places[0]) {
            return Err(Some(busy));
        }
        self.places.remove(0);
        Ok(())
    }

    /// Reclaims where more wait than the threshold.
    fn make_room(&mut self, config: &Config)
        requires config { IsConfig config.now }
        requires sound { IsSound config.now self.old }
        ensures room { MakesRoom (textbook config.now) config.now (events_of self.old)
            self.old.places.items self.new.places.items (events_of self.new) }
        ensures events { self.new.events ≡ self.old.events }
    {
        if self.places.len() > config.threshold {
            self.reclaim(config, config.reclaim_max);
        }
    }

    /// Unlinks a group: makes room where more wait than the threshold, and puts the unlinking last.
    fn unlink(&mut self, config: &Config) -> Result<(), AllocError>
        requires config { IsConfig config.now }
        requires sound { IsSound config.now self.old }
        ensures unlinked { OnOk result (UnlinksOne (textbook config.now) config.now
            (events_of self.old) self.old.places.items (events_of self.new) self.new.places.items) }
        ensures sound { OnOk result (IsSound config.now self.new) }
    {
        let place = self.events.len();
        self.events.push(Event::Unlinking)?;
        self.make_room(config);
        self.places.push(place)?;
        Ok(())
    }

    /// Unlinks so many groups, one after another.
    pub(crate) fn unlink_all(&mut self, config: &Config, count: usize) -> Result<(), AllocError>
        requires config { IsConfig config.now }
        requires sound { IsSound config.now self.old }
        ensures unlinked { OnOk result (Unlinks (textbook config.now) config.now count
            (events_of self.old) self.old.places.items (events_of self.new) self.new.places.items) }
        ensures sound { OnOk result (IsSound config.now self.new) }
    {
        for _unlinked in 0..count {
            self.unlink(config)?;
        }
        Ok(())
    }

    /// Whether the worker may report this.
    fn may_report(&self, config: &Config, report: ReaderReport, worker: usize) -> bool
        ensures yes { IsTrue result → (rules : RuleMap) (begun : ℕ)
            → MayReport (by_intervals config.now) (state_with rules begun self.now) report worker }
        ensures no { IsFalse result → (rules : RuleMap) (begun : ℕ)
            → ¬ MayReport (by_intervals config.now) (state_with rules begun self.now) report worker }
    {
        let is_online = interval_start(&self.events, worker).is_some();
        match report {
            ReaderReport::Online => !is_online,
            ReaderReport::Offline | ReaderReport::Quiescent => is_online,
        }
    }

    /// Takes the worker's report, or refuses it.
    pub(crate) fn report(
        &mut self,
        config: &Config,
        report: ReaderReport,
        worker: u32,
    ) -> Result<Outcome, AllocError>
        requires sound { IsSound config.now self.old }
        ensures reported { IfOk result (λ outcome. (rules : RuleMap) (begun : ℕ)
            → Reports (by_intervals config.now) config.now (state_with rules begun self.old)
            report worker outcome (state_with rules begun self.new)) }
        ensures sound { OnOk result (IsSound config.now self.new) }
    {
        let worker = worker as usize;
        if worker >= config.workers {
            return Ok(Outcome::Refused(Refusal::NoSuchWorker));
        }
        if !self.may_report(config, report, worker) {
            return Ok(Outcome::Refused(refusal_of(report)));
        }
        self.events.push(event_of(report, worker))?;
        Ok(Outcome::Told)
    }
}

/// How a report that may not be made is refused.
fn refusal_of(report: ReaderReport) -> Refusal
    ensures { result ≡ outcomes.refusal_of report }
{
    match report {
        ReaderReport::Online => Refusal::AlreadyOnline,
        ReaderReport::Offline | ReaderReport::Quiescent => Refusal::NotOnline,
    }
}

/// The report as an event.
fn event_of(report: ReaderReport, worker: usize) -> Event
    ensures { result ≡ book.event_of report worker }
{
    match report {
        ReaderReport::Online => Event::Online(worker),
        ReaderReport::Offline => Event::Offline(worker),
        ReaderReport::Quiescent => Event::Quiescent(worker),
    }
}
