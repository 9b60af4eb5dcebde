//! A table of one thread, kept as plainly as can be: by the list of all events, and no counter.

ghost use Rattle.std.specs.Prelude.{◌≡◌, ℕ, ◌+◌, ◌-◌, ◌^◌, ◌<◌, ◌≤◌, None, IfOk, OnOk, IsTrue, IsFalse, length};
ghost use Rattle.std.specs.FinMap as map;
ghost use Rattle.lpm_bits.specs.Widths.{IsShape};
ghost use Rattle.lpm_limits.specs.Limits.{IsConfig};

use crate::limbo::PlainLimbo;
use fib_model::{Order, Outcome, ReaderReport};
use lpm_bits::{Hop, Prefix, Shape};
use lpm_groups::Counts;
use lpm_limits::{Config, Refusal};
use lpm_rules::{Put, Rules};
use std::alloc::{AllocError, Global};

/// What commands came to: the outcome of each, and the counts at the end.
#[derive(Debug, Drop, PartialEq, Eq)]
pub struct Account {
    /// The outcomes, in the order of the commands.
    pub outcomes: Vec<Outcome>,
    /// How many rules there are.
    pub rules: usize,
    /// How many versions the rule list had.
    pub versions: u64,
    /// How many groups are in use, in limbo and free.
    pub counts: Counts,
    /// The token number.
    pub token: u64,
}

/// The rules, the limbo list, and how many updates were begun.
#[derive(Drop)]
pub(crate) struct Plain<const FIRST: u32, const SECOND: u32> {
    pub(crate) rules: Rules<FIRST, SECOND>,
    pub(crate) limbo: PlainLimbo,
    pub(crate) updates_begun: u64,
}

impl<const FIRST: u32, const SECOND: u32> Plain<FIRST, SECOND> {
    ghost use Rattle.fib_reference.specs.Accounts.{IsSound, events_of, state_of};
    ghost use Rattle.fib_model.specs.Outcomes.{Adds, Deletes, Does, Flushes, IsNew, LacksGroup, groups_in_use};
    ghost use Rattle.fib_model.specs.State.{Unlinks, HasTokens, IsExhausted};
    ghost use Rattle.fib_model.specs.Textbook.{textbook, by_intervals, initial_by_events, by_reports};
    ghost use Rattle.qsbr.specs.Intervals.{IsTidy};

    /// A table that was just opened.
    pub(crate) fn open(alloc: Global, config: &Config) -> Self
        requires { IsShape FIRST SECOND }
        ensures state { state_of result ≡ initial_by_events }
        ensures sound { IsSound config.now result.limbo }
    {
        Plain {
            rules: Rules::new(alloc, config.rules),
            limbo: PlainLimbo::new(alloc),
            updates_begun: 0,
        }
    }

    /// How many groups are neither in use nor waiting.
    pub(crate) fn free(&self, config: &Config) -> usize
        ensures { result ≡ config.now.groups - groups_in_use FIRST SECOND self.now.rules.rules
            - length self.now.limbo.places.items }
    {
        config
            .groups
            .saturating_sub(self.rules.deep_blocks())
            .saturating_sub(self.limbo.places.len())
    }

    /// Whether the tokens or the versions would pass their bound.
    fn is_exhausted(&self, config: &Config) -> bool
        requires { IsConfig config.now }
        ensures yes { IsTrue result
            → IsExhausted (textbook config.now) config.now (state_of self.now) }
        ensures no { IsFalse result
            → HasTokens (textbook config.now) config.now (state_of self.now) }
    {
        let last = self.limbo.token(config) + config.groups as u64;
        last > 1 << 62 || self.updates_begun >= 1 << 61
    }

    /// Whether the new rule needs a group and none is free.
    fn lacks_group(&self, config: &Config, prefix: &Prefix<FIRST, SECOND>) -> bool
        requires { map.get self.now.rules.rules prefix.now ≡ None }
        ensures yes { IsTrue result
            → LacksGroup FIRST SECOND config.now (state_of self.now) prefix.now }
        ensures no { IsFalse result
            → ¬ LacksGroup FIRST SECOND config.now (state_of self.now) prefix.now }
    {
        let bits = prefix.bits();
        if prefix.len() <= FIRST {
            return false;
        }
        let block = Shape::<FIRST, SECOND>::first_index(bits);
        !self.rules.is_deep(block) && self.free(config) == 0
    }

    /// Stores a rule, as one more version.
    fn store(&mut self, prefix: &Prefix<FIRST, SECOND>, hop: Hop) -> Result<(), AllocError>
        requires { self.old.updates_begun < 2 ^ 61 }
        ensures rules { OnOk result
            (self.new.rules.rules ≡ map.insert self.old.rules.rules prefix.now hop) }
        ensures begun { OnOk result (self.new.updates_begun ≡ self.old.updates_begun + 1) }
        ensures limbo { self.new.limbo ≡ self.old.limbo }
    {
        match self.rules.put(prefix, hop) {
            Ok(_) => {
                self.updates_begun += 1;
                Ok(())
            }
            Err(_) => Err(AllocError),
        }
    }

    /// Adds a new rule that has room.
    fn add_new(
        &mut self,
        config: &Config,
        prefix: &Prefix<FIRST, SECOND>,
        hop: Hop,
    ) -> Result<Result<Put, Refusal>, AllocError>
        requires config { IsConfig config.now }
        requires sound { IsSound config.now self.old.limbo }
        requires new { IsNew (textbook config.now) config.now (state_of self.old) prefix.now }
        ensures adds { IfOk result (λ r. Adds (textbook config.now) FIRST SECOND config.now
            (state_of self.old) prefix.now hop r (state_of self.new)) }
        ensures events { self.new.limbo.events ≡ self.old.limbo.events }
    {
        if self.lacks_group(config, prefix) {
            if let Err(oldest) = self.limbo.take_front(config) {
                return Ok(Err(Refusal::NoGroups { oldest }));
            }
        }
        self.store(prefix, hop)?;
        Ok(Ok(Put::Added))
    }

    /// Adds a rule, or gives it another next hop.
    fn add(
        &mut self,
        config: &Config,
        prefix: &Prefix<FIRST, SECOND>,
        hop: Hop,
    ) -> Result<Result<Put, Refusal>, AllocError>
        requires config { IsConfig config.now }
        requires sound { IsSound config.now self.old.limbo }
        ensures adds { IfOk result (λ r. Adds (textbook config.now) FIRST SECOND config.now
            (state_of self.old) prefix.now hop r (state_of self.new)) }
        ensures events { self.new.limbo.events ≡ self.old.limbo.events }
    {
        let old = self.rules.get(prefix);
        if old == Some(hop) {
            return Ok(Ok(Put::Unchanged));
        }
        if self.is_exhausted(config) {
            return Ok(Err(Refusal::Exhausted));
        }
        if old.is_some() {
            self.store(prefix, hop)?;
            return Ok(Ok(Put::Replaced));
        }
        if self.rules.len() >= config.rules {
            return Ok(Err(Refusal::TooManyRules));
        }
        self.add_new(config, prefix, hop)
    }

    /// Unlinks the groups of the blocks that have lost their last long rule, as one more version.
    fn shrink(&mut self, config: &Config, before: usize) -> Result<(), AllocError>
        requires config { IsConfig config.now }
        requires begun { self.old.updates_begun < 2 ^ 61 }
        requires sound { IsSound config.now self.old.limbo }
        ensures unlinked { OnOk result (Unlinks (textbook config.now) config.now
            (before - groups_in_use FIRST SECOND self.old.rules.rules)
            (events_of self.old.limbo) self.old.limbo.places.items
            (events_of self.new.limbo) self.new.limbo.places.items) }
        ensures sound { OnOk result (IsSound config.now self.new.limbo) }
        ensures begun { self.new.updates_begun ≡ self.old.updates_begun + 1 }
        ensures rules { self.new.rules ≡ self.old.rules }
    {
        let lost = before.saturating_sub(self.rules.deep_blocks());
        self.updates_begun += 1;
        self.limbo.unlink_all(config, lost)
    }

    /// Takes out a rule.
    fn delete(
        &mut self,
        config: &Config,
        prefix: &Prefix<FIRST, SECOND>,
    ) -> Result<Result<Hop, Refusal>, AllocError>
        requires config { IsConfig config.now }
        requires sound { IsSound config.now self.old.limbo }
        ensures deletes { IfOk result (λ r. Deletes (textbook config.now) FIRST SECOND config.now
            (state_of self.old) prefix.now r (state_of self.new)) }
        ensures sound { OnOk result (IsSound config.now self.new.limbo) }
    {
        let Some(hop) = self.rules.get(prefix) else {
            return Ok(Err(Refusal::NoSuchRule));
        };
        if self.is_exhausted(config) {
            return Ok(Err(Refusal::Exhausted));
        }
        let before = self.rules.deep_blocks();
        let _ = self.rules.remove(prefix);
        self.shrink(config, before)?;
        Ok(Ok(hop))
    }

    /// Takes out all rules.
    fn flush(&mut self, config: &Config) -> Result<Result<usize, Refusal>, AllocError>
        requires config { IsConfig config.now }
        requires sound { IsSound config.now self.old.limbo }
        ensures flushes { IfOk result (λ r. Flushes (textbook config.now) FIRST SECOND config.now
            (state_of self.old) r (state_of self.new)) }
        ensures sound { OnOk result (IsSound config.now self.new.limbo) }
    {
        if self.rules.is_empty() {
            return Ok(Ok(0));
        }
        if self.is_exhausted(config) {
            return Ok(Err(Refusal::Exhausted));
        }
        let before = self.rules.deep_blocks();
        let count = self.rules.clear();
        self.shrink(config, before)?;
        Ok(Ok(count))
    }

    /// Runs a command.
    pub(crate) fn run(
        &mut self,
        config: &Config,
        order: &Order<FIRST, SECOND>,
    ) -> Result<Outcome, AllocError>
        requires config { IsConfig config.now }
        requires sound { IsSound config.now self.old.limbo }
        ensures does { IfOk result (λ outcome. Does (by_intervals config.now) FIRST SECOND
            config.now (state_of self.old) order.now outcome (state_of self.new)) }
        ensures sound { OnOk result (IsSound config.now self.new.limbo) }
    {
        match order {
            Order::Add(prefix, hop) => match self.add(config, prefix, *hop)? {
                Ok(put) => Ok(Outcome::Put(put)),
                Err(refusal) => Ok(Outcome::Refused(refusal)),
            },
            Order::Del(prefix) => match self.delete(config, prefix)? {
                Ok(hop) => Ok(Outcome::Deleted(hop)),
                Err(refusal) => Ok(Outcome::Refused(refusal)),
            },
            Order::Flush => match self.flush(config)? {
                Ok(count) => Ok(Outcome::Flushed(count)),
                Err(refusal) => Ok(Outcome::Refused(refusal)),
            },
            Order::Reclaim(max) => Ok(Outcome::Reclaimed(self.limbo.reclaim(config, *max))),
            Order::Online(worker) => self.limbo.report(config, ReaderReport::Online, *worker),
            Order::Offline(worker) => self.limbo.report(config, ReaderReport::Offline, *worker),
            Order::Quiescent(worker) => self.limbo.report(config, ReaderReport::Quiescent, *worker),
        }
    }
}
