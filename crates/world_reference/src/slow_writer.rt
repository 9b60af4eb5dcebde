//! A slow writer. It goes through the writer's own steps of a run and tells, from them and the changes
//! alone, what comes of each change and which rules stand in each version.

use super::deeds::Numbered;
use super::judge_error::accept;
use super::memory::{Word, group_in};
use super::moment::Moment;
use super::{JudgeError, PlainRule, Versions};
use defer_queue::Reclaimed;
use interleave::Reply;
use lpm_bits::Hop;
use lpm_limits::{Busy, Config, Refusal};
use lpm_rules::{Change, Put};
use lpm_trace::{Kind, Step};
use std::alloc::{AllocError, AllocFailed, Global};
use std::collections::VecDeque;

// Why a change has no reply.
#[derive(Clone, Copy)]
enum Stop {
    // The steps end before the change does.
    Unfinished,
    // The steps aren't those of the change, or there is too little memory to tell.
    Judged(JudgeError),
}

impl From<JudgeError> for Stop {
    fn from(error: JudgeError) -> Self {
        Stop::Judged(error)
    }
}

impl From<AllocError> for Stop {
    fn from(_error: AllocError) -> Self {
        Stop::Judged(JudgeError::Memory)
    }
}

impl<T: Drop> From<AllocFailed<T>> for Stop {
    fn from(_error: AllocFailed<T>) -> Self {
        Stop::Judged(JudgeError::Memory)
    }
}

// A group that waits under a token.
#[derive(Clone, Copy)]
struct Waiting {
    group: u32,
    token: u64,
}

#[derive(Drop)]
pub(crate) struct SlowWriter<'a> {
    alloc: Global,
    config: Config,
    trace: Moment<'a>,
    // The writer's own steps, and how many of them are used up.
    steps: &'a [Numbered],
    used: usize,
    // The rules of each version that was begun, those that stand last.
    versions: Versions,
    linked: Vec<u32>,
    queue: VecDeque<Waiting>,
    // The greatest token whose check has passed.
    passed: u64,
    token: u64,
}

// The greatest token.
const LAST_TOKEN: u64 = 1 << 62;

// A change that needs a token or a version has none.
const EXHAUSTED: Reply = Reply::Refused(Refusal::Exhausted);

impl<'a> SlowWriter<'a> {
    // Before its first step, where these are its own in the trace.
    pub(crate) fn new(
        alloc: Global,
        config: Config,
        trace: Moment<'a>,
        steps: &'a [Numbered],
    ) -> Result<Self, AllocError> {
        let mut versions = Vec::new(alloc);
        versions.push(Vec::new(alloc))?;
        Ok(SlowWriter {
            alloc,
            config,
            trace,
            steps,
            used: 0,
            versions,
            linked: Vec::new(alloc),
            queue: VecDeque::new(alloc),
            passed: 0,
            token: config.first_token,
        })
    }

    // The next step, which is used up.
    fn next(&mut self) -> Result<Numbered, Stop> {
        match self.steps.get(self.used) {
            Some(next) => {
                self.used = self.used.saturating_add(1);
                Ok(*next)
            }
            None => Err(Stop::Unfinished),
        }
    }

    // The next step, which is of this kind.
    fn take(&mut self, wanted: Kind) -> Result<Step, Stop> {
        let step = self.next()?.step;
        kind_is(&step, wanted)?;
        Ok(step)
    }

    // ---- groups

    fn is_waiting(&self, group: u32) -> bool {
        for waiting in &self.queue {
            if waiting.group == group {
                return true;
            }
        }
        false
    }

    // The free group of the least number.
    fn least_free(&self) -> Option<u32> {
        for group in 0..self.config.groups {
            let group = u32::try_from(group).unwrap_or(u32::MAX);
            if !self.linked.contains(&group) && !self.is_waiting(group) {
                return Some(group);
            }
        }
        None
    }

    // Checks a token: the workers' counters are loaded in turn, up to the first that holds it back. A
    // token up to one that has passed isn't checked again.
    fn check(&mut self, token: u64) -> Result<Option<Busy>, Stop> {
        if token <= self.passed {
            return Ok(None);
        }
        for worker in 0..self.config.workers {
            let counter = self.counter_of(worker)?;
            if counter != 0 && counter < token {
                return Ok(Some(Busy { worker, counter }));
            }
        }
        self.passed = token;
        Ok(None)
    }

    // The worker's counter, which the next step loads.
    fn counter_of(&mut self, wanted: usize) -> Result<u64, Stop> {
        let step = self.take(Kind::LoadCounter)?;
        let found = step.index;
        accept(found == wanted as u64, JudgeError::Turn { found, wanted })?;
        Ok(step.value)
    }

    fn reclaim(&mut self, max: usize) -> Result<Reclaimed, Stop> {
        let mut freed: usize = 0;
        let mut stopped = None;
        for _ in 0..max {
            let Some(front) = self.queue.front().copied() else {
                break;
            };
            stopped = self.check(front.token)?;
            if stopped.is_some() {
                break;
            }
            let _ = self.queue.pop_front();
            freed = freed.saturating_add(1);
        }
        Ok(Reclaimed { freed, stopped })
    }

    fn unlink(&mut self, group: u32) -> Result<(), AllocError> {
        let mut rest = Vec::new(self.alloc);
        for other in &self.linked {
            if *other != group {
                rest.push(*other)?;
            }
        }
        self.linked = rest;
        Ok(())
    }

    fn link(&mut self, found: u32) -> Result<(), Stop> {
        let wanted = self.least_free();
        accept(wanted == Some(found), JudgeError::Link { found, wanted })?;
        self.linked.push(found)?;
        Ok(())
    }

    // A group was unlinked: the token is bumped, and where too many groups wait, some are reclaimed
    // before this one waits too.
    fn retire(&mut self, group: u32) -> Result<(), Stop> {
        self.unlink(group)?;
        let token = self.take(Kind::BumpToken)?.value;
        self.token = token;
        if self.queue.len() > self.config.threshold {
            self.reclaim(self.config.reclaim_max)?;
        }
        self.queue.push_back(Waiting { group, token })?;
        Ok(())
    }

    // A store of a first word unlinks the group that stood there, and links no group but the least that
    // is free.
    fn store_first(&mut self, store: &Numbered) -> Result<(), Stop> {
        let before = self.trace.at(store.number.saturating_sub(1));
        if let Some(group) = group_in(before.value(Word::First(store.step.index))) {
            self.retire(group)?;
        }
        if let Some(group) = group_in(store.step.value) {
            self.link(group)?;
        }
        Ok(())
    }

    // ---- rules

    // The rules that stand.
    fn rules(&self) -> &[PlainRule] {
        match self.versions.last() {
            Some(rules) => rules,
            None => &[],
        }
    }

    fn hop_of(&self, bits: u32, len: u32) -> Option<u32> {
        for rule in self.rules() {
            if rule.is_of(bits, len) {
                return Some(rule.hop);
            }
        }
        None
    }

    // Whether a rule of the prefix is a longer one, and the first of its block.
    fn wants_group(&self, bits: u32, len: u32) -> bool {
        let initial = self.trace.initial;
        for rule in self.rules() {
            let same = initial.first_index(rule.bits) == initial.first_index(bits);
            if same && rule.len > initial.first {
                return false;
            }
        }
        len > initial.first
    }

    fn rules_without(&self, bits: u32, len: u32) -> Result<Vec<PlainRule>, AllocError> {
        let mut rest = Vec::new(self.alloc);
        for rule in self.rules() {
            if !rule.is_of(bits, len) {
                rest.push(*rule)?;
            }
        }
        Ok(rest)
    }

    fn is_exhausted(&self) -> bool {
        self.token > LAST_TOKEN.saturating_sub(self.config.groups as u64)
    }

    // ---- changes

    // An update to these rules: a bump of the sequence, its stores, and a bump again.
    fn update(&mut self, rules: Vec<PlainRule>) -> Result<(), Stop> {
        self.take(Kind::BumpSequence)?;
        self.versions.push(rules)?;
        for _ in self.used..self.steps.len() {
            let next = self.next()?;
            match next.step.kind {
                Kind::BumpSequence => return Ok(()),
                Kind::StoreFirst => self.store_first(&next)?,
                _ => kind_is(&next.step, Kind::StoreSecond)?,
            }
        }
        Err(Stop::Unfinished)
    }

    fn add(&mut self, rule: PlainRule) -> Result<Reply, Stop> {
        let old = self.hop_of(rule.bits, rule.len);
        if old == Some(rule.hop) {
            return Ok(Reply::Put(Put::Unchanged));
        }
        if let Some(refusal) = self.refusal_of(&rule, old.is_none())? {
            return Ok(Reply::Refused(refusal));
        }
        self.put(rule)?;
        let put = if old.is_some() {
            Put::Replaced
        } else {
            Put::Added
        };
        Ok(Reply::Put(put))
    }

    // Why this rule, maybe a new one, can't be put in. Where no group is free, one is reclaimed.
    fn refusal_of(&mut self, rule: &PlainRule, is_new: bool) -> Result<Option<Refusal>, Stop> {
        if self.is_exhausted() {
            return Ok(Some(Refusal::Exhausted));
        }
        if is_new && self.rules().len() >= self.config.rules {
            return Ok(Some(Refusal::TooManyRules));
        }
        if !self.wants_group(rule.bits, rule.len) || self.least_free().is_some() {
            return Ok(None);
        }
        let Reclaimed { freed, stopped } = self.reclaim(1)?;
        if freed == 0 {
            return Ok(Some(Refusal::NoGroups { oldest: stopped }));
        }
        Ok(None)
    }

    // The update to the rules with this one in the place of any other of its prefix.
    fn put(&mut self, rule: PlainRule) -> Result<(), Stop> {
        let mut rules = self.rules_without(rule.bits, rule.len)?;
        rules.push(rule)?;
        self.update(rules)
    }

    fn delete(&mut self, bits: u32, len: u32) -> Result<Reply, Stop> {
        let Some(number) = self.hop_of(bits, len) else {
            return Ok(Reply::Refused(Refusal::NoSuchRule));
        };
        if self.is_exhausted() {
            return Ok(EXHAUSTED);
        }
        let rules = self.rules_without(bits, len)?;
        self.update(rules)?;
        match Hop::new(number) {
            Ok(hop) => Ok(Reply::Deleted(hop)),
            Err(_) => Err(Stop::Judged(JudgeError::Replies)),
        }
    }

    fn flush(&mut self) -> Result<Reply, Stop> {
        let count = self.rules().len();
        if count > 0 && self.is_exhausted() {
            return Ok(EXHAUSTED);
        }
        if count > 0 {
            self.update(Vec::new(self.alloc))?;
        }
        Ok(Reply::Flushed(count))
    }

    // The token is bumped, and checked again and again until the check passes.
    fn synchronize(&mut self) -> Result<Reply, Stop> {
        if self.is_exhausted() {
            return Ok(EXHAUSTED);
        }
        self.token = self.take(Kind::BumpToken)?.value;
        for _ in 0..self.steps.len() {
            if self.check(self.token)?.is_none() {
                return Ok(Reply::Synchronized);
            }
        }
        Err(Stop::Unfinished)
    }

    fn answer<const FIRST: u32, const SECOND: u32>(
        &mut self,
        change: &Change<FIRST, SECOND>,
    ) -> Result<Reply, Stop> {
        match change {
            Change::Add(prefix, hop) => self.add(PlainRule {
                bits: prefix.bits(),
                len: prefix.len(),
                hop: hop.number(),
            }),
            Change::Delete(prefix) => self.delete(prefix.bits(), prefix.len()),
            Change::Flush => self.flush(),
            Change::Reclaim(max) => Ok(Reply::Reclaimed(self.reclaim(*max)?)),
            Change::Synchronize => self.synchronize(),
        }
    }

    // The replies to these changes, where this many items of the schedule are the writer's. A change is
    // begun where an item is left, and answered where the writer has made all its steps. The steps end
    // within a change only where the items do.
    pub(crate) fn replies<const FIRST: u32, const SECOND: u32>(
        &mut self,
        changes: &[Change<FIRST, SECOND>],
        items: usize,
    ) -> Result<Vec<Reply>, JudgeError> {
        let mut replies = Vec::new(self.alloc);
        for change in changes {
            if self.used >= items {
                break;
            }
            match self.answer(change) {
                Ok(reply) => replies.push(reply)?,
                Err(Stop::Judged(error)) => return Err(error),
                Err(Stop::Unfinished) => {
                    self.ends_at(items)?;
                    break;
                }
            }
        }
        let used = self.used;
        self.ends_at(used)?;
        let is_over = used == items || replies.len() == changes.len();
        accept(is_over, JudgeError::Length)?;
        Ok(replies)
    }

    // The writer has made so many steps.
    fn ends_at(&self, count: usize) -> Result<(), JudgeError> {
        accept(self.steps.len() == count, JudgeError::Length)
    }

    // The rules of each version that was begun.
    pub(crate) fn into_versions(self) -> Versions {
        self.versions
    }
}

// The step is of this kind.
fn kind_is(step: &Step, wanted: Kind) -> Result<(), JudgeError> {
    let found = step.kind;
    accept(found == wanted, JudgeError::Kind { found, wanted })
}
