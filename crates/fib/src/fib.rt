//! The table.

ghost use Rattle.std.specs.Prelude.{Err, IsOk, MatchResult, Result, ◌≡◌, ◌+◌, ◌^◌, ◌<◌, ◌≤◌, ◌↔◌, IsTrue, IsNone, IfOk, IfErr, IfSome, length};
ghost use Rattle.std.specs.FinMap as map;
ghost use Rattle.lpm_bits.specs.Widths.{IsShape};
ghost use Rattle.lpm_rules.specs.Longest.{IsLongestHop, IsMatch};
ghost use Rattle.lpm_rules.specs.RuleMap.{AreInOrder, rules_of, IsNextRule};
ghost use Rattle.lpm_limits.specs.Limits.{IsConfig};
ghost use Rattle.fib_model.specs.Outcomes.{AreSufficient, AreTooSmall, groups_in_use, Adds, Deletes, Flushes, Frees};
ghost use Rattle.fib_model.specs.Counters.{by_counters, counter_transitions};
ghost use Rattle.fib.specs.Fib.{IsSound, initial_fib, initial_fib_at, initial_fib_with, table_of, state_after_report};
ghost use Rattle.fib_model.specs.declared.orders.ReaderReport.TheVariants as report;
ghost use Rattle.lpm_limits.specs.declared.refusal.Refusal.{Refusal};
ghost use Rattle.lpm_rules.specs.declared.Put.{Put};

use super::parts::{parts_at, parts_of, sorted_rules};
use defer_queue::Reclaimed;
use lpm_bits::{Hop, Prefix};
use lpm_groups::Counts;
use lpm_limits::{Config, Refusal};
use lpm_rules::{Put, Rule, Rules};
use lpm_writer::{
    ControlState, OpenError, PlainMemory, add_rule, delete_rule, flush_rules, open_memory,
    reclaim_groups,
};
use std::alloc::Global;
use std::marker::Model;

/// A route table for one thread: the writer's control state and the memory of one thread, which has the
/// words that represent the rules and what the workers report. IPv4 has `Fib<24, 8>`.
///
/// Of the changes only an `add` or `insert` that grows the rule list takes memory. Each change is refused
/// as `Exhausted` where fewer tokens than groups are left, or no version.
#[derive(Drop)]
pub struct Fib<const FIRST: u32, const SECOND: u32> {
    control: ControlState<FIRST, SECOND>,
    memory: PlainMemory<FIRST, SECOND>,
}

impl<const FIRST: u32, const SECOND: u32> Model for Fib<FIRST, SECOND> {
    ghost use Rattle.fib.specs.Fib.{FibState, coded_fib_state, table_of, IsSound};

    ghost Value = { FibState };

    ghost coded = { coded_fib_state };

    ghost view = { λ a. record {
      config = a.control.config;
      table = table_of a.control a.memory;
    } };

    ghost invariant = { λ a. IsSound FIRST SECOND a.control a.memory };
}

impl<const FIRST: u32, const SECOND: u32> Fib<FIRST, SECOND> {
    /// Opens a table without rules, with all workers offline. It refuses limits out of range, and
    /// ends with `Memory` where there is no room for the words, the groups or the workers.
    pub fn open(alloc: Global, config: Config) -> Result<Self, OpenError>
        requires { IsShape FIRST SECOND }
        ensures opened { IfOk result (λ fib. fib ≡ initial_fib config) }
        ensures limits { IfOk result (λ _. IsConfig config) }
        ensures bad_config { IfErr result
            (λ error. (error ≡ OpenError.BadConfig) ↔ (¬ IsConfig config)) }
    {
        let (control, memory) = open_memory(alloc, config)?;
        Ok(Fib { control, memory })
    }

    /// Opens a table with the rules of a list, in whatever order they are, as [`Fib::of_sorted`] does of one
    /// in order. It takes much less time than to add them one by one.
    ///
    /// It ends with `Memory` also where the list has more than 67,108,864 rules.
    pub fn load(
        alloc: Global,
        config: Config,
        rules: &[Rule<FIRST, SECOND>],
    ) -> Result<Option<Self>, OpenError>
        requires shape { IsShape FIRST SECOND }
        ensures opened { IfOk result (λ o. IfSome o (λ fib.
            fib ≡ initial_fib_with config (rules_of rules.now))) }
        ensures few { IfOk result (λ _. length rules.now ≤ 2 ^ 26) }
        ensures suffice { IfOk result (λ o. IfSome o (λ _.
            AreSufficient FIRST SECOND config (rules_of rules.now))) }
        ensures none { IfOk result (λ o. IsNone o
            → AreTooSmall FIRST SECOND config (rules_of rules.now)) }
        ensures limits { IfOk result (λ _. IsConfig config) }
        ensures bad_config { IfErr result
            (λ error. (error ≡ OpenError.BadConfig) ↔ (¬ IsConfig config)) }
    {
        config.check()?;
        let sorted = sorted_rules(alloc, rules)?;
        Fib::of_sorted(alloc, config, &sorted)
    }

    /// Opens a table with the rules of a list, which is in the order of its prefixes
    /// (`lpm_sweep::in_order` brings rules into it). Of the rules of one prefix the last counts. They
    /// are there at once, in one sweep over the words: no change is counted, and all workers are
    /// offline.
    ///
    /// `None` exactly where the limits don't suffice: the rules have more than `config.rules` prefixes,
    /// or rules longer than `FIRST` bits lie in more blocks than there are groups. It refuses limits
    /// out of range, and ends with `Memory` where there is no room for the rules, the words, the groups
    /// or the workers.
    pub fn of_sorted(
        alloc: Global,
        config: Config,
        rules: &[Rule<FIRST, SECOND>],
    ) -> Result<Option<Self>, OpenError>
        requires shape { IsShape FIRST SECOND }
        requires sorted { AreInOrder rules.now }
        ensures opened { IfOk result (λ o. IfSome o (λ fib.
            fib ≡ initial_fib_with config (rules_of rules.now))) }
        ensures suffice { IfOk result (λ o. IfSome o (λ _.
            AreSufficient FIRST SECOND config (rules_of rules.now))) }
        ensures none { IfOk result (λ o. IsNone o
            → AreTooSmall FIRST SECOND config (rules_of rules.now)) }
        ensures limits { IfOk result (λ _. IsConfig config) }
        ensures bad_config { IfErr result
            (λ error. (error ≡ OpenError.BadConfig) ↔ (¬ IsConfig config)) }
    {
        config.check()?;
        match parts_of(alloc, config, rules)? {
            Some((control, memory)) => Ok(Some(Fib { control, memory })),
            None => Ok(None),
        }
    }

    /// Opens a table with these rules as version `versions`: as many changes have led to them. The
    /// greatest version is 2^61. `sorted` is a list of the same rules in the order of its prefixes,
    /// and the list takes at most `config.rules`.
    ///
    /// The rules are there at once, and all workers are offline, as in [`Fib::of_sorted`], which
    /// refuses as this does.
    pub fn of_rules(
        alloc: Global,
        config: Config,
        rules: Rules<FIRST, SECOND>,
        versions: u64,
        sorted: &[Rule<FIRST, SECOND>],
    ) -> Result<Option<Self>, OpenError>
        requires shape { IsShape FIRST SECOND }
        requires sorted { AreInOrder sorted.now }
        requires same { rules.rules ≡ rules_of sorted.now }
        requires max { rules.max ≡ config.rules }
        requires count { versions ≤ 2 ^ 61 }
        ensures opened { IfOk result (λ o. IfSome o (λ fib.
            fib ≡ initial_fib_at config rules.entry.rules versions)) }
        ensures suffice { IfOk result (λ o. IfSome o (λ _.
            AreSufficient FIRST SECOND config rules.entry.rules)) }
        ensures none { IfOk result (λ o. IsNone o
            → AreTooSmall FIRST SECOND config rules.entry.rules) }
        ensures limits { IfOk result (λ _. IsConfig config) }
        ensures bad_config { IfErr result
            (λ error. (error ≡ OpenError.BadConfig) ↔ (¬ IsConfig config)) }
    {
        config.check()?;
        match parts_at(alloc, config, rules, versions, sorted)? {
            Some((control, memory)) => Ok(Some(Fib { control, memory })),
            None => Ok(None),
        }
    }

    /// The writer's control state and the memory of one thread, for a table that goes on in another memory.
    pub fn into_parts(self) -> (ControlState<FIRST, SECOND>, PlainMemory<FIRST, SECOND>)
        ensures sound { IsSound FIRST SECOND result.0 result.1 }
        ensures config { result.0.config ≡ self.entry.config }
        ensures table { table_of result.0 result.1 ≡ self.entry.table }
    {
        let Fib { control, memory } = self;
        (control, memory)
    }

    /// The next hop of the rule of this very prefix; none where it has no rule.
    pub fn get(&self, prefix: &Prefix<FIRST, SECOND>) -> Option<Hop>
        ensures { result ≡ map.get self.now.table.rules prefix.now }
    {
        self.control.rules.get(prefix)
    }

    /// The rule that comes next after a prefix in the order of prefixes, whether the prefix has a
    /// rule or not; the first rule for `None`. It searches the rule list for each length.
    pub fn next_rule(&self, after: Option<Prefix<FIRST, SECOND>>) -> Option<Rule<FIRST, SECOND>>
        ensures { IsNextRule self.now.table.rules after.entry result }
    {
        self.control.rules.next_after(after)
    }

    /// The rule that answers the address: that of the longest prefix of the address that has a rule. It
    /// searches the rule list for each length, up to the first find, so it takes longer than
    /// [`lookup`](Fib::lookup).
    pub fn lookup_rule(&self, addr: u32) -> Option<Rule<FIRST, SECOND>>
        requires { addr < 2 ^ (FIRST + SECOND) }
        ensures { IsMatch FIRST SECOND self.now.table.rules addr result }
    {
        self.control.rules.longest_rule(addr)
    }

    /// The number of rules.
    pub fn rules(&self) -> usize
        ensures { result ≡ map.len self.now.table.rules }
    {
        self.control.rules.len()
    }

    /// The number of changes that made a version of the rule list.
    pub fn versions(&self) -> u64
        ensures { result ≡ self.now.table.updates_begun }
    {
        self.control.versions
    }

    /// The token number: the first token and, for each unlinking, one more.
    pub fn token(&self) -> u64
        ensures value { result ≡ self.now.table.readers.token }
        ensures within { result ≤ 2 ^ 62 }
    {
        self.memory.domain.token()
    }

    /// The limits that the table was opened with.
    pub fn config(&self) -> Config
        ensures value { result ≡ self.now.config }
        ensures limits { IsConfig result }
    {
        self.control.config
    }

    /// How many groups are in use, in limbo and free.
    pub fn counts(&self) -> Counts
        ensures in_use { result.in_use ≡ groups_in_use FIRST SECOND self.now.table.rules }
        ensures limbo { result.limbo ≡ length self.now.table.limbo }
        ensures all { result.in_use + result.limbo + result.free ≡ self.now.config.groups }
    {
        self.control.pool.groups.counts()
    }

    /// The next hop of the longest rule that covers the address, by one read or two.
    #[inline]
    pub fn lookup(&self, addr: u32) -> Option<Hop>
        requires { addr < 2 ^ (FIRST + SECOND) }
        ensures { IsLongestHop (FIRST + SECOND) self.now.table.rules addr result }
    {
        self.memory.cells.read(addr)
    }

    /// Adds a rule, or gives the prefix's rule another next hop. A rule that is there already
    /// stays, and is `Unchanged`, whatever else holds.
    ///
    /// The refusals, in the order of the checks: `Exhausted`; `TooManyRules` and `Memory`, where a
    /// new rule has no room; and `NoGroups`, where a rule longer than `FIRST` bits is the first in
    /// its block, no group is free, and the oldest in limbo is held or there is none. It names the
    /// worker that holds that one. After a refusal the table is as it was.
    pub fn add(&mut self, prefix: &Prefix<FIRST, SECOND>, hop: Hop) -> Result<Put, Refusal>
        ensures adds { Adds counter_transitions FIRST SECOND self.old.config self.old.table
            prefix.now hop result self.new.table }
        ensures config { self.new.config ≡ self.old.config }
    {
        add_rule(&mut self.control, &mut self.memory, prefix, hop)
    }

    /// Adds a rule as [`add`](Fib::add) does, and returns the next hop that the prefix had: none where it
    /// had no rule. It searches the rule list once more than `add`.
    pub fn insert(
        &mut self,
        prefix: &Prefix<FIRST, SECOND>,
        hop: Hop,
    ) -> Result<Option<Hop>, Refusal>
        ensures replaced { IfOk result (λ old. old ≡ map.get self.old.table.rules prefix.now) }
        ensures adds { (put : Result Put Refusal)
            × MatchResult result (λ _. IsOk put) (λ error. put ≡ Err error)
            × Adds counter_transitions FIRST SECOND self.old.config self.old.table
            prefix.now hop put self.new.table }
        ensures config { self.new.config ≡ self.old.config }
    {
        let old = self.get(prefix);
        match self.add(prefix, hop) {
            Ok(_) => Ok(old),
            Err(refusal) => Err(refusal),
        }
    }

    /// Deletes the rule of this prefix, and returns its next hop. Its addresses go to the longest
    /// rule that is shorter and covers it, where there is one.
    ///
    /// The refusals: `NoSuchRule`, where the prefix has no rule, and else `Exhausted`.
    pub fn delete(&mut self, prefix: &Prefix<FIRST, SECOND>) -> Result<Hop, Refusal>
        ensures deletes { Deletes counter_transitions FIRST SECOND self.old.config self.old.table
            prefix.now result self.new.table }
        ensures config { self.new.config ≡ self.old.config }
    {
        delete_rule(&mut self.control, &mut self.memory, prefix)
    }

    /// Deletes all rules, as one version, and returns how many there were. With none nothing
    /// changes, and else `Exhausted` is the only refusal.
    pub fn flush(&mut self) -> Result<usize, Refusal>
        ensures flushes { Flushes counter_transitions FIRST SECOND self.old.config self.old.table
            result self.new.table }
        ensures config { self.new.config ≡ self.old.config }
    {
        flush_rules(&mut self.control, &mut self.memory)
    }

    /// Frees groups that wait in limbo, from the oldest on: at most `max`, up to the first that a
    /// worker holds. It returns how many were freed, and the worker that stopped it.
    pub fn reclaim(&mut self, max: usize) -> Reclaimed
        ensures frees { Frees counter_transitions self.old.table max result self.new.table }
        ensures config { self.new.config ≡ self.old.config }
    {
        reclaim_groups(&mut self.control, &mut self.memory, max)
    }

    /// Whether the worker is online.
    pub fn is_online(&self, worker: usize) -> bool
        requires { worker < self.now.config.workers }
        ensures { IsTrue result ↔ by_counters.is_online self.now.table.readers worker }
    {
        self.memory.domain.is_online(worker)
    }

    /// The worker goes online: from now on it may hold each group that is given up.
    pub fn online(&mut self, worker: usize)
        requires worker { worker < self.old.config.workers }
        requires offline { ¬ by_counters.is_online self.old.table.readers worker }
        ensures { self.new ≡ state_after_report report.Online worker self.old }
    {
        self.memory.domain.online(worker);
    }

    /// The worker goes offline: it holds no group.
    pub fn offline(&mut self, worker: usize)
        requires worker { worker < self.old.config.workers }
        requires online { by_counters.is_online self.old.table.readers worker }
        ensures { self.new ≡ state_after_report report.Offline worker self.old }
    {
        self.memory.domain.offline(worker);
    }

    /// The worker has ended its lookups so far: it holds no group that was given up before.
    pub fn quiescent(&mut self, worker: usize)
        requires worker { worker < self.old.config.workers }
        requires online { by_counters.is_online self.old.table.readers worker }
        ensures { self.new ≡ state_after_report report.Quiescent worker self.old }
    {
        self.memory.domain.quiescent(worker);
    }
}
