//! The owner of a running table.

ghost use Rattle.std.specs.Prelude.{IsOk, Err, MatchResult, Result, ◌≡◌, ◌+◌, ◌^◌, ◌<◌, ◌≤◌, ◌↔◌, ℕ, IfOk, IfErr, IsErr, OnOk, OnErr, All, List, take, length, [], ◌∷◌};
ghost use Rattle.std.specs.FinMap as map;
ghost use Rattle.std.specs.Arc.{arc_value};
ghost use Rattle.fib_model.specs.Outcomes.{Adds, Deletes, Flushes, Frees, groups_in_use};
ghost use Rattle.lpm_limits.specs.Limits.{IsConfig};
ghost use Rattle.lpm_limits.specs.declared.refusal.Refusal.{Refusal};
ghost use Rattle.lpm_rules.specs.declared.Put.{Put};
ghost use Rattle.lpm_rules.specs.Longest.{IsMatch};
ghost use Rattle.lpm_rules.specs.RuleMap.{IsNextRule};
ghost use Rattle.lpm_trace.specs.declared.step.WorkerStep.TheVariants.{MeetWriter};
ghost use Rattle.lpm_trace.specs.Laws.{IsChecked};
ghost use Rattle.lpm_writer.specs.GroupToFill.{HasWidths};
ghost use Rattle.lpm_writer.specs.Rest.{blank_initial_state};
ghost use Rattle.lpm_writer.specs.Steps.{Synchronizes};
ghost use Rattle.shared_fib.specs.FreedGroups.{TakesLeast, FreesChecked};
ghost use Rattle.shared_words.specs.Rule.{IsLater};
ghost use Rattle.shared_fib.specs.Passes.{IsBenchOf, IsFullBench, IsPutBack, Makes};
ghost use Rattle.shared_fib.specs.RunningTable.{Rests, by_steps, initial_writer, passed_of, initial_state, steps_of, token_of};
ghost use Rattle.saxiko.specs.Owners.{Registers};

use crate::Reader;
use crate::reader::reader_of_worker;
use defer_queue::Reclaimed;
use lpm_bits::{Hop, Prefix};
use lpm_groups::Counts;
use lpm_limits::{Config, Refusal};
use lpm_rules::{Put, Rule};
use lpm_writer::{Exhausted, OpenError};
use shared_fib::{Bench, SharedTable, Writer, open};
use std::alloc::Global;
use std::marker::Model;
use std::sync::{Arc, Wait};

/// The owner of a running table: it changes the table, and hands its readers out.
///
/// Of its calls only `open`, `load` and an `add` or `insert` that grows the rule list take memory, and only
/// `synchronize` waits. Each change is refused as `Exhausted` where fewer tokens than groups are left, or
/// no version.
///
/// A group that is given up waits in limbo under a token of its own. Whichever call frees it, each worker's
/// counter was loaded after that token was there, and was 0 or at least the token.
///
/// Where an owner is dropped its readers go on, and nobody changes the table any more.
#[derive(Drop)]
pub struct Owner {
    pub(crate) table: Arc<SharedTable<24, 8>>,
    pub(crate) writer: Writer<24, 8>,
    pub(crate) bench: Bench,
}

impl Model for Owner {
    ghost use Rattle.std.specs.Prelude.{◌≡◌};
    ghost use Rattle.std.specs.Arc.{arc_value};
    ghost use Rattle.shared_fib.specs.Passes.{IsBenchOf};
    ghost use Rattle.saxiko.specs.Owners.{OwnerState, coded_owner};

    ghost Value = { OwnerState };

    ghost coded = { coded_owner };

    ghost view = { λ o. record { writer = o.writer; bench = o.bench } };

    ghost invariant = { λ o. (o.writer.identity ≡ arc_value o.table)
        × IsBenchOf (arc_value o.table) o.bench };
}

impl Owner {
    // The owner of this table, with its writer and its bench.
    pub(crate) fn new(table: Arc<SharedTable<24, 8>>, writer: Writer<24, 8>, bench: Bench) -> Self
        requires own { writer.identity ≡ arc_value table }
        requires bench { IsBenchOf (arc_value table) bench }
        ensures { result ≡ record { writer = writer; bench = bench } }
    {
        Owner {
            table,
            writer,
            bench,
        }
    }

    // The owner of these three, which were opened together.
    pub(crate) fn of_opened(
        alloc: Global,
        table: SharedTable<24, 8>,
        writer: Writer<24, 8>,
        bench: Bench,
    ) -> Result<Self, OpenError>
        requires own { writer.identity ≡ table }
        requires bench { IsBenchOf table bench }
        ensures ok { IfOk result (λ owner. owner ≡ record { writer = writer; bench = bench }) }
        ensures err { IfErr result (λ error. error ≡ OpenError.Memory) }
    {
        match Arc::new(alloc, table) {
            Ok(table) => Ok(Owner::new(table, writer, bench)),
            Err(_) => Err(OpenError::Memory),
        }
    }

    /// A running table without rules, with a reader for each worker, all offline. It refuses limits out of
    /// range, and ends with `Memory` where there is no room for the words, the groups or the workers.
    pub fn open(alloc: Global, config: Config) -> Result<Self, OpenError>
        ensures initial { IfOk result
            (λ owner. initial_state owner.writer.identity ≡ blank_initial_state 24 8 config) }
        ensures opened { IfOk result
            (λ owner. owner.writer ≡ initial_writer owner.writer.identity config map.empty) }
        ensures token { IfOk result (λ owner. owner.writer.identity.initial.token ≡ config.first_token) }
        ensures workers { IfOk result (λ owner. owner.writer.identity.initial.workers ≡ config.workers) }
        ensures bench { IfOk result (λ owner. IsFullBench owner.writer.identity owner.bench) }
        ensures limits { IfOk result (λ _. IsConfig config) }
        ensures bad_config { IfErr result
            (λ error. (error ≡ OpenError.BadConfig) ↔ (¬ IsConfig config)) }
    {
        let (table, writer, bench) = open::<24, 8>(alloc, config)?;
        Owner::of_opened(alloc, table, writer, bench)
    }

    /// The reader of the worker of this number, which is offline.
    ///
    /// The refusals: `NoSuchWorker`, where the table has no such worker; `Taken`, where its reader is
    /// handed out and not given back yet; and `Memory`, where there are 2^63 readers.
    pub fn register(&mut self, worker: usize) -> Result<Reader, Refusal>
        ensures { Registers self.old worker result self.new }
    {
        reader_of_worker(&self.table, &mut self.bench, worker)
    }

    /// Takes a reader back, so that its number can be registered again. One that is online goes offline
    /// first.
    pub fn unregister(&mut self, reader: Reader)
        requires own { reader.table ≡ self.old.writer.identity }
        ensures back { IsPutBack self.old.bench reader self.new.bench }
        ensures own { IsBenchOf self.new.writer.identity self.new.bench }
        ensures same { self.new.writer ≡ self.old.writer }
    {
        self.bench.unregister(&*self.table, reader.into_pass());
    }

    /// A reader loads the sequence once. Then it has seen all that the owner has done.
    pub fn meet(&mut self, reader: &mut Reader)
        requires own { reader.old.table ≡ self.old.writer.identity }
        ensures own { reader.new.table ≡ reader.old.table }
        ensures step { (number : ℕ) × (place : ℕ)
            × Makes ((MeetWriter number, place) ∷ []) reader.old reader.new }
        ensures all { reader.new.writer_steps ≡ steps_of self.old.writer }
        ensures same { self.new ≡ self.old }
        ensures online { reader.new.online ≡ reader.old.online }
    {
        reader.pass.meet(&*self.table, &mut self.writer);
    }

    /// Adds a rule, or gives the prefix's rule another next hop. A rule that is there already stays, and is
    /// `Unchanged`, whatever else holds.
    ///
    /// A rule longer than 24 bits that is the first in its block of 256 addresses takes the free group of
    /// the least number. Where none is free, it takes the oldest in limbo, once its check has passed.
    ///
    /// The refusals, in the order of the checks: `Exhausted`; `TooManyRules` and `Memory`, where a new rule
    /// has no room; and `NoGroups`, where a rule longer than 24 bits is the first in its block, no group is
    /// free, and the oldest in limbo is held or there is none. It names the worker that holds that one.
    pub fn add(&mut self, prefix: &Prefix<24, 8>, hop: Hop) -> Result<Put, Refusal>
        ensures adds { Adds (by_steps self.old.writer.identity.initial) 24 8 self.old.writer.config
            self.old.writer.table prefix.now hop result self.new.writer.table }
        ensures least { TakesLeast self.old.writer.identity.initial
            self.old.writer.table self.new.writer.table }
        ensures checked { (freed : List ℕ) × FreesChecked self.old.writer.identity.initial
            self.old.writer.table self.new.writer.table freed }
        ensures later { IsLater (steps_of self.old.writer) (steps_of self.new.writer) }
        ensures own { self.new.writer.identity ≡ self.old.writer.identity }
        ensures config { self.new.writer.config ≡ self.old.writer.config }
        ensures bench { self.new.bench ≡ self.old.bench }
    {
        self.writer.add(&*self.table, prefix, hop)
    }

    /// Adds a rule as [`add`](Owner::add) does, and returns the next hop that the prefix had: none where it
    /// had no rule. It searches the rule list once more than `add`.
    pub fn insert(&mut self, prefix: &Prefix<24, 8>, hop: Hop) -> Result<Option<Hop>, Refusal>
        ensures replaced { IfOk result
            (λ old. old ≡ map.get self.old.writer.table.rules prefix.now) }
        ensures adds { (put : Result Put Refusal)
            × MatchResult result (λ _. IsOk put) (λ error. put ≡ Err error)
            × Adds (by_steps self.old.writer.identity.initial) 24 8 self.old.writer.config
            self.old.writer.table prefix.now hop put self.new.writer.table }
        ensures least { TakesLeast self.old.writer.identity.initial
            self.old.writer.table self.new.writer.table }
        ensures checked { (freed : List ℕ) × FreesChecked self.old.writer.identity.initial
            self.old.writer.table self.new.writer.table freed }
        ensures later { IsLater (steps_of self.old.writer) (steps_of self.new.writer) }
        ensures own { self.new.writer.identity ≡ self.old.writer.identity }
        ensures config { self.new.writer.config ≡ self.old.writer.config }
        ensures bench { self.new.bench ≡ self.old.bench }
    {
        let old = self.get(prefix);
        match self.add(prefix, hop) {
            Ok(_) => Ok(old),
            Err(refusal) => Err(refusal),
        }
    }

    /// Deletes the rule of this prefix, and returns its next hop. Its addresses go to the longest rule that
    /// is shorter and covers it, where there is one. A block that loses its last rule longer than 24 bits
    /// gives its group up; where more than the threshold wait in limbo, some are reclaimed first.
    ///
    /// The refusals: `NoSuchRule`, where the prefix has no rule, and else `Exhausted`.
    pub fn delete(&mut self, prefix: &Prefix<24, 8>) -> Result<Hop, Refusal>
        ensures deletes { Deletes (by_steps self.old.writer.identity.initial) 24 8
            self.old.writer.config self.old.writer.table prefix.now result self.new.writer.table }
        ensures checked { (freed : List ℕ) × FreesChecked self.old.writer.identity.initial
            self.old.writer.table self.new.writer.table freed }
        ensures later { IsLater (steps_of self.old.writer) (steps_of self.new.writer) }
        ensures own { self.new.writer.identity ≡ self.old.writer.identity }
        ensures config { self.new.writer.config ≡ self.old.writer.config }
        ensures bench { self.new.bench ≡ self.old.bench }
    {
        self.writer.delete(&*self.table, prefix)
    }

    /// Deletes all rules, as one version, and returns how many there were. With none nothing changes, and
    /// else `Exhausted` is the only refusal. The groups are given up and reclaimed as by `delete`, one
    /// after another.
    pub fn flush(&mut self) -> Result<usize, Refusal>
        ensures flushes { Flushes (by_steps self.old.writer.identity.initial) 24 8
            self.old.writer.config self.old.writer.table result self.new.writer.table }
        ensures checked { (freed : List ℕ) × FreesChecked self.old.writer.identity.initial
            self.old.writer.table self.new.writer.table freed }
        ensures later { IsLater (steps_of self.old.writer) (steps_of self.new.writer) }
        ensures own { self.new.writer.identity ≡ self.old.writer.identity }
        ensures config { self.new.writer.config ≡ self.old.writer.config }
        ensures bench { self.new.bench ≡ self.old.bench }
    {
        self.writer.flush(&*self.table)
    }

    /// Frees groups that wait in limbo, from the oldest on: at most `max`, up to the first that a worker
    /// holds. It returns how many were freed, and the worker that stopped it.
    pub fn reclaim(&mut self, max: usize) -> Reclaimed
        ensures frees { Frees (by_steps self.old.writer.identity.initial) self.old.writer.table max
            result self.new.writer.table }
        ensures checked { FreesChecked self.old.writer.identity.initial self.old.writer.table
            self.new.writer.table (take result.freed self.old.writer.table.limbo) }
        ensures later { IsLater (steps_of self.old.writer) (steps_of self.new.writer) }
        ensures own { self.new.writer.identity ≡ self.old.writer.identity }
        ensures config { self.new.writer.config ≡ self.old.writer.config }
        ensures bench { self.new.bench ≡ self.old.bench }
    {
        self.writer.reclaim(&*self.table, max)
    }

    /// Starts a token and checks it again and again until a check passes. It waits for readers that are
    /// online and hold the token, so it returns only if each of them reports or goes offline. Once it has
    /// returned `Ok`, each worker's counter was loaded after the token was there, and was 0 or at least the
    /// token; and no group that was queued before is held at any later check.
    ///
    /// `Exhausted` where fewer tokens than groups are left; nothing was written then.
    pub fn synchronize<R: Wait>(&mut self, rt: &R) -> Result<(), Exhausted>
        ensures exhausted { IsErr result
            ↔ (2 ^ 62 < token_of self.old.writer + self.old.writer.config.groups) }
        ensures synchronizes { OnOk result (Synchronizes
            self.old.writer.identity.initial.workers self.old.writer.identity.initial.token
            (steps_of self.old.writer) (steps_of self.new.writer)) }
        ensures started { OnOk result
            (token_of self.new.writer ≡ token_of self.old.writer + 1) }
        ensures checked { OnOk result (IsChecked
            self.old.writer.identity.initial.workers self.old.writer.identity.initial.token
            (steps_of self.new.writer) (token_of self.new.writer)) }
        ensures queued { OnOk result (0 < self.old.writer.config.workers
            → All (λ token. token ≤ passed_of self.new.writer) self.new.writer.table.limbo) }
        ensures later { IsLater (steps_of self.old.writer) (steps_of self.new.writer) }
        ensures same { self.new.writer ≡ record self.old.writer {
          table = record self.old.writer.table { readers = steps_of self.new.writer };
        } }
        ensures unchanged { OnErr result (self.new ≡ self.old) }
        ensures bench { self.new.bench ≡ self.old.bench }
    {
        self.writer.synchronize(rt, &*self.table)
    }

    /// The next hop of the rule of this very prefix; none where it has no rule.
    pub fn get(&self, prefix: &Prefix<24, 8>) -> Option<Hop>
        ensures { result ≡ map.get self.now.writer.table.rules prefix.now }
    {
        self.writer.get(prefix)
    }

    /// The rule of the last version that comes next after a prefix in the order of prefixes, whether the
    /// prefix has a rule or not; the first rule for `None`. It searches the rule list for each length.
    pub fn next_rule(&self, after: Option<Prefix<24, 8>>) -> Option<Rule<24, 8>>
        ensures { IsNextRule self.now.writer.table.rules after result }
    {
        self.writer.rule_after(after)
    }

    /// The rule of the last version that answers the address: that of the longest prefix of the address
    /// that has a rule. It searches the rule list for each length, up to the first find.
    pub fn lookup_rule(&self, addr: u32) -> Option<Rule<24, 8>>
        ensures { IsMatch 24 8 self.now.writer.table.rules addr result }
    {
        self.writer.rule_for(addr)
    }

    /// The number of rules.
    pub fn rules(&self) -> usize
        ensures { result ≡ map.len self.now.writer.table.rules }
    {
        self.writer.rules()
    }

    /// Does nothing: its contract says that the table is at rest between two commands, and of which widths
    /// its traces are.
    #[inline]
    pub fn at_rest(&self)
        ensures rests { Rests self.now.writer }
        ensures widths { HasWidths 24 8 (initial_state self.now.writer.identity) }
    {
        self.table.has_widths();
        self.writer.table_rests();
    }

    /// The number of changes that made a version of the rule list, since the table was opened.
    pub fn versions(&self) -> u64
        ensures { result ≡ self.now.writer.table.updates_begun }
    {
        self.writer.versions()
    }

    /// The token number: that of the initial state and, for each group that was given up and each grace period,
    /// one more.
    pub fn token(&mut self) -> u64
        ensures same { self.new ≡ self.old }
        ensures value { result ≡ token_of self.old.writer }
        ensures within { result ≤ 2 ^ 62 }
    {
        self.writer.token(&*self.table)
    }

    /// The limits that the table was opened with.
    pub fn config(&self) -> Config
        ensures value { result ≡ self.now.writer.config }
        ensures limits { IsConfig result }
    {
        self.writer.limits()
    }

    /// How many groups are in use, in limbo and free.
    pub fn counts(&self) -> Counts
        ensures in_use { result.in_use ≡ groups_in_use 24 8 self.now.writer.table.rules }
        ensures limbo { result.limbo ≡ length self.now.writer.table.limbo }
        ensures all { result.in_use + result.limbo + result.free ≡ self.now.writer.config.groups }
    {
        self.writer.counts()
    }
}
