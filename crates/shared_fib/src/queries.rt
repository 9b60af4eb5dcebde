//! What a writer tells of its table.

ghost use Rattle.std.specs.Prelude.{◌≡◌, ◌+◌, ◌^◌, ◌<◌, ◌≤◌, length};
ghost use Rattle.std.specs.FinMap as map;
ghost use Rattle.fib_model.specs.Outcomes.{groups_in_use};
ghost use Rattle.lpm_limits.specs.Limits.{IsConfig};
ghost use Rattle.lpm_rules.specs.Longest.{IsMatch};
ghost use Rattle.lpm_rules.specs.RuleMap.{IsNextRule};
ghost use Rattle.shared_fib.specs.RunningTable.{Rests, token_of};

use crate::{SharedTable, Writer};
use lpm_bits::{Hop, Prefix};
use lpm_groups::Counts;
use lpm_limits::Config;
use lpm_rules::Rule;

impl<const FIRST: u32, const SECOND: u32> Writer<FIRST, SECOND> {
    /// The next hop of the rule of this very prefix; none where it has no rule.
    pub fn get(&self, prefix: &Prefix<FIRST, SECOND>) -> Option<Hop>
        ensures { result ≡ map.get self.now.table.rules prefix.now }
    {
        self.control.rules.get(prefix)
    }

    /// The rule that comes next after a prefix in the order of prefixes, whether the prefix has a rule or
    /// not; the first rule for `None`. It searches the rule list for each length.
    pub fn rule_after(&self, after: Option<Prefix<FIRST, SECOND>>) -> Option<Rule<FIRST, SECOND>>
        ensures { IsNextRule self.now.table.rules after.entry result }
    {
        self.control.rules.next_after(after)
    }

    /// The rule that answers the address: that of the longest prefix of the address that has a rule. It
    /// searches the rule list for each length, up to the first find.
    pub fn rule_for(&self, addr: u32) -> Option<Rule<FIRST, SECOND>>
        requires { addr < 2 ^ (FIRST + SECOND) }
        ensures { IsMatch FIRST SECOND self.now.table.rules addr result }
    {
        self.control.rules.longest_rule(addr)
    }

    /// The number of rules.
    pub fn rules(&self) -> usize
        ensures { result ≡ map.len self.now.table.rules }
    {
        self.control.rules.len()
    }

    /// Does nothing: its contract says that the table is at rest between two commands, and that the steps
    /// which led there are lawful.
    #[inline]
    pub fn table_rests(&self)
        ensures { Rests self.now }
    {
        self.seat.steps_are_lawful();
    }

    /// The number of changes that made a version of the rule list, since the table was opened.
    pub fn versions(&self) -> u64
        ensures { result ≡ self.now.table.updates_begun }
    {
        self.control.versions
    }

    /// The token number: that of the initial state and, for each unlinking and each grace period, one more.
    pub fn token(&mut self, table: &SharedTable<FIRST, SECOND>) -> u64
        requires own { self.old.identity ≡ table.now }
        ensures same { self.new ≡ self.old }
        ensures value { result ≡ token_of self.old }
        ensures within { result ≤ 2 ^ 62 }
    {
        self.seat.stored_token(&table.words)
    }

    /// The limits that the table was opened with.
    pub fn limits(&self) -> Config
        ensures value { result ≡ self.now.config }
        ensures limits { IsConfig result }
    {
        self.control.config
    }

    /// How many groups are in use, in limbo and free.
    pub fn counts(&self) -> Counts
        ensures in_use { result.in_use ≡ groups_in_use FIRST SECOND self.now.table.rules }
        ensures limbo { result.limbo ≡ length self.now.table.limbo }
        ensures all { result.in_use + result.limbo + result.free ≡ self.now.config.groups }
    {
        self.control.pool.groups.counts()
    }
}
