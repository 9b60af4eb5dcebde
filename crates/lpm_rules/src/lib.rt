//! The rule list of a table for longest-prefix match: a finite map from prefixes to next hops, with
//! a greatest number of rules.
#![tactic(auto)]

ghost use Rattle.std.specs.Prelude.{◌≡◌, ◌≢◌, ℕ, ◌+◌, ◌*◌, ◌/◌, ◌^◌, ◌<◌, ◌≤◌, ◌↔◌, ◌⊎◌, IsTrue, IsSome, IsSomeAnd, OnOk, OnErr, IfOk, MatchOption, MatchResult, [], ◌&&◌, nat_eq, count_by};
ghost use Rattle.std.specs.BTreeMap as tree;
ghost use Rattle.std.specs.FinMap as map;
ghost use Rattle.std.specs.FinSet as set;
ghost use Rattle.std.specs.Ordering.{nat_cmp};
ghost use Rattle.lpm_bits.specs.Widths.{IsShape};
ghost use Rattle.lpm_bits.specs.Network.{prefix_of};
ghost use Rattle.lpm_rules.specs.RuleMap.{AllNetworks, HasRoomFor, LacksRoomFor, with_rule, without_rule, AreInOrder, rules_of};
ghost use Rattle.lpm_rules.specs.Deep.{IsBlockOf, IsDeepBlock, IsLastBefore, block_of, deep_count, deep_blocks};
ghost use Rattle.lpm_rules.specs.Longest.{IsLongestHop, IsUncovered, IsCoverRule};
ghost use Rattle.lpm_rules.specs.declared.RuleFault.TheVariants as fault;
ghost use Rattle.lpm_limits.specs.declared.refusal.Refusal.TheVariants as refusal;

pub mod laws;
mod longest_match;
mod maps;
mod places;
mod walk;

use lpm_bits::{Hop, Prefix};
use lpm_limits::Refusal;
use maps::{maps_by_length, pairs_by_length};
pub use places::{count_rules, place_of};
use std::alloc::{AllocError, Global};
use std::collections::BTreeMap;
use std::error::Error;
use std::marker::Model;
use std::{array, fmt};

/// A rule: the addresses of the prefix go to the next hop, unless a longer rule covers them.
#[derive(Clone, Copy, Debug, PartialEq, Eq)]
pub struct Rule<const FIRST: u32, const SECOND: u32> {
    pub prefix: Prefix<FIRST, SECOND>,
    pub hop: Hop,
}

/// What an accepted [`Rules::put`] did.
#[derive(Clone, Copy, Debug, PartialEq, Eq)]
pub enum Put {
    /// The prefix had no rule.
    Added,
    /// The prefix had a rule with another next hop.
    Replaced,
    /// The prefix had this very rule.
    Unchanged,
}

/// Why a [`Rules::put`] was refused.
#[derive(Clone, Copy, Debug, PartialEq, Eq)]
pub enum RuleFault {
    /// The rule would be a new one, and the list holds its greatest number of rules.
    TooManyRules,
    /// The rule would be a new one, and no memory could be had for it.
    Memory,
}

impl fmt::Display for RuleFault {
    fn fmt<W: fmt::Write>(&self, f: &mut fmt::Formatter<W>) -> fmt::Result {
        match self {
            RuleFault::TooManyRules => f.write_str("too many rules"),
            RuleFault::Memory => f.write_str("out of memory"),
        }
    }
}

impl Error for RuleFault {}

/// The refusal of a table whose rule list has the fault.
impl From<RuleFault> for Refusal {
    ghost from_gives = { λ why told. (why ≡ fault.TooManyRules → told ≡ refusal.TooManyRules)
        × (why ≡ fault.Memory → told ≡ refusal.Memory) };

    fn from(fault: RuleFault) -> Self {
        match fault {
            RuleFault::TooManyRules => Self::TooManyRules,
            RuleFault::Memory => Self::Memory,
        }
    }
}

/// The prefix has no rule.
#[derive(Clone, Copy, Debug, PartialEq, Eq)]
pub struct NoSuchRule;

impl fmt::Display for NoSuchRule {
    fn fmt<W: fmt::Write>(&self, f: &mut fmt::Formatter<W>) -> fmt::Result {
        f.write_str("no such rule")
    }
}

impl Error for NoSuchRule {}

impl From<NoSuchRule> for Refusal {
    ghost from_gives = { λ _ told. told ≡ refusal.NoSuchRule };

    fn from(_none: NoSuchRule) -> Self {
        Self::NoSuchRule
    }
}

/// A change of the rule list, or of what waits to be reclaimed.
#[derive(Clone, Copy, Debug, PartialEq, Eq)]
pub enum Change<const FIRST: u32, const SECOND: u32> {
    /// Gives the prefix this next hop.
    Add(Prefix<FIRST, SECOND>, Hop),
    /// Takes out the rule of the prefix.
    Delete(Prefix<FIRST, SECOND>),
    /// Takes out all rules.
    Flush,
    /// Frees at most so many groups that no reader can still hold.
    Reclaim(usize),
    /// Waits until each reader has left what was given up before.
    Synchronize,
}

/// What a lookup answered, and when its answer stood.
#[derive(Clone, Copy, Debug, PartialEq, Eq)]
pub struct Answer {
    /// The next hop, or none for a miss.
    pub hop: Option<Hop>,
    /// How many updates were done when the lookup began.
    pub lo: u64,
    /// How many updates were begun when it ended.
    pub hi: u64,
}

/// The rules, at most one for each prefix.
#[derive(Drop)]
pub struct Rules<const FIRST: u32, const SECOND: u32> {
    // The rules of each length, by the bits of their prefixes. A method that begins with
    // `let _ = &self.lengths;` rests on what the fields keep.
    lengths: [BTreeMap<u32, Hop>; 33],
    count: usize,
    max: usize,
}

impl<const FIRST: u32, const SECOND: u32> Model for Rules<FIRST, SECOND> {
    ghost use Rattle.lpm_rules.specs.RuleMap.{RuleList, coded_rule_list};
    ghost use Rattle.lpm_rules.specs.View.{rules_of_lengths, IsSound};

    ghost Value = { RuleList };

    ghost coded = { coded_rule_list };

    ghost view = { λ a. record { rules = rules_of_lengths a.lengths; max = a.max } };

    ghost invariant = { λ a. IsSound FIRST SECOND a.lengths a.count };
}

impl<const FIRST: u32, const SECOND: u32> Rules<FIRST, SECOND> {
    /// No rules, with room for `max`. It takes no memory; the list keeps the allocator, and takes
    /// memory from it as rules are added.
    pub fn new(alloc: Global, max: usize) -> Self
        requires { IsShape FIRST SECOND }
        ensures { result ≡ record { rules = map.empty; max = max } }
    {
        Rules {
            lengths: array::from_fn(
                |_len: usize| -> BTreeMap<u32, Hop>
                    ensures { result.entries ≡ [] }
                { BTreeMap::new(alloc) },
            ),
            count: 0,
            max,
        }
    }

    /// The rules of a list that is in the order of its prefixes. Of the rules of one prefix the last
    /// counts.
    ///
    /// The list may have more than `max` rules, and all of them count: `max` refuses only what is
    /// put in later. `AllocError` where memory is short. It is much faster than to [`Rules::put`] each
    /// rule.
    pub fn of_sorted(
        alloc: Global,
        max: usize,
        rules: &[Rule<FIRST, SECOND>],
    ) -> Result<Self, AllocError>
        requires shape { IsShape FIRST SECOND }
        requires sorted { AreInOrder rules.now }
        ensures { IfOk result (λ l. l ≡ record { rules = rules_of rules.now; max = max }) }
    {
        let lists = pairs_by_length(alloc, rules)?;
        let lengths = maps_by_length(alloc, &lists)?;
        let count = count_rules(rules);
        Ok(Rules {
            lengths,
            count,
            max,
        })
    }

    /// How many rules there are.
    pub fn len(&self) -> usize
        ensures value { result ≡ map.len self.now.rules }
        ensures shape { IsShape FIRST SECOND }
        ensures networks { AllNetworks (FIRST + SECOND) self.now.rules }
    {
        self.count
    }

    /// Whether there are no rules.
    pub fn is_empty(&self) -> bool
        ensures { IsTrue result ↔ (map.len self.now.rules ≡ 0) }
    {
        self.count == 0
    }

    /// Whether the list holds its greatest number of rules, so that no new rule can be added.
    pub fn is_full(&self) -> bool
        ensures { IsTrue result ↔ (self.now.max ≤ map.len self.now.rules) }
    {
        self.count >= self.max
    }

    /// The next hop of the rule of this very prefix.
    pub fn get(&self, prefix: &Prefix<FIRST, SECOND>) -> Option<Hop>
        ensures { result ≡ map.get self.now.rules prefix.now }
    {
        let length = &self.lengths[prefix.len() as usize];
        length.get(&prefix.bits()).copied()
    }

    /// The rules of one length, by the bits of their prefixes.
    pub fn of_length(&self, len: u32) -> &BTreeMap<u32, Hop>
        requires { len ≤ 32 }
        ensures { (bits : ℕ) → tree.get nat_cmp result.now bits
            ≡ map.get self.now.rules (record { bits = bits; len = len }) }
    {
        &self.lengths[len as usize]
    }

    /// Gives the prefix this next hop, in place of the one that it may have.
    ///
    /// A refusal leaves the list as it was. Only a new rule takes memory.
    pub fn put(&mut self, prefix: &Prefix<FIRST, SECOND>, hop: Hop) -> Result<Put, RuleFault>
        ensures unchanged { (result ≡ Ok Put.Unchanged)
            ↔ (map.get self.old.rules prefix.now ≡ Some hop) }
        ensures replaced { (result ≡ Ok Put.Replaced)
            ↔ IsSomeAnd (map.get self.old.rules prefix.now) (λ old. old ≢ hop) }
        ensures full { (result ≡ Err RuleFault.TooManyRules) ↔ LacksRoomFor self.old prefix.now }

        // A new rule that has room is added, unless memory is refused.
        ensures new { ((result ≡ Ok Put.Added) ⊎ (result ≡ Err RuleFault.Memory))
            ↔ HasRoomFor self.old prefix.now }

        ensures ok { OnOk result (self.new ≡ with_rule self.old prefix.now hop) }
        ensures same { result ≡ Ok Put.Unchanged → self.new ≡ self.old }
        ensures err { OnErr result (self.new ≡ self.old) }
    {
        if self.is_full() && self.get(prefix).is_none() {
            return Err(RuleFault::TooManyRules);
        }
        match self.store(prefix, hop) {
            Ok(Some(old)) if old == hop => return Ok(Put::Unchanged),
            Ok(Some(_)) => return Ok(Put::Replaced),
            Ok(None) => return Ok(Put::Added),
            Err(_) => return Err(RuleFault::Memory),
        }
    }

    // Puts a rule into the map of its length, and returns the next hop that the prefix had.
    fn store(&mut self, prefix: &Prefix<FIRST, SECOND>, hop: Hop) -> Result<Option<Hop>, AllocError>
        requires room { ¬ LacksRoomFor self.old prefix.now }
        ensures old { IfOk result (λ old. old ≡ map.get self.old.rules prefix.now) }
        ensures ok { OnOk result (self.new ≡ with_rule self.old prefix.now hop) }
        ensures absent { OnErr result (map.get self.old.rules prefix.now ≡ None) }
        ensures err { OnErr result (self.new ≡ self.old) }
    {
        let bits = prefix.bits();
        let length = &mut self.lengths[prefix.len() as usize];
        match length.insert(bits, hop) {
            Ok(None) => {
                self.count += 1;
                return Ok(None);
            }
            Ok(Some(old)) => return Ok(Some(old)),
            Err(_) => return Err(AllocError),
        }
    }

    /// Takes out the rule of this very prefix, and returns its next hop. It takes no memory.
    pub fn remove(&mut self, prefix: &Prefix<FIRST, SECOND>) -> Result<Hop, NoSuchRule>
        ensures hop { MatchResult result (λ hop. map.get self.old.rules prefix.now ≡ Some hop)
            (λ _. map.get self.old.rules prefix.now ≡ None) }
        ensures ok { OnOk result (self.new ≡ without_rule self.old prefix.now) }
        ensures err { OnErr result (self.new ≡ self.old) }
    {
        let bits = prefix.bits();
        let length = &mut self.lengths[prefix.len() as usize];
        match length.remove(&bits) {
            Some(hop) => {
                self.count -= 1;
                return Ok(hop);
            }
            None => return Err(NoSuchRule),
        }
    }

    /// Takes out all rules, and returns how many there were. It takes no memory.
    pub fn clear(&mut self) -> usize
        ensures count { result ≡ map.len self.old.rules }
        ensures empty { self.new ≡ record self.old { rules = map.empty } }
    {
        let count = self.count;
        self.count = 0;
        for length in &mut self.lengths {
            length.clear();
        }
        count
    }

    /// The rule of this length that covers an address: that of the prefix which the address's first
    /// `len` bits make, where `len` is from 0 to `FIRST + SECOND`. None where that prefix has no
    /// rule, also where a rule of another length covers the address. It looks one key up.
    pub fn rule_of_length(&self, addr: u32, len: u32) -> Option<Rule<FIRST, SECOND>>
        requires addr { addr < 2 ^ (FIRST + SECOND) }
        requires len { len ≤ FIRST + SECOND }
        ensures { let prefix = prefix_of (FIRST + SECOND) len addr in
            MatchOption result (map.get self.now.rules prefix ≡ None)
            (λ r. (r.prefix ≡ prefix) × (map.get self.now.rules r.prefix ≡ Some r.hop)) }
    {
        let _ = &self.lengths;
        let prefix = Prefix::new(addr, len).ok()?;
        let hop = self.of_length(len).get(&prefix.bits()).copied()?;
        Some(Rule { prefix, hop })
    }

    /// The longest of the rules that are shorter than the prefix and cover it: the rule that a
    /// deleted prefix falls back to.
    pub fn cover(&self, prefix: &Prefix<FIRST, SECOND>) -> Option<Rule<FIRST, SECOND>>
        ensures { MatchOption result (IsUncovered (FIRST + SECOND) self.now.rules prefix.now)
            (λ c. IsCoverRule (FIRST + SECOND) self.now.rules prefix.now c.prefix c.hop) }
    {
        let _ = &self.lengths;
        let bits = prefix.bits();
        let len = prefix.len();
        for shorter in 1..=len {
            if let Some(rule) = self.rule_of_length(bits, len - shorter) {
                return Some(rule);
            }
        }
        None
    }

    /// The next hop of the longest rule that covers an address.
    pub fn longest(&self, addr: u32) -> Option<Hop>
        requires { addr < 2 ^ (FIRST + SECOND) }
        ensures { IsLongestHop (FIRST + SECOND) self.now.rules addr result }
    {
        let _ = &self.lengths;
        let rule = self.longest_rule(addr)?;
        Some(rule.hop)
    }

    /// Whether a rule longer than `FIRST` bits lies in a block: the addresses whose first `FIRST`
    /// bits are this number. One look at each length longer than `FIRST`, up to the first find.
    pub fn is_deep(&self, block: usize) -> bool
        requires { block < 2 ^ FIRST }
        ensures { IsTrue result ↔ IsDeepBlock FIRST SECOND self.now.rules block }
    {
        let _ = &self.lengths;
        for len in FIRST + 1..=FIRST + SECOND {
            if self.last_block(block + 1, len) == Some(block) {
                return true;
            }
        }
        false
    }

    /// How many rules longer than `FIRST` bits lie in a block, by a walk over all of them. Where
    /// the question is only whether there is one, [`Rules::is_deep`] is faster.
    pub fn deep_in(&self, block: usize) -> usize
        requires { block < 2 ^ FIRST }
        ensures value { result ≡ deep_count FIRST SECOND self.now.rules block }
        ensures some { (0 < result) ↔ IsDeepBlock FIRST SECOND self.now.rules block }
        ensures none { (result ≡ 0) ↔ (¬ (IsDeepBlock FIRST SECOND self.now.rules block)) }
    {
        // No sum below passes the number of all rules.
        let _count = self.count;
        let mut count = 0;
        for len in FIRST + 1..=FIRST + SECOND {
            count += self.count_in(block, len);
        }
        count
    }

    // How many rules of this length lie in the block.
    fn count_in(&self, block: usize, len: u32) -> usize
        requires block { block < 2 ^ FIRST }
        requires len { len ≤ 32 }
        ensures { result ≡ count_by (λ p. nat_eq p.len len && nat_eq (block_of SECOND p) block)
            (map.keys self.now.rules) }
    {
        let _ = &self.lengths;
        let first = (block << SECOND) as u32;
        let last = first + ((1 << SECOND) - 1);
        let length = self.of_length(len);
        length.range(first..=last).count()
    }

    /// How many blocks hold a rule longer than `FIRST` bits.
    pub fn deep_blocks(&self) -> usize
        ensures { result ≡ set.len (deep_blocks FIRST SECOND self.now.rules) }
    {
        let _ = &self.lengths;
        let mut count = 0;
        let mut end = 1 << FIRST;
        while let Some(block) = self.last_deep_block(end) {
            count += 1;
            end = block;
        }
        count
    }

    // The last of the blocks before `end` that hold a rule longer than `FIRST` bits.
    fn last_deep_block(&self, end: usize) -> Option<usize>
        requires { end ≤ 2 ^ FIRST }
        ensures { IsLastBefore (IsDeepBlock FIRST SECOND self.now.rules) end result }
    {
        let _ = &self.lengths;
        let mut last = None;
        for len in FIRST + 1..=FIRST + SECOND {
            last = last.max(self.last_block(end, len));
        }
        last
    }

    // The last of the blocks before `end` that hold a rule of this length.
    fn last_block(&self, end: usize, len: u32) -> Option<usize>
        requires end { end ≤ 2 ^ FIRST }
        requires len { len ≤ 32 }
        ensures { IsLastBefore (IsBlockOf SECOND self.now.rules len) end result }
    {
        let _ = &self.lengths;
        if end == 0 {
            return None;
        }
        let last = (((end as u64) << SECOND) - 1) as u32;
        let length = self.of_length(len);
        let (bits, _) = length.range(..=last).next_back()?;
        Some((*bits >> SECOND) as usize)
    }
}
