//! A change of the words, one store a step.

ghost use Rattle.std.specs.Prelude.{◌≡◌};

use super::{Did, Flush, Kind, LinkGroup, Rewrite, RewriteRange, UnlinkGroup};
use lpm_bits::{Hop, Prefix, Shape};
use lpm_cells::{Cells, Entry};
use lpm_rules::Rule;
use std::marker::Model;

/// What is left to store, by the kind of the change.
#[derive(Drop)]
pub(crate) enum Plan {
    /// The words of a range are rewritten, upwards.
    Range(RewriteRange),
    /// The words of a free group are stored, and then it is linked.
    Link(LinkGroup),
    /// The words of a block are rewritten, and then its group is unlinked.
    Unlink(UnlinkGroup),
    /// All first words become misses.
    Flush(Flush),
}

/// A change of the words by a change of the rule list, one store of one word a step.
#[derive(Drop)]
pub struct Update {
    plan: Plan,
}

impl Model for Update {
    ghost use Rattle.lpm_update.specs.declared.update.Plan.{Plan};

    ghost Value = { Plan };

    ghost view = { λ u. u.plan };
}

impl Update {
    ghost use Rattle.std.specs.Prelude.{◌≡◌, ℕ, ◌+◌, ◌/◌, ◌^◌, ◌<◌, List, IsSome, MatchOption};
    ghost use Rattle.lpm_bits.specs.Widths.{IsShape};
    ghost use Rattle.std.specs.FinMap as map;
    ghost use Rattle.lpm_cells.specs.Words.{Words};
    ghost use Rattle.lpm_rules.specs.RuleMap.{RuleMap};
    ghost use Rattle.lpm_rules.specs.Longest.{IsUncovered, IsCoverRule};
    ghost use Rattle.lpm_update.specs.Represents.{Represents, IsBegun, TurnsInto, AddFits, LastFits, held_with};
    ghost use Rattle.lpm_update.specs.BlockGroups.{IsTable, group_at};
    ghost use Rattle.lpm_update.specs.Update.{FillsFor, IsUnderWay, group_held};
    ghost use Rattle.lpm_update.specs.Step.{AllowsNext, Steps, SetsWord};
    ghost use Rattle.lpm_update.specs.Laws.{AllowsAlong, RunsOn};

    /// The addition of a rule, or its replacement, by a free group where the rule is longer than
    /// `FIRST` bits and its block has none.
    pub fn add<const FIRST: u32, const SECOND: u32>(
        prefix: &Prefix<FIRST, SECOND>,
        hop: Hop,
        group: Option<u32>,
    ) -> Update
        requires { IsSome group → FIRST < prefix.now.len }
        ensures held { (firsts : List ℕ) (i : ℕ)
            → group_held result firsts i ≡ held_with group (prefix.now.bits / 2 ^ SECOND) firsts i }
        ensures fills { FillsFor result group (prefix.now.bits / 2 ^ SECOND) }
        ensures begun { (R : RuleMap) (t : Words) → Represents FIRST SECOND R t
            → AddFits FIRST SECOND R prefix.now t group
            → IsBegun FIRST SECOND result t
            × TurnsInto FIRST SECOND result R (map.insert R prefix.now hop) }
    {
        let _bits = prefix.bits();
        match group {
            Some(group) => {
                return Update {
                    plan: Plan::Link(LinkGroup::of_addition(prefix, hop, group)),
                };
            }
            None => {
                return Update {
                    plan: Plan::Range(RewriteRange::of_addition(prefix, hop)),
                };
            }
        }
    }

    /// The deletion of a rule. `cover` is the longest rule that is shorter and covers it; `last`
    /// tells whether it is the last rule of its block that is longer than `FIRST` bits.
    pub fn delete<const FIRST: u32, const SECOND: u32>(
        prefix: &Prefix<FIRST, SECOND>,
        cover: Option<Rule<FIRST, SECOND>>,
        last: bool,
    ) -> Update
        ensures held { (firsts : List ℕ) (i : ℕ) → group_held result firsts i ≡ group_at firsts i }
        ensures fills { (block : ℕ) → FillsFor result None block }
        ensures begun { (R : RuleMap) (t : Words) → Represents FIRST SECOND R t
            → IsSome (map.get R prefix.now)
            → MatchOption cover.entry
            (IsUncovered (FIRST + SECOND) R prefix.now)
            (λ c. IsCoverRule (FIRST + SECOND) R prefix.now c.prefix c.hop)
            → LastFits FIRST SECOND (map.remove R prefix.now) prefix.now last
            → IsBegun FIRST SECOND result t
            × TurnsInto FIRST SECOND result R (map.remove R prefix.now) }
    {
        let entry = match cover {
            Some(rule) => {
                let _number = rule.hop.number();
                Entry::Hop {
                    hop: rule.hop,
                    depth: rule.prefix.len(),
                }
            }
            None => Entry::Miss,
        };
        let bits = prefix.bits();
        let len = prefix.len();
        let from = u64::from(bits);
        let range = RewriteRange {
            from,
            at: from,
            end: from + (1 << (FIRST + SECOND - len)),
            rewrite: Rewrite {
                kind: Kind::Delete,
                depth: len,
                entry,
            },
        };
        if last {
            let block = Shape::<FIRST, SECOND>::first_index(bits);
            return Update {
                plan: Plan::Unlink(UnlinkGroup {
                    range,
                    block,
                    unlinked: false,
                }),
            };
        }
        Update {
            plan: Plan::Range(range),
        }
    }

    /// The removal of all rules.
    pub fn flush<const FIRST: u32, const SECOND: u32>() -> Update
        ensures held { (firsts : List ℕ) (i : ℕ) → group_held result firsts i ≡ group_at firsts i }
        ensures fills { (block : ℕ) → FillsFor result None block }
        ensures begun { (R : RuleMap) (t : Words) → Represents FIRST SECOND R t
            → IsBegun FIRST SECOND result t × TurnsInto FIRST SECOND result R map.empty }
    {
        Update {
            plan: Plan::Flush(Flush { next: 0 }),
        }
    }

    /// Makes the next store of the change and returns which one it was, or `Done` where none is
    /// left.
    #[inline]
    pub fn step<const FIRST: u32, const SECOND: u32, C: Cells>(&mut self, cells: &mut C) -> Did
        requires shape { IsShape FIRST SECOND }
        requires table { IsTable FIRST SECOND (C.words cells.old) }
        requires under_way { IsUnderWay FIRST SECOND self.old (C.words cells.old) }
        requires allows { AllowsNext FIRST SECOND self.old (C.words cells.old)
            (C.may_set_first cells.old) (C.may_set_second cells.old) }
        ensures steps { Steps FIRST SECOND self.old (C.words cells.old) result
            self.new (C.words cells.new) }
        ensures sets { SetsWord C.words C.sets_first C.sets_second cells.old result cells.new }
    {
        match &mut self.plan {
            Plan::Range(range) => range.rewrite_next::<FIRST, SECOND, C>(cells),
            Plan::Link(link) => link.link_next::<FIRST, SECOND, C>(cells),
            Plan::Unlink(unlink) => unlink.unlink_next::<FIRST, SECOND, C>(cells),
            Plan::Flush(flush) => flush.flush_next::<FIRST, SECOND, C>(cells),
        }
    }

    /// Makes stores up to one that unlinks a group, and returns that group, or all that are left,
    /// and returns none. For many words it is faster than [`Update::step`].
    pub fn run<const FIRST: u32, const SECOND: u32, C: Cells>(
        &mut self,
        cells: &mut C,
    ) -> Option<u32>
        requires shape { IsShape FIRST SECOND }
        requires table { IsTable FIRST SECOND (C.words cells.old) }
        requires under_way { IsUnderWay FIRST SECOND self.old (C.words cells.old) }
        requires allows { AllowsAlong C.words C.sets_first C.sets_second C.may_set_first
            C.may_set_second FIRST SECOND self.old cells.old }
        ensures { RunsOn C.words C.sets_first C.sets_second FIRST SECOND
            self.old cells.old result self.new cells.new }
    {
        match &mut self.plan {
            Plan::Range(range) => {
                range.rewrite_all::<FIRST, SECOND, C>(cells);
                return None;
            }
            Plan::Link(link) => {
                link.link_all::<FIRST, SECOND, C>(cells);
                return None;
            }
            _ => {}
        }
        loop {
            match self.step::<FIRST, SECOND, C>(cells) {
                Did::Unlinked { group, .. } => return Some(group),
                Did::Done => return None,
                _ => {}
            }
        }
    }
}
