//! A range of addresses whose entries are rewritten.

ghost use Rattle.std.specs.Prelude.{◌≡◌};

use super::{Did, Kind, Rewrite, WordRewrite};
use lpm_bits::{Hop, Prefix, Shape};
use lpm_cells::{Cells, Entry};
use lpm_rules::Rule;

/// The addresses from `from` up to, not including, `end`, whose entries become what `rewrite` makes
/// of them; those below `at` have become so.
#[derive(Drop)]
pub(crate) struct RewriteRange {
    pub(crate) from: u64,
    pub(crate) at: u64,
    pub(crate) end: u64,
    pub(crate) rewrite: Rewrite,
}

impl RewriteRange {
    ghost use Rattle.std.specs.Prelude.{◌≡◌, ◌+◌, ◌<◌, None, MatchOption};
    ghost use Rattle.lpm_bits.specs.Widths.{IsShape};
    ghost use Rattle.lpm_cells.specs.declared.entry.Entry.TheVariants.{Hop as EntryHop};
    ghost use Rattle.lpm_rules.specs.RuleMap.{RuleMap};
    ghost use Rattle.lpm_rules.specs.Longest.{IsUncovered, IsCoverRule};
    ghost use Rattle.lpm_update.specs.declared.Did.TheVariants.{Done};
    ghost use Rattle.lpm_update.specs.declared.rewrite.Kind.TheVariants.{Add, Delete};
    ghost use Rattle.lpm_update.specs.declared.update.Plan.TheVariants.{Range};
    ghost use Rattle.lpm_update.specs.Rewrite.{IsOnWords, Skips};
    ghost use Rattle.lpm_update.specs.BlockGroups.{IsTable};
    ghost use Rattle.lpm_update.specs.Kinds.{IsRangeOf, Visits};
    ghost use Rattle.lpm_update.specs.Update.{IsUnderWay};
    ghost use Rattle.lpm_update.specs.Step.{AllowsNext, Steps, SetsWord};
    ghost use Rattle.lpm_update.specs.Laws.{AllowsAlong, RunsOn};

    /// The change that adds a rule whose block needs no new group: a rule no longer than `FIRST`
    /// bits, or one whose block has a group.
    pub(crate) fn of_addition<const FIRST: u32, const SECOND: u32>(
        prefix: &Prefix<FIRST, SECOND>,
        hop: Hop,
    ) -> RewriteRange
        ensures range { IsRangeOf FIRST SECOND prefix.now result }
        ensures rewrite { result.rewrite ≡ record {
          kind = Add;
          depth = prefix.now.len;
          entry = EntryHop hop prefix.now.len;
        } }
    {
        let _number = hop.number();
        let bits = prefix.bits();
        let depth = prefix.len();
        let from = u64::from(bits);
        RewriteRange {
            from,
            at: from,
            end: from + (1 << (FIRST + SECOND - depth)),
            rewrite: Rewrite {
                kind: Kind::Add,
                depth,
                entry: Entry::Hop { hop, depth },
            },
        }
    }

    /// Looks at the next place of the range, and makes the store there if it is to be made. `on`
    /// is what the change does to words.
    #[inline]
    fn visit<const FIRST: u32, const SECOND: u32, C: Cells>(
        &mut self,
        cells: &mut C,
        on: WordRewrite,
    ) -> Did
        requires on { IsOnWords (FIRST + SECOND) self.old.rewrite on }
        requires shape { IsShape FIRST SECOND }
        requires table { IsTable FIRST SECOND (C.words cells.old) }
        requires under_way { IsUnderWay FIRST SECOND (Range self.old) (C.words cells.old) }
        requires more { self.old.at < self.old.end }
        requires allows { AllowsNext FIRST SECOND (Range self.old) (C.words cells.old)
            (C.may_set_first cells.old) (C.may_set_second cells.old) }
        ensures visits { Visits FIRST SECOND self.old (C.words cells.old) result
            self.new (C.words cells.new) }
        ensures sets { SetsWord C.words C.sets_first C.sets_second cells.old result cells.new }
    {
        let at = self.at;
        let block = Shape::<FIRST, SECOND>::first_index(at as u32);
        let old = cells.first(block);
        match Entry::group_of_word::<FIRST, SECOND>(old) {
            Some(group) => {
                let base = (group as usize) << SECOND;
                let place = base + Shape::<FIRST, SECOND>::second_index(at as u32);
                let old = cells.second(place);
                self.at = at + 1;
                if on.replaces(old) {
                    cells.set_second(place, on.word);
                    return Did::Second(place);
                }
            }
            None => {
                self.at = at + (1 << SECOND);
                if on.replaces(old) {
                    cells.set_first(block, on.word);
                    return Did::First(block);
                }
            }
        }
        Did::Done
    }

    /// Makes the next store of the change, upwards, or none where it is done.
    #[inline(always)]
    pub(crate) fn rewrite_next<const FIRST: u32, const SECOND: u32, C: Cells>(
        &mut self,
        cells: &mut C,
    ) -> Did
        requires shape { IsShape FIRST SECOND }
        requires table { IsTable FIRST SECOND (C.words cells.old) }
        requires under_way { IsUnderWay FIRST SECOND (Range self.old) (C.words cells.old) }
        requires allows { AllowsNext FIRST SECOND (Range self.old) (C.words cells.old)
            (C.may_set_first cells.old) (C.may_set_second cells.old) }
        ensures steps { Steps FIRST SECOND (Range self.old) (C.words cells.old) result
            (Range self.new) (C.words cells.new) }
        ensures sets { SetsWord C.words C.sets_first C.sets_second cells.old result cells.new }
        // Where it is done, no entry was left to rewrite.
        ensures skips { result ≡ Done
            → Skips SECOND self.old.rewrite (C.words cells.old) self.old.at self.old.end }
    {
        let on = self.rewrite.on_words();
        while self.at < self.end {
            match self.visit::<FIRST, SECOND, C>(cells, on) {
                Did::Done => {}
                did => return did,
            }
        }
        Did::Done
    }

    /// Makes all stores of the change that are left.
    pub(crate) fn rewrite_all<const FIRST: u32, const SECOND: u32, C: Cells>(
        &mut self,
        cells: &mut C,
    )
        requires shape { IsShape FIRST SECOND }
        requires table { IsTable FIRST SECOND (C.words cells.old) }
        requires under_way { IsUnderWay FIRST SECOND (Range self.old) (C.words cells.old) }
        requires allows { AllowsAlong C.words C.sets_first C.sets_second C.may_set_first
            C.may_set_second FIRST SECOND (Range self.old) cells.old }
        ensures { RunsOn C.words C.sets_first C.sets_second FIRST SECOND
            (Range self.old) cells.old None (Range self.new) cells.new }
    {
        let on = self.rewrite.on_words();
        while self.at < self.end {
            let _ = self.visit::<FIRST, SECOND, C>(cells, on);
        }
    }
}
