//! The removal of all rules.

ghost use Rattle.std.specs.Prelude.{◌≡◌};

use super::Did;
use lpm_cells::{Cells, Entry};

/// The removal of all rules: each first word becomes a miss, upwards from place `next` on. No word
/// of a group is stored.
#[derive(Drop)]
pub(crate) struct Flush {
    pub(crate) next: usize,
}

impl Flush {
    ghost use Rattle.std.specs.Prelude.{◌≡◌, ℕ, ◌^◌, ◌<◌, ◌≤◌};
    ghost use Rattle.lpm_bits.specs.Widths.{IsShape};
    ghost use Rattle.lpm_update.specs.declared.update.Plan.TheVariants.{Flush as Flushing};
    ghost use Rattle.lpm_update.specs.BlockGroups.{IsTable};
    ghost use Rattle.lpm_update.specs.Update.{IsUnderWay};
    ghost use Rattle.lpm_update.specs.Step.{AllowsNext, Steps, SetsWord};

    /// Makes the next store of the flush, or none where it is done.
    pub(crate) fn flush_next<const FIRST: u32, const SECOND: u32, C: Cells>(
        &mut self,
        cells: &mut C,
    ) -> Did
        requires shape { IsShape FIRST SECOND }
        requires table { IsTable FIRST SECOND (C.words cells.old) }
        requires under_way { IsUnderWay FIRST SECOND (Flushing self.old) (C.words cells.old) }
        requires allows { AllowsNext FIRST SECOND (Flushing self.old) (C.words cells.old)
            (C.may_set_first cells.old) (C.may_set_second cells.old) }
        ensures steps { Steps FIRST SECOND (Flushing self.old) (C.words cells.old) result
            (Flushing self.new) (C.words cells.new) }
        ensures sets { SetsWord C.words C.sets_first C.sets_second cells.old result cells.new }
    {
        let miss = Entry::Miss.to_word();
        while self.next < 1 << FIRST {
            let block = self.next;
            self.next += 1;
            let word = cells.first(block);
            if word != miss {
                cells.set_first(block, miss);
                return match Entry::of_word(word) {
                    Entry::Group(group) => Did::Unlinked { block, group },
                    _ => Did::First(block),
                };
            }
        }
        Did::Done
    }
}
