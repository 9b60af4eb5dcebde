//! A group that is given up.

ghost use Rattle.std.specs.Prelude.{◌≡◌};

use super::{Did, RewriteRange};
use lpm_cells::{Cells, Entry};

/// The deletion of the last rule of a block that is longer than `FIRST` bits: its range is
/// rewritten, and then the block's group is unlinked.
#[derive(Drop)]
pub(crate) struct UnlinkGroup {
    pub(crate) range: RewriteRange,
    pub(crate) block: usize,
    /// Whether the group is unlinked, which is the last store.
    pub(crate) unlinked: bool,
}

impl UnlinkGroup {
    ghost use Rattle.std.specs.Prelude.{◌≡◌};
    ghost use Rattle.lpm_bits.specs.Widths.{IsShape};
    ghost use Rattle.lpm_update.specs.declared.update.Plan.TheVariants.{Unlink};
    ghost use Rattle.lpm_update.specs.BlockGroups.{IsTable};
    ghost use Rattle.lpm_update.specs.Update.{IsUnderWay};
    ghost use Rattle.lpm_update.specs.Step.{AllowsNext, Steps, SetsWord};

    /// Makes the next store, or none where it is done: those of the range, upwards, and then the
    /// one that unlinks the group.
    pub(crate) fn unlink_next<const FIRST: u32, const SECOND: u32, C: Cells>(
        &mut self,
        cells: &mut C,
    ) -> Did
        requires shape { IsShape FIRST SECOND }
        requires table { IsTable FIRST SECOND (C.words cells.old) }
        requires under_way { IsUnderWay FIRST SECOND (Unlink self.old) (C.words cells.old) }
        requires allows { AllowsNext FIRST SECOND (Unlink self.old) (C.words cells.old)
            (C.may_set_first cells.old) (C.may_set_second cells.old) }
        ensures steps { Steps FIRST SECOND (Unlink self.old) (C.words cells.old) result
            (Unlink self.new) (C.words cells.new) }
        ensures sets { SetsWord C.words C.sets_first C.sets_second cells.old result cells.new }
    {
        if self.unlinked {
            return Did::Done;
        }
        match self.range.rewrite_next::<FIRST, SECOND, C>(cells) {
            Did::Done => {}
            did => return did,
        }
        // All words of the group are one by now, which takes the place of the link.
        let block = self.block;
        self.unlinked = true;
        match Entry::group_of_word::<FIRST, SECOND>(cells.first(block)) {
            Some(group) => {
                let word = cells.second((group as usize) << SECOND);
                cells.set_first(block, word);
                return Did::Unlinked { block, group };
            }
            None => unreachable!(),
        }
    }
}
