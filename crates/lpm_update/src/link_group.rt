//! A rule that brings a group into use.

ghost use Rattle.std.specs.Prelude.{◌≡◌};

use super::{Did, Kind, Rewrite};
use lpm_bits::{Hop, Prefix, Shape};
use lpm_cells::{Cells, Entry};

/// The addition of a rule longer than `FIRST` bits to a block that has no group: the words of a
/// free group are stored, upwards, and then the group is linked to the block.
#[derive(Drop)]
pub(crate) struct LinkGroup {
    pub(crate) from: u64,
    pub(crate) end: u64,
    pub(crate) rewrite: Rewrite,
    pub(crate) block: usize,
    pub(crate) group: u32,
    /// The place in the group of the next store; past the group's words the link, and then nothing.
    pub(crate) next: u64,
}

impl LinkGroup {
    ghost use Rattle.std.specs.Prelude.{◌≡◌, ℕ, ◌+◌, ◌-◌, ◌/◌, ◌^◌, ◌<◌, None, slice_index};
    ghost use Rattle.lpm_bits.specs.Widths.{IsShape};
    ghost use Rattle.lpm_cells.specs.Words.{Words, IsEntry, IsLast, IsLastWord, entry_in, word_of};
    ghost use Rattle.lpm_cells.specs.declared.entry.Entry.TheVariants.{Hop as EntryHop};
    ghost use Rattle.lpm_update.specs.declared.rewrite.Kind.TheVariants.{Add};
    ghost use Rattle.lpm_update.specs.declared.update.Plan.TheVariants.{Link};
    ghost use Rattle.lpm_update.specs.BlockGroups.{IsTable};
    ghost use Rattle.lpm_update.specs.Kinds.{IsLinking, final_entry};
    ghost use Rattle.lpm_update.specs.Represents.{IsFreshGroup};
    ghost use Rattle.lpm_update.specs.Update.{IsUnderWay};
    ghost use Rattle.lpm_update.specs.Step.{AllowsNext, Steps, SetsWord};
    ghost use Rattle.lpm_update.specs.Laws.{AllowsAlong, RunsOn};

    /// The addition of this rule by this group, which no block has.
    pub(crate) fn of_addition<const FIRST: u32, const SECOND: u32>(
        prefix: &Prefix<FIRST, SECOND>,
        hop: Hop,
        group: u32,
    ) -> LinkGroup
        ensures value { result ≡ record {
          from = prefix.now.bits;
          end = prefix.now.bits + 2 ^ (FIRST + SECOND - prefix.now.len);
          rewrite = record {
            kind = Add;
            depth = prefix.now.len;
            entry = EntryHop hop prefix.now.len;
          };
          block = prefix.now.bits / 2 ^ SECOND;
          group = group;
          next = 0;
        } }
        ensures linking { FIRST < prefix.now.len → (t : Words)
            → IsLast (entry_in (slice_index t.firsts (prefix.now.bits / 2 ^ SECOND)))
            → IsFreshGroup SECOND group t → IsLinking FIRST SECOND result t }
    {
        let bits = prefix.bits();
        let len = prefix.len();
        let from = u64::from(bits);
        let _number = hop.number();
        LinkGroup {
            from,
            end: from + (1 << (FIRST + SECOND - len)),
            rewrite: Rewrite {
                kind: Kind::Add,
                depth: len,
                entry: Entry::Hop { hop, depth: len },
            },
            block: Shape::<FIRST, SECOND>::first_index(bits),
            group,
            next: 0,
        }
    }

    /// The word of an address of the block after the change. `old` is the block's word before.
    #[inline]
    fn word_for<const FIRST: u32, const SECOND: u32>(&self, old: u64, address: u64) -> u64
        requires shape { IsShape FIRST SECOND }
        requires last { IsLastWord (FIRST + SECOND) old }
        requires entry { IsEntry (FIRST + SECOND) self.now.rewrite.entry }
        ensures { result ≡ word_of (final_entry self.now.from self.now.end self.now.rewrite
            address (entry_in old)) }
    {
        let on = self.rewrite.on_words();
        if self.from <= address && address < self.end && on.replaces(old) {
            return on.word;
        }
        old
    }

    /// Makes the next store of the addition, or none where it is done.
    #[inline]
    pub(crate) fn link_next<const FIRST: u32, const SECOND: u32, C: Cells>(
        &mut self,
        cells: &mut C,
    ) -> Did
        requires shape { IsShape FIRST SECOND }
        requires table { IsTable FIRST SECOND (C.words cells.old) }
        requires under_way { IsUnderWay FIRST SECOND (Link self.old) (C.words cells.old) }
        requires allows { AllowsNext FIRST SECOND (Link self.old) (C.words cells.old)
            (C.may_set_first cells.old) (C.may_set_second cells.old) }
        ensures steps { Steps FIRST SECOND (Link self.old) (C.words cells.old) result
            (Link self.new) (C.words cells.new) }
        ensures sets { SetsWord C.words C.sets_first C.sets_second cells.old result cells.new }
    {
        let size = 1u64 << SECOND;
        let next = self.next;
        if next < size {
            let old = cells.first(self.block);
            let address = ((self.block as u64) << SECOND) + next;
            let word = self.word_for::<FIRST, SECOND>(old, address);
            let place = ((self.group as usize) << SECOND) + next as usize;
            self.next = next + 1;
            cells.set_second(place, word);
            return Did::Second(place);
        }
        if next == size {
            let block = self.block;
            self.next = next + 1;
            cells.set_first(block, Entry::Group(self.group).to_word());
            return Did::First(block);
        }
        Did::Done
    }

    /// Makes all stores of the addition that are left.
    pub(crate) fn link_all<const FIRST: u32, const SECOND: u32, C: Cells>(&mut self, cells: &mut C)
        requires shape { IsShape FIRST SECOND }
        requires table { IsTable FIRST SECOND (C.words cells.old) }
        requires under_way { IsUnderWay FIRST SECOND (Link self.old) (C.words cells.old) }
        requires allows { AllowsAlong C.words C.sets_first C.sets_second C.may_set_first
            C.may_set_second FIRST SECOND (Link self.old) cells.old }
        ensures { RunsOn C.words C.sets_first C.sets_second FIRST SECOND
            (Link self.old) cells.old None (Link self.new) cells.new }
    {
        loop {
            match self.link_next::<FIRST, SECOND, C>(cells) {
                Did::Done => return,
                _ => {}
            }
        }
    }
}
