//! The states of the groups of a table for longest-prefix match.
//!
//! A group is a run of second words, lent to one block: the addresses that share their first
//! `FIRST` bits. A group that was unlinked waits in limbo until no reader can still be in it.
#![tactic(auto)]

ghost use Rattle.std.specs.Prelude.{◌≡◌, ℕ, ◌+◌, ◌-◌, ◌<◌, ◌≤◌, ◌↔◌, ◌++◌, length, map, replicate, slice_get, slice_set, IfOk, IfSome, IfNone, IsNone};
ghost use Rattle.lpm_groups.specs.States.{linked_count, limbo_count, free_count, IsLeastFree, IsLinkedAt, IsLimboAt};

use memchr::memchr;
use std::alloc::{AllocError, Global};
use std::marker::Model;

/// What a group is used for.
#[derive(Clone, Copy, Debug, PartialEq, Eq)]
pub enum GroupState {
    /// Not used: it may be taken.
    Free,
    /// Used by the block of this number.
    Linked(usize),
    /// Unlinked, and perhaps still read: it may be taken only after its release.
    Limbo,
}

/// How many groups there are in each state.
#[derive(Clone, Copy, Debug, PartialEq, Eq)]
pub struct Counts {
    /// The linked groups.
    pub in_use: usize,
    /// The groups in limbo.
    pub limbo: usize,
    /// The free groups.
    pub free: usize,
}

/// The mark of a free group.
const FREE: u8 = 1;
/// The mark of every other group.
const USED: u8 = 0;

/// The state of each group, in the order of the groups' numbers.
///
/// Only `new` and `of_blocks` take memory.
#[derive(Drop)]
pub struct Groups {
    states: Vec<GroupState>,
    // a mark for each group, in which the next free one is searched
    marks: Vec<u8>,
    // no group below it is free
    hint: usize,
    in_use: usize,
    limbo: usize,
}

impl Model for Groups {
    ghost use Rattle.std.specs.Prelude.{List};
    ghost use Rattle.lpm_groups.specs.declared.GroupState.{GroupState};
    ghost use Rattle.lpm_groups.specs.States.{IsSound};

    ghost Value = { List GroupState };

    ghost view = { λ a. a.states.items };

    ghost invariant = { λ a. IsSound a.states.items a.marks.items a.hint a.in_use a.limbo };
}

impl Groups {
    ghost use Rattle.lpm_groups.specs.declared.GroupState.TheVariants.{Free, Linked, Limbo};

    /// That many groups, at most 65,536, numbered from 0 and all free; the error only where memory
    /// is short.
    pub fn new(alloc: Global, groups: usize) -> Result<Self, AllocError>
        requires { groups ≤ 65536 }
        ensures { IfOk result (λ g. g ≡ replicate groups Free) }
    {
        let states = vec![in alloc; GroupState::Free; groups]?;
        let marks = vec![in alloc; FREE; groups]?;
        Ok(Groups {
            states,
            marks,
            hint: 0,
            in_use: 0,
            limbo: 0,
        })
    }

    /// That many groups, at most 65,536: the first ones linked to these blocks in their order,
    /// group 0 to the first of them, and those behind free; the error only where memory is short.
    pub fn of_blocks(alloc: Global, blocks: &[usize], groups: usize) -> Result<Self, AllocError>
        requires most { groups ≤ 65536 }
        requires few { length blocks.now ≤ groups }
        ensures states { IfOk result
            (λ g. g ≡ map Linked blocks.now ++ replicate (groups - length blocks.now) Free) }
        ensures count { IfOk result (λ g. length g ≡ groups) }
        ensures in_use { IfOk result (λ g. linked_count g ≡ length blocks.now) }
        ensures limbo { IfOk result (λ g. limbo_count g ≡ 0) }
    {
        let mut states = Vec::with_capacity(alloc, groups)?;
        for block in blocks {
            states.push(GroupState::Linked(*block))?;
        }
        states.resize(groups, GroupState::Free)?;
        let mut marks = Vec::with_capacity(alloc, groups)?;
        marks.resize(blocks.len(), USED)?;
        marks.resize(groups, FREE)?;
        Ok(Groups {
            states,
            marks,
            hint: blocks.len(),
            in_use: blocks.len(),
            limbo: 0,
        })
    }

    /// The number of groups, in any state.
    pub fn len(&self) -> usize
        ensures value { result ≡ length self.now }
        ensures bound { result ≤ 65536 }
    {
        self.states.len()
    }

    /// How many groups there are in each state.
    pub fn counts(&self) -> Counts
        ensures in_use { result.in_use ≡ linked_count self.now }
        ensures limbo { result.limbo ≡ limbo_count self.now }
        ensures free { result.free ≡ free_count self.now }
        ensures all { result.in_use + result.limbo + result.free ≡ length self.now }
    {
        Counts {
            in_use: self.in_use,
            limbo: self.limbo,
            free: self.states.len() - self.in_use - self.limbo,
        }
    }

    /// Links the free group of the least number to that block, and returns the group's number;
    /// none, with no change, exactly where no group is free.
    pub fn take_least(&mut self, block: usize) -> Option<u32>
        ensures least { IfSome result (IsLeastFree self.old) }
        ensures linked { IfSome result (λ g. self.new ≡ slice_set self.old g (Linked block)) }
        ensures none { IsNone result ↔ (free_count self.old ≡ 0) }
        ensures unchanged { IfNone result (self.new ≡ self.old) }
    {
        let Some(skipped) = memchr(FREE, &self.marks[self.hint..]) else {
            self.hint = self.marks.len();
            return None;
        };
        let group = self.hint + skipped;
        self.marks[group] = USED;
        self.states[group] = GroupState::Linked(block);
        self.hint = group + 1;
        self.in_use += 1;
        Some(group as u32)
    }

    /// Puts a group, which must be linked, into limbo: its block has let it go, but a reader may
    /// still be in it.
    pub fn retire(&mut self, group: u32)
        requires { IsLinkedAt self.old group }
        ensures { self.new ≡ slice_set self.old group Limbo }
    {
        let group = group as usize;
        self.states[group] = GroupState::Limbo;
        self.in_use -= 1;
        self.limbo += 1;
    }

    /// Frees a group, which must be in limbo, once no reader can be in it any more.
    pub fn release(&mut self, group: u32)
        requires { IsLimboAt self.old group }
        ensures { self.new ≡ slice_set self.old group Free }
    {
        let group = group as usize;
        self.states[group] = GroupState::Free;
        self.marks[group] = FREE;
        self.hint = self.hint.min(group);
        self.limbo -= 1;
    }
}
