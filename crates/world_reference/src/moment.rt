//! A moment of a trace: what the words hold, as the list of steps tells, and which versions stand.

use super::InitialState;
use super::memory::{Word, group_in, hop_in, is_store, word_of};
use lpm_trace::{Kind, Step};

/// The moment of a trace at which so many of its steps are made.
#[derive(Clone, Copy)]
pub(crate) struct Moment<'a> {
    pub(crate) initial: &'a InitialState,
    pub(crate) steps: &'a [Step],
    pub(crate) made: usize,
}

impl<'a> Moment<'a> {
    pub(crate) fn new(initial: &'a InitialState, steps: &'a [Step], made: usize) -> Self {
        Moment {
            initial,
            steps,
            made,
        }
    }

    /// The moment of the same trace after so many steps.
    pub(crate) fn at(self, made: usize) -> Self {
        Moment::new(self.initial, self.steps, made)
    }

    /// The step that comes next.
    pub(crate) fn step(self) -> Option<Step> {
        self.steps.get(self.made).copied()
    }

    /// The value of a word: that of the last store to it, or the one before the first step.
    pub(crate) fn value(self, word: Word) -> u64 {
        let mut value = match word {
            Word::Token => self.initial.first_token,
            _ => 0,
        };
        for step in self.steps.iter().take(self.made) {
            if word_of(step) == word && is_store(step.kind) {
                value = step.value;
            }
        }
        value
    }

    /// The answer to an address by the words.
    pub(crate) fn answer(self, addr: u32) -> Option<u32> {
        let first = self.value(Word::First(self.initial.first_index(addr)));
        match group_in(first) {
            Some(group) => {
                let place = self.initial.second_index(group, addr);
                hop_in(self.value(Word::Second(place)))
            }
            None => hop_in(first),
        }
    }

    /// The group that the next step unlinks: that of the first word over which it stores another.
    pub(crate) fn unlinked(self) -> Option<u32> {
        let step = self.step()?;
        if step.kind != Kind::StoreFirst {
            return None;
        }
        let old = self.value(Word::First(step.index));
        if old == step.value {
            None
        } else {
            group_in(old)
        }
    }

    /// How many times the sequence was raised.
    fn bumps(self) -> usize {
        let mut count: usize = 0;
        for step in self.steps.iter().take(self.made) {
            if step.kind == Kind::BumpSequence {
                count = count.saturating_add(1);
            }
        }
        count
    }

    /// How many updates are done.
    pub(crate) fn updates_done(self) -> usize {
        self.bumps() / 2
    }

    /// How many updates are begun.
    pub(crate) fn updates_begun(self) -> usize {
        self.bumps().saturating_add(1) / 2
    }

    /// Whether an update runs.
    pub(crate) fn is_updating(self) -> bool {
        self.bumps() % 2 == 1
    }

    /// Whether the answer to an address has changed in the update that runs.
    pub(crate) fn has_turned(self, addr: u32) -> bool {
        if !self.is_updating() {
            return false;
        }
        let answer = self.answer(addr);
        for made in (0..self.made).rev() {
            let before = self.at(made);
            if !before.is_updating() {
                return false;
            }
            if before.answer(addr) != answer {
                return true;
            }
        }
        false
    }

    /// The version that an address shows: that of the updates done until its answer has changed in the
    /// update that runs, and that of the updates begun from that store on.
    pub(crate) fn version(self, addr: u32) -> usize {
        if self.has_turned(addr) {
            return self.updates_begun();
        }
        self.updates_done()
    }
}
