//! The words of the rules that cover a place, and the lists of words that they fill.

ghost use Rattle.std.specs.Prelude.{◌≡◌, ℕ, ◌<◌, ◌≤◌, length, OnOk};
ghost use Rattle.lpm_sweep.specs.SweepWords.{Fills, Agrees, Covers, word_by_frames, rank};

use crate::word_list::WordList;
use std::alloc::{AllocError, Global};

/// A word for the places of a list before an end: that of a rule, whose addresses end there.
#[derive(Clone, Copy)]
pub(crate) struct Frame {
    pub(crate) end: usize,
    pub(crate) word: u32,
}

/// The frames of the rules that the sweep has met, one over the other: each place has the word of
/// the topmost frame whose end lies behind it, and `rest` where there is none.
#[derive(Drop)]
pub(crate) struct Frames {
    pub(crate) top: Frame,
    pub(crate) below: Vec<Frame>,
    pub(crate) rest: u32,
}

impl Frames {
    /// No frame over this word. It takes no memory.
    pub(crate) fn new(alloc: Global, rest: u32) -> Frames
        ensures { (k : ℕ) → word_by_frames result k ≡ rest }
    {
        Frames {
            top: Frame {
                end: usize::MAX,
                word: rest,
            },
            below: Vec::new(alloc),
            rest,
        }
    }

    /// Takes all frames off, and goes on over this word.
    #[inline]
    pub(crate) fn reset(&mut self, rest: u32)
        ensures { (k : ℕ) → word_by_frames self.new k ≡ rest }
    {
        self.below.clear();
        self.rest = rest;
        self.top = Frame {
            end: usize::MAX,
            word: rest,
        };
    }

    /// Puts a frame over the others.
    #[inline]
    pub(crate) fn push(&mut self, frame: Frame) -> Result<(), AllocError>
        ensures { OnOk result (Covers frame self.old self.new) }
    {
        self.below.push(self.top)?;
        self.top = frame;
        Ok(())
    }

    /// Takes the topmost frame off.
    #[inline]
    fn pop(&mut self)
        ensures agrees { Agrees self.old self.new self.old.top.end }
        ensures fewer { self.old.top.end < usize.MAX → rank self.new < rank self.old }
    {
        self.top = match self.below.pop() {
            Some(frame) => frame,
            None => Frame {
                end: usize::MAX,
                word: self.rest,
            },
        };
    }

    /// Puts the words of the places before `to` last, and takes off the frames that end by then.
    pub(crate) fn advance<W: WordList>(
        &mut self,
        words: &mut W,
        to: usize,
    ) -> Result<(), AllocError>
        requires within { length (W.items words.old) ≤ to }
        requires small { to < usize.MAX }
        ensures len { OnOk result (length (W.items words.new) ≡ to) }
        ensures fills { OnOk result (Fills (W.items words.old) (W.items words.new)
            (word_by_frames self.old)) }
        ensures frames { OnOk result (Agrees self.old self.new to) }
        ensures top { OnOk result (to < self.new.top.end) }
    {
        while self.top.end <= to {
            words.fill(self.top.end, self.top.word)?;
            self.pop();
        }
        words.fill(to, self.top.word)
    }
}
