//! What a change does to the entries of its range.

ghost use Rattle.std.specs.Prelude.{◌≡◌};

use lpm_cells::Entry;

/// The changes of a rule list.
#[derive(Clone, Copy)]
pub(crate) enum Kind {
    Add,
    Delete,
    /// No update is made with it, since a flush asks of each word only whether it is a miss. What a flush
    /// comes to is said by it.
    Flush,
}

/// What a change does to the entries of its range: those that it replaces become `entry`.
///
/// An add replaces misses and the hops of rules no longer than `depth`, a delete the hops of rules
/// of length `depth`, a flush all but misses.
#[derive(Clone, Copy)]
pub(crate) struct Rewrite {
    pub(crate) kind: Kind,
    pub(crate) depth: u32,
    pub(crate) entry: Entry,
}

/// What a change does to the words of its range at which a lookup ends: those from `least` to
/// `greatest` become `word`.
///
/// It is made once for many words, each of which is then only compared with two numbers.
#[derive(Clone, Copy)]
pub(crate) struct WordRewrite {
    pub(crate) least: u64,
    pub(crate) greatest: u64,
    pub(crate) word: u64,
}

impl Rewrite {
    ghost use Rattle.std.specs.Prelude.{ℕ, ◌≤◌};
    ghost use Rattle.lpm_cells.specs.Words.{IsEntry};
    ghost use Rattle.lpm_update.specs.Rewrite.{IsOnWords};

    /// What the change does to words.
    #[inline]
    pub(crate) fn on_words(&self) -> WordRewrite
        requires { IsEntry 32 self.now.entry }
        ensures { (width : ℕ) → width ≤ 32 → IsOnWords width self.now result }
    {
        let (least, greatest) = Entry::words_of_depth(self.depth);
        let word = self.entry.to_word();
        match self.kind {
            Kind::Add => WordRewrite {
                least: Entry::Miss.to_word(),
                greatest,
                word,
            },
            Kind::Delete => WordRewrite {
                least,
                greatest,
                word,
            },
            Kind::Flush => WordRewrite {
                least: Entry::words_of_depth(0).0,
                greatest: u64::MAX,
                word,
            },
        }
    }
}

impl WordRewrite {
    ghost use Rattle.std.specs.Prelude.{◌≡◌, ◌&&◌, nat_le};

    /// Whether the change replaces this word, at which a lookup ends.
    #[inline]
    pub(crate) fn replaces(&self, word: u64) -> bool
        ensures { result ≡ (nat_le self.now.least word && nat_le word self.now.greatest) }
    {
        self.least <= word && word <= self.greatest
    }
}
