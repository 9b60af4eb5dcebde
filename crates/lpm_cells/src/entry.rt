//! The entries of a table, and the words that they are stored as.

ghost use Rattle.std.specs.Prelude.{◌≡◌, ℕ, ◌+◌, ◌*◌, ◌^◌, ◌<◌, ◌≤◌, MatchOption, IfSome};
ghost use Rattle.lpm_bits.specs.Widths.{IsShape};

use lpm_bits::Hop;

/// Set in the words of hops and groups. The bits below are the number of the hop or the group.
const VALID: u64 = 1 << 24;
/// Set in the words of groups alone.
const EXTENDED: u64 = 1 << 25;
/// The lowest of the bits of a hop's depth.
const DEPTH: u64 = 1 << 26;

/// What a word of a table says of the addresses that read it.
#[derive(Clone, Copy, Debug, PartialEq, Eq)]
pub enum Entry {
    /// No rule covers them.
    Miss,
    /// The next hop of the longest rule that covers them, and that rule's length.
    Hop { hop: Hop, depth: u32 },
    /// In the first table: they read on in the group of this number.
    Group(u32),
}

impl Entry {
    ghost use Rattle.lpm_cells.specs.Words.{IsEntry, IsLast, IsLastWord, IsWord, word_of, entry_in, hop_in};
    ghost use Rattle.lpm_cells.specs.declared.entry.Entry.TheVariants.{Group, Hop as EntryHop};
    ghost use Rattle.lpm_cells.specs.declared.entry.Entry.{Entry};

    /// The word of the entry: its number in bits 0 to 23, valid in bit 24, extended (a group) in
    /// bit 25, its depth in bits 26 to 31. A miss is 0.
    #[inline]
    pub fn to_word(self) -> u64
        requires { IsEntry 32 self }
        ensures value { result ≡ word_of self }
        ensures bound { result < 2 ^ 32 }
    {
        match self {
            Entry::Miss => 0,
            Entry::Hop { hop, depth } => {
                u64::from(hop.number()) + VALID + u64::from(depth) * DEPTH
            }
            Entry::Group(group) => u64::from(group) + VALID + EXTENDED,
        }
    }

    /// The entry of a word; none where the word is no entry's. A depth is at most `FIRST + SECOND`.
    pub fn from_word<const FIRST: u32, const SECOND: u32>(word: u64) -> Option<Entry>
        requires { IsShape FIRST SECOND }
        ensures value { MatchOption result
            ((e : Entry) → IsEntry (FIRST + SECOND) e → word_of e ≡ word → ⊥)
            (λ e. IsEntry (FIRST + SECOND) e × (word_of e ≡ word)) }
        ensures reads { IfSome result (λ e. e ≡ entry_in word) }
    {
        let number = (word % VALID) as u32;
        let depth = word / DEPTH;
        match word / VALID % 4 {
            0 if word == 0 => Some(Entry::Miss),
            1 if depth <= u64::from(FIRST + SECOND) => {
                let hop = Hop::new(number).ok()?;
                Some(Entry::Hop {
                    hop,
                    depth: depth as u32,
                })
            }
            3 if depth == 0 => Some(Entry::Group(number)),
            _ => None,
        }
    }

    /// The entry of a word of a table, told by the valid and the extended bit alone: what
    /// `from_word` returns, wherever that returns an entry.
    #[tactic(auto, unfolding(crate::specs::Words::entry_in))]
    #[inline]
    pub fn of_word(word: u64) -> Entry
        requires { word < 2 ^ 32 }
        ensures { result ≡ entry_in word }
    {
        let number = (word % VALID) as u32;
        match word / VALID % 4 {
            3 => Entry::Group(number),
            1 => Entry::Hop {
                hop: Hop::new(number).unwrap(),
                depth: (word / DEPTH) as u32,
            },
            _ => Entry::Miss,
        }
    }

    /// The group of a table's word; none for the word of a miss or a hop. Of the words of entries
    /// only those of groups are extended.
    #[tactic(auto, unfolding(crate::specs::Words::entry_in))]
    #[inline]
    pub fn group_of_word<const FIRST: u32, const SECOND: u32>(word: u64) -> Option<u32>
        requires { IsWord (FIRST + SECOND) word }
        ensures { MatchOption result (IsLast (entry_in word)) (λ g. entry_in word ≡ Group g) }
    {
        if word / EXTENDED % 2 == 0 {
            return None;
        }
        Some((word % VALID) as u32)
    }

    /// The next hop of a table's word at which a lookup ends; none for a miss, whose word is 0.
    #[tactic(auto, unfolding(crate::specs::Words::entry_in))]
    #[inline]
    pub fn hop_of_last_word<const FIRST: u32, const SECOND: u32>(word: u64) -> Option<Hop>
        requires { IsLastWord (FIRST + SECOND) word }
        ensures { result ≡ hop_in (entry_in word) }
    {
        if word == 0 {
            return None;
        }
        let number = (word % VALID) as u32;
        Some(Hop::new(number).unwrap())
    }

    /// The least and the greatest word of a hop whose rule has this length. Between those of two
    /// lengths words are in the order of the lengths, and a miss has the least word of all.
    #[inline]
    pub fn words_of_depth(depth: u32) -> (u64, u64)
        ensures least { result.0 ≡ word_of (EntryHop 0 depth) }
        ensures greatest { result.1 ≡ word_of (EntryHop 16777215 depth) }
    {
        let least = VALID + u64::from(depth) * DEPTH;
        (least, least + (VALID - 1))
    }

    /// The next hop of the entry; none for a miss and for a group.
    #[inline]
    pub fn hop(self) -> Option<Hop>
        ensures { result ≡ hop_in self }
    {
        match self {
            Entry::Hop { hop, .. } => Some(hop),
            _ => None,
        }
    }
}
