//! Where each word of a shared table lies.

ghost use Rattle.std.specs.Prelude.{◌≡◌, ◌≢◌, ℕ, ◌+◌, ◌/◌, ◌%◌, ◌<◌, ◌^◌};
ghost use Rattle.shared_words.specs.Layout.{first_at, half, pairs};

/// How many words of each kind a table has: first words, second words, and workers, each with a counter.
/// The words lie in this order, behind the sequence and the token. A first or second word has 32 bits, and
/// two neighbours of one kind share a word.
#[derive(Clone, Copy)]
pub struct Layout {
    /// How many first words.
    pub firsts: usize,
    /// How many second words.
    pub seconds: usize,
    /// How many workers.
    pub workers: usize,
    // Where the second words and the counters begin.
    groups: usize,
    counters: usize,
    ghost before: { groups ≡ 2 + pairs firsts },
    ghost behind: { counters ≡ 2 + pairs firsts + pairs seconds },
}

impl Layout {
    /// Where the sequence lies, which each lookup loads twice.
    pub(crate) const SEQUENCE: usize = 0;

    /// Where the token lies.
    pub(crate) const TOKEN: usize = 1;

    /// The layout of so many words of each kind.
    pub fn new(firsts: usize, seconds: usize, workers: usize) -> Self
        requires { 2 + pairs firsts + pairs seconds < 2 ^ 64 }
        ensures firsts { result.firsts ≡ firsts }
        ensures seconds { result.seconds ≡ seconds }
        ensures workers { result.workers ≡ workers }
    {
        let groups = 2 + pairs(firsts);
        Layout {
            firsts,
            seconds,
            workers,
            groups,
            counters: groups + pairs(seconds),
        }
    }

    /// Where second word `j` lies.
    #[inline]
    pub(crate) fn second_at(self, j: usize) -> usize
        requires { 2 + pairs self.firsts + j / 2 < 2 ^ 63 }
        ensures { result ≡ 2 + pairs self.firsts + j / 2 }
    {
        self.groups + j / 2
    }

    /// Where the counter of a worker lies.
    #[inline]
    pub(crate) fn counter_at(self, worker: usize) -> usize
        requires { 2 + pairs self.firsts + pairs self.seconds + worker < 2 ^ 63 }
        ensures { result ≡ 2 + pairs self.firsts + pairs self.seconds + worker }
    {
        self.counters + worker
    }
}

/// How many shared words so many words of one kind take: two neighbours share one.
pub fn pairs(words: usize) -> usize
    ensures { result ≡ pairs words }
{
    words / 2 + words % 2
}

/// Where first word `i` lies.
#[inline]
pub(crate) fn first_at(i: usize) -> usize
    ensures { result ≡ first_at i }
{
    2 + i / 2
}

/// The table word at this place, as the shared word has it.
#[inline]
pub(crate) fn half(at: usize, word: u64) -> u64
    ensures { result ≡ half at word }
{
    if at % 2 == 0 {
        return word % (1 << 32);
    }
    word / (1 << 32)
}

/// The shared word with another table word at this place, and the neighbour that it has.
#[inline]
pub(crate) fn with_half(at: usize, word: u64, part: u64) -> u64
    requires { part < 2 ^ 32 }
    ensures stored { half at result ≡ part }
    ensures kept { (k : ℕ) → k % 2 ≢ at % 2 → half k result ≡ half k word }
{
    if at % 2 == 0 {
        return word / (1 << 32) * (1 << 32) + part;
    }
    part * (1 << 32) + word % (1 << 32)
}
