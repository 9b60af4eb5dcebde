//! How the words of a running table are laid out, one behind the other.

ghost use Rattle.std.specs.Prelude.{◌≡◌, ◌+◌, ◌≤◌, ◌++◌, ◌∷◌, length, map, replicate, vec_len, IfOk, OnOk};
ghost use Rattle.shared_words.specs.Layout.{packed_words, pair_at, pairs};

use lpm_cells::PlainCells;
use shared_words::{Layout, pairs};
use std::alloc::{AllocError, Global};

/// The word that two neighbours share: the first is its low half, the second its high half.
#[inline]
fn joined(two: &[u32; 2]) -> u64
    ensures { result ≡ pair_at two.now 0 }
{
    u64::from(two[0]) + u64::from(two[1]) * (1 << 32)
}

/// Puts the words that these pairs of neighbours share last. The loop of `extend` becomes vector code.
fn put_joined(words: &mut Vec<u64>, twos: &[[u32; 2]]) -> Result<(), AllocError>
    ensures len { OnOk result (vec_len words.new ≡ vec_len words.old + length twos.now) }
    ensures items { OnOk result (words.new.items
        ≡ words.old.items ++ map (λ two. pair_at two 0) twos.now) }
{
    words.extend(twos.iter().map(|two| joined(two)))
}

/// Puts the words that these of 32 bits share last. The last of an odd number of them has one for itself.
fn pack(words: &mut Vec<u64>, narrow: &[u32]) -> Result<(), AllocError>
    ensures len { OnOk result (vec_len words.new ≡ vec_len words.old + pairs (length narrow.now)) }
    ensures items { OnOk result (words.new.items ≡ words.old.items ++ packed_words narrow.now) }
{
    let (twos, rest) = narrow.as_chunks::<2>();
    put_joined(words, twos)?;
    if let Some(last) = rest.first() {
        words.push(u64::from(*last))?;
    }
    Ok(())
}

/// The words that a running table begins with: the sequence, which is 0, the token, the words of the table of
/// one thread, and a counter for each worker, which is 0. The room for all is had at once.
fn lay<const FIRST: u32, const SECOND: u32>(
    alloc: Global,
    cells: &PlainCells<FIRST, SECOND>,
    token: u64,
    workers: usize,
) -> Result<Vec<u64>, AllocError>
    requires workers { workers ≤ 2048 }
    ensures { IfOk result (λ words. words.items
        ≡ 0 ∷ token ∷ (packed_words cells.now.firsts
        ++ (packed_words cells.now.seconds ++ replicate workers 0))) }
{
    let firsts = cells.first_words();
    let seconds = cells.second_words();
    let count = 2 + pairs(firsts.len()) + pairs(seconds.len()) + workers;
    let mut words = Vec::with_capacity(alloc, count)?;
    words.push_reserved(0);
    words.push_reserved(token);
    pack(&mut words, firsts)?;
    pack(&mut words, seconds)?;
    words.resize(count, 0)?;
    Ok(words)
}

/// The words that a running table begins with, and where each lies. Those of one thread are given up.
pub(crate) fn pack_all<const FIRST: u32, const SECOND: u32>(
    alloc: Global,
    cells: PlainCells<FIRST, SECOND>,
    token: u64,
    workers: usize,
) -> Result<(Vec<u64>, Layout), AllocError>
    requires workers { workers ≤ 2048 }
    ensures words { IfOk result (λ r. r.0.items
        ≡ 0 ∷ token ∷ (packed_words cells.entry.firsts
        ++ (packed_words cells.entry.seconds ++ replicate workers 0))) }
    ensures firsts { IfOk result (λ r. r.1.firsts ≡ length cells.entry.firsts) }
    ensures seconds { IfOk result (λ r. r.1.seconds ≡ length cells.entry.seconds) }
    ensures workers { IfOk result (λ r. r.1.workers ≡ workers) }
{
    let layout = Layout::new(cells.first_words().len(), cells.seconds(), workers);
    let words = lay(alloc, &cells, token, workers)?;
    Ok((words, layout))
}
