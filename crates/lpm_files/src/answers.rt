//! The text of answers, which is written in pieces.
ghost use Rattle.std.specs.Thread.{IsSync};
ghost use Rattle.std.specs.Prelude.{◌≡◌, IfOk, length};
ghost use Rattle.route_text.specs.Texts.{answer_lines};

use crate::lines::share;
use lpm_bits::Hop;
use route_text::answers_text;
use std::alloc::{AllocError, Global};
use std::thread::{Threads, join};

/// How many answers are worth a thread.
const LEAST_ANSWERS: usize = 4_096;

/// A line for each address with its hop, as `route_text::answers_text` writes them, written in
/// pieces on at most so many threads. One of less than 4,096 answers isn't worth a thread. Where a
/// thread can't be had its piece is written by the thread that asks.
///
/// The error is want of memory for the text or a piece of it.
#[cycle(writing)]
pub fn answers_text_on<R: Threads + Sync>(
    rt: &R,
    alloc: Global,
    addrs: &[u32],
    hops: &[Option<Hop>],
    threads: usize,
) -> Result<Vec<u8>, AllocError>
    requires { length hops.now ≡ length addrs.now }
    ensures { IfOk result (λ v. v.items ≡ answer_lines addrs.now hops.now) }
{
    let pieces = threads.min(addrs.len() / LEAST_ANSWERS);
    if pieces < 2 {
        return answers_text(alloc, addrs, hops);
    }
    let few = pieces / 2;
    let more = pieces - few;
    let middle = share(addrs.len(), few, pieces);
    let (front, back) = addrs.split_at(middle);
    let (front_hops, back_hops) = hops.split_at(middle);
    let (first, second) = join(
        rt,
        || -> Result<Vec<u8>, AllocError>
            requires sync { IsSync R.row }
            requires lengths { length front_hops.now ≡ length front.now }
            ensures { IfOk result (λ v.
                v.items ≡ answer_lines front.entry.now front_hops.entry.now) }
        { answers_text_on(rt, alloc, front, front_hops, few) },
        || -> Result<Vec<u8>, AllocError>
            requires sync { IsSync R.row }
            requires lengths { length back_hops.now ≡ length back.now }
            ensures { IfOk result (λ v.
                v.items ≡ answer_lines back.entry.now back_hops.entry.now) }
        { answers_text_on(rt, alloc, back, back_hops, more) },
    );
    let mut text = first?;
    let rest = second?;
    text.extend_from_slice(&rest)?;
    Ok(text)
}
