//! The pieces of a list of addresses.

ghost use Rattle.std.specs.Prelude.{◌≡◌, ◌+◌, ◌^◌, ◌<◌, ◌≤◌, ◌++◌, All, IfOk, length, map, vec_len, vec_capacity};
ghost use Rattle.std.specs.List.{flat_map};
ghost use Rattle.bulk.specs.Pieces.{piece_start_before, piece_of, first_pieces};

use lpm_bits::Hop;
use std::alloc::{AllocError, Global};

/// A piece of the addresses, with room for the next hop of each.
#[derive(Drop)]
pub struct Piece<'a> {
    pub addrs: &'a [u32],
    pub hops: Vec<Option<Hop>>,
    ghost room: { vec_len hops ≡ length addrs.now },
}

/// How many of `addrs` addresses stand before piece number `piece` of as many pieces as workers,
/// counted from 0. Piece `k` goes from start `k` up to, and not including, start `k + 1`.
pub fn piece_start(piece: usize, addrs: usize, workers: usize) -> usize
    requires workers { 0 < workers }
    requires piece { piece ≤ workers }
    ensures exact { result ≡ piece_start_before piece addrs workers }
    ensures within { result ≤ addrs }
{
    (piece as u128 * addrs as u128 / workers as u128) as usize
}

/// The addresses of the piece of this number.
pub fn piece_at(addrs: &[u32], workers: usize, number: usize) -> &[u32]
    requires { number < workers }
    ensures { result.now ≡ piece_of addrs.now workers number }
{
    let from = piece_start(number, addrs.len(), workers);
    let to = piece_start(number + 1, addrs.len(), workers);
    &addrs[from..to]
}

/// The piece of this number, with its room; the error where that is refused.
fn cut_piece<'a>(
    alloc: Global,
    addrs: &'a [u32],
    workers: usize,
    number: usize,
) -> Result<Piece<'a>, AllocError>
    requires { number < workers }
    ensures { IfOk result (λ p. p.addrs.now ≡ piece_of addrs.now workers number) }
{
    let addrs = piece_at(addrs, workers, number);
    let hops = vec![in alloc; None; addrs.len()]?;
    Ok(Piece { addrs, hops })
}

/// The pieces of the addresses, as many as workers, each with its room.
pub fn cut_all<'a>(
    alloc: Global,
    addrs: &'a [u32],
    workers: usize,
) -> Result<Vec<Piece<'a>>, AllocError>
    ensures { IfOk result (λ v.
        map (λ p. p.addrs.now) v.items ≡ first_pieces addrs.now workers workers) }
{
    let mut pieces = Vec::with_capacity(alloc, workers)?;
    for number in 0..workers {
        pieces.push(cut_piece(alloc, addrs, workers, number)?)?;
    }
    Ok(pieces)
}

/// Appends the hops of the pieces, one piece after another, where there is room for all.
pub fn join(pieces: &[Piece<'_>], joined: &mut Vec<Option<Hop>>)
    requires { vec_len joined.old + length (flat_map (λ p. p.hops.items) pieces.now)
        ≤ vec_capacity joined.old }
    ensures { joined.new.items ≡ joined.old.items ++ flat_map (λ p. p.hops.items) pieces.now }
{
    for piece in pieces {
        if joined.extend_from_slice(&piece.hops).is_err() {
            unreachable!();
        }
    }
}
