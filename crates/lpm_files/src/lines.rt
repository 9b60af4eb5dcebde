//! Where lists and texts are cut, and how many lines a text has.
ghost use Rattle.std.specs.Prelude.{◌≡◌, ◌+◌, ◌-◌, ◌*◌, ◌/◌, ◌<◌, ◌≤◌, ◌==◌, ◌⊎◌};
ghost use Rattle.std.specs.Prelude.{count_by, length, slice_index};
ghost use Rattle.route_text.specs.Files.{lines};

use memchr::memchr;

/// About how many of `all` are in the first `few` of so many pieces.
pub(crate) fn share(all: usize, few: usize, pieces: usize) -> usize
    requires some { 0 < pieces }
    requires few { few ≤ pieces }
    ensures { result ≤ all }
{
    all / pieces * few
}

/// The place after the line that this place is on.
pub(crate) fn line_end(bytes: &[u8], from: usize) -> usize
    requires { from ≤ length bytes.now }
    ensures onward { from ≤ result }
    ensures within { result ≤ length bytes.now }
    ensures ends { (result ≡ length bytes.now)
        ⊎ ((0 < result) × (slice_index bytes.now (result - 1) ≡ 10)) }
{
    match memchr(b'\n', &bytes[from..]) {
        Some(at) => from + at + 1,
        None => bytes.len(),
    }
}

/// How many bytes a block has whose line feeds are counted in a byte, so that many bytes are compared
/// at once.
const BLOCK: usize = 192;

/// How many line feeds the block has.
fn block_feeds(block: &[u8]) -> u8
    requires { length block.now ≤ BLOCK }
    ensures { result ≡ count_by (λ b. b == 10) block.now }
{
    let mut count = 0;
    for byte in block {
        if *byte == b'\n' {
            count += 1;
        }
    }
    count
}

/// How many line feeds the bytes have.
fn feeds(bytes: &[u8]) -> usize
    ensures { result ≡ count_by (λ b. b == 10) bytes.now }
{
    let mut count = 0;
    let mut rest = bytes;
    while !rest.is_empty() {
        let (block, after) = rest.split_at(rest.len().min(BLOCK));
        count += usize::from(block_feeds(block));
        rest = after;
    }
    count
}

/// How many lines the bytes have.
pub(crate) fn count_lines(bytes: &[u8]) -> usize
    ensures { result ≡ length (lines bytes.now) }
{
    let ended = feeds(bytes);
    if bytes.is_empty() {
        return ended;
    }
    if bytes[bytes.len() - 1] == b'\n' {
        return ended;
    }
    ended + 1
}
