//! Changes of a table that are drawn.

ghost use Rattle.std.specs.Prelude.{◌≡◌, IfOk, length};
ghost use Rattle.lpm_bits.specs.Widths.{IsShape};

use super::draw::Draw;
use lpm_bits::{Hop, Prefix};
use lpm_rules::Change;
use std::alloc::{AllocError, Global};

/// A prefix of which each word of a group may be one.
fn new_prefix<const FIRST: u32, const SECOND: u32>(draw: &mut Draw) -> Prefix<FIRST, SECOND>
    requires { IsShape FIRST SECOND }
{
    let bits = draw.addr::<FIRST, SECOND>();
    let len = if draw.once_in(3) {
        draw.below(FIRST + 1)
    } else {
        FIRST + 1 + draw.below(SECOND)
    };
    match Prefix::new(bits, len) {
        Ok(prefix) => prefix,
        Err(_) => unreachable!(),
    }
}

/// A prefix that was added not long before, where there is one.
fn known_prefix<const FIRST: u32, const SECOND: u32>(
    draw: &mut Draw,
    earlier: &[Change<FIRST, SECOND>],
) -> Prefix<FIRST, SECOND>
    requires { IsShape FIRST SECOND }
{
    let between = draw.below(6) as usize;
    for change in earlier.iter().rev().skip(between) {
        if let Change::Add(prefix, _) = change {
            return *prefix;
        }
    }
    new_prefix(draw)
}

/// One of three next hops.
fn hop(draw: &mut Draw) -> Hop {
    match Hop::new(1 + draw.below(3)) {
        Ok(hop) => hop,
        Err(_) => unreachable!(),
    }
}

/// A change after these.
fn change<const FIRST: u32, const SECOND: u32>(
    draw: &mut Draw,
    earlier: &[Change<FIRST, SECOND>],
) -> Change<FIRST, SECOND>
    requires { IsShape FIRST SECOND }
{
    match draw.below(24) {
        0 => Change::Flush,
        1 => Change::Synchronize,
        2 | 3 => Change::Reclaim(draw.below(4) as usize),
        4..=11 => Change::Delete(known_prefix(draw, earlier)),
        12 | 13 => Change::Add(known_prefix(draw, earlier), hop(draw)),
        _ => Change::Add(new_prefix(draw), hop(draw)),
    }
}

/// So many changes.
pub(crate) fn draw_changes<const FIRST: u32, const SECOND: u32>(
    draw: &mut Draw,
    alloc: Global,
    count: u32,
) -> Result<Vec<Change<FIRST, SECOND>>, AllocError>
    requires { IsShape FIRST SECOND }
    ensures { IfOk result (λ changes. length changes.items ≡ count) }
{
    let mut changes = Vec::new(alloc);
    for _ in 0..count {
        let change = change(draw, &changes);
        changes.push(change)?;
    }
    Ok(changes)
}
