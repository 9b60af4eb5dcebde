//! Schedules: who makes the next step, item by item.

ghost use Rattle.std.specs.Prelude.{◌≡◌, IfOk, length};

use super::draw::Draw;
use lpm_trace::Actor;
use std::alloc::{AllocError, Global};

/// The writer half of the time; else one of the workers, or seldom one that isn't there.
fn actor(draw: &mut Draw, workers: usize) -> Actor {
    if draw.once_in(2) {
        return Actor::Writer;
    }
    let places = u32::try_from(workers).unwrap_or(0).saturating_mul(8);
    let place = draw.below(places.saturating_add(1));
    Actor::Worker((place / 8) as usize)
}

/// So many items in bursts: one actor makes some steps in a row.
pub(crate) fn in_bursts(
    draw: &mut Draw,
    alloc: Global,
    workers: usize,
    count: u32,
) -> Result<Vec<Actor>, AllocError>
    ensures { IfOk result (λ items. length items.items ≡ count) }
{
    let mut items = Vec::new(alloc);
    let mut next = Actor::Writer;
    let mut left: u32 = 0;
    for _ in 0..count {
        if left == 0 {
            next = actor(draw, workers);
            left = 1 + draw.below(9);
        }
        left -= 1;
        items.push(next)?;
    }
    Ok(items)
}

/// So many items, of each worker and of the writer in turn.
pub(crate) fn in_turn(alloc: Global, workers: usize, count: u32) -> Result<Vec<Actor>, AllocError>
    ensures { IfOk result (λ items. length items.items ≡ count) }
{
    let mut items = Vec::new(alloc);
    let mut next: usize = 0;
    for _ in 0..count {
        if next < workers {
            items.push(Actor::Worker(next))?;
            next += 1;
        } else {
            items.push(Actor::Writer)?;
            next = 0;
        }
    }
    Ok(items)
}
