//! Scripts of workers that are drawn.

ghost use Rattle.std.specs.Prelude.{◌≡◌, ◌+◌, ◌^◌, ◌≤◌, All, IfOk, List, ◌∷◌, length};
ghost use Rattle.lpm_bits.specs.Widths.{IsShape};
ghost use Rattle.lpm_trace.specs.declared.deed.Deed.{Deed};
ghost use Rattle.interleave.specs.Scripts.{IsSound, IsSoundFrom};
ghost use Rattle.test_support.specs.Plans.{HasDeeds};

use super::draw::Draw;
use lpm_trace::Deed;
use std::alloc::{AllocError, Global};

/// A deed of a worker that is online, or isn't, and whether the worker is online after it.
fn deed<const FIRST: u32, const SECOND: u32>(draw: &mut Draw, is_online: bool) -> (Deed, bool)
    requires { IsShape FIRST SECOND }
    ensures { (rest : List Deed) → IsSoundFrom (2 ^ (FIRST + SECOND)) result.1 rest
        → IsSoundFrom (2 ^ (FIRST + SECOND)) is_online (result.0 ∷ rest) }
{
    if !is_online {
        return if draw.once_in(4) {
            (Deed::Meet, false)
        } else {
            (Deed::Online, true)
        };
    }
    match draw.below(12) {
        0 => (Deed::Offline, false),
        1 => (Deed::Meet, true),
        2..=4 => (Deed::Quiescent, true),
        5 | 6 => {
            let addrs = [
                draw.addr::<FIRST, SECOND>(),
                draw.addr::<FIRST, SECOND>(),
                draw.addr::<FIRST, SECOND>(),
                draw.addr::<FIRST, SECOND>(),
            ];
            (Deed::Lookup4(addrs), true)
        }
        _ => (Deed::Lookup(draw.addr::<FIRST, SECOND>()), true),
    }
}

/// So many deeds of a worker that is offline at first.
fn script<const FIRST: u32, const SECOND: u32>(
    draw: &mut Draw,
    alloc: Global,
    count: u32,
) -> Result<Vec<Deed>, AllocError>
    requires { IsShape FIRST SECOND }
    ensures sound { IfOk result (λ deeds. IsSound (2 ^ (FIRST + SECOND)) deeds.items) }
    ensures count { IfOk result (λ deeds. length deeds.items ≡ count) }
{
    let mut deeds = Vec::new(alloc);
    let mut is_online = false;
    for _ in 0..count {
        let (deed, is_online_then) = deed::<FIRST, SECOND>(draw, is_online);
        deeds.push(deed)?;
        is_online = is_online_then;
    }
    Ok(deeds)
}

/// A script for each worker, of at least so many deeds and at most so many.
pub(crate) fn draw_scripts<const FIRST: u32, const SECOND: u32>(
    draw: &mut Draw,
    alloc: Global,
    workers: usize,
    least: u32,
    most: u32,
) -> Result<Vec<Vec<Deed>>, AllocError>
    requires shape { IsShape FIRST SECOND }
    requires order { least ≤ most }
    ensures workers { IfOk result (λ scripts. length scripts.items ≡ workers) }
    ensures sound { IfOk result
        (λ scripts. All (λ script. IsSound (2 ^ (FIRST + SECOND)) script.items) scripts.items) }
    ensures deeds { IfOk result
        (λ scripts. All (λ script. HasDeeds least most script.items) scripts.items) }
{
    let mut scripts = Vec::new(alloc);
    for _ in 0..workers {
        let count = least + draw.below((most - least).saturating_add(1));
        scripts.push(script::<FIRST, SECOND>(draw, alloc, count)?)?;
    }
    Ok(scripts)
}
