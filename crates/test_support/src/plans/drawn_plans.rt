//! Plans that are drawn.

ghost use Rattle.std.specs.Prelude.{◌≡◌, All, IfOk, length};
ghost use Rattle.lpm_bits.specs.Widths.{IsShape};
ghost use Rattle.lpm_limits.specs.Limits.{IsConfig};
ghost use Rattle.test_support.specs.Plans.{HasDeeds, IsSoundPlan};

use super::Plan;
use super::changes::draw_changes;
use super::draw::Draw;
use super::schedules::{in_bursts, in_turn};
use super::scripts::draw_scripts;
use lpm_limits::Config;
use std::alloc::{AllocError, Global};

/// How many changes and items of the schedule a plan has, and how many deeds each worker has at most.
#[derive(Clone, Copy)]
pub struct Sizes {
    /// The changes of the writer.
    pub changes: u32,
    /// The deeds of a worker.
    pub deeds: u32,
    /// The items of the schedule.
    pub items: u32,
}

/// The greatest token.
const LAST_TOKEN: u64 = 1 << 62;

/// Limits that are met soon: few groups, at times few rules, no worker, or few tokens.
fn draw_config(draw: &mut Draw) -> Config
    ensures { IsConfig result }
{
    let rules = if draw.once_in(8) { 2 } else { 12 };
    let groups = 1 + draw.below(3) as usize;
    let workers = if draw.once_in(16) {
        0
    } else {
        1 + draw.below(3) as usize
    };
    let first_token = if draw.once_in(16) {
        LAST_TOKEN - u64::from(draw.below(8))
    } else {
        1
    };
    Config {
        rules,
        groups,
        workers,
        threshold: draw.below(3) as usize,
        reclaim_max: 1 + draw.below(3) as usize,
        first_token,
    }
}

/// The plan of this number: limits that are met soon, and bursts of steps. Each worker has up to as many
/// deeds as the sizes say.
pub fn drawn<const FIRST: u32, const SECOND: u32>(
    alloc: Global,
    number: u32,
    sizes: &Sizes,
) -> Result<Plan<FIRST, SECOND>, AllocError>
    requires { IsShape FIRST SECOND }
    ensures sound { IfOk result (λ plan. IsSoundPlan FIRST SECOND plan) }
    ensures limits { IfOk result (λ plan. IsConfig plan.config) }
    ensures changes { IfOk result (λ plan. length plan.changes.items ≡ sizes.now.changes) }
    ensures deeds { IfOk result
        (λ plan. All (λ script. HasDeeds 0 sizes.now.deeds script.items) plan.scripts.items) }
    ensures items { IfOk result (λ plan. length plan.schedule.items ≡ sizes.now.items) }
{
    let mut draw = Draw::new(number);
    let config = draw_config(&mut draw);
    let changes = draw_changes(&mut draw, alloc, sizes.changes)?;
    let scripts = draw_scripts::<FIRST, SECOND>(&mut draw, alloc, config.workers, 0, sizes.deeds)?;
    let schedule = in_bursts(&mut draw, alloc, config.workers, sizes.items)?;
    Ok(Plan {
        config,
        changes,
        scripts,
        schedule,
    })
}

/// A plan over these limits, in which the writer and the workers make steps in turn. Each worker has as many
/// deeds as the sizes say.
pub fn even<const FIRST: u32, const SECOND: u32>(
    alloc: Global,
    config: Config,
    sizes: &Sizes,
) -> Result<Plan<FIRST, SECOND>, AllocError>
    requires { IsShape FIRST SECOND }
    ensures sound { IfOk result (λ plan. IsSoundPlan FIRST SECOND plan) }
    ensures limits { IfOk result (λ plan. plan.config ≡ config) }
    ensures changes { IfOk result (λ plan. length plan.changes.items ≡ sizes.now.changes) }
    ensures deeds { IfOk result (λ plan.
        All (λ script. HasDeeds sizes.now.deeds sizes.now.deeds script.items) plan.scripts.items) }
    ensures items { IfOk result (λ plan. length plan.schedule.items ≡ sizes.now.items) }
{
    let mut draw = Draw::new(1);
    let changes = draw_changes(&mut draw, alloc, sizes.changes)?;
    let deeds = sizes.deeds;
    let scripts = draw_scripts::<FIRST, SECOND>(&mut draw, alloc, config.workers, deeds, deeds)?;
    let schedule = in_turn(alloc, config.workers, sizes.items)?;
    Ok(Plan {
        config,
        changes,
        scripts,
        schedule,
    })
}
