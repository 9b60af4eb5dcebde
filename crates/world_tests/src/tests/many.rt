// Many small worlds that are drawn, each judged by the slow program.

ghost use Rattle.lpm_bits.specs.Widths.{IsShape};

use super::asserts::assert_at;
use super::plan::{ONE_GROUP, judged, run_plan};
use lpm_limits::Config;
use std::alloc::{AllocError, Global};
use std::ops::Range;
use std::process::Abort;
use std::test::Fail;
use test_support::plans::{Plan, Sizes, drawn, even};

// Runs and judges the plans of these numbers.
fn judge_drawn<const FIRST: u32, const SECOND: u32>(
    rt: &impl Abort,
    alloc: Global,
    numbers: Range<u32>,
    sizes: &Sizes,
) -> Result<(), Fail>
    requires { IsShape FIRST SECOND }
{
    for number in numbers {
        let plan: Plan<FIRST, SECOND> = drawn(alloc, number, sizes)?;
        judged(rt, alloc, number, &plan)?;
    }
    Ok(())
}

fn sizes(changes: u32, deeds: u32, items: u32) -> Sizes {
    Sizes {
        changes,
        deeds,
        items,
    }
}

// Short runs over blocks of four addresses, so that changes and lookups meet often.
#[test]
fn narrow_worlds(rt: HostRuntime) -> Result<(), Fail> {
    judge_drawn::<2, 2>(&rt, rt.alloc(), 0..9_700, &sizes(24, 20, 120))
}

// Long runs over blocks of four addresses.
#[test]
fn long_worlds(rt: HostRuntime) -> Result<(), Fail> {
    judge_drawn::<2, 2>(&rt, rt.alloc(), 10_000..10_700, &sizes(60, 60, 300))
}

// Runs over three of the sixteen blocks of sixteen addresses.
#[test]
fn wide_worlds(rt: HostRuntime) -> Result<(), Fail> {
    judge_drawn::<4, 4>(&rt, rt.alloc(), 20_000..20_300, &sizes(30, 30, 250))
}

// A hundred thousand items, each of which makes a step.
#[test]
fn many_items(rt: HostRuntime) -> Result<(), Fail> {
    let config = Config {
        groups: 3,
        workers: 3,
        threshold: 1,
        ..ONE_GROUP
    };
    let plan: Plan<4, 4> = even(rt.alloc(), config, &sizes(20_000, 20_000, 100_000))?;
    let trace = run_plan(&rt, rt.alloc(), &plan)?;
    assert_at(&rt, "steps", trace.steps.len(), 100_000);
    Ok(())
}

// Whether two numbers draw the same schedule, of short plans.
fn draw_the_same(alloc: Global, one: u32, other: u32) -> Result<bool, AllocError> {
    let first: Plan<2, 2> = drawn(alloc, one, &sizes(4, 4, 60))?;
    let second: Plan<2, 2> = drawn(alloc, other, &sizes(4, 4, 60))?;
    Ok(first.schedule.as_slice() == second.schedule.as_slice())
}

// Each number draws a plan of its own, and always the same.
#[test]
fn numbers_draw_their_own_plans(rt: HostRuntime) -> Result<(), Fail> {
    for number in 0..20 {
        let same = draw_the_same(rt.alloc(), number, number)?;
        assert_at(&rt, number, same, true);
        let other = draw_the_same(rt.alloc(), number, number + 1)?;
        assert_at(&rt, number, other, false);
    }
    Ok(())
}
