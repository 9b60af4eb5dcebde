//! Two pieces that must see each other before each address, and so a worker and the writer of a storm: they run at
//! once.
ghost use Rattle.lpm_limits.specs.Limits.{IsConfig};

use super::asserts::assert_at;
use super::known_files::{assert_wrote, known_apply, known_lookup, known_storm};
use lpm_limits::Config;
use test_support::Meeting;

const ROUTES: &str = "10.0.0.0/8 1\n";

const ADDRESSES: &str = "10.0.0.1\n10.0.0.2\n10.0.0.3\n10.0.0.4\n11.0.0.1\n11.0.0.2\n11.0.0.3\n\
    11.0.0.4\n";

const TEXT: &str = "10.0.0.1 1\n10.0.0.2 1\n10.0.0.3 1\n10.0.0.4 1\n11.0.0.1 -\n11.0.0.2 -\n\
    11.0.0.3 -\n11.0.0.4 -\n";

const UPDATES: &str = "lpm-updates 2\nadd 11.0.0.0/8 2\n";

const TEXT_AFTER_UPDATES: &str = "added\n10.0.0.1 1\n10.0.0.2 1\n10.0.0.3 1\n10.0.0.4 1\n\
    11.0.0.1 2\n11.0.0.2 2\n11.0.0.3 2\n11.0.0.4 2\n";

fn two_workers() -> Config
    ensures { IsConfig result }
{
    Config {
        workers: 2,
        ..Config::default()
    }
}

#[test]
fn two_pieces_see_each_other(rt: HostRuntime) {
    let gate = Meeting::new();
    let (alloc, config) = (rt.alloc(), two_workers());
    let mut out = Vec::new(alloc);
    let is_done = known_lookup(&rt, alloc, ROUTES, ADDRESSES, config, &gate, &mut out);
    assert_wrote(&rt, is_done, &out, TEXT);
    assert_at(&rt, "met", gate.is_kept(), true);
}

#[test]
fn two_pieces_after_updates_see_each_other(rt: HostRuntime) {
    let gate = Meeting::new();
    let (alloc, config) = (rt.alloc(), two_workers());
    let mut out = Vec::new(alloc);
    let is_done = known_apply(
        &rt, alloc, ROUTES, UPDATES, ADDRESSES, config, &gate, &mut out,
    );
    assert_wrote(&rt, is_done, &out, TEXT_AFTER_UPDATES);
    assert_at(&rt, "met", gate.is_kept(), true);
}

const FOUR_ADDRESSES: &str = "10.0.0.1\n10.0.0.2\n11.0.0.1\n12.0.0.1\n";

const FOUR_UPDATES: &str =
    "lpm-updates 2\nadd 11.0.0.0/8 2\nadd 12.0.0.0/8 3\ndel 11.0.0.0/8\nflush\n";

const STORM_TEXT: &str = "answers 4\nrefused 0\nwrong 0\n\
    rules 0\nversions 5\nin use 0\nlimbo 0\nfree 256\ntoken 2\n";

// The worker is piece 0 of the gate, and the writer piece 1.
#[test]
fn storm_threads_meet(rt: HostRuntime) {
    let gate = Meeting::new();
    let (alloc, config) = (rt.alloc(), Config::default());
    let mut out = Vec::new(alloc);
    let is_done = known_storm(
        &rt,
        alloc,
        ROUTES,
        FOUR_UPDATES,
        FOUR_ADDRESSES,
        config,
        1,
        &gate,
        &mut out,
    );
    assert_wrote(&rt, is_done, &out, STORM_TEXT);
    assert_at(&rt, "met", gate.is_kept(), true);
}
