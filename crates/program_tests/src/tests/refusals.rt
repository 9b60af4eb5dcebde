//! The texts of refusals.

use super::asserts::{assert_at, assert_shown};
use lpm_files::Failure;
use lpm_limits::Refusal;
use std::alloc::Global;
use std::process::Abort;

static REFUSALS: [(Refusal, &str); 3] = [
    (
        Refusal::TooManyRules,
        "lpmtool: r:9: refused 3 TooManyRules",
    ),
    (Refusal::Exhausted, "lpmtool: r:9: refused 6 Exhausted"),
    (
        Refusal::NoGroups { oldest: None },
        "lpmtool: r:9: refused 7 NoGroups",
    ),
];

// The text of a route's refusal, and the exit status.
fn assert_refusal(rt: &impl Abort, alloc: Global, refusal: Refusal, wanted: &str) {
    let failure = Failure::RefusedRoute {
        path: "r",
        line: 9,
        refusal,
    };
    assert_shown(rt, alloc, &failure, wanted);
    assert_at(rt, wanted, failure.status(), 6);
}

#[test]
fn texts_of_refusals(rt: HostRuntime) {
    for (refusal, text) in &REFUSALS {
        assert_refusal(&rt, rt.alloc(), *refusal, text);
    }
}
