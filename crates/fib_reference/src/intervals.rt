//! Reader intervals, found by going over the events from the oldest on.

ghost use Rattle.std.specs.Prelude.{◌≡◌, ℕ, ◌+◌, ◌<◌, ◌≤◌, ◌^◌, ◌&&◌, nat_lt, length, reverse, Some, None, MatchOption, IsTrue, IsFalse};
ghost use Rattle.qsbr.specs.Intervals.{IsRunningSince};
ghost use Rattle.fib_model.specs.Textbook.{begins, ends, by_reports, is_unlinking, unlinkings_before};

use fib_model::Event;

/// Where the worker's running reader interval began, if one runs after an event at this place.
fn since_after(event: Event, w: usize, place: usize, since: Option<usize>) -> Option<usize>
    ensures begins { IsTrue (begins w event) → result ≡ Some place }
    ensures ends { IsFalse (begins w event) → IsTrue (ends w event) → result ≡ None }
    ensures other { IsFalse (begins w event) → IsFalse (ends w event) → result ≡ since }
{
    match event {
        Event::Online(v) | Event::Quiescent(v) if v == w => Some(place),
        Event::Offline(v) if v == w => None,
        _ => since,
    }
}

/// Where the worker's running reader interval began, if one runs.
pub(crate) fn interval_start(events: &[Event], w: usize) -> Option<usize>
    ensures { MatchOption result ((s : ℕ) → IsRunningSince by_reports (reverse events.now) w s → ⊥)
        (λ s. IsRunningSince by_reports (reverse events.now) w s) }
{
    let mut since = None;
    for (place, &event) in events.iter().enumerate() {
        since = since_after(event, w, place, since);
    }
    since
}

/// Whether the event, at its place, is an unlinking before another place.
fn is_unlinking_before(event: Event, at: usize, place: usize) -> bool
    ensures { result ≡ (is_unlinking event && nat_lt at place) }
{
    match event {
        Event::Unlinking => at < place,
        _ => false,
    }
}

/// How many unlinkings there were before the place.
fn unlinkings_up_to(events: &[Event], place: usize) -> usize
    ensures value { result ≡ unlinkings_before (reverse events.now) place }
    ensures bound { result ≤ length events.now }
{
    let mut count = 0;
    for (at, &event) in events.iter().enumerate() {
        if is_unlinking_before(event, at, place) {
            count += 1;
        }
    }
    count
}

/// The token number at the place, where each unlinking raised it by one.
pub(crate) fn token_at(events: &[Event], first_token: u64, place: usize) -> u64
    requires { first_token ≤ 2 ^ 62 }
    ensures value { result ≡ first_token + unlinkings_before (reverse events.now) place }
    ensures bound { result < 2 ^ 63 + 2 ^ 62 }
{
    first_token + unlinkings_up_to(events, place) as u64
}
