//! Laws of reader intervals. Each function does nothing: its contract is the law.

ghost use Rattle.qsbr.specs.Intervals.{GracePeriodIsOver, RunsAfterOneMore};

/// An interval that runs after one more event began with that event, or ran before it and isn't
/// ended by it.
pub fn runs_after_one_more<E>()
    ensures { RunsAfterOneMore E }
{}

/// Once no worker holds what was given up at a place, no reader interval holds both that place and
/// one from then on, whatever events follow. From then on the memory may be used again.
pub fn grace_period_is_over<E>()
    ensures { GracePeriodIsOver E }
{}
