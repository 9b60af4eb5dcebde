//! The text of outcomes.
ghost use Rattle.std.specs.Prelude.{◌≡◌, ◌++◌, OnOk, IfOk};
ghost use Rattle.route_text.specs.Texts.{outcome_text, outcome_line, outcome_lines};
ghost use Rattle.route_text.specs.Texts.{holder_text, stopped_text, refused_text, reclaimed_text};

use crate::pieces::put_named;
use defer_queue::Reclaimed;
use fib_model::Outcome;
use lpm_limits::{Busy, Refusal};
use lpm_rules::Put;
use std::alloc::{AllocError, Global};

/// Adds a worker and its counter.
fn put_holder(text: &mut Vec<u8>, busy: Busy) -> Result<(), AllocError>
    ensures { OnOk result (text.new.items ≡ text.old.items ++ holder_text busy) }
{
    put_named(text, b" worker ", busy.worker as u64)?;
    put_named(text, b" counter ", busy.counter)
}

/// Adds the worker that stopped a reclaim, if one did.
fn put_stopped(text: &mut Vec<u8>, stopped: Option<Busy>) -> Result<(), AllocError>
    ensures { OnOk result (text.new.items ≡ text.old.items ++ stopped_text stopped) }
{
    match stopped {
        None => Ok(()),
        Some(busy) => {
            text.extend_from_slice(b" stopped")?;
            put_holder(text, busy)
        }
    }
}

/// Adds what a reclaim came to.
fn put_reclaimed(text: &mut Vec<u8>, reclaimed: Reclaimed) -> Result<(), AllocError>
    ensures { OnOk result (text.new.items ≡ text.old.items ++ reclaimed_text reclaimed) }
{
    put_named(text, b"reclaimed ", reclaimed.freed as u64)?;
    put_stopped(text, reclaimed.stopped)
}

/// Adds a refusal's number and name, and the worker that is to blame for it.
fn put_refused(text: &mut Vec<u8>, refusal: Refusal) -> Result<(), AllocError>
    ensures { OnOk result (text.new.items ≡ text.old.items ++ refused_text refusal) }
{
    put_named(text, b"refused ", u64::from(refusal.number()))?;
    text.push(b' ')?;
    text.extend_from_slice(refusal.name().as_bytes())?;
    match refusal {
        Refusal::NoGroups { oldest: Some(busy) } => put_holder(text, busy),
        _ => Ok(()),
    }
}

/// Adds what came of an update.
fn put_outcome(text: &mut Vec<u8>, outcome: &Outcome) -> Result<(), AllocError>
    ensures { OnOk result (text.new.items ≡ text.old.items ++ outcome_text outcome.now) }
{
    match outcome {
        Outcome::Put(Put::Added) => text.extend_from_slice(b"added"),
        Outcome::Put(Put::Replaced) => text.extend_from_slice(b"replaced"),
        Outcome::Put(Put::Unchanged) => text.extend_from_slice(b"unchanged"),
        Outcome::Deleted(hop) => put_named(text, b"deleted ", u64::from(hop.number())),
        Outcome::Flushed(rules) => put_named(text, b"flushed ", *rules as u64),
        Outcome::Reclaimed(reclaimed) => put_reclaimed(text, *reclaimed),
        Outcome::Told => text.extend_from_slice(b"ok"),
        Outcome::Refused(refusal) => put_refused(text, *refusal),
    }
}

/// Adds the line of an outcome.
fn put_line(text: &mut Vec<u8>, outcome: &Outcome) -> Result<(), AllocError>
    ensures { OnOk result (text.new.items ≡ text.old.items ++ outcome_line outcome.now) }
{
    put_outcome(text, outcome)?;
    text.push(b'\n')?;
    Ok(())
}

/// The text of outcomes: a line for each, in order. `AllocError` comes where room for the text is
/// refused.
pub fn outcomes_text(alloc: Global, outcomes: &[Outcome]) -> Result<Vec<u8>, AllocError>
    ensures { IfOk result (λ v. v.items ≡ outcome_lines outcomes.now) }
{
    let mut text = Vec::new(alloc);
    for outcome in outcomes {
        put_line(&mut text, outcome)?;
    }
    Ok(text)
}
