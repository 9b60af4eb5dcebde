//! Updates of a table, one after another, and what came of each.
ghost use Rattle.std.specs.Prelude.{◌≡◌, ◌≢◌, false, IfOk, All};
ghost use Rattle.lpm_commands.specs.Apply.{ComesOut};
ghost use Rattle.lpm_limits.specs.declared.refusal.Refusal.TheVariants.{Memory};

use fib::Fib;
use fib_model::Outcome;
use lpm_limits::Refusal;
use route_text::Order;
use std::alloc::{AllocError, Global};

/// Does the updates one after another, and returns what came of each. A refused one doesn't stop the
/// others, but want of memory ends it all.
pub fn update(
    alloc: Global,
    table: &mut Fib<24, 8>,
    orders: &[Order],
) -> Result<Vec<Outcome>, AllocError>
    ensures outcomes { IfOk result (λ v. ComesOut table.old.config table.old.table orders.now
        v.items table.new.table) }
    ensures config { table.new.config ≡ table.old.config }
{
    let outcomes = table.execute_all(alloc, orders)?;
    if wants_memory(&outcomes) {
        return Err(AllocError);
    }
    Ok(outcomes)
}

// Whether a growth was refused in one of the updates.
fn wants_memory(outcomes: &[Outcome]) -> bool
    ensures { result ≡ false → All (λ outcome. outcome ≢ Outcome.Refused Memory) outcomes.now }
{
    for outcome in outcomes {
        if *outcome == Outcome::Refused(Refusal::Memory) {
            return true;
        }
    }
    false
}
