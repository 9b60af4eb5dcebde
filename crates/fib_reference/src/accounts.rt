//! The outcomes of commands, found as plainly as can be: by the list of all events, and no counter.

ghost use Rattle.std.specs.Prelude.{◌≡◌, IfOk};
ghost use Rattle.lpm_bits.specs.Widths.{IsShape};
ghost use Rattle.lpm_limits.specs.Limits.{IsConfig};
ghost use Rattle.fib_reference.specs.Accounts.{IsAccount};

use crate::plain::{Account, Plain};
use fib_model::Order;
use lpm_groups::Counts;
use lpm_limits::Config;
use std::alloc::{AllocError, Global};

/// The outcomes of the commands, one after another on a table that was just opened, and the counts
/// at the end. An error says that memory was refused to this program; the table computed here is
/// never short of memory.
pub fn account_of<const FIRST: u32, const SECOND: u32>(
    alloc: Global,
    config: &Config,
    orders: &[Order<FIRST, SECOND>],
) -> Result<Account, AllocError>
    requires shape { IsShape FIRST SECOND }
    requires config { IsConfig config.now }
    ensures { IfOk result (λ account. IsAccount FIRST SECOND config.now orders.now account) }
{
    let mut plain = Plain::<FIRST, SECOND>::open(alloc, config);
    let mut outcomes = Vec::new(alloc);
    for order in orders {
        let outcome = plain.run(config, order)?;
        outcomes.push(outcome)?;
    }
    Ok(Account {
        outcomes,
        rules: plain.rules.len(),
        versions: plain.updates_begun,
        counts: Counts {
            in_use: plain.rules.deep_blocks(),
            limbo: plain.limbo.places.len(),
            free: plain.free(config),
        },
        token: plain.limbo.token(config),
    })
}
