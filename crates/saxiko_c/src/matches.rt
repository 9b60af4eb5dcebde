//! What the calls that tell the rule of an address do.

ghost use Rattle.std.specs.Prelude.{◌≡◌};
ghost use Rattle.saxiko_c.specs.Grace.{AsksAtRest};
ghost use Rattle.saxiko_c.specs.Table.{FindsRule, TellsRule};

use crate::owner::Owner;
use crate::records::SaxikoRoute;
use crate::stage::Stage;
use crate::status::{EAGAIN, ENOENT};
use fib::Fib;
use lpm_rules::Rule;

/// Stores the route of a rule that was found.
pub(crate) fn tell(found: Option<Rule<24, 8>>, rule: &mut SaxikoRoute) -> i32
    ensures { TellsRule found rule.old rule.new result }
{
    match found {
        Some(found) => {
            *rule = SaxikoRoute {
                addr: found.prefix.bits(),
                hop: found.hop.number(),
                depth: found.prefix.len() as u8,
            };
            0
        }
        None => ENOENT,
    }
}

pub(crate) fn lookup_in_table(fib: &Fib<24, 8>, addr: u32, rule: &mut SaxikoRoute) -> i32
    ensures { FindsRule addr rule.old rule.new fib.now.table.rules result }
{
    tell(fib.lookup_rule(addr), rule)
}

pub(crate) fn lookup_of_writer(owner: &Owner, addr: u32, rule: &mut SaxikoRoute) -> i32
    ensures { AsksAtRest (λ o. FindsRule addr rule.old rule.new o.writer.table.rules)
        (rule.new ≡ rule.old) owner.now result }
{
    let Stage::AtRest(running) = &owner.stage else {
        return EAGAIN;
    };
    tell(running.lookup_rule(addr), rule)
}
