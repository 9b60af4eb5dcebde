//! What the calls of a walk over the rules do.

ghost use Rattle.std.specs.Prelude.{◌≡◌};
ghost use Rattle.saxiko_c.specs.Grace.{AsksAtRest};
ghost use Rattle.saxiko_c.specs.Table.{FindsFirst, FindsNext};

use crate::matches::tell;
use crate::owner::Owner;
use crate::records::SaxikoRoute;
use crate::stage::Stage;
use crate::status::{EAGAIN, EINVAL};
use fib::Fib;
use lpm_bits::Prefix;

pub(crate) fn first_of_table(fib: &Fib<24, 8>, rule: &mut SaxikoRoute) -> i32
    ensures { FindsFirst rule.old rule.new fib.now.table.rules result }
{
    tell(fib.next_rule(None), rule)
}

pub(crate) fn next_of_table(fib: &Fib<24, 8>, addr: u32, depth: u8, rule: &mut SaxikoRoute) -> i32
    ensures { FindsNext addr depth rule.old rule.new fib.now.table.rules result }
{
    match Prefix::new(addr, u32::from(depth)) {
        Ok(prefix) => tell(fib.next_rule(Some(prefix)), rule),
        Err(_) => EINVAL,
    }
}

pub(crate) fn first_of_writer(owner: &Owner, rule: &mut SaxikoRoute) -> i32
    ensures { AsksAtRest (λ o. FindsFirst rule.old rule.new o.writer.table.rules)
        (rule.new ≡ rule.old) owner.now result }
{
    let Stage::AtRest(running) = &owner.stage else {
        return EAGAIN;
    };
    tell(running.next_rule(None), rule)
}

pub(crate) fn next_of_writer(owner: &Owner, addr: u32, depth: u8, rule: &mut SaxikoRoute) -> i32
    ensures { AsksAtRest (λ o. FindsNext addr depth rule.old rule.new o.writer.table.rules)
        (rule.new ≡ rule.old) owner.now result }
{
    let Stage::AtRest(running) = &owner.stage else {
        return EAGAIN;
    };
    match Prefix::new(addr, u32::from(depth)) {
        Ok(prefix) => tell(running.next_rule(Some(prefix)), rule),
        Err(_) => EINVAL,
    }
}
