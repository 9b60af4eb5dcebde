//! The calls that tell the rule of an address.

ghost use Rattle.std.specs.Prelude.{◌≡◌};
ghost use Rattle.saxiko_c.specs.Status.{Asks};
ghost use Rattle.saxiko_c.specs.Grace.{AsksAtRest};
ghost use Rattle.saxiko_c.specs.Table.{FindsRule};

use crate::handle::{on_open, put, take};
use crate::handles::{SaxikoTable, SaxikoWriter};
use crate::matches;
use crate::records::SaxikoRoute;
use crate::status::EINVAL;
use std::alloc::Global;

/// Stores the rule of a table that answers the address.
#[unsafe(no_mangle)]
pub extern "C" fn saxiko_proved_table_lookup_rule(
    alloc: Global,
    handle: &mut SaxikoTable,
    addr: u32,
    rule: &mut SaxikoRoute,
) -> i32
    ensures found { Asks (λ f. FindsRule addr rule.old rule.new f.table.rules) (rule.new ≡ rule.old)
        handle.old.kept result }
    ensures same { handle.new.kept ≡ handle.old.kept }
{
    on_open!(alloc, handle, fib => matches::lookup_in_table(&fib, addr, rule))
}

/// Stores the rule of a running table that answers the address.
#[unsafe(no_mangle)]
pub extern "C" fn saxiko_proved_writer_lookup_rule(
    alloc: Global,
    handle: &mut SaxikoWriter,
    addr: u32,
    rule: &mut SaxikoRoute,
) -> i32
    ensures found { Asks (AsksAtRest (λ o. FindsRule addr rule.old rule.new o.writer.table.rules)
        (rule.new ≡ rule.old)) (rule.new ≡ rule.old) handle.old.kept result }
    ensures same { handle.new.kept ≡ handle.old.kept }
{
    on_open!(alloc, handle, owner => matches::lookup_of_writer(&owner, addr, rule))
}
