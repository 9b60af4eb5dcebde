//! The calls of a walk over the rules in the order of their prefixes.

ghost use Rattle.std.specs.Prelude.{◌≡◌};
ghost use Rattle.saxiko_c.specs.Status.{Asks};
ghost use Rattle.saxiko_c.specs.Grace.{AsksAtRest};
ghost use Rattle.saxiko_c.specs.Table.{FindsFirst, FindsNext};

use crate::handle::{on_open, put, take};
use crate::handles::{SaxikoTable, SaxikoWriter};
use crate::records::SaxikoRoute;
use crate::status::EINVAL;
use crate::walk;
use std::alloc::Global;

/// Stores the first rule of a table.
#[unsafe(no_mangle)]
pub extern "C" fn saxiko_proved_table_first_rule(
    alloc: Global,
    handle: &mut SaxikoTable,
    rule: &mut SaxikoRoute,
) -> i32
    ensures found { Asks (λ f. FindsFirst rule.old rule.new f.table.rules) (rule.new ≡ rule.old)
        handle.old.kept result }
    ensures same { handle.new.kept ≡ handle.old.kept }
{
    on_open!(alloc, handle, fib => walk::first_of_table(&fib, rule))
}

/// Stores the rule of a table that comes next after a prefix.
#[unsafe(no_mangle)]
pub extern "C" fn saxiko_proved_table_next_rule(
    alloc: Global,
    handle: &mut SaxikoTable,
    addr: u32,
    depth: u8,
    rule: &mut SaxikoRoute,
) -> i32
    ensures found { Asks (λ f. FindsNext addr depth rule.old rule.new f.table.rules)
        (rule.new ≡ rule.old) handle.old.kept result }
    ensures same { handle.new.kept ≡ handle.old.kept }
{
    on_open!(alloc, handle, fib => walk::next_of_table(&fib, addr, depth, rule))
}

/// Stores the first rule of a running table.
#[unsafe(no_mangle)]
pub extern "C" fn saxiko_proved_writer_first_rule(
    alloc: Global,
    handle: &mut SaxikoWriter,
    rule: &mut SaxikoRoute,
) -> i32
    ensures found { Asks (AsksAtRest (λ o. FindsFirst rule.old rule.new o.writer.table.rules)
        (rule.new ≡ rule.old)) (rule.new ≡ rule.old) handle.old.kept result }
    ensures same { handle.new.kept ≡ handle.old.kept }
{
    on_open!(alloc, handle, owner => walk::first_of_writer(&owner, rule))
}

/// Stores the rule of a running table that comes next after a prefix.
#[unsafe(no_mangle)]
pub extern "C" fn saxiko_proved_writer_next_rule(
    alloc: Global,
    handle: &mut SaxikoWriter,
    addr: u32,
    depth: u8,
    rule: &mut SaxikoRoute,
) -> i32
    ensures found { Asks (AsksAtRest (λ o. FindsNext addr depth rule.old rule.new o.writer.table.rules)
        (rule.new ≡ rule.old)) (rule.new ≡ rule.old) handle.old.kept result }
    ensures same { handle.new.kept ≡ handle.old.kept }
{
    on_open!(alloc, handle, owner => walk::next_of_writer(&owner, addr, depth, rule))
}
