//! The adds that tell the replaced next hop.

ghost use Rattle.std.specs.Prelude.{◌≡◌};
ghost use Rattle.saxiko_c.specs.Status.{Calls};
ghost use Rattle.saxiko_c.specs.Grace.{AtRest};
ghost use Rattle.saxiko_c.specs.Insertions.{InsertsRule, InsertsTo};

use crate::handle::{on_open, put, take};
use crate::handles::{SaxikoTable, SaxikoWriter};
use crate::insertions;
use crate::status::EINVAL;
use std::alloc::Global;

/// Adds a rule to a table, and stores the next hop that the prefix had, where it had one.
#[unsafe(no_mangle)]
pub extern "C" fn saxiko_proved_table_insert(
    alloc: Global,
    handle: &mut SaxikoTable,
    addr: u32,
    depth: u8,
    hop: u32,
    had: &mut u32,
) -> i32
    ensures { Calls (InsertsRule addr depth hop had.old had.new) (had.new ≡ had.old)
        handle.old.kept result handle.new.kept }
{
    on_open!(alloc, handle, fib => insertions::insert_in_table(&mut fib, addr, depth, hop, had))
}

/// Adds a rule to a running table, and stores the next hop that the prefix had, where it had one.
#[unsafe(no_mangle)]
pub extern "C" fn saxiko_proved_writer_insert(
    alloc: Global,
    handle: &mut SaxikoWriter,
    addr: u32,
    depth: u8,
    hop: u32,
    had: &mut u32,
) -> i32
    ensures { Calls (AtRest (InsertsTo addr depth hop had.old had.new) (had.new ≡ had.old))
        (had.new ≡ had.old) handle.old.kept result handle.new.kept }
{
    on_open!(alloc, handle, owner => insertions::insert_by_writer(&mut owner, addr, depth, hop, had))
}
