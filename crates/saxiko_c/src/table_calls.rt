//! The calls of a table of one thread.

ghost use Rattle.std.specs.Prelude.{◌≡◌, ⊤, None};
ghost use Rattle.saxiko_c.specs.Status.{Asks, Calls, config_of};
ghost use Rattle.saxiko_c.specs.Loads.{Loads};
ghost use Rattle.saxiko_c.specs.Table.{AddsRule, Counts, DeletesRule, Finds, FindsAll, FlushesRules, FreesGroups, Gets, Opens};

use crate::handle::{Handle, on_closed, on_open, put, take};
use crate::handles::SaxikoTable;
use crate::records::{SaxikoConfig, SaxikoCounts, SaxikoRoute};
use crate::status::{EBUSY, EINVAL};
use crate::{load, table};
use std::alloc::Global;

/// Opens a table without rules in a closed handle.
#[unsafe(no_mangle)]
pub extern "C" fn saxiko_proved_table_open(
    alloc: Global,
    handle: &mut SaxikoTable,
    config: &SaxikoConfig,
) -> i32
    ensures { Opens (config_of config.now 0) handle.old.kept result handle.new.kept }
{
    on_closed!(alloc, handle => table::open_table(alloc, config.with_readers(0)))
}

/// Opens a table with the rules of these routes in a closed handle. Of those of one prefix the last counts.
/// `bad` is the place of the first route that gives no rule, where one is.
#[unsafe(no_mangle)]
pub extern "C" fn saxiko_proved_table_load(
    alloc: Global,
    handle: &mut SaxikoTable,
    config: &SaxikoConfig,
    routes: &[SaxikoRoute],
    bad: &mut usize,
) -> i32
    ensures { Loads (config_of config.now 0) routes.now bad.old bad.new handle.old.kept result
        handle.new.kept }
{
    on_closed!(alloc, handle => load::load_table(alloc, config.with_readers(0), routes, bad))
}

/// Frees the table; a closed handle stays closed.
#[unsafe(no_mangle)]
pub extern "C" fn saxiko_proved_table_close(alloc: Global, handle: &mut SaxikoTable)
    ensures { handle.new.kept ≡ None }
{
    *handle = SaxikoTable::closed(alloc);
}

/// Adds a rule, or gives the prefix's rule another next hop.
#[unsafe(no_mangle)]
pub extern "C" fn saxiko_proved_table_add(
    alloc: Global,
    handle: &mut SaxikoTable,
    addr: u32,
    depth: u8,
    hop: u32,
) -> i32
    ensures { Calls (AddsRule addr depth hop) ⊤ handle.old.kept result handle.new.kept }
{
    on_open!(alloc, handle, fib => table::add_in_table(&mut fib, addr, depth, hop))
}

/// Deletes the rule of a prefix, and stores the next hop that it had.
#[unsafe(no_mangle)]
pub extern "C" fn saxiko_proved_table_delete(
    alloc: Global,
    handle: &mut SaxikoTable,
    addr: u32,
    depth: u8,
    hop: &mut u32,
) -> i32
    ensures { Calls (DeletesRule addr depth hop.old hop.new) (hop.new ≡ hop.old)
        handle.old.kept result handle.new.kept }
{
    on_open!(alloc, handle, fib => table::delete_in_table(&mut fib, addr, depth, hop))
}

/// Deletes all rules, and stores how many there were.
#[unsafe(no_mangle)]
pub extern "C" fn saxiko_proved_table_flush(
    alloc: Global,
    handle: &mut SaxikoTable,
    rules: &mut usize,
) -> i32
    ensures { Calls (FlushesRules rules.old rules.new) (rules.new ≡ rules.old)
        handle.old.kept result handle.new.kept }
{
    on_open!(alloc, handle, fib => table::flush_table(&mut fib, rules))
}

/// Frees at most `max` groups that wait, the oldest first, and stores how many.
#[unsafe(no_mangle)]
pub extern "C" fn saxiko_proved_table_reclaim(
    alloc: Global,
    handle: &mut SaxikoTable,
    max: usize,
    freed: &mut usize,
) -> i32
    ensures { Calls (FreesGroups max freed.new) (freed.new ≡ freed.old)
        handle.old.kept result handle.new.kept }
{
    on_open!(alloc, handle, fib => table::reclaim_in_table(&mut fib, max, freed))
}

/// Stores the next hop of the longest rule that covers the address.
#[unsafe(no_mangle)]
pub extern "C" fn saxiko_proved_table_lookup(
    alloc: Global,
    handle: &mut SaxikoTable,
    addr: u32,
    hop: &mut u32,
) -> i32
    ensures found { Asks (Finds addr hop.old hop.new) (hop.new ≡ hop.old) handle.old.kept result }
    ensures same { handle.new.kept ≡ handle.old.kept }
{
    on_open!(alloc, handle, fib => table::find_hop(&fib, addr, hop))
}

/// Stores the next hops of many addresses, with `default` where no rule covers one.
#[unsafe(no_mangle)]
pub extern "C" fn saxiko_proved_table_lookup_bulk(
    alloc: Global,
    handle: &mut SaxikoTable,
    addrs: &[u32],
    hops: &mut [u32],
    default: u32,
) -> i32
    ensures found { Asks (FindsAll default addrs.now hops.old hops.new) (hops.new ≡ hops.old)
        handle.old.kept result }
    ensures same { handle.new.kept ≡ handle.old.kept }
{
    on_open!(alloc, handle, fib => table::lookup_all(&fib, addrs, hops, default))
}

/// Stores the next hop of the rule of this very prefix.
#[unsafe(no_mangle)]
pub extern "C" fn saxiko_proved_table_get(
    alloc: Global,
    handle: &mut SaxikoTable,
    addr: u32,
    depth: u8,
    hop: &mut u32,
) -> i32
    ensures found { Asks (λ f. Gets addr depth hop.old hop.new f.table.rules) (hop.new ≡ hop.old)
        handle.old.kept result }
    ensures same { handle.new.kept ≡ handle.old.kept }
{
    on_open!(alloc, handle, fib => table::get_in_table(&fib, addr, depth, hop))
}

/// Stores how many rules, versions and groups there are, and the token.
#[unsafe(no_mangle)]
pub extern "C" fn saxiko_proved_table_counts(
    alloc: Global,
    handle: &mut SaxikoTable,
    counts: &mut SaxikoCounts,
) -> i32
    ensures counted { Asks (Counts counts.new) (counts.new ≡ counts.old) handle.old.kept result }
    ensures same { handle.new.kept ≡ handle.old.kept }
{
    on_open!(alloc, handle, fib => {
        *counts = table::count(&fib);
        0
    })
}
