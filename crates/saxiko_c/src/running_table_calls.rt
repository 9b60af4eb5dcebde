//! The calls of the writer and of the readers of a running table.

ghost use Rattle.std.specs.Prelude.{◌≡◌, ⊤, None, Some};
ghost use Rattle.saxiko_c.specs.Status.{Asks, Calls, config_of};
ghost use Rattle.saxiko_c.specs.Grace.{AsksAtRest, AtRest};
ghost use Rattle.saxiko_c.specs.Loads.{LoadsRunning};
ghost use Rattle.saxiko_c.specs.RunningTable.{AddsTo, AreOfOneTable, Counts, DeletesFrom, FindsAllIn, FindsAllWithin, FindsIn, FindsWithin, Flushes, FreesHeld, GoesOffline, GoesOnline, Opens, Quiesces, Registers, Unregisters};
ghost use Rattle.saxiko_c.specs.Table.{Gets};

use crate::handle::{Handle, on_closed, on_open, put, take};
use crate::handles::{SaxikoReader, SaxikoWriter};
use crate::owner::Owner;
use crate::records::{SaxikoConfig, SaxikoCounts, SaxikoHeld, SaxikoRoute, SaxikoSpan};
use crate::running_table;
use crate::status::{EBUSY, EINVAL};
use std::alloc::Global;

/// Opens a running table without rules in a closed handle.
#[unsafe(no_mangle)]
pub extern "C" fn saxiko_proved_writer_open(
    alloc: Global,
    handle: &mut SaxikoWriter,
    config: &SaxikoConfig,
) -> i32
    ensures { Opens (config_of config.now config.now.readers) handle.old.kept result handle.new.kept }
{
    on_closed!(alloc, handle => running_table::open_owner(alloc, config.with_readers(config.readers)))
}

/// Opens a running table with the rules of these routes in a closed handle. Of those of one prefix the last counts.
/// `bad` is the place of the first route that gives no rule, where one is.
#[unsafe(no_mangle)]
pub extern "C" fn saxiko_proved_writer_load(
    alloc: Global,
    handle: &mut SaxikoWriter,
    config: &SaxikoConfig,
    routes: &[SaxikoRoute],
    bad: &mut usize,
) -> i32
    ensures { LoadsRunning (config_of config.now config.now.readers) routes.now bad.old bad.new
        handle.old.kept result handle.new.kept }
{
    on_closed!(alloc, handle => running_table::load_owner(alloc, config.with_readers(config.readers), routes, bad))
}

/// Frees the writer; the table is freed with the last handle of it.
#[unsafe(no_mangle)]
pub extern "C" fn saxiko_proved_writer_close(alloc: Global, handle: &mut SaxikoWriter)
    ensures { handle.new.kept ≡ None }
{
    *handle = SaxikoWriter::closed(alloc);
}

/// Adds a rule, or gives the prefix's rule another next hop.
#[unsafe(no_mangle)]
pub extern "C" fn saxiko_proved_writer_add(
    alloc: Global,
    handle: &mut SaxikoWriter,
    addr: u32,
    depth: u8,
    hop: u32,
) -> i32
    ensures { Calls (AtRest (AddsTo addr depth hop) ⊤) ⊤ handle.old.kept result handle.new.kept }
{
    on_open!(alloc, handle, owner => running_table::add_by_writer(&mut owner, addr, depth, hop))
}

/// Deletes the rule of a prefix, and stores the next hop that it had.
#[unsafe(no_mangle)]
pub extern "C" fn saxiko_proved_writer_delete(
    alloc: Global,
    handle: &mut SaxikoWriter,
    addr: u32,
    depth: u8,
    hop: &mut u32,
) -> i32
    ensures { Calls (AtRest (DeletesFrom addr depth hop.old hop.new) (hop.new ≡ hop.old))
        (hop.new ≡ hop.old) handle.old.kept result handle.new.kept }
{
    on_open!(alloc, handle, owner => running_table::delete_by_writer(&mut owner, addr, depth, hop))
}

/// Deletes all rules, and stores how many there were.
#[unsafe(no_mangle)]
pub extern "C" fn saxiko_proved_writer_flush(
    alloc: Global,
    handle: &mut SaxikoWriter,
    rules: &mut usize,
) -> i32
    ensures { Calls (AtRest (Flushes rules.old rules.new) (rules.new ≡ rules.old))
        (rules.new ≡ rules.old) handle.old.kept result handle.new.kept }
{
    on_open!(alloc, handle, owner => running_table::flush_by_writer(&mut owner, rules))
}

/// Frees at most `max` groups that wait, the oldest first, and stores how many; it is 1 where a reader holds
/// the next one, which is named then.
#[unsafe(no_mangle)]
pub extern "C" fn saxiko_proved_writer_reclaim(
    alloc: Global,
    handle: &mut SaxikoWriter,
    max: usize,
    freed: &mut usize,
    held: &mut SaxikoHeld,
) -> i32
    ensures { let unchanged = (freed.new ≡ freed.old) × (held.new ≡ held.old) in
        Calls (AtRest (FreesHeld max freed.new held.old held.new) unchanged) unchanged
        handle.old.kept result handle.new.kept }
{
    on_open!(alloc, handle, owner => running_table::reclaim_by_writer(&mut owner, max, freed, held))
}

/// Stores the next hop of the rule of this very prefix.
#[unsafe(no_mangle)]
pub extern "C" fn saxiko_proved_writer_get(
    alloc: Global,
    handle: &mut SaxikoWriter,
    addr: u32,
    depth: u8,
    hop: &mut u32,
) -> i32
    ensures found { Asks (AsksAtRest (λ o. Gets addr depth hop.old hop.new o.writer.table.rules)
        (hop.new ≡ hop.old)) (hop.new ≡ hop.old) handle.old.kept result }
    ensures same { handle.new.kept ≡ handle.old.kept }
{
    on_open!(alloc, handle, owner => running_table::get_by_writer(&owner, addr, depth, hop))
}

/// Stores how many rules, versions and groups there are, and the token.
#[unsafe(no_mangle)]
pub extern "C" fn saxiko_proved_writer_counts(
    alloc: Global,
    handle: &mut SaxikoWriter,
    counts: &mut SaxikoCounts,
) -> i32
    ensures counted { Asks (AsksAtRest (Counts counts.new) (counts.new ≡ counts.old))
        (counts.new ≡ counts.old) handle.old.kept result }
    ensures same { handle.new.kept ≡ handle.old.kept }
{
    on_open!(alloc, handle, owner => running_table::store_counts(&mut owner, counts))
}

/// Hands the reader of this number out in a closed handle; it is offline.
#[unsafe(no_mangle)]
pub extern "C" fn saxiko_proved_reader_register(
    alloc: Global,
    writer: &mut SaxikoWriter,
    reader: &mut SaxikoReader,
    number: u32,
) -> i32
    ensures { Registers number writer.old.kept reader.old.kept result writer.new.kept reader.new.kept }
{
    on_open!(alloc, writer, owner => hand_out(alloc, &mut owner, reader, number))
}

fn hand_out(alloc: Global, owner: &mut Owner, reader: &mut SaxikoReader, number: u32) -> i32
    ensures { Registers number (Some owner.old) reader.old.kept result (Some owner.new) reader.new.kept }
{
    on_closed!(alloc, reader => running_table::boxed_reader(alloc, owner, number as usize))
}

/// Takes the reader back: it is offline then, its handle is closed, and its number is free. Both handles are
/// of one table.
#[unsafe(no_mangle)]
pub extern "C" fn saxiko_proved_reader_unregister(
    alloc: Global,
    writer: &mut SaxikoWriter,
    reader: &mut SaxikoReader,
) -> i32
    requires one_table { AreOfOneTable writer.old.kept reader.old.kept }
    ensures { Unregisters writer.old.kept reader.old.kept result writer.new.kept reader.new.kept }
{
    on_open!(alloc, writer, owner => take_back(alloc, &mut owner, reader))
}

fn take_back(alloc: Global, owner: &mut Owner, reader: &mut SaxikoReader) -> i32
    requires one_table { AreOfOneTable (Some owner.old) reader.old.kept }
    ensures { Unregisters (Some owner.old) reader.old.kept result (Some owner.new) reader.new.kept }
{
    match take(alloc, reader) {
        Some(open) => running_table::put_back(owner, Box::into_inner(open)),
        None => EINVAL,
    }
}

/// Takes the reader offline, and closes its handle; its number stays in use.
#[unsafe(no_mangle)]
pub extern "C" fn saxiko_proved_reader_close(alloc: Global, handle: &mut SaxikoReader)
    ensures { handle.new.kept ≡ None }
{
    *handle = SaxikoReader::closed(alloc);
}

/// The reader goes online.
#[unsafe(no_mangle)]
pub extern "C" fn saxiko_proved_reader_online(alloc: Global, handle: &mut SaxikoReader) -> i32
    ensures { Calls GoesOnline ⊤ handle.old.kept result handle.new.kept }
{
    on_open!(alloc, handle, reader => running_table::go_online(&mut reader))
}

/// The reader goes offline.
#[unsafe(no_mangle)]
pub extern "C" fn saxiko_proved_reader_offline(alloc: Global, handle: &mut SaxikoReader) -> i32
    ensures { Calls GoesOffline ⊤ handle.old.kept result handle.new.kept }
{
    on_open!(alloc, handle, reader => running_table::go_offline(&mut reader))
}

/// The reader holds nothing that it looked up before.
#[unsafe(no_mangle)]
pub extern "C" fn saxiko_proved_reader_quiescent(alloc: Global, handle: &mut SaxikoReader) -> i32
    ensures { Calls Quiesces ⊤ handle.old.kept result handle.new.kept }
{
    on_open!(alloc, handle, reader => running_table::quiesce(&mut reader))
}

/// Stores the next hop of the longest rule that covers the address.
#[unsafe(no_mangle)]
pub extern "C" fn saxiko_proved_reader_lookup(
    alloc: Global,
    handle: &mut SaxikoReader,
    addr: u32,
    hop: &mut u32,
) -> i32
    ensures { Calls (FindsIn addr hop.old hop.new) (hop.new ≡ hop.old) handle.old.kept result
        handle.new.kept }
{
    on_open!(alloc, handle, reader => running_table::find_hop(&mut reader, addr, hop))
}

/// Stores the next hop of the longest rule that covers the address, and the versions that it lies between.
#[unsafe(no_mangle)]
pub extern "C" fn saxiko_proved_reader_lookup_span(
    alloc: Global,
    handle: &mut SaxikoReader,
    addr: u32,
    hop: &mut u32,
    span: &mut SaxikoSpan,
) -> i32
    ensures { Calls (FindsWithin addr hop.old hop.new span.old span.new)
        ((hop.new ≡ hop.old) × (span.new ≡ span.old)) handle.old.kept result handle.new.kept }
{
    on_open!(alloc, handle, reader => running_table::lookup_within(&mut reader, addr, hop, span))
}

/// Stores the next hops of many addresses, with `default` where no rule covers one.
#[unsafe(no_mangle)]
pub extern "C" fn saxiko_proved_reader_lookup_bulk(
    alloc: Global,
    handle: &mut SaxikoReader,
    addrs: &[u32],
    hops: &mut [u32],
    default: u32,
) -> i32
    ensures { Calls (FindsAllIn default addrs.now hops.old hops.new) (hops.new ≡ hops.old)
        handle.old.kept result handle.new.kept }
{
    on_open!(alloc, handle, reader => running_table::lookup_all(&mut reader, addrs, hops, default))
}

/// Stores the next hops of many addresses, with `default` where no rule covers one, and the versions that they lie
/// between.
#[unsafe(no_mangle)]
pub extern "C" fn saxiko_proved_reader_lookup_bulk_span(
    alloc: Global,
    handle: &mut SaxikoReader,
    addrs: &[u32],
    hops: &mut [u32],
    default: u32,
    span: &mut SaxikoSpan,
) -> i32
    ensures { Calls (FindsAllWithin default addrs.now hops.old hops.new span.old span.new)
        ((hops.new ≡ hops.old) × (span.new ≡ span.old)) handle.old.kept result handle.new.kept }
{
    on_open!(alloc, handle, reader => running_table::lookup_all_within(&mut reader, addrs, hops, default, span))
}
