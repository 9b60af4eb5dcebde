//! The calls of a grace period.

ghost use Rattle.std.specs.Prelude.{◌≡◌, ⊤};
ghost use Rattle.saxiko_c.specs.Status.{Calls};
ghost use Rattle.saxiko_c.specs.Grace.{ChecksOnce, Starts};

use crate::grace;
use crate::handle::{on_open, put, take};
use crate::handles::SaxikoWriter;
use crate::records::SaxikoHeld;
use crate::status::EINVAL;
use std::alloc::Global;

/// Starts a grace period.
#[unsafe(no_mangle)]
pub extern "C" fn saxiko_proved_writer_start(alloc: Global, handle: &mut SaxikoWriter) -> i32
    ensures { Calls Starts ⊤ handle.old.kept result handle.new.kept }
{
    on_open!(alloc, handle, owner => grace::start_by_owner(&mut owner))
}

/// Checks once whether the grace period is over; it is 1 where a reader holds what was given up before it, which is
/// named then.
#[unsafe(no_mangle)]
pub extern "C" fn saxiko_proved_writer_check(
    alloc: Global,
    handle: &mut SaxikoWriter,
    held: &mut SaxikoHeld,
) -> i32
    ensures { Calls (ChecksOnce held.old held.new) (held.new ≡ held.old)
        handle.old.kept result handle.new.kept }
{
    on_open!(alloc, handle, owner => grace::check_by_owner(&mut owner, held))
}
