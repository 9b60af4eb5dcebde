//! What the handles of C have in common.

ghost use Rattle.std.specs.Prelude.{◌≡◌, Option, Some, None, MatchOption, MatchResult};
ghost use Rattle.saxiko_c.specs.Status.{no_memory};

use crate::raw_box::RawBox;
use crate::status::ENOMEM;
use std::alloc::Global;
use std::mem;

/// A handle: memory of C's, which holds a box or none.
pub(crate) trait Handle: Sized + Drop {
    /// What an open one holds.
    type Held: Drop;

    ghost kept: { Self → Option Self.Held };

    fn closed(alloc: Global) -> Self
        ensures { Self.kept result ≡ None };

    fn of(raw_box: RawBox<Self::Held, Global>) -> Self
        ensures { Self.kept result ≡ Some raw_box.value };

    fn into_raw_box(self) -> Option<RawBox<Self::Held, Global>>
        ensures { MatchOption result (Self.kept self ≡ None)
            (λ raw_box. Self.kept self ≡ Some raw_box.value) };
}

/// Takes what the handle holds out of it; it is closed then.
#[inline]
pub(crate) fn take<H: Handle>(alloc: Global, handle: &mut H) -> Option<Box<H::Held>>
    ensures out { MatchOption result (H.kept handle.old ≡ None) (λ b. H.kept handle.old ≡ Some b.value) }
    ensures closed { H.kept handle.new ≡ None }
{
    match mem::replace(handle, H::closed(alloc)).into_raw_box() {
        Some(raw_box) => Some(raw_box.into_box()),
        None => None,
    }
}

/// Puts a box into the handle, which is closed.
#[inline]
pub(crate) fn put<H: Handle>(handle: &mut H, held: Box<H::Held>)
    ensures { H.kept handle.new ≡ Some held.value }
{
    // What was there is a closed handle, which has nothing to free.
    mem::forget(mem::replace(handle, H::of(RawBox::of(held))));
}

/// A box with this value; `ENOMEM` where there is no memory for one.
#[inline]
pub(crate) fn boxed<T: Drop>(alloc: Global, value: T) -> Result<Box<T>, i32>
    ensures { MatchResult result (λ b. b.value ≡ value) (λ status. status ≡ no_memory) }
{
    match Box::new(alloc, value) {
        Ok(boxed) => Ok(boxed),
        Err(_) => Err(ENOMEM),
    }
}

/// What a call comes to on what an open handle holds; on a closed one it is EINVAL.
macro_rules! on_open {
    ($alloc:ident, $handle:ident, $held:ident => $call:expr) => {
        match take($alloc, $handle) {
            Some(mut $held) => {
                let status = $call;
                put($handle, $held);
                status
            }
            None => EINVAL,
        }
    };
}

/// Opens a closed handle with what this comes to, if it is a box; on an open one it is EBUSY.
macro_rules! on_closed {
    ($alloc:ident, $handle:ident => $opened:expr) => {
        match take($alloc, $handle) {
            Some(held) => {
                put($handle, held);
                EBUSY
            }
            None => match $opened {
                Ok(opened) => {
                    put($handle, opened);
                    0
                }
                Err(status) => status,
            },
        }
    };
}

pub(crate) use on_closed;
pub(crate) use on_open;
