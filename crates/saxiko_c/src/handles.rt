//! What a C program holds of a table. All have one form, which is C's: no type of C has parameters.

ghost use Rattle.std.specs.Prelude.{◌≡◌, Option, Some};
ghost use Rattle.fib.specs.Fib.{FibState};
ghost use Rattle.shared_fib.specs.Passes.{PassState};
ghost use Rattle.saxiko_c.specs.RunningTable.{StagedOwner};
ghost use Rattle.saxiko_c.specs.OwnedTables.{coded_reader_kept, coded_table_kept, coded_writer_kept, handle_owns, reader_row, table_row, writer_row};

use crate::handle::Handle;
use crate::owner::Owner;
use crate::raw_box::RawBox;
use fib::Fib;
use saxiko::Reader;
use std::alloc::Global;
use std::marker::Model;
use std::ptr::null_mut;

/// A table of one thread, or none. C declares it as `struct saxiko_table`, which has a `number` behind
/// `is_open`, not used here.
#[repr(C)]
pub struct SaxikoTable {
    at: *mut u8,
    is_open: bool,
    alloc: Global,
    pub ghost kept: { Option FibState } by { coded_table_kept },
}

impl Model for SaxikoTable {
    ghost also_owns = { λ h. handle_owns table_row h.alloc h.at h.is_open h.kept };
}

impl Handle for SaxikoTable {
    type Held = Fib<24, 8>;

    ghost kept = { λ h. h.kept };

    fn closed(alloc: Global) -> Self {
        SaxikoTable {
            at: null_mut(),
            is_open: false,
            alloc,
        }
    }

    fn of(raw_box: RawBox<Fib<24, 8>, Global>) -> Self
        ensures { result.kept ≡ Some raw_box.value }
    {
        let RawBox { at, alloc } = raw_box;
        SaxikoTable {
            at: at as *mut u8,
            is_open: true,
            alloc,
        }
    }

    fn into_raw_box(self) -> Option<RawBox<Fib<24, 8>, Global>> {
        let SaxikoTable { at, is_open, alloc } = self;
        if is_open {
            Some(RawBox {
                at: at as *mut Fib<24, 8>,
                alloc,
            })
        } else {
            None
        }
    }
}

impl Drop for SaxikoTable {
    fn drop(self) {
        if let Some(raw_box) = self.into_raw_box() {
            drop(raw_box.into_box());
        }
    }
}

unsafe impl Send for SaxikoTable {}

/// A writer of a running table, or none. C declares it as `struct saxiko_writer`, which has a `number` behind
/// `is_open`, not used here.
#[repr(C)]
pub struct SaxikoWriter {
    at: *mut u8,
    is_open: bool,
    alloc: Global,
    pub ghost kept: { Option StagedOwner } by { coded_writer_kept },
}

impl Model for SaxikoWriter {
    ghost also_owns = { λ h. handle_owns writer_row h.alloc h.at h.is_open h.kept };
}

impl Handle for SaxikoWriter {
    type Held = Owner;

    ghost kept = { λ h. h.kept };

    fn closed(alloc: Global) -> Self {
        SaxikoWriter {
            at: null_mut(),
            is_open: false,
            alloc,
        }
    }

    fn of(raw_box: RawBox<Owner, Global>) -> Self
        ensures { result.kept ≡ Some raw_box.value }
    {
        let RawBox { at, alloc } = raw_box;
        SaxikoWriter {
            at: at as *mut u8,
            is_open: true,
            alloc,
        }
    }

    fn into_raw_box(self) -> Option<RawBox<Owner, Global>> {
        let SaxikoWriter { at, is_open, alloc } = self;
        if is_open {
            Some(RawBox {
                at: at as *mut Owner,
                alloc,
            })
        } else {
            None
        }
    }
}

impl Drop for SaxikoWriter {
    fn drop(self) {
        if let Some(raw_box) = self.into_raw_box() {
            drop(raw_box.into_box());
        }
    }
}

unsafe impl Send for SaxikoWriter {}

/// A reader of a running table, or none. C declares it as `struct saxiko_reader`, which has a `number` behind
/// `is_open`, not used here.
#[repr(C)]
pub struct SaxikoReader {
    at: *mut u8,
    is_open: bool,
    alloc: Global,
    pub ghost kept: { Option PassState } by { coded_reader_kept },
}

impl Model for SaxikoReader {
    ghost also_owns = { λ h. handle_owns reader_row h.alloc h.at h.is_open h.kept };
}

impl Handle for SaxikoReader {
    type Held = Reader;

    ghost kept = { λ h. h.kept };

    fn closed(alloc: Global) -> Self {
        SaxikoReader {
            at: null_mut(),
            is_open: false,
            alloc,
        }
    }

    fn of(raw_box: RawBox<Reader, Global>) -> Self
        ensures { result.kept ≡ Some raw_box.value }
    {
        let RawBox { at, alloc } = raw_box;
        SaxikoReader {
            at: at as *mut u8,
            is_open: true,
            alloc,
        }
    }

    fn into_raw_box(self) -> Option<RawBox<Reader, Global>> {
        let SaxikoReader { at, is_open, alloc } = self;
        if is_open {
            Some(RawBox {
                at: at as *mut Reader,
                alloc,
            })
        } else {
            None
        }
    }
}

impl Drop for SaxikoReader {
    fn drop(self) {
        if let Some(raw_box) = self.into_raw_box() {
            drop(raw_box.into_box());
        }
    }
}

unsafe impl Send for SaxikoReader {}
