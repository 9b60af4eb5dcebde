//! Two pieces that must see each other, so that they run at once.

use bulk::Gate;
use std::sync::atomic::{AtomicBool, Ordering};

// How often a call looks for the other piece, before it notes that it missed it.
const MOST_LOADS: u32 = 1_000_000_000;

/// Two pieces of four addresses, each of which waits before each address for the other one.
#[derive(Drop)]
pub struct Meeting {
    // those of the first piece, and then those of the second
    flags: [AtomicBool; 8],
    is_missed: AtomicBool,
}

impl Meeting {
    /// A meeting before which neither piece has come.
    pub fn new() -> Meeting {
        let no = || AtomicBool::new(false);
        Meeting {
            flags: [no(), no(), no(), no(), no(), no(), no(), no()],
            is_missed: AtomicBool::new(false),
        }
    }

    // Whether the flag was seen set.
    fn sees(&self, flag: &AtomicBool) -> bool {
        for _ in 0..MOST_LOADS {
            if flag.load(Ordering::SeqCst) || self.is_missed.load(Ordering::SeqCst) {
                return true;
            }
        }
        false
    }

    fn meet(&self, mine: &AtomicBool, other: &AtomicBool) {
        mine.store(true, Ordering::SeqCst);
        if !self.sees(other) {
            self.is_missed.store(true, Ordering::SeqCst);
        }
    }

    /// Whether each call was made, and none of them missed the other piece.
    pub fn is_kept(&self) -> bool {
        for flag in &self.flags {
            if !flag.load(Ordering::SeqCst) {
                return false;
            }
        }
        !self.is_missed.load(Ordering::SeqCst)
    }
}

impl Gate for Meeting {
    fn at(&self, piece: usize, i: usize) {
        if piece < 2 && i < 4 {
            let flags = &self.flags;
            self.meet(&flags[4 * piece + i], &flags[4 * (1 - piece) + i]);
        } else {
            self.is_missed.store(true, Ordering::SeqCst);
        }
    }
}
