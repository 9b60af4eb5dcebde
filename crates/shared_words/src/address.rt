//! The lookup of an address.

ghost use Rattle.std.specs.Prelude.{◌≡◌, ℕ, ◌+◌, ◌^◌, ◌<◌};
ghost use Rattle.lpm_bits.specs.Widths.{IsShape};
ghost use Rattle.lpm_cells.specs.Words.{IsLastWord};
ghost use Rattle.lpm_trace.specs.Trace.{worker_by, Online};
ghost use Rattle.shared_words.specs.Seats.{IsOf};
ghost use Rattle.shared_words.specs.Deeds.{LoadsLast, LooksFor, LooksUp};

use crate::{InitialContent, SharedWords, WorkerSeat};
use lpm_bits::{Hop, Shape};
use lpm_cells::Entry;
use lpm_rules::Answer;

/// The next hop of the longest rule that covers the address, as a version has it that stood while the
/// words were loaded.
#[inline]
pub fn lookup_address<const FIRST: u32, const SECOND: u32, T: InitialContent>(
    seat: &mut WorkerSeat,
    table: &SharedWords<T>,
    addr: u32,
) -> Answer
    requires own { IsOf table.now seat.old.table seat.old.view }
    requires shape { IsShape FIRST SECOND }
    requires first { seat.old.view.initial.first ≡ FIRST }
    requires second { seat.old.view.initial.second ≡ SECOND }
    requires online { (worker_by seat.old.view.own_steps).phase ≡ Online }
    requires addr { addr < 2 ^ (FIRST + SECOND) }
    ensures own { seat.new.table ≡ seat.old.table }
    ensures worker { seat.new.worker ≡ seat.old.worker }
    ensures answer { LooksUp addr result.hop result.lo result.hi
        seat.old.view seat.new.view }
{
    let low = seat.begin_lookup(table, &[u64::from(addr)]);
    seat.view_is_sound();
    let word = seat.load_first(table, Shape::<FIRST, SECOND>::first_index(addr));
    let word = load_last::<FIRST, SECOND, T>(seat, table, addr, word);
    let high = seat.end_lookup(table);
    seat.view_is_sound();
    Answer {
        hop: Entry::hop_of_last_word::<FIRST, SECOND>(word),
        lo: low / 2,
        hi: high / 2 + high % 2,
    }
}

/// Loads the word that answers the next address, where that isn't its first word. It returns the word.
#[inline]
pub(crate) fn load_last<const FIRST: u32, const SECOND: u32, T: InitialContent>(
    seat: &mut WorkerSeat,
    table: &SharedWords<T>,
    addr: u32,
    word: u64,
) -> u64
    requires own { IsOf table.now seat.old.table seat.old.view }
    requires shape { IsShape FIRST SECOND }
    requires first { seat.old.view.initial.first ≡ FIRST }
    requires second { seat.old.view.initial.second ≡ SECOND }
    requires next { LooksFor FIRST SECOND addr word seat.old.view }
    ensures own { seat.new.table ≡ seat.old.table }
    ensures worker { seat.new.worker ≡ seat.old.worker }
    ensures last { IsLastWord (FIRST + SECOND) result }
    ensures loads { LoadsLast addr word result seat.old.view seat.new.view }
{
    match Entry::group_of_word::<FIRST, SECOND>(word) {
        None => word,
        Some(group) => {
            let base = (group as usize) << SECOND;
            let index = base + Shape::<FIRST, SECOND>::second_index(addr);
            seat.load_second(table, index)
        }
    }
}
