//! The lookup of four addresses together.

ghost use Rattle.std.specs.Prelude.{◌≡◌, ℕ, ◌+◌, ◌^◌, ◌<◌, All, length, [], ◌∷◌};
ghost use Rattle.lpm_bits.specs.Widths.{IsShape};
ghost use Rattle.lpm_cells.specs.Words.{IsFirstWord};
ghost use Rattle.lpm_trace.specs.Trace.{worker_by, Online, LookingUp, Unread};
ghost use Rattle.shared_words.specs.Seats.{IsOf};
ghost use Rattle.shared_words.specs.Deeds.{LoadsFirsts, LooksUpAll};

use crate::address::load_last;
use crate::{InitialContent, SharedWords, WorkerSeat};
use lpm_bits::{Hop, Shape};
use lpm_cells::Entry;

/// What a lookup of four addresses answers, in their order. Each answer is that of a version from `lo` to
/// `hi`, and no two need be of one version.
#[derive(Clone, Copy)]
pub struct FourAnswers {
    /// The next hops of the longest rules that cover the addresses; none where no rule does.
    pub hops: [Option<Hop>; 4],
    /// How many updates were done when the lookup began.
    pub lo: u64,
    /// How many updates were begun when it ended.
    pub hi: u64,
}

/// The next hops of four addresses, between two loads of the sequence for all of them.
#[inline]
pub fn lookup_four_addresses<const FIRST: u32, const SECOND: u32, T: InitialContent>(
    seat: &mut WorkerSeat,
    table: &SharedWords<T>,
    a: u32,
    b: u32,
    c: u32,
    d: u32,
) -> FourAnswers
    requires own { IsOf table.now seat.old.table seat.old.view }
    requires shape { IsShape FIRST SECOND }
    requires first { seat.old.view.initial.first ≡ FIRST }
    requires second { seat.old.view.initial.second ≡ SECOND }
    requires online { (worker_by seat.old.view.own_steps).phase ≡ Online }
    requires addrs { All (λ addr. addr < 2 ^ (FIRST + SECOND)) (a ∷ b ∷ c ∷ d ∷ []) }
    ensures own { seat.new.table ≡ seat.old.table }
    ensures worker { seat.new.worker ≡ seat.old.worker }
    ensures answers { LooksUpAll (a ∷ b ∷ c ∷ d ∷ []) result.hops result.lo result.hi
        seat.old.view seat.new.view }
{
    let addrs = [u64::from(a), u64::from(b), u64::from(c), u64::from(d)];
    let low = seat.begin_lookup(table, &addrs);
    seat.view_is_sound();
    let (w, x, y, z) = load_firsts::<FIRST, SECOND, T>(seat, table, a, b, c, d);
    let w = load_last::<FIRST, SECOND, T>(seat, table, a, w);
    let x = load_last::<FIRST, SECOND, T>(seat, table, b, x);
    let y = load_last::<FIRST, SECOND, T>(seat, table, c, y);
    let z = load_last::<FIRST, SECOND, T>(seat, table, d, z);
    let high = seat.end_lookup(table);
    seat.view_is_sound();
    FourAnswers {
        hops: [
            Entry::hop_of_last_word::<FIRST, SECOND>(w),
            Entry::hop_of_last_word::<FIRST, SECOND>(x),
            Entry::hop_of_last_word::<FIRST, SECOND>(y),
            Entry::hop_of_last_word::<FIRST, SECOND>(z),
        ],
        lo: low / 2,
        hi: high / 2 + high % 2,
    }
}

/// Loads the first words of the addresses of a lookup.
#[inline]
fn load_firsts<const FIRST: u32, const SECOND: u32, T: InitialContent>(
    seat: &mut WorkerSeat,
    table: &SharedWords<T>,
    a: u32,
    b: u32,
    c: u32,
    d: u32,
) -> (u64, u64, u64, u64)
    requires own { IsOf table.now seat.old.table seat.old.view }
    requires shape { IsShape FIRST SECOND }
    requires second { seat.old.view.initial.second ≡ SECOND }
    requires firsts { length seat.old.view.initial.firsts ≡ 2 ^ FIRST }
    requires addrs { All (λ addr. addr < 2 ^ (FIRST + SECOND)) (a ∷ b ∷ c ∷ d ∷ []) }
    requires looking { (worker_by seat.old.view.own_steps).phase ≡ LookingUp }
    requires unread { (worker_by seat.old.view.own_steps).probes
        ≡ Unread a ∷ Unread b ∷ Unread c ∷ Unread d ∷ [] }
    ensures own { seat.new.table ≡ seat.old.table }
    ensures worker { seat.new.worker ≡ seat.old.worker }
    ensures words { All (IsFirstWord
        (seat.old.view.initial.first + seat.old.view.initial.second)
        seat.old.view.initial.second seat.old.view.initial.seconds)
        (result.0 ∷ result.1 ∷ result.2 ∷ result.3 ∷ []) }
    ensures loads { LoadsFirsts (a ∷ b ∷ c ∷ d ∷ [])
        (result.0 ∷ result.1 ∷ result.2 ∷ result.3 ∷ [])
        seat.old.view seat.new.view }
{
    let w = seat.load_first(table, Shape::<FIRST, SECOND>::first_index(a));
    let x = seat.load_first(table, Shape::<FIRST, SECOND>::first_index(b));
    let y = seat.load_first(table, Shape::<FIRST, SECOND>::first_index(c));
    let z = seat.load_first(table, Shape::<FIRST, SECOND>::first_index(d));
    (w, x, y, z)
}
