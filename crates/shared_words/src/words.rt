//! The table of words.

ghost use Rattle.std.specs.Prelude.{◌≡◌, ℕ, ◌+◌, ◌<◌, ◌≤◌, length, IfOk, []};
ghost use Rattle.lpm_trace.specs.States.{IsSettled};
ghost use Rattle.shared_words.specs.Layout.{initial_state_of, initial_words};
ghost use Rattle.shared_words.specs.Rule.{writer_view};
ghost use Rattle.shared_words.specs.Seats.{IsOf};

use crate::initial::InitialContent;
use crate::layout::Layout;
use crate::trace_rule::Board;
use crate::writer::WriterSeat;
use atomic_table::Table;
use std::alloc::{AllocError, Global};
use std::marker::Model;

/// The words of a shared table. Each step on them is made through a seat.
#[derive(Drop)]
pub struct SharedWords<T: InitialContent> {
    // The table of atomic words.
    pub(crate) board: Board<T>,
    // Where each word lies in it.
    pub(crate) layout: Layout,
}

impl<T: InitialContent> Model for SharedWords<T> {
    ghost use Rattle.shared_words.specs.Seats.{WordsAt, coded_words};

    ghost Value = { WordsAt };

    ghost coded = { coded_words };

    ghost view = { λ s. record {
      table = s.board.shared.table_id;
      initial = T.initial s.board.shared.key;
      layout = s.layout;
    } };
}

impl<T: InitialContent> SharedWords<T> {
    /// How many workers there are, each with a counter.
    #[inline]
    pub fn workers(&self) -> usize
        ensures { result ≡ self.now.layout.workers }
    {
        self.layout.workers
    }
}

/// A table of these words, which are copied, and the seat of its writer; the error only where memory is
/// short.
pub fn open<T: InitialContent>(
    alloc: Global,
    words: &[u64],
    layout: Layout,
    initial: &T,
) -> Result<(SharedWords<T>, WriterSeat), AllocError>
    requires words { words.now ≡ initial_words (T.initial initial.now) }
    requires settled { IsSettled (initial_state_of (T.initial initial.now)) }
    requires firsts { layout.firsts ≡ length (T.initial initial.now).firsts }
    requires seconds { layout.seconds ≡ length (T.initial initial.now).seconds }
    requires workers { layout.workers ≡ (T.initial initial.now).workers }
    requires widths { (T.initial initial.now).first + (T.initial initial.now).second ≤ 32 }
    ensures initial { IfOk result (λ r. r.0.initial ≡ T.initial initial.now) }
    ensures layout { IfOk result (λ r. r.0.layout ≡ layout) }
    ensures own { IfOk result (λ r. IsOf r.0 r.1.table r.1.view) }
    ensures view { IfOk result (λ r. r.1.view ≡ writer_view (T.initial initial.now)) }
{
    let (board, place) = Table::of_words(alloc, words, initial)?;
    Ok((SharedWords { board, layout }, WriterSeat { place }))
}
