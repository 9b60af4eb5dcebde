//! The words of a running table.

ghost use Rattle.std.specs.Prelude.{◌≡◌};
ghost use Rattle.lpm_writer.specs.GroupToFill.{HasWidths};
ghost use Rattle.shared_fib.specs.RunningTable.{IsFitted, initial_state};

use crate::InitialTable;
use shared_words::SharedWords;
use std::marker::Model;

pub(crate) type Words<const FIRST: u32, const SECOND: u32> = SharedWords<
    InitialTable<FIRST, SECOND>,
>;

/// The words of a running table, which its writer changes while its passes look up. Threads share it by
/// reference. IPv4 has `SharedTable<24, 8>`.
#[derive(Drop)]
pub struct SharedTable<const FIRST: u32, const SECOND: u32> {
    pub(crate) words: Words<FIRST, SECOND>,
}

impl<const FIRST: u32, const SECOND: u32> Model for SharedTable<FIRST, SECOND> {
    ghost use Rattle.shared_fib.specs.RunningTable.{Identity, coded_identity, IsFitted};

    ghost Value = { Identity };

    ghost coded = { coded_identity };

    ghost view = { λ t. record {
      words = t.words.table;
      initial = t.words.initial;
    } };

    ghost invariant = { λ t. IsFitted FIRST SECOND (record {
      words = t.words.table;
      initial = t.words.initial;
    }) t.words.layout };
}

impl<const FIRST: u32, const SECOND: u32> SharedTable<FIRST, SECOND> {
    // The table of these words.
    pub(crate) fn new(words: Words<FIRST, SECOND>) -> Self
        requires { IsFitted FIRST SECOND (record {
          words = words.table;
          initial = words.initial;
        }) words.layout }
        ensures { result ≡ record {
          words = words.entry.table;
          initial = words.entry.initial;
        } }
    {
        SharedTable { words }
    }

    /// Does nothing: its contract says that the traces of this table are of these widths.
    #[inline]
    pub fn has_widths(&self)
        ensures { HasWidths FIRST SECOND (initial_state self.now) }
    {
        let _ = &self.words;
    }
}
