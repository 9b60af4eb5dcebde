//! The words of a running table and the writer's seat, borrowed for a command.

ghost use Rattle.std.specs.Prelude.{◌≡◌, ◌^◌, ◌≤◌};
ghost use Rattle.lpm_trace.specs.States.{state_after, updates_begun_in};
ghost use Rattle.shared_words.specs.Layout.{initial_state_of};
ghost use Rattle.shared_words.specs.Seats.{AreLawful, IsOf};
ghost use Rattle.shared_fib.specs.LentSeats.{SharedDid, state_of_lent};

use crate::InitialTable;
use shared_words::{SharedWords, WriterSeat};
use std::marker::Model;

/// The words of a running table, as the writer changes them through its seat.
#[derive(Drop)]
pub struct SharedMemory<'a, const FIRST: u32, const SECOND: u32> {
    pub(crate) table: &'a SharedWords<InitialTable<FIRST, SECOND>>,
    pub(crate) seat: &'a mut WriterSeat,
    /// The newest token.
    pub(crate) token: u64,
}

impl<'a, const FIRST: u32, const SECOND: u32> Model for SharedMemory<'a, FIRST, SECOND> {
    ghost use Rattle.shared_fib.specs.LentSeats.{LentSeat, coded_lent, IsAt};
    ghost use Rattle.shared_words.specs.Seats.{IsOf};

    ghost Value = { LentSeat };

    ghost coded = { coded_lent };

    ghost view = { λ a. record {
      name = a.seat.ghost_name;
      table = a.seat.now.table;
      view = a.seat.now.view;
    } };

    ghost invariant = { λ a. IsOf a.table.now a.seat.now.table a.seat.now.view
        × IsAt a.seat.now.view a.token };
}

impl<'a, const FIRST: u32, const SECOND: u32> SharedMemory<'a, FIRST, SECOND> {
    /// Borrows the table and its writer's seat.
    pub fn new(
        table: &'a SharedWords<InitialTable<FIRST, SECOND>>,
        seat: &'a mut WriterSeat,
    ) -> SharedMemory<'a, FIRST, SECOND>
        requires own { IsOf table.now seat.old.table seat.old.view }
        requires token { (state_after (initial_state_of seat.old.view.initial)
            seat.old.view.writer_steps).token ≤ 2 ^ 62 }
        requires updates { updates_begun_in (state_after (initial_state_of seat.old.view.initial)
            seat.old.view.writer_steps) ≤ 2 ^ 61 }
        ensures name { result.name ≡ seat.entry.ghost_name }
        ensures table { result.table ≡ seat.old.table }
        ensures view { result.view ≡ seat.old.view }
        ensures did { SharedDid result (initial_state_of seat.old.view.initial) seat.old.view.writer_steps }
    {
        seat.steps_are_lawful();
        let token = seat.stored_token(table);
        SharedMemory { table, seat, token }
    }

    /// The seat, which has made the steps of all that was called. They are lawful.
    pub fn into_seat(self) -> &'a mut WriterSeat
        ensures name { result.ghost_name ≡ self.entry.name }
        ensures table { result.now.table ≡ self.entry.table }
        ensures view { result.now.view ≡ self.entry.view }
        ensures token { (state_of_lent self.entry).token ≤ 2 ^ 62 }
        ensures updates { updates_begun_in (state_of_lent self.entry) ≤ 2 ^ 61 }
        ensures lawful { AreLawful self.entry.view.initial self.entry.view.writer_steps }
    {
        self.seat.steps_are_lawful();
        self.seat
    }
}
