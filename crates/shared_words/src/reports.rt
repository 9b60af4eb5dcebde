//! The reports of a worker.

ghost use Rattle.std.specs.Prelude.{◌≡◌, ℕ, ◌<◌, [], ◌∷◌};
ghost use Rattle.lpm_trace.specs.declared.step.WorkerStep.TheVariants.{LoadOnline, StoreOnline, LoadQuiescent, StoreQuiescent, StoreOffline};
ghost use Rattle.lpm_trace.specs.Trace.{worker_by, Offline, Online};
ghost use Rattle.shared_words.specs.Seats.{IsOf};
ghost use Rattle.shared_words.specs.Deeds.{GainsAll, GoesOn};

use crate::{InitialContent, SharedWords, WorkerSeat};

/// Reports that the worker is online: stores the token that it loads in the worker's counter.
#[inline]
pub fn report_online<T: InitialContent>(seat: &mut WorkerSeat, table: &SharedWords<T>)
    requires own { IsOf table.now seat.old.table seat.old.view }
    requires offline { (worker_by seat.old.view.own_steps).phase ≡ Offline }
    ensures own { seat.new.table ≡ seat.old.table }
    ensures worker { seat.new.worker ≡ seat.old.worker }
    ensures steps { (token : ℕ) × GainsAll (StoreOnline token ∷ LoadOnline token ∷ [])
        seat.old.view seat.new.view }
    ensures rest { GoesOn seat.old.view seat.new.view }
    ensures online { (worker_by seat.new.view.own_steps).phase ≡ Online }
{
    let token = seat.load_online(table);
    seat.store_online(table, token);
}

/// Reports that the worker is quiescent: stores the token that it loads in the worker's counter.
#[inline]
pub fn report_quiescent<T: InitialContent>(seat: &mut WorkerSeat, table: &SharedWords<T>)
    requires own { IsOf table.now seat.old.table seat.old.view }
    requires online { (worker_by seat.old.view.own_steps).phase ≡ Online }
    ensures own { seat.new.table ≡ seat.old.table }
    ensures worker { seat.new.worker ≡ seat.old.worker }
    ensures steps { (token : ℕ) × GainsAll (StoreQuiescent token ∷ LoadQuiescent token ∷ [])
        seat.old.view seat.new.view }
    ensures rest { GoesOn seat.old.view seat.new.view }
    ensures online { (worker_by seat.new.view.own_steps).phase ≡ Online }
{
    let token = seat.load_quiescent(table);
    seat.store_quiescent(table, token);
}

/// Reports that the worker is offline: stores 0 in the worker's counter.
#[inline]
pub fn report_offline<T: InitialContent>(seat: &mut WorkerSeat, table: &SharedWords<T>)
    requires own { IsOf table.now seat.old.table seat.old.view }
    requires online { (worker_by seat.old.view.own_steps).phase ≡ Online }
    ensures own { seat.new.table ≡ seat.old.table }
    ensures worker { seat.new.worker ≡ seat.old.worker }
    ensures steps { GainsAll (StoreOffline ∷ []) seat.old.view seat.new.view }
    ensures rest { GoesOn seat.old.view seat.new.view }
    ensures offline { (worker_by seat.new.view.own_steps).phase ≡ Offline }
{
    seat.store_offline(table);
}
