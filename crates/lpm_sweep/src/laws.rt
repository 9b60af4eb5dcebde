//! Laws of the order of rules, and of swept words. Each function does nothing: its contract is the law.

ghost use Rattle.lpm_sweep.specs.Laws.{NumberedAreTied, OrderIsByBits, RoomMayGrow};

/// The order of prefixes is by their bits, and of those with the same bits by their length.
pub fn order_is_by_bits()
    ensures { OrderIsByBits }
{}

/// Groups that are linked to the swept blocks, in their order, and free ones behind them are tied
/// to the links of the words.
#[tactic(auto, using(crate::proofs::NewGroup::tied))]
pub fn numbered_are_tied()
    ensures { NumberedAreTied }
{}

/// Words represent the same rules with room for more groups.
pub fn room_may_grow()
    ensures { RoomMayGrow }
{}
