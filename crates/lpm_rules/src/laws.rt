//! Laws of rule lists. Each function does nothing: its contract is the law.

ghost use Rattle.lpm_rules.specs.Changes.{LastAdditionDecides, LastDeletionDecides, LastFlushDecides, SparedIsKept, CollectedAreTheRules, CollectedIsOfLength};
ghost use Rattle.lpm_rules.specs.Deep.{EmptyHasNoBlock, HasDeepBlocks, PutBringsBlock, RemoveDropsBlock};
ghost use Rattle.lpm_rules.specs.Longest.{HasOneCover, HasOneLongestHop};
ghost use Rattle.lpm_rules.specs.RuleMap.{PutUndoesRemove, RemoveUndoesPut};

/// An address has one longest matching next hop.
#[tactic(auto, using(crate::proofs::Longest::one_longest_hop))]
pub fn one_longest_hop()
    ensures { HasOneLongestHop }
{}

/// A prefix has one longest shorter rule that covers it.
#[tactic(auto, using(crate::proofs::Longest::one_cover))]
pub fn one_cover()
    ensures { HasOneCover }
{}

/// To remove a rule that was put in new gives the list that was.
#[tactic(auto, using(crate::proofs::Views::remove_insert))]
pub fn remove_undoes_put()
    ensures { RemoveUndoesPut }
{}

/// To put back a rule that was removed gives the list that was.
#[tactic(auto, using(crate::proofs::Views::insert_remove))]
pub fn put_undoes_remove()
    ensures { PutUndoesRemove }
{}

/// The set of deep blocks has exactly the blocks that hold a rule longer than `FIRST` bits.
#[tactic(auto, using(crate::proofs::Deep::has_deep_blocks))]
pub fn set_of_deep_blocks()
    ensures { HasDeepBlocks }
{}

/// Which blocks hold a rule longer than `FIRST` bits after a rule was put in.
#[tactic(auto, using(crate::proofs::Deep::put_brings_block))]
pub fn put_brings_block()
    ensures { PutBringsBlock }
{}

/// Which blocks hold a rule longer than `FIRST` bits after a rule was removed.
#[tactic(auto, using(crate::proofs::Deep::remove_drops_block))]
pub fn remove_drops_block()
    ensures { RemoveDropsBlock }
{}

/// An empty list has no block with a rule longer than `FIRST` bits.
#[tactic(auto, using(crate::proofs::Deep::deep_blocks_empty))]
pub fn empty_has_no_block()
    ensures { EmptyHasNoBlock }
{}

/// A prefix that each change spares keeps its rule.
#[tactic(auto, using(crate::proofs::Longest::spared_is_kept))]
pub fn spared_prefix_keeps_its_rule()
    ensures { SparedIsKept }
{}

/// A prefix that each change after its addition spares has the next hop of that addition.
#[tactic(auto, using(crate::proofs::Longest::last_addition_decides))]
pub fn last_addition_decides()
    ensures { LastAdditionDecides }
{}

/// A prefix that each change after its deletion spares has no rule.
#[tactic(auto, using(crate::proofs::Longest::last_deletion_decides))]
pub fn last_deletion_decides()
    ensures { LastDeletionDecides }
{}

/// After the last flush a prefix has no rule, unless a later change is of that prefix.
#[tactic(auto, using(crate::proofs::Longest::last_flush_decides))]
pub fn last_flush_decides()
    ensures { LastFlushDecides }
{}

/// A map that is collected from the rules of one length has what the rules have of that length.
#[tactic(auto, using(crate::proofs::LengthMaps::of_length_law))]
pub fn collected_is_of_length()
    ensures { CollectedIsOfLength }
{}

/// The maps of all lengths, each collected from the rules of its length, have the rules.
#[tactic(auto, using(crate::proofs::LengthMaps::all_lengths))]
pub fn collected_are_the_rules()
    ensures { CollectedAreTheRules }
{}
