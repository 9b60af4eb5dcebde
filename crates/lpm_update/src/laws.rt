//! What an upper layer needs of a change of a table: how it begins, goes on and ends, and what the words
//! answer meanwhile. Each function does nothing: its contract is the law. The statement is in
//! `specs/Laws.antt`, and an upper crate cites the proof in `proofs/Promises.antt`.

ghost use Rattle.lpm_update.specs.Laws.{RunBegins, RunGoesOn, RunEnds, NoWordTwice, NextStore, AnswersTurnOnce, BestIsLongest, BlankRepresents, LinkedAreDeep, TiedSame, TiedGone, TiedTaken};

/// A change that may begin has come as far as its beginning.
#[tactic(auto, using(crate::proofs::Promises::run_begins))]
pub fn run_begins()
    ensures { RunBegins }
{}

/// Each step takes a change further.
#[tactic(auto, using(crate::proofs::Promises::run_goes_on))]
pub fn run_goes_on()
    ensures { RunGoesOn }
{}

/// Where nothing is left to store, words that represented the old rule list represent the new one.
#[tactic(auto, using(crate::proofs::Promises::run_ends))]
pub fn run_ends()
    ensures { RunEnds }
{}

/// No two steps of a run store the same word.
#[tactic(auto, using(crate::proofs::Promises::no_word_twice))]
pub fn no_word_twice()
    ensures { NoWordTwice }
{}

/// The next store is of a word that a table may hold at its place. By it each address keeps its
/// entry, or goes from the old to the new one.
#[tactic(auto, using(crate::proofs::Promises::next_store))]
pub fn next_store()
    ensures { NextStore }
{}

/// An address keeps its entry, or goes from the old to the new one, and then keeps that.
#[tactic(auto, using(crate::proofs::Promises::answers_turn_once))]
pub fn answers_turn_once()
    ensures { AnswersTurnOnce }
{}

/// The next hop of the longest rule's entry is that of the longest match.
#[tactic(auto, using(crate::proofs::Promises::best_hop))]
pub fn best_is_longest()
    ensures { BestIsLongest }
{}

/// Words that are all misses represent the empty list.
pub fn blank_represents()
    ensures { BlankRepresents }
{}

/// As many groups are linked as there are blocks with a rule longer than `FIRST` bits.
#[tactic(auto, using(crate::proofs::Promises::linked_deep))]
pub fn linked_are_deep()
    ensures { LinkedAreDeep }
{}

/// Where each block has the same group, the states of the groups stay.
#[tactic(auto, using(crate::proofs::Promises::tied_same))]
pub fn tied_same()
    ensures { TiedSame }
{}

/// A group that a block gives up was linked to it, and may then be in any state but linked.
pub fn tied_gone()
    ensures { TiedGone }
{}

/// A group that is linked to no block is one that no block has, and may be linked to a block
/// without one.
pub fn tied_taken()
    ensures { TiedTaken }
{}
