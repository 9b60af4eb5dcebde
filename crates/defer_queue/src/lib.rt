//! The retired groups of a table, which wait until no reader can hold them any more.
#![tactic(auto)]

ghost use Rattle.std.specs.Prelude.{◌≡◌, ℕ, ◌+◌, ◌<◌, ◌≤◌, ◌==◌, List, [], ◌∷◌, ◌++◌, ◌⊎◌, length, drop, slice_get, IfOk, OnOk, OnErr, MatchOption, Result};
ghost use Rattle.lpm_limits.specs.declared.busy.Busy.{Busy};
ghost use Rattle.defer_queue.specs.Reclaims.{Reclaims};

use circular_buffer::HeapCircularBuffer;
use lpm_limits::Busy;
use std::alloc::{AllocError, Global};
use std::marker::Model;

/// What a reclaim asks of its caller: a check of tokens, and a place for the groups that are free
/// again.
///
/// An implementation says by `ready` which items it can check and free, and in which order; by
/// `may_check` which token it can check besides; by `may_free` when it takes a group back; by `held`
/// what it knows where a check has failed; and by `checks` and `frees` what its calls did.
pub trait Grace {
    // The ghost names of the references that it holds, which no call changes.
    ghost lent: { Self → List ℕ } = { λ _. [] };

    // These items, each a group and its token, may be checked and freed in this order.
    ghost ready: { Self → List (ℕ × ℕ) → Type 0 };

    // The token may be checked besides, though no such item is next.
    ghost may_check: { Self → ℕ → Type 0 } = { λ _ _. ⊥ };

    // The item has passed its check: its group may be freed now, and these items come after it.
    ghost may_free: { Self → ℕ × ℕ → List (ℕ × ℕ) → Type 0 };

    // These items are left where the check of the first has failed.
    ghost held: { Self → List (ℕ × ℕ) → Type 0 };

    // A check of the token gave this answer and led to the second state.
    ghost checks: { Self → ℕ → Result (Unit {0}) Busy → Self → Type 0 };

    // To free the group led to the second state.
    ghost frees: { Self → ℕ → Self → Type 0 };

    /// Whether every worker has left the token behind; else a worker that holds it.
    ///
    /// It is asked of the token of an item that is next in order, and where `may_check` allows it.
    fn check(&mut self, token: u64) -> Result<(), Busy>
        requires { ((group : ℕ) × (rest : List (ℕ × ℕ)) × ready self.old ((group, token) ∷ rest))
            ⊎ may_check self.old token }
        ensures checks { checks self.old token result self.new }
        ensures lent { lent self.new ≡ lent self.old }
        ensures passed { OnOk result ((group : ℕ) (rest : List (ℕ × ℕ)) →
            ready self.old ((group, token) ∷ rest) → may_free self.new (group, token) rest) }
        ensures held { OnErr result ((group : ℕ) (rest : List (ℕ × ℕ)) →
            ready self.old ((group, token) ∷ rest) → held self.new ((group, token) ∷ rest)) };

    /// The group is free again.
    ///
    /// It is asked of the group whose item has just passed its check.
    fn free(&mut self, group: u32)
        requires { (token : ℕ) × (rest : List (ℕ × ℕ)) × may_free self.old (group, token) rest }
        ensures frees { frees self.old group self.new }
        ensures lent { lent self.new ≡ lent self.old }
        ensures ready { (token : ℕ) (rest : List (ℕ × ℕ)) →
            may_free self.old (group, token) rest → ready self.new rest };
}

/// What a reclaim did.
#[derive(Clone, Copy, Debug, PartialEq, Eq)]
pub struct Reclaimed {
    /// How many groups it freed.
    pub freed: usize,
    /// The worker that holds the item at which it stopped; none where it freed as many as it may,
    /// or all.
    pub stopped: Option<Busy>,
}

/// Groups with the tokens under which they were retired, from the oldest to the newest.
#[derive(Debug, Drop)]
pub struct DeferQueue {
    items: HeapCircularBuffer<(u32, u64)>,
}

impl Model for DeferQueue {
    ghost use Rattle.std.specs.Prelude.{length, ◌≤◌};
    ghost use Rattle.defer_queue.specs.Limbo.{Limbo};

    ghost Value = { Limbo };

    ghost view = { λ q. record { items = q.items.items; capacity = q.items.capacity } };

    ghost invariant = { λ q. length q.items.items ≤ q.items.capacity };
}

impl DeferQueue {
    /// An empty queue with room for so many groups.
    pub fn new(alloc: Global, capacity: usize) -> Result<Self, AllocError>
        ensures { IfOk result (λ q. q ≡ record { items = []; capacity = capacity }) }
    {
        let items = HeapCircularBuffer::with_capacity(alloc, capacity)?;
        Ok(DeferQueue { items })
    }

    /// The number of groups in it.
    pub fn len(&self) -> usize
        ensures len { result ≡ length self.now.items }
        ensures within { result ≤ self.now.capacity }
    {
        self.items.len()
    }

    /// Puts a group last, with the token that was started after it was given up. There has to be
    /// room.
    pub fn retire(&mut self, group: u32, token: u64)
        requires { length self.old.items < self.old.capacity }
        ensures { self.new ≡ record self.old { items = self.old.items ++ (group, token) ∷ [] } }
    {
        self.items.push_back((group, token));
    }

    /// The oldest group and its token.
    pub fn front(&self) -> Option<(u32, u64)>
        ensures value { result ≡ slice_get self.now.items 0 }
        ensures rest { MatchOption result (self.now.items ≡ [])
            (λ item. self.now.items ≡ item ∷ drop 1 self.now.items) }
    {
        self.items.front().copied()
    }

    /// Removes the oldest group. There has to be one.
    pub fn take_front(&mut self)
        requires { 0 < length self.old.items }
        ensures { self.new ≡ record self.old { items = drop 1 self.old.items } }
    {
        self.items.pop_front();
    }

    /// Frees groups from the oldest on, at most `max`, each after its token has passed a check. It
    /// ends at the first check that fails, whose group stays in the queue with all behind it.
    pub fn reclaim<G: Grace>(&mut self, max: usize, grace: &mut G) -> Reclaimed
        requires { G.ready grace.old self.old.items }
        ensures reclaims { Reclaims (λ s item. G.checks s item.1) (λ s item. G.frees s item.0)
            max self.old.items grace.old result.freed result.stopped self.new.items grace.new }
        ensures left { self.new ≡ record self.old { items = drop result.freed self.old.items } }
        ensures ready { MatchOption result.stopped
            (G.ready grace.new self.new.items) (λ _. G.held grace.new self.new.items) }
        ensures lent { G.lent grace.new ≡ G.lent grace.old }
    {
        let mut freed = 0;
        while freed < max {
            let Some((group, token)) = self.front() else {
                break;
            };
            if let Err(busy) = grace.check(token) {
                return Reclaimed {
                    freed,
                    stopped: Some(busy),
                };
            }
            self.take_front();
            grace.free(group);
            freed += 1;
        }
        Reclaimed {
            freed,
            stopped: None,
        }
    }
}
