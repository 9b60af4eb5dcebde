//! How far the writer has come: where each group stands, and what the writer has to do next.

use super::InitialState;
use std::alloc::{AllocError, Global};

/// Where a group stands.
#[derive(Clone, Copy, PartialEq, Eq)]
enum Standing {
    /// No first word was ever the group's.
    NeverLinked,
    /// A first word is the group's.
    Linked,
    /// It was unlinked, and waits under this token.
    Waits(u64),
}

/// A check of a token loads the counter of this worker next.
#[derive(Clone, Copy, PartialEq, Eq)]
struct NextLoad {
    token: u64,
    worker: u64,
}

/// What the writer has to do next.
#[derive(Clone, Copy, PartialEq, Eq)]
enum NextStep {
    /// Nothing that is fixed.
    Nothing,
    /// Raise the token, since its last step unlinked a group.
    Bump,
    /// Go on with a check.
    Check(NextLoad),
}

/// How far the writer has come.
#[derive(Drop)]
pub(crate) struct WriterProgress {
    /// How many workers there are.
    workers: u64,
    groups: Vec<Standing>,
    next_step: NextStep,
    /// The greatest token whose check has passed.
    passed: u64,
    /// The token that a synchronize waits for.
    awaited: Option<u64>,
    /// The update that runs has unlinked a group, and may reclaim.
    reclaims: bool,
    /// The free group that the update took.
    taken: Option<u64>,
}

/// What a store of a first word does to groups.
#[derive(Clone, Copy)]
pub(crate) struct Linking {
    /// The group that it unlinks.
    pub(crate) unlinked: Option<u32>,
    /// The group that it links.
    pub(crate) linked: Option<u32>,
    /// The token before it.
    pub(crate) token: u64,
}

/// The older of two tokens.
fn older(token: u64, other: Option<u64>) -> u64 {
    match other {
        Some(other) => token.min(other),
        None => token,
    }
}

impl WriterProgress {
    /// Before the first step no group was linked.
    pub(crate) fn new(alloc: Global, initial: &InitialState) -> Result<Self, AllocError> {
        let mut groups = Vec::new(alloc);
        for _group in 0..initial.groups {
            groups.push(Standing::NeverLinked)?;
        }
        Ok(WriterProgress {
            workers: initial.workers as u64,
            groups,
            next_step: NextStep::Nothing,
            passed: 0,
            awaited: None,
            reclaims: false,
            taken: None,
        })
    }

    /// Where a group stands, of those that there are.
    fn standing(&self, group: u64) -> Option<Standing> {
        let place = usize::try_from(group).ok()?;
        self.groups.get(place).copied()
    }

    /// The group stands elsewhere from now on.
    fn stand(&mut self, group: u64, standing: Standing) {
        if let Ok(place) = usize::try_from(group) {
            if let Some(old) = self.groups.get_mut(place) {
                *old = standing;
            }
        }
    }

    /// Whether a group was never linked, or a check of its token has passed since. Without workers
    /// each check passes.
    fn is_free(&self, group: u64) -> bool {
        match self.standing(group) {
            Some(Standing::NeverLinked) => true,
            Some(Standing::Waits(token)) => token <= self.passed || self.workers == 0,
            Some(Standing::Linked) | None => false,
        }
    }

    /// Whether nothing is fixed that comes next.
    fn is_at_leisure(&self) -> bool {
        self.next_step == NextStep::Nothing
    }

    /// Moves on by a store of a first word. Answers whether it may come next: it links no group but
    /// the free one that the update took.
    pub(crate) fn store_first(&mut self, linking: &Linking) -> bool {
        if !self.is_at_leisure() {
            return false;
        }
        if let Some(group) = linking.linked {
            let group = u64::from(group);
            if self.taken != Some(group) || !self.is_free(group) {
                return false;
            }
            self.stand(group, Standing::Linked);
        }
        if let Some(group) = linking.unlinked {
            let token = linking.token.saturating_add(1);
            self.stand(u64::from(group), Standing::Waits(token));
            self.next_step = NextStep::Bump;
        }
        self.reclaims = false;
        true
    }

    /// Moves on by a store of a word of this group. Answers whether it may come next: the group is
    /// linked, or it is the one free group that the update takes.
    pub(crate) fn store_second(&mut self, group: u64) -> bool {
        if !self.is_at_leisure() {
            return false;
        }
        self.reclaims = false;
        if self.standing(group) == Some(Standing::Linked) {
            return true;
        }
        if !self.is_free(group) {
            return false;
        }
        let is_only = self.taken.is_none() || self.taken == Some(group);
        self.taken = Some(group);
        is_only
    }

    /// Whether a group that the update took is linked by now.
    fn has_linked_its_own(&self) -> bool {
        match self.taken {
            Some(group) => self.standing(group) == Some(Standing::Linked),
            None => true,
        }
    }

    /// Moves on by a step that raises the sequence. Answers whether it may come next: an update that
    /// ends has linked the group that it took.
    pub(crate) fn bump_sequence(&mut self) -> bool {
        let is_allowed = self.is_at_leisure() && self.has_linked_its_own();
        self.reclaims = false;
        self.taken = None;
        is_allowed
    }

    /// Moves on by a step that raises the token to this one. Answers whether it may come next:
    /// directly after an unlinking; else it is a synchronize's, which comes between updates and
    /// checks the token next.
    pub(crate) fn bump_token(&mut self, updating: bool, token: u64) -> bool {
        match self.next_step {
            NextStep::Bump => {
                self.next_step = NextStep::Nothing;
                self.reclaims = true;
                true
            }
            NextStep::Check(_) => false,
            NextStep::Nothing => {
                if self.workers > 0 {
                    self.awaited = Some(token);
                    self.next_step = NextStep::Check(NextLoad { token, worker: 0 });
                }
                !updating
            }
        }
    }

    /// The oldest token under which a group waits and whose check hasn't passed.
    fn oldest_waiting(&self) -> Option<u64> {
        let mut oldest = None;
        for standing in &self.groups {
            if let Standing::Waits(token) = standing {
                if *token > self.passed {
                    oldest = Some(older(*token, oldest));
                }
            }
        }
        oldest
    }

    /// What a check loads next, where this is the token: it goes on, or a reclaim begins one of the
    /// oldest token; in an update that is after an unlinking, and not of the group just unlinked.
    fn next_load(&self, updating: bool, token: u64) -> Option<NextLoad> {
        match self.next_step {
            NextStep::Check(next) => Some(next),
            NextStep::Bump => None,
            NextStep::Nothing => {
                let oldest = self.oldest_waiting()?;
                if updating && (!self.reclaims || oldest >= token) {
                    return None;
                }
                let (token, worker) = (oldest, 0);
                Some(NextLoad { token, worker })
            }
        }
    }

    /// Moves on where a worker lets the token of a check pass.
    fn pass(&mut self, next: NextLoad) {
        let worker = next.worker.saturating_add(1);
        if worker < self.workers {
            self.next_step = NextStep::Check(NextLoad { worker, ..next });
            return;
        }
        self.passed = self.passed.max(next.token);
        self.awaited = None;
        self.next_step = NextStep::Nothing;
    }

    /// Moves on where a worker stops a check: a synchronize checks again, and a reclaim ends.
    fn stop(&mut self) {
        match self.awaited {
            Some(token) => self.next_step = NextStep::Check(NextLoad { token, worker: 0 }),
            None => {
                self.next_step = NextStep::Nothing;
                self.reclaims = false;
            }
        }
    }

    /// Moves on by a load of a worker's counter, where this is the token. Answers whether it may come
    /// next.
    pub(crate) fn load_counter(
        &mut self,
        updating: bool,
        token: u64,
        worker: u64,
        counter: u64,
    ) -> bool {
        let Some(next) = self.next_load(updating, token) else {
            return false;
        };
        if counter == 0 || next.token <= counter {
            self.pass(next);
        } else {
            self.stop();
        }
        next.worker == worker
    }
}
