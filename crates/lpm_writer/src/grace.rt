//! Checks of a token, whether some worker may still hold what was given up under it, and the groups that
//! are freed by them.

ghost use Rattle.std.specs.Prelude.{◌≡◌, ◌<◌, ◌≤◌, List, OnOk, OnErr};
ghost use Rattle.lpm_trace.specs.declared.step.WriterStep.{WriterStep};
ghost use Rattle.lpm_trace.specs.States.{InitialState};
ghost use Rattle.lpm_writer.specs.Commands.{ChecksBy};
ghost use Rattle.lpm_writer.specs.GroupsMatch.{MayLoadCounters};

use crate::Memory;
use defer_queue::Grace;
use lpm_groups::Groups;
use lpm_limits::Busy;
use qsbr::holds;

/// What a check of a token and a reclaim are made on: a memory, the groups, and the greatest token that
/// has passed.
#[derive(Drop)]
pub(crate) struct Reclaimer<'a, M> {
    pub(crate) memory: &'a mut M,
    pub(crate) groups: &'a mut Groups,
    pub(crate) passed: &'a mut u64,
}

impl<M: Memory> Grace for Reclaimer<'_, M> {
    ghost use Rattle.std.specs.Prelude.{◌≡◌, ⊤, [], ◌∷◌, slice_set};
    ghost use Rattle.lpm_groups.specs.declared.GroupState.TheVariants.{Free};
    ghost use Rattle.lpm_writer.specs.Commands.{ChecksBy, IsReclaimable, HasPassedFront};

    ghost lent = { λ s. s.memory.ghost_name ∷ s.groups.ghost_name ∷ s.passed.ghost_name ∷ [] };

    ghost ready = { λ s items.
        IsReclaimable M.did s.memory.now s.groups.now s.passed.now items };

    // the check of a synchronize
    ghost may_check = { λ s token. (c : InitialState) × (steps : List WriterStep)
        × M.did s.memory.now c steps × (s.passed.now < token → MayLoadCounters c steps token) };

    ghost may_free = { λ s item rest.
        HasPassedFront M.did s.memory.now s.groups.now s.passed.now item rest };

    // In an update the next check may come after the next unlinking alone.
    ghost held = { λ _ _. ⊤ };

    ghost checks = { λ s token r z.
        ChecksBy M.did M.does s.memory.now s.passed.now token r z.memory.now z.passed.now
        × (z.groups.now ≡ s.groups.now)
        × OnOk r (token ≤ z.passed.now)
        × OnErr r (z.passed.now ≡ s.passed.now) };

    ghost frees = { λ s group z. (z.memory.now ≡ s.memory.now) × (z.passed.now ≡ s.passed.now)
        × (z.groups.now ≡ slice_set s.groups.now group Free) };

    // The counters are loaded one after another, up to the first that holds the token. None is loaded
    // for a token that isn't above the greatest that has passed.
    fn check(&mut self, token: u64) -> Result<(), Busy> {
        let has_passed = token <= *self.passed;
        if has_passed {
            return Ok(());
        }
        for worker in 0..self.memory.counter_count() {
            let counter = self.memory.load_counter(token, worker);
            if holds(counter, token) {
                return Err(Busy { worker, counter });
            }
        }
        *self.passed = token;
        Ok(())
    }

    fn free(&mut self, group: u32) {
        self.groups.release(group);
    }
}
