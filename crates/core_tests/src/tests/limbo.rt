ghost use Rattle.std.specs.Prelude.{◌≡◌};
ghost use Rattle.qsbr.specs.Counters.{IsChecked};
ghost use Rattle.defer_queue.specs.Longest.{TakesLongest};
ghost use Rattle.core_tests.specs.RetiredGroups.{AreRetired};

use super::asserts::assert_at;
use defer_queue::{DeferQueue, Grace, Reclaimed};
use lpm_limits::Busy;
use qsbr::Domain;
use std::alloc::Global;
use std::process::Abort;

// A table's part in a reclaim: its domain, and the token under which each group is retired, 0 for
// none.
#[derive(Drop)]
struct TablePart<'a> {
    domain: &'a Domain,
    tokens: &'a mut Vec<u64>,
}

impl Grace for TablePart<'_> {
    ghost use Rattle.std.specs.Prelude.{◌≡◌, ◌<◌, [], ◌∷◌, slice_index, slice_set};
    ghost use Rattle.qsbr.specs.Counters.{IsChecked};
    ghost use Rattle.defer_queue.specs.RetiredGroups.{IsAbsent};
    ghost use Rattle.core_tests.specs.RetiredGroups.{AreRetired};

    ghost lent = { λ s. s.tokens.ghost_name ∷ [] };

    ghost ready = { λ s items. AreRetired s.tokens.now.items items };

    ghost may_free = { λ s item rest. (0 < slice_index s.tokens.now.items item.0)
        × IsAbsent item.0 rest × AreRetired s.tokens.now.items rest };

    // No check of a domain changes what another one answers.
    ghost held = { λ s items. AreRetired s.tokens.now.items items };

    ghost checks = { λ s token r z. IsChecked token s.domain.now.counters r
        × (z.domain.now ≡ s.domain.now) × (z.tokens.now.items ≡ s.tokens.now.items) };

    ghost frees = { λ s group z. (z.domain.now ≡ s.domain.now)
        × (z.tokens.now.items ≡ slice_set s.tokens.now.items group 0) };

    fn check(&mut self, token: u64) -> Result<(), Busy> {
        self.domain.check(token)
    }

    fn free(&mut self, group: u32) {
        self.tokens[group as usize] = 0;
    }
}

// How many groups there are: the queue has a place for each.
const GROUPS: usize = 3;

// Retires the group under a new token, where that may be done.
fn give_up(domain: &mut Domain, queue: &mut DeferQueue, tokens: &mut Vec<u64>, group: u32) -> bool
    requires places { queue.old.capacity ≡ 3 }
    requires retired { AreRetired tokens.old.items queue.old.items }
    ensures places { queue.new.capacity ≡ 3 }
    ensures retired { AreRetired tokens.new.items queue.new.items }
    ensures counters { domain.new.counters ≡ domain.old.counters }
{
    let place = group as usize;
    let is_full = queue.len() == GROUPS;
    if domain.token() >= 1 << 62 || is_full || place >= tokens.len() || tokens[place] != 0 {
        return false;
    }
    let token = domain.start();
    tokens[place] = token;
    queue.retire(group, token);
    true
}

// Retires groups 0, 1 and so on, and says how many it did.
fn give_up_first(
    domain: &mut Domain,
    queue: &mut DeferQueue,
    tokens: &mut Vec<u64>,
    groups: u32,
) -> u32
    requires places { queue.old.capacity ≡ 3 }
    requires retired { AreRetired tokens.old.items queue.old.items }
    ensures places { queue.new.capacity ≡ 3 }
    ensures retired { AreRetired tokens.new.items queue.new.items }
    ensures counters { domain.new.counters ≡ domain.old.counters }
{
    for group in 0..groups {
        if !give_up(domain, queue, tokens, group) {
            return group;
        }
    }
    groups
}

// Retires groups 0, 1 and so on, as many as are wanted.
fn assert_first_given_up(
    rt: &impl Abort,
    domain: &mut Domain,
    queue: &mut DeferQueue,
    tokens: &mut Vec<u64>,
    groups: u32,
    wanted: u32,
)
    requires places { queue.old.capacity ≡ 3 }
    requires retired { AreRetired tokens.old.items queue.old.items }
    ensures retired { AreRetired tokens.new.items queue.new.items }
    ensures counters { domain.new.counters ≡ domain.old.counters }
{
    let retired = give_up_first(domain, queue, tokens, groups);
    assert_at(rt, ("retired of", groups), retired, wanted);
}

// A reclaim that remembers nothing.
fn reclaim_by(
    domain: &Domain,
    queue: &mut DeferQueue,
    tokens: &mut Vec<u64>,
    max: usize,
) -> Reclaimed
    requires { AreRetired tokens.old.items queue.old.items }
    ensures retired { AreRetired tokens.new.items queue.new.items }
    ensures longest { TakesLongest (λ token r. IsChecked token domain.now.counters r)
        max queue.old.items result.freed result.stopped }
{
    let mut grace = TablePart { domain, tokens };
    queue.reclaim(max, &mut grace)
}

// How many are freed, and what it stops at, by the definition.
fn reclaim_plainly(counters: [u64; 2], tokens: [u64; 3], max: usize) -> Reclaimed {
    let mut freed = 0;
    for token in tokens {
        if freed >= max {
            break;
        }
        for worker in 0..2 {
            let counter = counters[worker];
            if counter > 0 && counter < token {
                let stopped = Some(Busy { worker, counter });
                return Reclaimed { freed, stopped };
            }
        }
        freed += 1;
    }
    Reclaimed {
        freed,
        stopped: None,
    }
}

// The fronts of a queue of three, where none, one, two and all are freed.
static FRONTS: [Option<(u32, u64)>; 4] = [Some((0, 2)), Some((1, 3)), Some((2, 4)), None];

// A reclaim from a queue of three, under two workers with these counters.
fn assert_reclaimed(rt: &impl Abort, alloc: Global, counters: [u64; 2], max: usize) {
    let mut domain = Domain::new(alloc, 2, 1).expect(rt, "a domain");
    let mut queue = DeferQueue::new(alloc, GROUPS).expect(rt, "a queue");
    let mut tokens = vec![in alloc; 0u64; GROUPS].expect(rt, "tokens");
    assert_first_given_up(rt, &mut domain, &mut queue, &mut tokens, 3, 3);
    domain.set_counter(0, counters[0]);
    domain.set_counter(1, counters[1]);
    let reclaimed = reclaim_by(&domain, &mut queue, &mut tokens, max);
    let plainly = reclaim_plainly(counters, [2, 3, 4], max);
    let front = FRONTS.get(plainly.freed).copied();
    let found = (reclaimed, Some(queue.front()));
    assert_at(rt, (counters, max), found, (plainly, front));
}

#[test]
fn reclaims_by_the_definition(rt: HostRuntime) {
    for a in 0..5u64 {
        for b in 0..5u64 {
            for max in 0..5usize {
                assert_reclaimed(&rt, rt.alloc(), [a, b], max);
            }
        }
    }
}

// How many wait, and which is in front.
fn assert_waiting(rt: &impl Abort, queue: &DeferQueue, len: usize, front: Option<(u32, u64)>) {
    let found = (queue.len(), queue.front());
    assert_at(rt, "waiting", found, (len, front));
}

// A queue with room for two, until each place is taken.
#[test]
fn calls_of_a_queue(rt: HostRuntime) {
    let mut queue = DeferQueue::new(rt.alloc(), 2).expect(&rt, "a queue");
    assert_waiting(&rt, &queue, 0, None);
    queue.retire(7, 1);
    queue.retire(8, 1 << 62);
    assert_waiting(&rt, &queue, 2, Some((7, 1)));
    queue.take_front();
    queue.retire(9, 3);
    assert_waiting(&rt, &queue, 2, Some((8, 1 << 62)));
}

#[test]
fn a_queue_of_no_places(rt: HostRuntime) {
    let queue = DeferQueue::new(rt.alloc(), 0).expect(&rt, "a queue");
    assert_waiting(&rt, &queue, 0, None);
}
