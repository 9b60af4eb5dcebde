ghost use Rattle.std.specs.Prelude.{◌≡◌};

use super::asserts::assert_at;
use lpm_groups::{Counts, GroupState, Groups};
use std::process::Abort;
use test_support::draw;

// Each call below is made beside a list of the states, and its contract says that the list keeps up with the groups.

// Links the least free group to the block, and returns its number.
fn take(groups: &mut Groups, states: &mut [GroupState], block: usize) -> Option<u32>
    requires same { states.old ≡ groups.old }
    ensures same { states.new ≡ groups.new }
{
    let group = groups.take_least(block)?;
    states[group as usize] = GroupState::Linked(block);
    Some(group)
}

// Moves a group on, as far as its state lets it: a linked one is retired, one in limbo released.
fn move_on(groups: &mut Groups, states: &mut [GroupState], group: u32)
    requires same { states.old ≡ groups.old }
    ensures same { states.new ≡ groups.new }
{
    let place = group as usize;
    match states.get(place).copied() {
        Some(GroupState::Linked(_)) => {
            groups.retire(group);
            states[place] = GroupState::Limbo;
        }
        Some(GroupState::Limbo) => {
            groups.release(group);
            states[place] = GroupState::Free;
        }
        _ => {}
    }
}

// A call, and what comes of it.
#[derive(Clone, Copy)]
enum Call {
    // The group that is taken for this block.
    Take(usize, Option<u32>),
    Move(u32),
}

// A call, and then the groups in use, in limbo and free.
type Row = (Call, usize, usize, usize);

fn assert_call(rt: &impl Abort, groups: &mut Groups, states: &mut [GroupState], call: Call)
    requires same { states.old ≡ groups.old }
    ensures same { states.new ≡ groups.new }
{
    match call {
        Call::Take(block, taken) => assert_at(rt, block, take(groups, states, block), taken),
        Call::Move(group) => move_on(groups, states, group),
    }
}

fn assert_counts(rt: &impl Abort, groups: &Groups, counts: Counts) {
    assert_at(rt, "counts", groups.counts(), counts);
}

// The calls one after another, over groups of these states.
fn assert_calls(rt: &impl Abort, groups: &mut Groups, states: &mut [GroupState], rows: &[Row])
    requires same { states.old ≡ groups.old }
{
    assert_at(rt, "groups", groups.len(), states.len());
    for (call, in_use, limbo, free) in rows {
        assert_call(rt, groups, states, *call);
        let counts = Counts {
            in_use: *in_use,
            limbo: *limbo,
            free: *free,
        };
        assert_counts(rt, groups, counts);
    }
}

static ONE_GROUP: [Row; 6] = [
    (Call::Take(7, Some(0)), 1, 0, 0),
    (Call::Take(8, None), 1, 0, 0),
    (Call::Move(0), 0, 1, 0),
    (Call::Take(9, None), 0, 1, 0),
    (Call::Move(0), 0, 0, 1),
    (Call::Take(10, Some(0)), 1, 0, 0),
];

#[test]
fn one_group_through_its_states(rt: HostRuntime) {
    let mut groups = Groups::new(rt.alloc(), 1).expect(&rt, "memory");
    let counts = Counts {
        in_use: 0,
        limbo: 0,
        free: 1,
    };
    assert_counts(&rt, &groups, counts);
    let mut states = [GroupState::Free];
    assert_calls(&rt, &mut groups, &mut states, &ONE_GROUP);
}

#[test]
fn no_group_at_all(rt: HostRuntime) {
    let mut groups = Groups::new(rt.alloc(), 0).expect(&rt, "memory");
    assert_calls(&rt, &mut groups, &mut [], &[(Call::Take(0, None), 0, 0, 0)]);
}

// Two groups that are linked from the beginning, and one behind them.
static OF_BLOCKS: [Row; 5] = [
    (Call::Take(9, Some(2)), 3, 0, 0),
    (Call::Take(4, None), 3, 0, 0),
    (Call::Move(1), 2, 1, 0),
    (Call::Move(1), 2, 0, 1),
    (Call::Take(4, Some(1)), 3, 0, 0),
];

#[test]
fn first_groups_of_these_blocks(rt: HostRuntime) {
    let mut groups = Groups::of_blocks(rt.alloc(), &[7, 5], 3).expect(&rt, "memory");
    let counts = Counts {
        in_use: 2,
        limbo: 0,
        free: 1,
    };
    assert_counts(&rt, &groups, counts);
    let mut states = [
        GroupState::Linked(7),
        GroupState::Linked(5),
        GroupState::Free,
    ];
    assert_calls(&rt, &mut groups, &mut states, &OF_BLOCKS);
}

fn counts_plainly(states: &[GroupState]) -> Counts {
    let (mut in_use, mut limbo, mut free) = (0usize, 0usize, 0usize);
    for state in states {
        match state {
            GroupState::Free => free = free.saturating_add(1),
            GroupState::Linked(_) => in_use = in_use.saturating_add(1),
            GroupState::Limbo => limbo = limbo.saturating_add(1),
        }
    }
    Counts {
        in_use,
        limbo,
        free,
    }
}

// How many groups the run is over.
const GROUPS: u32 = 40;

fn least_free(states: &[GroupState]) -> Option<u32> {
    for group in 0..GROUPS {
        if states.get(group as usize).copied() == Some(GroupState::Free) {
            return Some(group);
        }
    }
    None
}

fn call_many(rt: &impl Abort, groups: &mut Groups, states: &mut [GroupState])
    requires same { states.old ≡ groups.old }
{
    let mut seed = 1;
    for call in 0..3000usize {
        let drawn = draw(&mut seed) % GROUPS;
        let next = if draw(&mut seed) % 2 == 0 {
            Call::Take(call, least_free(states))
        } else {
            Call::Move(drawn)
        };
        assert_call(rt, groups, states, next);
        assert_counts(rt, groups, counts_plainly(states));
    }
}

// A run of 3,000 calls over 40 groups, beside a list that each call scans from its first group.
#[test]
fn run_beside_a_scanned_list(rt: HostRuntime) {
    let mut groups = Groups::new(rt.alloc(), GROUPS as usize).expect(&rt, "memory");
    let mut states = [GroupState::Free; GROUPS as usize];
    call_many(&rt, &mut groups, &mut states);
}
