// Runs in which one thing is wrong, which the slow program refuses.

use super::plan::{ONE_GROUP, TWO_GROUPS, assert_refused, judged, planned};
use interleave::Trace;
use lpm_limits::Config;
use lpm_rules::Change;
use lpm_trace::{Actor, Deed, Kind, Step};
use std::alloc::Global;
use std::process::Abort;
use std::test::Fail;
use test_support::plans::Plan;
use test_support::{Edit, hop, prefix};
use world_reference::JudgeError;

// What is wrong with a run.
#[derive(Clone, Copy, Debug)]
enum Fault {
    // The second step and the third stand in each other's place.
    StepsExchanged,
    // A lookup loads a first word that no one stored.
    AnotherWordLoaded,
    // Two stores into the words of the group stand in each other's place.
    StoresExchanged,
    // The sequence is stored where the token is due.
    SequenceForToken,
    // The first word links a group that was never filled, and the lookup loads that word.
    AnotherGroupLinked,
    // The last step is missing.
    StepDropped,
    // The last reply is missing.
    ReplyDropped,
    // The lookup isn't shown.
    LookupDropped,
    // The lookup is shown as one of the address behind it.
    AnotherAddress,
}

static FOUND: [(Fault, JudgeError); 9] = [
    (Fault::StepsExchanged, JudgeError::Schedule),
    (Fault::AnotherWordLoaded, JudgeError::Loads),
    (Fault::StoresExchanged, JudgeError::Stores),
    (Fault::SequenceForToken, JudgeError::Loads),
    (
        Fault::AnotherGroupLinked,
        JudgeError::Link {
            found: 1,
            wanted: Some(0),
        },
    ),
    (Fault::StepDropped, JudgeError::Deeds(0)),
    (Fault::ReplyDropped, JudgeError::Replies),
    (Fault::LookupDropped, JudgeError::Lookups(0)),
    (Fault::AnotherAddress, JudgeError::Lookups(0)),
];

static EDITS: [Edit; 2] = [Edit::Add(0x12, 8, 5), Edit::Delete(0x12, 8)];

static DEEDS: [Deed; 2] = [Deed::Online, Deed::Lookup(0x12)];

// The lookup loads the first word before the rule is deleted, and the second word after it.
static BURSTS: [(Actor, usize); 5] = [
    (Actor::Worker(0), 2),
    (Actor::Writer, 19),
    (Actor::Worker(0), 2),
    (Actor::Writer, 5),
    (Actor::Worker(0), 2),
];

// The values of all steps of this kind are greater by one.
fn raise(steps: &mut [Step], kind: Kind) {
    for place in 0..steps.len() {
        if steps[place].kind == kind {
            steps[place].value = steps[place].value.wrapping_add(1);
        }
    }
}

// The group of the first word that the update links, and of the same word where it is loaded, is the next.
fn link_another_group(steps: &mut [Step]) {
    for place in 0..steps.len() {
        let is_first = matches!(steps[place].kind, Kind::StoreFirst | Kind::LoadFirst);
        if is_first && steps[place].value != 0 {
            steps[place].value = steps[place].value.wrapping_add(1);
        }
    }
}

fn store_the_sequence_for_the_token(steps: &mut [Step]) {
    for place in 0..steps.len() {
        if steps[place].kind == Kind::BumpToken {
            steps[place].kind = Kind::BumpSequence;
        }
    }
}

// The step at this place, and the one before it, stand in each other's place.
pub(crate) fn exchange(steps: &mut [Step], place: usize) {
    if steps.len() > place && place > 0 {
        steps.swap(place - 1, place);
    }
}

fn plant(trace: &mut Trace, fault: Fault) {
    match fault {
        Fault::StepsExchanged => exchange(trace.steps.as_mut_slice(), 2),
        Fault::AnotherWordLoaded => raise(trace.steps.as_mut_slice(), Kind::LoadFirst),
        Fault::StoresExchanged => exchange(trace.steps.as_mut_slice(), 5),
        Fault::SequenceForToken => store_the_sequence_for_the_token(trace.steps.as_mut_slice()),
        Fault::AnotherGroupLinked => link_another_group(trace.steps.as_mut_slice()),
        Fault::StepDropped => {
            let _ = trace.steps.pop();
        }
        Fault::ReplyDropped => {
            let _ = trace.replies.pop();
        }
        Fault::LookupDropped => {
            let _ = trace.lookups.pop();
        }
        Fault::AnotherAddress => {
            if !trace.lookups.is_empty() {
                trace.lookups[0].addr = 0x13;
            }
        }
    }
}

// The run is accepted as it is, and with the fault it is refused for this reason.
fn assert_found(
    rt: &impl Abort,
    alloc: Global,
    fault: Fault,
    error: JudgeError,
) -> Result<(), Fail> {
    let plan = planned(rt, alloc, ONE_GROUP, &EDITS, &DEEDS, &BURSTS)?;
    let mut trace = judged(rt, alloc, 0, &plan)?;
    plant(&mut trace, fault);
    assert_refused(rt, fault, &plan, (alloc, &trace), error);
    Ok(())
}

#[test]
fn planted_faults_are_found(rt: HostRuntime) -> Result<(), Fail> {
    for (fault, error) in &FOUND {
        assert_found(&rt, rt.alloc(), *fault, *error)?;
    }
    Ok(())
}

// How a plan differs from the one that a run was made by.
#[derive(Clone, Copy, Debug)]
enum Other {
    // One more group may wait before some are reclaimed.
    Threshold,
    // The writer has one item more.
    Item,
    // The first rule is added with another next hop.
    Hop,
}

// Two groups, and one waits before some are reclaimed.
const ONE_WAITS: Config = Config {
    threshold: 0,
    ..TWO_GROUPS
};

static FOUR_EDITS: [Edit; 4] = [
    Edit::Add(0x12, 8, 5),
    Edit::Add(0x35, 8, 6),
    Edit::Delete(0x12, 8),
    Edit::Delete(0x35, 8),
];

// How many of the edits are made, with how many items of the writer, and why the other plan refuses that run.
static OTHERS: [(Other, usize, usize, JudgeError); 3] = [
    (
        Other::Threshold,
        4,
        49,
        JudgeError::Kind {
            found: Kind::LoadCounter,
            wanted: Kind::StoreSecond,
        },
    ),
    (Other::Item, 1, 10, JudgeError::Length),
    (Other::Hop, 1, 19, JudgeError::Writes),
];

fn change_plan(plan: &mut Plan<4, 4>, other: Other) -> Result<(), Fail> {
    match other {
        Other::Threshold => plan.config.threshold = 1,
        Other::Item => plan.schedule.push(Actor::Writer)?,
        Other::Hop => {
            plan.changes.clear();
            plan.changes.push(Change::Add(prefix(0x12, 8), hop(6)))?;
        }
    }
    Ok(())
}

// The run is accepted by its own plan, and refused for this reason by the other one.
fn assert_of_its_plan(
    rt: &impl Abort,
    alloc: Global,
    other: Other,
    bursts: &[(Actor, usize)],
    edits: &[Edit],
    error: JudgeError,
) -> Result<(), Fail> {
    let mut plan = planned(rt, alloc, ONE_WAITS, edits, &[Deed::Online], bursts)?;
    let trace = judged(rt, alloc, 0, &plan)?;
    change_plan(&mut plan, other)?;
    assert_refused(rt, other, &plan, (alloc, &trace), error);
    Ok(())
}

#[test]
fn runs_of_another_plan_are_found(rt: HostRuntime) -> Result<(), Fail> {
    for (other, edits, items, error) in &OTHERS {
        let bursts = [(Actor::Worker(0), 2), (Actor::Writer, *items)];
        let edits = &FOUR_EDITS[..*edits];
        assert_of_its_plan(&rt, rt.alloc(), *other, &bursts, edits, *error)?;
    }
    Ok(())
}
