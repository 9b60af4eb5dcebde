//! Traces that were written by hand, which every decider accepts, and planted faults in them, each of which
//! its decider refuses.

use super::asserts::{WORKER, WRITER, assert_at};
use lpm_trace::{Deed, Kind, Step};
use std::alloc::{AllocError, Global};
use std::process::Abort;
use test_support::words::GROUP;
use world_reference::{
    FinishedLookup, InitialState, PlainRule, Versions, deeds_are_done, deeds_are_sound, is_legal,
    loads_are_stores, lookups, never_falls, reuse_is_lawful, writes_in_order,
};

/// A trace, and what it is a trace of: what it begins with, and the rules of each version.
#[derive(Clone, Copy)]
struct Subject {
    initial: InitialState,
    versions: &'static [&'static [PlainRule]],
    steps: &'static [Step],
}

/// A fault to be planted in a trace, at the step of a number.
#[derive(Clone, Copy)]
enum Fault {
    /// None: the trace is whole.
    None,
    /// The step has another value.
    Value(usize, u64),
    /// The step has another index.
    Index(usize, u64),
    /// Two steps stand in each other's place.
    Swapped(usize, usize),
    /// The step is left out.
    LeftOut(usize),
    /// The steps are left out.
    AllLeftOut(&'static [usize]),
    /// The trace ends with the step.
    End(usize),
}

/// Who decides about a trace.
#[derive(Clone, Copy)]
enum Decider {
    Loads,
    /// That a worker's steps are those of its deeds.
    Deeds(usize, &'static [Deed]),
    Writes,
    Reuse,
}

/// A decider, and faults in a trace of which it has to say the same.
type Row = (Decider, &'static [Fault]);

/// The steps without those of these numbers.
fn without(alloc: Global, steps: &[Step], numbers: &[usize]) -> Result<Vec<Step>, AllocError> {
    let mut rest = Vec::new(alloc);
    for (earlier, step) in steps.iter().enumerate() {
        if !numbers.contains(&earlier.saturating_add(1)) {
            rest.push(*step)?;
        }
    }
    Ok(rest)
}

/// Plants a fault that leaves as many steps.
fn plant(steps: &mut [Step], fault: Fault) {
    match fault {
        Fault::Value(number, value) => {
            if let Some(step) = steps.get_mut(number.saturating_sub(1)) {
                step.value = value;
            }
        }
        Fault::Index(number, index) => {
            if let Some(step) = steps.get_mut(number.saturating_sub(1)) {
                step.index = index;
            }
        }
        Fault::Swapped(one, other) => {
            let (one, other) = (one.saturating_sub(1), other.saturating_sub(1));
            if one < steps.len() && other < steps.len() {
                steps.swap(one, other);
            }
        }
        _ => {}
    }
}

/// The steps with the fault.
fn with_fault(alloc: Global, steps: &[Step], fault: Fault) -> Result<Vec<Step>, AllocError> {
    match fault {
        Fault::LeftOut(number) => without(alloc, steps, &[number]),
        Fault::AllLeftOut(numbers) => without(alloc, steps, numbers),
        Fault::End(number) => Vec::from_slice(alloc, steps.get(..number).unwrap_or(&[])),
        _ => {
            let mut changed = Vec::from_slice(alloc, steps)?;
            plant(changed.as_mut_slice(), fault);
            Ok(changed)
        }
    }
}

fn versions_of(alloc: Global, subject: &Subject) -> Result<Versions, AllocError> {
    let mut versions = Vec::new(alloc);
    for rules in subject.versions {
        versions.push(Vec::from_slice(alloc, rules)?)?;
    }
    Ok(versions)
}

fn are_in_order(alloc: Global, subject: &Subject, steps: &[Step]) -> Result<bool, AllocError> {
    let versions = versions_of(alloc, subject)?;
    writes_in_order(alloc, &subject.initial, &versions, steps)
}

/// Whether the decider accepts the steps.
fn accepts(
    alloc: Global,
    subject: &Subject,
    decider: Decider,
    steps: &[Step],
) -> Result<bool, AllocError> {
    let initial = &subject.initial;
    match decider {
        Decider::Loads => Ok(loads_are_stores(initial, steps)),
        Decider::Deeds(worker, deeds) => deeds_are_done(alloc, initial, steps, worker, deeds),
        Decider::Writes => are_in_order(alloc, subject, steps),
        Decider::Reuse => Ok(reuse_is_lawful(initial, steps)),
    }
}

/// Whether the decider accepts the trace with the fault.
fn accepts_with(
    alloc: Global,
    subject: &Subject,
    decider: Decider,
    fault: Fault,
) -> Result<bool, AllocError> {
    let steps = with_fault(alloc, subject.steps, fault)?;
    accepts(alloc, subject, decider, &steps)
}

/// Whether each of these deciders accepts the trace with the fault.
fn all_accept(
    alloc: Global,
    subject: &Subject,
    deciders: &[Decider],
    fault: Fault,
) -> Result<bool, AllocError> {
    for decider in deciders {
        if !accepts_with(alloc, subject, *decider, fault)? {
            return Ok(false);
        }
    }
    Ok(true)
}

/// With each of these faults, the trace is accepted by the row's decider, or refused.
fn assert_row(rt: &impl Abort, alloc: Global, subject: &Subject, row: (usize, Row), wanted: bool) {
    let (place, (decider, faults)) = row;
    for (number, fault) in faults.iter().enumerate() {
        let found = accepts_with(alloc, subject, decider, *fault).expect(rt, "memory");
        assert_at(rt, (place, number), found, wanted);
    }
}

fn assert_rows(rt: &impl Abort, alloc: Global, subject: &Subject, rows: &[Row], wanted: bool) {
    for (place, row) in rows.iter().enumerate() {
        assert_row(rt, alloc, subject, (place, *row), wanted);
    }
}

/// Four addresses, in two blocks of two, one group and one worker.
const SMALL: InitialState = InitialState {
    first: 1,
    second: 1,
    groups: 1,
    workers: 1,
    first_token: 1,
};

/// The word of next hop 5, of a prefix of two bits.
const FIVE: u64 = 0x0900_0005;

/// The word of next hop 7, of a prefix of two bits.
const SEVEN: u64 = 0x0900_0007;

/// The rule of address 0, and that of address 2.
const OF_ZERO: PlainRule = PlainRule {
    bits: 0,
    len: 2,
    hop: 5,
};

const OF_TWO: PlainRule = PlainRule {
    bits: 2,
    len: 2,
    hop: 7,
};

/// The deeds of the worker.
const DEEDS: &[Deed] = &[
    Deed::Online,
    Deed::Lookup(0),
    Deed::Quiescent,
    Deed::Lookup4([2, 0, 3, 1]),
    Deed::Offline,
    Deed::Meet,
];

/// A step: who makes it, its kind, the index and the value.
macro_rules! step {
    ($actor:expr, $kind:ident, $index:expr, $value:expr) => {
        Step {
            actor: $actor,
            kind: Kind::$kind,
            index: $index,
            value: $value,
        }
    };
}

mod two_workers;

/// The trace of one worker.
const GOOD: &[Step] = &[
    // The writer adds the rule of address 0, which takes the group; steps 1 to 4. The worker comes
    // online and begins a lookup of address 0; steps 5 to 8. The writer deletes the rule, which unlinks
    // the group; steps 9 to 12. The worker ends its lookup; steps 13 and 14.
    step!(WRITER, BumpSequence, 0, 1),
    step!(WRITER, StoreSecond, 0, FIVE),
    step!(WRITER, StoreFirst, 0, GROUP),
    step!(WRITER, BumpSequence, 0, 2),
    step!(WORKER, LoadToken, 0, 1),
    step!(WORKER, StoreCounter, 0, 1),
    step!(WORKER, LoadSequence, 0, 2),
    step!(WORKER, LoadFirst, 0, GROUP),
    step!(WRITER, BumpSequence, 0, 3),
    step!(WRITER, StoreFirst, 0, 0),
    step!(WRITER, BumpToken, 0, 2),
    step!(WRITER, BumpSequence, 0, 4),
    step!(WORKER, LoadSecond, 0, FIVE),
    step!(WORKER, LoadSequence, 0, 4),
    // A reclaim is stopped by the worker; step 15. It reports a quiescent state; steps 16 and 17. The
    // next check passes; step 18. The writer adds the rule of address 2, which takes the group again;
    // steps 19 to 22.
    step!(WRITER, LoadCounter, 0, 1),
    step!(WORKER, LoadToken, 0, 2),
    step!(WORKER, StoreCounter, 0, 2),
    step!(WRITER, LoadCounter, 0, 2),
    step!(WRITER, BumpSequence, 0, 5),
    step!(WRITER, StoreSecond, 0, SEVEN),
    step!(WRITER, StoreFirst, 1, GROUP),
    step!(WRITER, BumpSequence, 0, 6),
    // The worker looks up all four addresses; steps 23 to 30. It goes offline and meets the writer;
    // steps 31 and 32.
    step!(WORKER, LoadSequence, 0, 6),
    step!(WORKER, LoadFirst, 1, GROUP),
    step!(WORKER, LoadFirst, 0, 0),
    step!(WORKER, LoadFirst, 1, GROUP),
    step!(WORKER, LoadFirst, 0, 0),
    step!(WORKER, LoadSecond, 0, SEVEN),
    step!(WORKER, LoadSecond, 1, 0),
    step!(WORKER, LoadSequence, 0, 6),
    step!(WORKER, StoreCounter, 0, 0),
    step!(WORKER, LoadSequence, 0, 6),
];

static ONE_WORKER: Subject = Subject {
    initial: SMALL,
    versions: &[&[], &[OF_ZERO], &[], &[OF_TWO]],
    steps: GOOD,
};

static ACCEPTED: [Row; 4] = [
    (Decider::Loads, &[Fault::None]),
    // The whole trace, the one without its last step, and its beginning.
    (
        Decider::Deeds(0, DEEDS),
        &[Fault::None, Fault::End(31), Fault::End(14)],
    ),
    (Decider::Writes, &[Fault::None]),
    (
        Decider::Reuse,
        &[Fault::None, Fault::AllLeftOut(&[5, 6, 16, 17])],
    ),
];

static REFUSED: [Row; 7] = [
    // Loads of what was not stored.
    (
        Decider::Loads,
        &[
            Fault::Value(13, SEVEN),
            Fault::Value(5, 2),
            Fault::Value(15, 2),
            Fault::Value(14, 3),
            Fault::Value(12, 5),
            Fault::Value(11, 3),
        ],
    ),
    // Words that there are not.
    (
        Decider::Loads,
        &[
            Fault::Index(3, 2),
            Fault::Index(2, 2),
            Fault::Index(1, 1),
            Fault::Index(6, 1),
            Fault::Index(15, 1),
        ],
    ),
    // Deeds that were not done.
    (
        Decider::Deeds(0, DEEDS),
        &[Fault::Value(17, 1), Fault::Index(13, 1), Fault::LeftOut(14)],
    ),
    (Decider::Deeds(0, &[Deed::Online]), &[Fault::None]),
    // Stores out of order.
    (
        Decider::Writes,
        &[
            Fault::Swapped(2, 3),
            Fault::Swapped(3, 4),
            Fault::Value(2, SEVEN),
            Fault::Value(10, SEVEN),
            Fault::Value(2, GROUP),
            Fault::Value(2, 1),
        ],
    ),
    // Tokens and checks out of order.
    (
        Decider::Writes,
        &[
            Fault::LeftOut(11),
            Fault::Swapped(10, 11),
            Fault::Swapped(11, 12),
            Fault::LeftOut(18),
            Fault::Value(18, 1),
            Fault::Index(15, 1),
        ],
    ),
    // Reuse within a reader interval.
    (
        Decider::Reuse,
        &[Fault::AllLeftOut(&[16, 17]), Fault::Swapped(16, 20)],
    ),
];

#[test]
fn a_trace_of_one_worker(rt: HostRuntime) {
    assert_rows(&rt, rt.alloc(), &ONE_WORKER, &ACCEPTED, true);
    assert_rows(&rt, rt.alloc(), &ONE_WORKER, &REFUSED, false);
}

// An update that leaves the rules as they are may store nothing; but a free group that it fills it links
// before it ends.
static NEVER_LINKED: Subject = Subject {
    initial: SMALL,
    versions: &[&[], &[]],
    steps: &[
        step!(WRITER, BumpSequence, 0, 1),
        step!(WRITER, StoreSecond, 0, FIVE),
        step!(WRITER, BumpSequence, 0, 2),
    ],
};

static MAY_LACK: [Row; 1] = [(Decider::Writes, &[Fault::LeftOut(2), Fault::LeftOut(3)])];

static IS_FILLED: [Row; 1] = [(Decider::Writes, &[Fault::None])];

#[test]
fn a_group_that_is_filled_and_never_linked(rt: HostRuntime) {
    assert_rows(&rt, rt.alloc(), &NEVER_LINKED, &MAY_LACK, true);
    assert_rows(&rt, rt.alloc(), &NEVER_LINKED, &IS_FILLED, false);
}

/// The deciders of steps, of the worker and the writer.
static OF_STEPS: [Decider; 3] = [Decider::Loads, Decider::Deeds(0, DEEDS), Decider::Writes];

// These deciders accept the trace with this fault at the step of this number, or one of them doesn't.
fn assert_all(
    rt: &impl Abort,
    alloc: Global,
    subject: &Subject,
    deciders: &[Decider],
    fault: (usize, Fault),
    wanted: bool,
) {
    let (number, fault) = fault;
    let found = all_accept(alloc, subject, deciders, fault).expect(rt, "memory");
    assert_at(rt, ("step", number), found, wanted);
}

fn assert_steps(rt: &impl Abort, alloc: Global, number: usize, fault: Fault, wanted: bool) {
    assert_all(rt, alloc, &ONE_WORKER, &OF_STEPS, (number, fault), wanted);
}

// Each step with another value, at another index and left out. The check that was stopped and the last step
// may be left out, and no other step.
fn assert_changed(rt: &impl Abort, alloc: Global, number: usize, step: &Step) {
    let value = Fault::Value(number, step.value.saturating_add(1));
    let index = Fault::Index(number, step.index.saturating_add(1));
    let may_be_left_out = number == 15 || number == 32;
    assert_steps(rt, alloc, number, value, false);
    assert_steps(rt, alloc, number, index, false);
    assert_steps(rt, alloc, number, Fault::LeftOut(number), may_be_left_out);
}

#[test]
fn each_step_changed(rt: HostRuntime) {
    for (earlier, step) in ONE_WORKER.steps.iter().enumerate() {
        assert_changed(&rt, rt.alloc(), earlier.saturating_add(1), step);
    }
}

#[test]
fn deeds_that_can_be_done(rt: HostRuntime) {
    let whole = deeds_are_sound(&SMALL, DEEDS);
    let offline = deeds_are_sound(&SMALL, &[Deed::Lookup(0)]);
    let past_addresses = deeds_are_sound(&SMALL, &[Deed::Online, Deed::Lookup(4)]);
    let found = [whole, offline, past_addresses];
    assert_at(&rt, "sound", found, [true, false, false]);
}

// The address, the next hop, the first and the last step of the reads, `lo` and `hi`.
type FinishedRow = (u32, Option<u32>, usize, usize, u64, u64);

fn finished(looked: &FinishedRow) -> FinishedLookup {
    let (addr, hop, first, last, lo, hi) = *looked;
    FinishedLookup {
        addr,
        hop,
        first,
        last,
        lo,
        hi,
    }
}

/// The lookups of the whole trace.
static LOOKED: [FinishedRow; 5] = [
    (0, Some(5), 8, 13, 1, 2),
    (2, Some(7), 24, 28, 3, 3),
    (0, None, 25, 25, 3, 3),
    (3, None, 26, 29, 3, 3),
    (1, None, 27, 27, 3, 3),
];

/// Answers of no version that stood.
static WRONG: [FinishedRow; 5] = [
    (0, Some(7), 8, 13, 1, 2),
    (2, None, 24, 28, 3, 3),
    (0, Some(5), 25, 25, 1, 3),
    (0, Some(5), 8, 13, 2, 2),
    (0, None, 8, 13, 1, 1),
];

/// A version that stood, though not at these reads.
static LATE: [FinishedRow; 1] = [(0, Some(5), 11, 13, 1, 2)];

#[test]
fn lookups_of_the_trace(rt: HostRuntime) {
    let found = lookups(rt.alloc(), &SMALL, ONE_WORKER.steps, 0, DEEDS).expect(&rt, "memory");
    assert_at(&rt, "lookups", found.len(), LOOKED.len());
    for (place, looked) in LOOKED.iter().enumerate() {
        assert_at(
            &rt,
            place,
            found.get(place).copied(),
            Some(finished(looked)),
        );
    }
    let versions = versions_of(rt.alloc(), &ONE_WORKER).expect(&rt, "memory");
    let are_rising = never_falls(&SMALL, &versions, ONE_WORKER.steps, &found);
    assert_at(&rt, "all of them", are_rising, true);
}

// Each of these lookups is legal, or none.
fn assert_legal(rt: &impl Abort, versions: &Versions, looked: &[FinishedRow], wanted: bool) {
    for one in looked {
        let found = is_legal(&SMALL, versions, ONE_WORKER.steps, &finished(one));
        assert_at(rt, ("legal", *one), found, wanted);
    }
}

// Of each of these lookups the version doesn't fall, or of none.
fn assert_rising(rt: &impl Abort, versions: &Versions, looked: &[FinishedRow], wanted: bool) {
    for one in looked {
        let found = never_falls(&SMALL, versions, ONE_WORKER.steps, &[finished(one)]);
        assert_at(rt, ("rising", *one), found, wanted);
    }
}

fn assert_answers(rt: &impl Abort, versions: &Versions) {
    assert_legal(rt, versions, &LOOKED, true);
    assert_rising(rt, versions, &LOOKED, true);
    assert_legal(rt, versions, &WRONG, false);
    assert_legal(rt, versions, &LATE, true);
    assert_rising(rt, versions, &LATE, false);
}

#[test]
fn answers_of_the_trace(rt: HostRuntime) {
    let versions = versions_of(rt.alloc(), &ONE_WORKER).expect(&rt, "memory");
    assert_answers(&rt, &versions);
}
