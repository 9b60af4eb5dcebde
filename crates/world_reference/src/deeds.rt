//! The deeds of a worker, and the steps that they are made of.

use super::InitialState;
use super::answers::{FinishedLookup, push_finished};
use super::memory::group_in;
use super::moment::Moment;
use lpm_trace::{Actor, Deed, Kind, Step};
use std::alloc::{AllocError, Global};
use std::slice;

/// An actor's step, and its number in the whole list, from 1.
#[derive(Clone, Copy)]
pub(crate) struct Numbered {
    pub(crate) number: usize,
    pub(crate) step: Step,
}

/// The actor's own steps, each with its number.
pub(crate) fn own_steps(
    alloc: Global,
    steps: &[Step],
    actor: Actor,
) -> Result<Vec<Numbered>, AllocError> {
    let mut own = Vec::new(alloc);
    for (earlier, step) in steps.iter().enumerate() {
        if step.actor == actor {
            let number = earlier.saturating_add(1);
            own.push(Numbered {
                number,
                step: *step,
            })?;
        }
    }
    Ok(own)
}

/// A step that a deed makes: its kind, its index and, where the deed fixes it, its value.
#[derive(Clone, Copy)]
struct Due {
    kind: Kind,
    index: u64,
    value: Option<u64>,
}

impl Due {
    /// A load, which may give any value.
    fn load(kind: Kind, index: u64) -> Due {
        Due {
            kind,
            index,
            value: None,
        }
    }

    /// A store of this value, or of any, in the worker's counter.
    fn store(worker: usize, value: Option<u64>) -> Due {
        Due {
            kind: Kind::StoreCounter,
            index: worker as u64,
            value,
        }
    }

    /// Whether the step is the one that is due.
    fn is(&self, step: &Step) -> bool {
        let is_any = self.value.is_none() || self.value == Some(step.value);
        self.kind == step.kind && self.index == step.index && is_any
    }
}

/// The addresses that a deed looks up.
fn addresses_of(deed: &Deed) -> &[u32] {
    match deed {
        Deed::Lookup(addr) => slice::from_ref(addr),
        Deed::Lookup4(addrs) => addrs,
        _ => &[],
    }
}

/// The group that the first word of a lookup's address leads to, where the steps of the lookup are
/// at the front of these. The addresses are numbered from 0.
pub(crate) fn group_read(steps: &[Numbered], address: usize) -> Option<u32> {
    let read = steps.get(address.saturating_add(1))?;
    group_in(read.step.value)
}

/// The steps of a lookup of these addresses, whose first steps are at the front of these: a load of the
/// sequence, those of the first words, those of the second words, and the sequence again.
fn due_of_lookup(
    alloc: Global,
    initial: &InitialState,
    addrs: &[u32],
    steps: &[Numbered],
) -> Result<Vec<Due>, AllocError> {
    let mut due = Vec::new(alloc);
    due.push(Due::load(Kind::LoadSequence, 0))?;
    for addr in addrs {
        due.push(Due::load(Kind::LoadFirst, initial.first_index(*addr)))?;
    }
    push_second_loads(initial, addrs, steps, &mut due)?;
    due.push(Due::load(Kind::LoadSequence, 0))?;
    Ok(due)
}

/// The loads of the second words of a lookup, after those of its first words.
fn push_second_loads(
    initial: &InitialState,
    addrs: &[u32],
    steps: &[Numbered],
    due: &mut Vec<Due>,
) -> Result<(), AllocError> {
    for (address, addr) in addrs.iter().enumerate() {
        if let Some(group) = group_read(steps, address) {
            let index = initial.second_index(group, *addr);
            due.push(Due::load(Kind::LoadSecond, index))?;
        }
    }
    Ok(())
}

/// The value of the first of these steps.
fn loaded(steps: &[Numbered]) -> Option<u64> {
    Some(steps.first()?.step.value)
}

/// The steps of a deed whose first steps are at the front of these. In a report that the worker is online
/// or quiescent it stores the token that it has loaded.
fn due_of(
    alloc: Global,
    initial: &InitialState,
    worker: usize,
    deed: &Deed,
    steps: &[Numbered],
) -> Result<Vec<Due>, AllocError> {
    match deed {
        Deed::Online | Deed::Quiescent => {
            let store = Due::store(worker, loaded(steps));
            Vec::from_slice(alloc, &[Due::load(Kind::LoadToken, 0), store])
        }
        Deed::Offline => Vec::from_slice(alloc, &[Due::store(worker, Some(0))]),
        Deed::Lookup(_) | Deed::Lookup4(_) => {
            due_of_lookup(alloc, initial, addresses_of(deed), steps)
        }
        Deed::Meet => Vec::from_slice(alloc, &[Due::load(Kind::LoadSequence, 0)]),
    }
}

/// How many steps the deed makes that begins at the front of these; none where they begin another
/// deed. It is more than there are where the deed is unfinished.
fn length_of(
    alloc: Global,
    initial: &InitialState,
    worker: usize,
    deed: &Deed,
    steps: &[Numbered],
) -> Result<Option<usize>, AllocError> {
    let due = due_of(alloc, initial, worker, deed, steps)?;
    for (due, numbered) in due.iter().zip(steps.iter()) {
        if !due.is(&numbered.step) {
            return Ok(None);
        }
    }
    Ok(Some(due.len()))
}

/// How far a worker has come with its deeds.
#[derive(Drop)]
pub(crate) struct WorkerProgress {
    /// How many steps it has made.
    pub(crate) made: usize,
    /// How many steps its deeds make; none where its steps are those of other deeds.
    pub(crate) due: Option<usize>,
    /// Its finished lookups, one for each address, in order.
    pub(crate) lookups: Vec<FinishedLookup>,
}

impl WorkerProgress {
    /// Whether the steps are, in order, those of the deeds, of which the last that has begun may be
    /// unfinished.
    pub(crate) fn is_right(&self) -> bool {
        match self.due {
            Some(due) => self.made <= due,
            None => false,
        }
    }
}

/// How far the worker has come with these deeds.
pub(crate) fn progress_of(
    alloc: Global,
    initial: &InitialState,
    steps: &[Step],
    worker: usize,
    deeds: &[Deed],
) -> Result<WorkerProgress, AllocError> {
    let own = own_steps(alloc, steps, Actor::Worker(worker))?;
    let mut lookups = Vec::new(alloc);
    let start = Moment::new(initial, steps, 0);
    let due = follow(alloc, start, worker, deeds, &own, &mut lookups)?;
    let made = own.len();
    Ok(WorkerProgress { made, due, lookups })
}

/// How many steps the deeds make, where these are the worker's own; none where they are those of other
/// deeds. It notes the lookups that are finished.
fn follow(
    alloc: Global,
    trace: Moment<'_>,
    worker: usize,
    deeds: &[Deed],
    own: &[Numbered],
    lookups: &mut Vec<FinishedLookup>,
) -> Result<Option<usize>, AllocError> {
    let mut due: usize = 0;
    for deed in deeds {
        let rest = own.get(due..).unwrap_or(&[]);
        let Some(length) = length_of(alloc, trace.initial, worker, deed, rest)? else {
            return Ok(None);
        };
        if let Some(whole) = rest.get(..length) {
            push_finished(trace, whole, addresses_of(deed), lookups)?;
        }
        due = due.saturating_add(length);
    }
    Ok(Some(due))
}

/// Whether the worker's steps are, in order, those of its deeds, of which the last that has begun
/// may be unfinished.
pub fn deeds_are_done(
    alloc: Global,
    initial: &InitialState,
    steps: &[Step],
    worker: usize,
    deeds: &[Deed],
) -> Result<bool, AllocError> {
    Ok(progress_of(alloc, initial, steps, worker, deeds)?.is_right())
}

/// Whether a worker that is online, or isn't, may do the deed, of addresses that there are.
fn is_sound(initial: &InitialState, is_online: bool, deed: &Deed) -> bool {
    match deed {
        Deed::Online => !is_online,
        Deed::Offline | Deed::Quiescent => is_online,
        Deed::Lookup(_) | Deed::Lookup4(_) => is_online
            && are_addresses(initial, addresses_of(deed)),
        Deed::Meet => true,
    }
}

/// Whether all of these are addresses.
fn are_addresses(initial: &InitialState, addrs: &[u32]) -> bool {
    for addr in addrs {
        if u64::from(*addr) >= initial.addresses() {
            return false;
        }
    }
    true
}

/// Whether each of these deeds may be done after those before it: a worker looks up, reports a
/// quiescent state and goes offline where it is online, and comes online where it isn't.
pub fn deeds_are_sound(initial: &InitialState, deeds: &[Deed]) -> bool {
    let mut is_online = false;
    for deed in deeds {
        if !is_sound(initial, is_online, deed) {
            return false;
        }
        is_online = match deed {
            Deed::Online => true,
            Deed::Offline => false,
            _ => is_online,
        };
    }
    true
}
