//! The shared words, the workers, the schedule and the record of a run.

ghost use Rattle.std.specs.Prelude.{◌≡◌, suc, true, ◌+◌, ◌<◌, ◌≤◌, ◌↔◌, Option, Some, List, [], ◌∷◌, ◌++◌, IsTrue, MatchBool, length, slice_index_or, vec_len, vec_capacity};
ghost use Rattle.lpm_trace.specs.declared.shown_step.Actor.{Actor};
ghost use Rattle.lpm_trace.specs.declared.shown_step.Actor.TheVariants.{Worker as WorkerActor};
ghost use Rattle.lpm_trace.specs.declared.shown_step.Kind.TheVariants as kind;
ghost use Rattle.lpm_trace.specs.declared.step.TraceStep.{TraceStep};
ghost use Rattle.lpm_trace.specs.declared.step.WriterStep.{WriterStep};
ghost use Rattle.lpm_trace.specs.States.{InitialState};
ghost use Rattle.interleave.specs.Record.{step_of_writer};
ghost use Rattle.interleave.specs.World.{writer_items, IsWorld, WorldDid, Reaches, StaysShared, IsWritersTurn, IsPlayedOut, TakesTurn};

use crate::{Seen, Shared, Worker};
use lpm_trace::{Actor, Deed, Kind, Step};
use std::marker::Model;

/// Words, a sequence and a token that workers share with one writer, and the record of what they do.
///
/// The workers take their turns as the schedule says. Once it has ended, the writer's steps still change
/// the words and the token, and nothing is recorded any more.
#[derive(Drop)]
pub struct WorldMemory<'a, const FIRST: u32, const SECOND: u32> {
    pub(crate) shared: Shared<FIRST, SECOND>,
    pub(crate) workers: Vec<Worker>,
    pub(crate) scripts: &'a [Vec<Deed>],
    pub(crate) schedule: &'a [Actor],
    /// How many items of the schedule are used up.
    pub(crate) next: usize,
    pub(crate) steps: Vec<Step>,
    pub(crate) seen: Vec<Seen>,
    /// The schedule ended before the writer's last step.
    pub(crate) stopped: bool,
}

impl<'a, const FIRST: u32, const SECOND: u32> Model for WorldMemory<'a, FIRST, SECOND> {
    ghost use Rattle.std.specs.Prelude.{length, map, vec_len, vec_capacity};
    ghost use Rattle.interleave.specs.View.{WorldView, IsSoundMemory};

    ghost Value = { WorldView };

    ghost view = { λ a. record {
      words = a.shared.cells;
      sequence = a.shared.sequence;
      token = a.shared.token;
      machines = a.workers.items;
      scripts = map (λ script. script.items) a.scripts.now;
      schedule = a.schedule.now;
      next = a.next;
      steps = a.steps.items;
      seen = a.seen.items;
      stopped = a.stopped;
    } };

    ghost invariant = { λ a. IsSoundMemory a.shared.token (vec_len a.workers) (length a.scripts.now)
        (length a.schedule.now) a.next (vec_len a.steps) (vec_capacity a.steps) (vec_len a.seen)
        (vec_capacity a.seen) };
}

/// Appends a step where there is room for it.
fn append(steps: &mut Vec<Step>, step: Step)
    requires { vec_len steps.old < vec_capacity steps.old }
    ensures items { steps.new.items ≡ steps.old.items ++ step ∷ [] }
    ensures len { vec_len steps.new ≡ vec_len steps.old + 1 }
    ensures capacity { vec_capacity steps.old ≤ vec_capacity steps.new }
{
    if steps.push(step).is_err() {
        unreachable!();
    }
}

impl<'a, const FIRST: u32, const SECOND: u32> WorldMemory<'a, FIRST, SECOND> {
    /// Lets the worker take its turn, which uses up its item.
    fn turn(&mut self, worker: usize)
        requires left { self.old.next < length self.old.schedule }
        requires item { (other : Actor)
            → slice_index_or self.old.schedule self.old.next other ≡ WorkerActor worker }
        requires known { (c : InitialState) × (whole : Option (List WriterStep)) × (trace : List TraceStep)
            × IsWorld FIRST SECOND self.old c whole trace [] }
        ensures shared { StaysShared self.old self.new }
        ensures next { self.new.next ≡ suc self.old.next }
        ensures turn { TakesTurn FIRST SECOND self.old self.new }
    {
        let now = self.steps.len() + 1;
        self.next += 1;
        if worker >= self.scripts.len() {
            return;
        }
        let script = &self.scripts[worker];
        let machine = &mut self.workers[worker];
        let made = machine.step(worker, script, &mut self.shared, now, &mut self.seen);
        if let Some(step) = made {
            append(&mut self.steps, step);
        }
    }

    /// Lets the workers take their turns up to the writer's next item, and returns whether there is one.
    /// It isn't used up.
    pub fn reach(&mut self) -> bool
        requires known { (c : InitialState) × (steps : List WriterStep)
            × WorldDid FIRST SECOND self.old c steps }
        ensures shared { StaysShared self.old self.new }
        ensures reaches { Reaches FIRST SECOND self.old self.new }
        ensures found { MatchBool result (IsWritersTurn self.new)
            (self.new.next ≡ length self.new.schedule) }
        ensures left { (c : InitialState) (steps : List WriterStep) → WorldDid FIRST SECOND self.old c steps
            → (IsTrue result ↔ length steps < writer_items self.old.schedule) }
    {
        while self.next < self.schedule.len() {
            match self.schedule[self.next] {
                Actor::Writer => return true,
                Actor::Worker(worker) => self.turn(worker),
            }
        }
        false
    }

    /// Whether the schedule ended before the writer's last step.
    pub fn is_stopped(&self) -> bool
        ensures { (c : InitialState) (steps : List WriterStep) → WorldDid FIRST SECOND self.now c steps
            → (IsTrue result ↔ writer_items self.now.schedule < length steps) }
    {
        self.stopped
    }

    /// Records a step of the writer, which uses up its item. After the schedule's end it leaves nothing
    /// but that it came too late.
    pub(crate) fn note(&mut self, kind: Kind, index: u64, value: u64)
        ensures left { self.old.next < length self.old.schedule → self.new ≡ record self.old {
          next = suc self.old.next;
          steps = self.old.steps ++ step_of_writer kind index value ∷ [];
        } }
        ensures ended { self.old.next ≡ length self.old.schedule
            → self.new ≡ record self.old { stopped = true } }
    {
        if self.next == self.schedule.len() {
            self.stopped = true;
            return;
        }
        self.next += 1;
        let step = Step {
            actor: Actor::Writer,
            kind,
            index,
            value,
        };
        append(&mut self.steps, step);
    }

    /// Bumps the sequence, which uses up the writer's item. It stays after the schedule's end.
    pub(crate) fn bump_sequence(&mut self)
        requires fits { self.old.sequence ≤ self.old.next }
        ensures left { self.old.next < length self.old.schedule → self.new ≡ record self.old {
          sequence = suc self.old.sequence;
          next = suc self.old.next;
          steps = self.old.steps ++ step_of_writer kind.BumpSequence 0 (suc self.old.sequence) ∷ [];
        } }
        ensures ended { self.old.next ≡ length self.old.schedule
            → self.new ≡ record self.old { stopped = true } }
    {
        if self.next < self.schedule.len() {
            self.shared.sequence += 1;
        }
        let sequence = self.shared.sequence;
        self.note(Kind::BumpSequence, 0, sequence);
    }

    /// Lets the workers take the rest of their turns, where the writer has no step left.
    pub fn play_out(&mut self)
        requires known { (c : InitialState) × (steps : List WriterStep)
            × WorldDid FIRST SECOND self.old c steps }
        ensures shared { StaysShared self.old self.new }
        ensures played { (c : InitialState) (steps : List WriterStep) → WorldDid FIRST SECOND self.old c steps
            → IsPlayedOut c self.new.scripts self.new.schedule steps self.new.steps self.new.seen }
    {
        while self.next < self.schedule.len() {
            match self.schedule[self.next] {
                Actor::Writer => self.next += 1,
                Actor::Worker(worker) => self.turn(worker),
            }
        }
    }

    /// The steps and the finished lookups so far, in the order in which they came.
    pub fn into_record(self) -> (Vec<Step>, Vec<Seen>)
        ensures steps { result.0.items ≡ self.entry.steps }
        ensures seen { result.1.items ≡ self.entry.seen }
    {
        (self.steps, self.seen)
    }
}
