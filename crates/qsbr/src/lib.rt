//! Reclamation by quiescent states, for one thread: a domain of workers that report when they hold
//! nothing.
//!
//! A domain has a token, which only grows, and a counter for each worker. A worker that goes online
//! or reports a quiescent state takes the token into its counter; a worker that goes offline takes 0.
//! What was given up under a token may be used again once each counter is 0 or at least that token.
#![tactic(auto)]

pub mod intervals;

ghost use Rattle.std.specs.Prelude.{◌≡◌, ℕ, ◌+◌, ◌^◌, ◌<◌, ◌≤◌, ◌↔◌, IsTrue, IfOk};
ghost use Rattle.std.specs.Prelude.{length, replicate, slice_index};
ghost use Rattle.qsbr.specs.Laws.{OlderPasses, NoneHolds, OneIsFirst};

pub use lpm_limits::{BadConfig, Busy, Config, Range, Refusal};
use std::alloc::{AllocError, Global};
use std::marker::Model;

/// The token and the counters of the workers, which are numbered from 0.
///
/// The token is from 1 to `2^62`.
#[derive(Debug, Drop)]
pub struct Domain {
    token: u64,
    counters: Vec<u64>,
}

impl Model for Domain {
    ghost use Rattle.std.specs.Prelude.{ℕ, ◌≤◌, ◌^◌};
    ghost use Rattle.qsbr.specs.Counters.{Registry};

    ghost Value = { Registry };

    ghost view = { λ d. record { token = d.token; counters = d.counters.items } };

    ghost invariant = { λ d. (1 ≤ d.token) × (d.token ≤ 2 ^ 62) };
}

impl Domain {
    ghost use Rattle.qsbr.specs.Counters.{IsOnline, IsChecked, with_counter};

    /// A domain of so many workers, all offline.
    pub fn new(alloc: Global, workers: usize, first_token: u64) -> Result<Self, AllocError>
        requires low { 1 ≤ first_token }
        requires high { first_token ≤ 2 ^ 62 }
        ensures { IfOk result (λ d.
            d ≡ record { token = first_token; counters = replicate workers 0 }) }
    {
        let counters = vec![in alloc; 0u64; workers]?;
        Ok(Domain {
            token: first_token,
            counters,
        })
    }

    /// The newest token.
    #[inline]
    pub fn token(&self) -> u64
        ensures value { result ≡ self.now.token }
        ensures low { 1 ≤ result }
        ensures high { result ≤ 2 ^ 62 }
    {
        self.token
    }

    /// How many workers there are.
    #[inline]
    pub fn workers(&self) -> usize
        ensures { result ≡ length self.now.counters }
    {
        self.counters.len()
    }

    /// The worker's counter: 0 while it is offline.
    #[inline]
    pub fn counter(&self, w: usize) -> u64
        requires { w < length self.now.counters }
        ensures { result ≡ slice_index self.now.counters w }
    {
        self.counters[w]
    }

    /// Stores any counter for the worker, as an older token that it took before it reports.
    #[inline]
    pub fn set_counter(&mut self, w: usize, counter: u64)
        requires { w < length self.old.counters }
        ensures { self.new ≡ with_counter self.old w counter }
    {
        self.counters[w] = counter;
    }

    /// Whether the worker is online.
    #[inline]
    pub fn is_online(&self, w: usize) -> bool
        requires { w < length self.now.counters }
        ensures { IsTrue result ↔ IsOnline self.now.counters w }
    {
        self.counter(w) != 0
    }

    /// The worker goes online, at the newest token.
    #[inline]
    pub fn online(&mut self, w: usize)
        requires registered { w < length self.old.counters }
        requires offline { slice_index self.old.counters w ≡ 0 }
        ensures stored { self.new ≡ with_counter self.old w self.old.token }
        ensures online { IsOnline self.new.counters w }
    {
        self.set_counter(w, self.token);
    }

    /// The worker reports a quiescent state: it holds nothing that was given up before this call.
    #[inline]
    pub fn quiescent(&mut self, w: usize)
        requires registered { w < length self.old.counters }
        requires online { IsOnline self.old.counters w }
        ensures stored { self.new ≡ with_counter self.old w self.old.token }
        ensures online { IsOnline self.new.counters w }
    {
        self.counters[w] = self.token;
    }

    /// The worker goes offline: it holds nothing until it is online again.
    #[inline]
    pub fn offline(&mut self, w: usize)
        requires registered { w < length self.old.counters }
        requires online { IsOnline self.old.counters w }
        ensures { self.new ≡ with_counter self.old w 0 }
    {
        self.set_counter(w, 0);
    }

    /// Starts a token, which no worker has reported yet, and returns it.
    #[inline]
    pub fn start(&mut self) -> u64
        requires { self.old.token < 2 ^ 62 }
        ensures value { result ≡ self.old.token + 1 }
        ensures bumped { self.new ≡ record self.old { token = self.old.token + 1 } }
    {
        let token = &mut self.token;
        *token += 1;
        *token
    }

    /// Whether every worker has left the token behind: each counter is 0 or at least the token. The
    /// error is the first worker for which that isn't so.
    ///
    /// The counters are looked at in order, from worker 0 on, up to that worker.
    pub fn check(&self, token: u64) -> Result<(), Busy>
        ensures { IsChecked token self.now.counters result }
    {
        let first = self
            .counters
            .iter()
            .position(|&counter| holds(counter, token));
        match first {
            Some(worker) => Err(Busy {
                worker,
                counter: self.counters[worker],
            }),
            None => Ok(()),
        }
    }
}

/// Whether a worker of this counter may still hold what was given up under the token: it is online, and
/// hasn't reported since the token was started.
#[inline]
pub fn holds(counter: u64, token: u64) -> bool
    ensures { IsTrue result ↔ ((0 < counter) × (counter < token)) }
{
    counter != 0 && counter < token
}

/// A token that passes a check lets each older one pass: the law `OlderPasses`.
pub fn older_tokens_pass()
    ensures { OlderPasses }
{}

/// Where a token passes, no worker holds it: the law `NoneHolds`.
pub fn none_holds_where_passed()
    ensures { NoneHolds }
{}

/// No two workers are the first that holds a token: the law `OneIsFirst`.
pub fn one_worker_is_first()
    ensures { OneIsFirst }
{}
