//! How many answers of lookups no version of the rules explains.

ghost use Rattle.std.specs.Prelude.{ℕ, ◌≡◌, ◌+◌, ◌^◌, ◌<◌, ◌≤◌, ◌↔◌, IfOk, IsTrue, All, length, not, count_by, drop};
ghost use Rattle.std.specs.FinMap as map;
ghost use Rattle.lpm_rules.specs.Longest.{IsLongestHop};
ghost use Rattle.audit.specs.Wrong.{version_of, IsOfSomeVersion, AreWrong};
ghost use Rattle.audit.specs.Index.{Touches, AreMarks};

use crate::past::Past;
use lpm_bits::Hop;
use lpm_rules::{Answer, Change};
use rayon::prelude::*;
use std::alloc::{AllocError, Global};
use std::thread::Threads;

// Whether the change can change what an address goes to.
fn touches<const FIRST: u32, const SECOND: u32>(change: &Change<FIRST, SECOND>, addr: u32) -> bool
    ensures { IsTrue result ↔ Touches addr change.now }
{
    match change {
        Change::Add(prefix, _) => return prefix.covers(addr),
        Change::Delete(prefix) => return prefix.covers(addr),
        Change::Flush => return true,
        Change::Reclaim(_) => return false,
        Change::Synchronize => return false,
    }
}

impl<'a, const FIRST: u32, const SECOND: u32> Past<'a, FIRST, SECOND> {
    // Whether an address has the answer's next hop at a version.
    fn gives(&self, addr: u32, answer: &Answer, version: usize) -> bool
        requires addr { addr < 2 ^ (FIRST + SECOND) }
        requires version { version ≤ length self.now }
        ensures { IsTrue result
            ↔ IsLongestHop (FIRST + SECOND) (version_of self.now version) addr answer.now.hop }
    {
        self.longest_at(addr, version) == answer.hop
    }

    // Whether an address has the answer's next hop at a version from `first` to `last`.
    fn some_gives(&self, addr: u32, answer: &Answer, first: usize, last: usize) -> bool
        requires addr { addr < 2 ^ (FIRST + SECOND) }
        requires last { last ≤ length self.now }
        ensures { IsTrue result ↔ ((k : ℕ) × (first ≤ k) × (k ≤ last)
            × IsLongestHop (FIRST + SECOND) (version_of self.now k) addr answer.now.hop) }
    {
        let history = self.history();
        for version in first..=last {
            // What an address goes to is another only after a change that touches it.
            if version > first && !touches(&history[version - 1], addr) {
                continue;
            }
            if self.gives(addr, answer, version) {
                return true;
            }
        }
        false
    }

    // Whether a version from `start` on explains the answer for an address. It counts its versions
    // from there.
    fn explains(&self, start: usize, addr: u32, answer: &Answer) -> bool
        requires start { start ≤ length self.now }
        requires addr { addr < 2 ^ (FIRST + SECOND) }
        ensures { IsTrue result ↔ IsOfSomeVersion (version_of self.now start) (drop start self.now)
            (addr, answer.now) }
    {
        let versions = self.history().len() - start;
        if answer.lo > versions as u64 {
            return false;
        }
        let last = answer.hi.min(versions as u64);
        self.some_gives(
            addr,
            answer,
            start + answer.lo as usize,
            start + last as usize,
        )
    }

    // For each answer whether a version from `start` on explains it.
    fn marks<R: Threads + Sync>(
        &self,
        rt: &R,
        alloc: Global,
        start: usize,
        answers: &[(u32, Answer)],
    ) -> Result<Vec<bool>, AllocError>
        requires start { start ≤ length self.now }
        requires addrs { All (λ x. x.0 < 2 ^ (FIRST + SECOND)) answers.now }
        ensures { IfOk result (λ v. AreMarks (version_of self.now start) (drop start self.now)
            answers.now v.items) }
    {
        answers
            .par_iter()
            .map(
                |x: &(u32, Answer)| -> bool
                    requires start { start ≤ length self.now }
                    requires addr { x.now.0 < 2 ^ (FIRST + SECOND) }
                    ensures { IsTrue result ↔ IsOfSomeVersion (version_of self.entry.now start)
                        (drop start self.entry.now) x.now }
                { self.explains(start, x.0, &x.1) },
            )
            .collect(rt, alloc)
    }

    /// How many of the answers are wrong: those that no version of the history from `start` on explains.
    ///
    /// Each answer is for its address, and may be of a version from `lo` to `hi`, of those that the
    /// history has. It counts them from version `start` of the history, which is its version 0. The answers
    /// are looked at on as many threads as there are processors.
    ///
    /// `AllocError` comes where room for a mark an answer is refused.
    pub fn count_wrong<R: Threads + Sync>(
        &self,
        rt: &R,
        alloc: Global,
        start: usize,
        answers: &[(u32, Answer)],
    ) -> Result<u64, AllocError>
        requires start { start ≤ length self.now }
        requires addrs { All (λ x. x.0 < 2 ^ (FIRST + SECOND)) answers.now }
        ensures { IfOk result (AreWrong (version_of self.now start) (drop start self.now) answers.now) }
    {
        let marks = self.marks(rt, alloc, start, answers)?;
        Ok(count_false(&marks))
    }
}

// How many of the marks are false.
fn count_false(marks: &[bool]) -> u64
    ensures { result ≡ count_by (λ m. not m) marks.now }
{
    marks.iter().filter(|mark| !**mark).count() as u64
}

/// How many of the answers are wrong: those that no version of the history explains.
///
/// Each answer is for its address, and may be of a version from `lo` to `hi`, of those that the
/// history has. Where several lists of answers are of one history, [`Past::count_wrong`] is faster.
///
/// `AllocError` comes where room for the index of the history, or for a mark an answer, is refused.
pub fn wrong<R: Threads + Sync, const FIRST: u32, const SECOND: u32>(
    rt: &R,
    alloc: Global,
    history: &[Change<FIRST, SECOND>],
    answers: &[(u32, Answer)],
) -> Result<u64, AllocError>
    requires { All (λ x. x.0 < 2 ^ (FIRST + SECOND)) answers.now }
    ensures { IfOk result (AreWrong map.empty history.now answers.now) }
{
    let past = Past::new(alloc, history)?;
    past.count_wrong(rt, alloc, 0, answers)
}
