//! Finished lookups, as a run shows them.

ghost use Rattle.std.specs.Prelude.{◌≡◌, ◌+◌, ◌≤◌, [], ◌++◌, map, reverse, length, vec_len, vec_capacity};
ghost use Rattle.lpm_trace.specs.Trace.{with_answers};
ghost use Rattle.interleave.specs.Machine.{probes_of};
ghost use Rattle.interleave.specs.Record.{seen_by};

use super::probe::Probe;
use lpm_bits::Hop;
use lpm_cells::Entry;

/// A finished lookup of one address. A step's number in the run is counted from 1.
#[derive(Clone, Copy, Debug, PartialEq, Eq)]
pub struct Seen {
    /// The number of the worker that looked it up, from 0.
    pub worker: usize,
    /// The address that was looked up.
    pub addr: u32,
    /// The next hop that the last word held; none for a miss.
    pub hop: Option<Hop>,
    /// The number of the step that read its first word.
    pub first: usize,
    /// The number of the step that read its last word.
    pub last: usize,
    /// How many updates were done when the lookup began.
    pub lo: u64,
    /// How many updates were begun when it ended.
    pub hi: u64,
}

/// Notes the answers of the worker's lookup that ends, in order, where there is room for them.
pub fn note(number: usize, probes: &[Probe], lo: u64, hi: u64, seen: &mut Vec<Seen>)
    requires { vec_len seen.old + length probes.now ≤ vec_capacity seen.old }
    ensures noted { seen.new.items ≡ seen.old.items
        ++ reverse (map (seen_by number) (with_answers lo hi (probes_of probes.now) [])) }
    ensures capacity { vec_capacity seen.old ≤ vec_capacity seen.new }
{
    for probe in probes {
        if let Probe::Answered {
            addr,
            word,
            first,
            last,
        } = *probe
        {
            seen.push(Seen {
                worker: number,
                addr,
                hop: Entry::of_word(u64::from(word)).hop(),
                first,
                last,
                lo,
                hi,
            })
            .unwrap();
        }
    }
}
