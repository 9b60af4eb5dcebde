//! How far the lookup of one address has come.

ghost use Rattle.std.specs.Prelude.{◌≡◌, ◌<◌, ◌^◌, MatchOption, ◌≤◌, map, length, vec_capacity};
ghost use Rattle.lpm_cells.specs.Words.{entry_in};
ghost use Rattle.lpm_trace.specs.Trace.{AreBegun, AreAnswered, read_first};
ghost use Rattle.interleave.specs.declared.probe.Probe.TheVariants as probe;
ghost use Rattle.interleave.specs.Machine.{IsNextUnread, IsNextGrouped, probe_of, probes_of};

use lpm_cells::Entry;

/// How far the lookup of one address has come. A step's number in the run is counted from 1.
#[derive(Clone, Copy)]
pub enum Probe {
    /// No word was read.
    Unread(u32),
    /// The first word was read, which is a group's.
    InGroup {
        addr: u32,
        group: u32,
        /// The number of the step that read the first word.
        first: usize,
    },
    /// It has its answer.
    Answered {
        addr: u32,
        /// The low 32 bits of the last word that was read. The others of an entry's word are 0.
        word: u32,
        first: usize,
        /// The number of the step that read the last word.
        last: usize,
    },
}

/// An address of a lookup that goes on in a group.
#[derive(Clone, Copy)]
pub struct Grouped {
    /// Its place among the addresses of the lookup.
    pub place: usize,
    pub addr: u32,
    pub group: u32,
    /// The number of the step that read the first word.
    pub first: usize,
}

impl Probe {
    /// An address whose first word was read at the time `now`.
    pub fn of_first(addr: u32, word: u64, now: usize) -> Self
        requires { word < 2 ^ 32 }
        ensures { probe_of result ≡ read_first now addr (entry_in word) }
    {
        match Entry::of_word(word) {
            Entry::Miss | Entry::Hop { .. } => Probe::Answered {
                addr,
                word: word as u32,
                first: now,
                last: now,
            },
            Entry::Group(group) => Probe::InGroup {
                addr,
                group,
                first: now,
            },
        }
    }
}

/// The addresses of a lookup that begins take the place of those before.
pub fn set_out(addrs: &[u32], probes: &mut Vec<Probe>)
    requires { length addrs.now ≤ vec_capacity probes.old }
    ensures items { probes.new.items ≡ map probe.Unread addrs.now }
    ensures capacity { vec_capacity probes.old ≤ vec_capacity probes.new }
{
    probes.clear();
    for addr in addrs {
        probes.push(Probe::Unread(*addr)).unwrap();
    }
}

/// The place and the address of the first of these of which no word was read.
pub fn next_unread(probes: &[Probe]) -> Option<(usize, u32)>
    ensures { MatchOption result (AreBegun (probes_of probes.now))
        (λ found. IsNextUnread probes.now found.0 found.1) }
{
    for (place, probe) in probes.iter().enumerate() {
        if let Probe::Unread(addr) = *probe {
            return Some((place, addr));
        }
    }
    None
}

/// The first of these that has no answer, where the first word of each was read.
pub fn next_in_group(probes: &[Probe]) -> Option<Grouped>
    requires { AreBegun (probes_of probes.now) }
    ensures { MatchOption result (AreAnswered (probes_of probes.now))
        (λ found. IsNextGrouped probes.now found) }
{
    for (place, probe) in probes.iter().enumerate() {
        if let Probe::InGroup { addr, group, first } = *probe {
            return Some(Grouped {
                place,
                addr,
                group,
                first,
            });
        }
    }
    None
}
