//! A forwarder in small: one thread changes the routes while another looks packets up, in bursts and with
//! no lock. It prints how many changes and lookups there were, and then where each packet goes.
#![tactic(auto)]

use anyhow::{Context, Result, bail};
use saxiko::{Config, Hop, Owner, Prefix, Reader, Rule};
use std::alloc::Global;
use std::convert::AsStr;
use std::fs;
use std::net::Ipv4Addr;
use std::thread::{Threads, join};

/// How many packets one call looks up, and how often the packets come.
const BURST: usize = 4;

const ROUNDS: usize = 1000;

/// Stands for a packet that no route covers.
const NO_ROUTE: u32 = u32::MAX;

/// A change of the routes: the next hop of a prefix, or none where its route is deleted.
type Change = (Prefix, Option<Hop>);

/// The routes of a text: in each line a prefix and a next hop.
fn routes_of(alloc: Global, text: &str) -> Result<Vec<Rule>> {
    let mut routes = Vec::new(alloc);
    for line in text.lines() {
        let (prefix, hop) = line.split_once(' ').context("a route needs a next hop")?;
        routes.push(Rule {
            prefix: prefix.parse()?,
            hop: hop.parse()?,
        })?;
    }
    Ok(routes)
}

/// The changes of a text: in each line a prefix, and the next hop that it gets or `-`.
fn changes_of(alloc: Global, text: &str) -> Result<Vec<Change>> {
    let mut changes = Vec::new(alloc);
    for line in text.lines() {
        let (prefix, word) = line.split_once(' ').context("a change needs two words")?;
        let hop = match word {
            "-" => None,
            _ => Some(word.parse()?),
        };
        changes.push((prefix.parse()?, hop))?;
    }
    Ok(changes)
}

/// The addresses of a text, one in each line.
fn packets_of(alloc: Global, text: &str) -> Result<Vec<u32>> {
    let mut packets = Vec::new(alloc);
    for line in text.lines() {
        packets.push(line.parse::<Ipv4Addr>()?.to_bits())?;
    }
    Ok(packets)
}

/// The writer's thread: makes the changes, and returns how many were made.
fn make(owner: &mut Owner, changes: &[Change]) -> usize {
    let mut made = 0usize;
    for (prefix, hop) in changes {
        let is_made = match hop {
            Some(hop) => owner.add(prefix, *hop).is_ok(),
            None => owner.delete(prefix).is_ok(),
        };
        made = made.saturating_add(usize::from(is_made));
    }
    made
}

/// The reader's thread: looks the packets up, burst after burst, and returns how many.
fn forward(reader: &mut Reader, packets: &[u32]) -> usize {
    let mut hops = [0; BURST];
    let mut count = 0usize;
    for _ in 0..ROUNDS {
        for burst in packets.chunks(BURST) {
            reader.online();
            count = count.saturating_add(reader.lookup_bulk(burst, NO_ROUTE, &mut hops).count);
            reader.quiescent();
        }
    }
    reader.offline();
    count
}

/// Runs both threads, and prints where each packet goes then.
fn run<R: Threads + Sync + Print>(
    rt: &R,
    owner: &mut Owner,
    changes: &[Change],
    packets: &[u32],
) -> Result<()> {
    let mut reader = owner.register(0)?;
    let (made, count) = join(
        rt,
        || -> usize { make(owner, changes) },
        || -> usize { forward(&mut reader, packets) },
    );
    println!(rt; "{made} changes, {count} lookups")?;
    for packet in packets {
        reader.online();
        let addr = Ipv4Addr::from_bits(*packet);
        match reader.lookup(*packet).hop {
            Some(hop) => println!(rt; "{addr} to {hop}")?,
            None => println!(rt; "{addr} dropped")?,
        }
    }
    Ok(())
}

fn main(rt: HostRuntime) -> Result<()> {
    let alloc = rt.alloc();
    let routes = routes_of(alloc, fs::read_to_string(&rt, "routes.txt")?.as_str())?;
    let changes = changes_of(alloc, fs::read_to_string(&rt, "changes.txt")?.as_str())?;
    let packets = packets_of(alloc, fs::read_to_string(&rt, "packets.txt")?.as_str())?;
    let Some(mut owner) = Owner::load(alloc, Config::default(), &routes)? else {
        bail!("too many routes");
    };
    run(&rt, &mut owner, &changes, &packets)
}
