//! What lookups by several passes at once took, round by round.

use crate::figures::{hundredths_of_nanos, nanos};
use crate::passes::{PIECE, Reader};
use std::alloc::{AllocError, Global};
use std::time::Duration;

/// What all rounds of passes took that looked all addresses up at once.
#[derive(Clone, Copy)]
pub(crate) struct AtOnce {
    /// The mean time of the passes, in the round where it is least.
    pub(crate) mean: Duration,
    /// The least time of a round until the last pass had ended.
    pub(crate) last: Duration,
    /// The median, over the rounds, of the mean time of the passes.
    pub(crate) median_round: Duration,
    /// The time that half of the pieces of all rounds took at most.
    pub(crate) median_piece: Duration,
    /// The time that nine tenths of them took at most.
    pub(crate) nine_tenths: Duration,
    /// The sum, over the rounds, of the times until the last pass had ended.
    pub(crate) total: Duration,
    /// How many changes were made meanwhile.
    pub(crate) made: u64,
}

/// What the ratios are called of the times that are compared with those beside other changes.
pub(crate) static COMPARED: [&str; 5] = [
    "ratio",
    "ratio of the last",
    "ratio of the median round",
    "ratio of the median piece",
    "ratio of nine tenths of the pieces",
];

impl AtOnce {
    /// The times that are compared with those beside other changes, in the order of `COMPARED`.
    pub(crate) fn compared(&self) -> [Duration; 5] {
        [
            self.mean,
            self.last,
            self.median_round,
            self.median_piece,
            self.nine_tenths,
        ]
    }
}

/// The rounds until now.
#[derive(Drop)]
pub(crate) struct Rounds {
    // The least mean time of the passes, and the least time until the last pass had ended.
    mean: Duration,
    last: Duration,
    // The mean time of the passes in each.
    means: Vec<Duration>,
    // The time of each piece of each pass in each.
    pieces: Vec<Duration>,
    // The sum of the times until the last pass had ended.
    total: Duration,
    // How many changes were made meanwhile.
    made: u64,
}

impl Rounds {
    /// No round.
    pub(crate) fn new(alloc: Global) -> Self {
        Rounds {
            mean: Duration::MAX,
            last: Duration::MAX,
            means: Vec::new(alloc),
            pieces: Vec::new(alloc),
            total: Duration::ZERO,
            made: 0,
        }
    }

    /// Adds a round in which each of these passes looked so many addresses up, the last had ended after that
    /// time, and so many changes were made.
    pub(crate) fn add(
        &mut self,
        readers: &[Reader<'_>],
        addrs: usize,
        last: Duration,
        made: u64,
    ) -> Result<(), AllocError> {
        for reader in readers {
            self.pieces
                .extend_from_slice(reader.times_of_pieces(addrs))?;
        }
        let mean = mean_of(readers);
        self.means.push(mean)?;
        self.mean = self.mean.min(mean);
        self.last = self.last.min(last);
        self.total = self.total.saturating_add(last);
        self.made = self.made.saturating_add(made);
        Ok(())
    }

    /// What all rounds took.
    pub(crate) fn at_once(&mut self) -> AtOnce {
        self.means.sort_unstable();
        self.pieces.sort_unstable();
        AtOnce {
            mean: self.mean,
            last: self.last,
            median_round: time_of_tenths(&self.means, 5),
            median_piece: time_of_tenths(&self.pieces, 5),
            nine_tenths: time_of_tenths(&self.pieces, 9),
            total: self.total,
            made: self.made,
        }
    }
}

/// The time that so many tenths of these sorted times are at most.
fn time_of_tenths(times: &[Duration], tenths: usize) -> Duration {
    match times.get(times.len().saturating_mul(tenths) / 10) {
        Some(time) => *time,
        None => Duration::ZERO,
    }
}

/// The mean of the times that the passes took.
fn mean_of(readers: &[Reader<'_>]) -> Duration {
    let mut sum = 0u64;
    for reader in readers {
        sum = sum.saturating_add(nanos(reader.took));
    }
    Duration::from_nanos(sum / (readers.len() as u64).max(1))
}

/// The nanoseconds of a lookup of a piece that took so long, in hundredths.
pub(crate) fn of_piece(time: Duration) -> u64 {
    hundredths_of_nanos(time, PIECE)
}
