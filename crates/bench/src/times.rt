//! The times of some rounds.
use crate::clock::elapsed;
use std::time::{Clock, Instant};

/// How many rounds are timed by default.
pub const ROUNDS: usize = 9;

/// The most rounds that are timed.
const MOST: usize = 400;

/// What was measured of each round, as its nanoseconds. The rest of the array is the greatest number.
#[derive(Drop)]
pub struct Times {
    rounds: [u64; MOST],
    count: usize,
}

impl Times {
    pub fn new() -> Times {
        Times {
            rounds: [u64::MAX; MOST],
            count: 0,
        }
    }

    /// Adds a round that began at this time.
    pub fn add<R: Clock>(&mut self, rt: &R, begin: Option<Instant>) {
        self.put(elapsed(rt, begin));
    }

    /// Adds the number of a round.
    pub fn put(&mut self, number: u64) {
        if self.count < MOST {
            self.rounds[self.count] = number;
            self.count += 1;
        }
    }

    /// The median.
    pub fn median(&self) -> u64 {
        let mut rounds = self.rounds;
        rounds.sort_unstable();
        rounds.get(self.count / 2).copied().unwrap_or(0)
    }
}
