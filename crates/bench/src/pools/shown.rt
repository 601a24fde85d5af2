//! Printing a figure.
use crate::pools::worker::Worker;
use crate::times::ROUNDS;
use crate::told::tell;
use std::io;

/// How often the work was done in the last round by all handles together, and how long a round took: of each handle the
/// median by its own clock; of these the least and the greatest.
#[derive(Drop)]
pub struct PoolFigure {
    pub done: u64,
    pub least: u64,
    pub most: u64,
}

/// A figure; `None` where memory was refused.
pub type Made = Option<PoolFigure>;

/// How often a handle does the work in one round.
pub const TURNS: u64 = 1_000_000;

impl PoolFigure {
    /// The figure of one handle.
    pub fn of(worker: &Worker) -> PoolFigure {
        let median = worker.times.median();
        PoolFigure {
            done: worker.done,
            least: median,
            most: median,
        }
    }

    /// The figure of these handles and those.
    pub fn with(self, other: PoolFigure) -> PoolFigure {
        PoolFigure {
            done: self.done.wrapping_add(other.done),
            least: self.least.min(other.least),
            most: self.most.max(other.most),
        }
    }
}

pub fn show<R: Print + Eprint>(rt: &R, what: &str, made: Made) -> io::Result<()> {
    let Some(PoolFigure { done, least, most }) = made else {
        return println!(rt; "{what}: no memory");
    };
    let (least, least_tenth) = each(least);
    let (most, most_tenth) = each(most);
    tell(
        rt,
        format_args!("{what}: {done} done"),
        format_args!(
            "{what}: {least}.{least_tenth} to {most}.{most_tenth} ns each, the ends' medians of {ROUNDS} rounds"
        ),
    )
}

/// The nanoseconds and tenths of one push and take.
fn each(round: u64) -> (u64, u64) {
    (round / TURNS, round % TURNS * 10 / TURNS)
}
