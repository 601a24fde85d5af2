//! Printing a figure.
use crate::times::ROUNDS;
use crate::told::{note, tell};
use std::io;

/// How often the work was done in the last round, and the median of what the rounds took, in nanoseconds.
#[derive(Clone, Copy)]
pub struct PoolFigure {
    pub done: u64,
    pub median: u64,
}

/// How often the work is done in one round.
pub const TURNS: u64 = 1_000_000;

pub fn show<R: Print + Eprint>(rt: &R, what: &str, figure: PoolFigure) -> io::Result<()> {
    let PoolFigure { done, median } = figure;
    let whole = median / TURNS;
    let tenth = median % TURNS * 10 / TURNS;
    tell(
        rt,
        format_args!("{what}: {done} done"),
        format_args!("{what}: {whole}.{tenth} ns each, the median of {ROUNDS} rounds"),
    )
}

/// Prints how many times as long two threads took one after the other as at the same time.
pub fn show_gain<R: Eprint>(rt: &R, gain: u64) {
    let whole = gain / 100;
    let tenth = gain % 100 / 10;
    let hundredth = gain % 10;
    note(
        rt,
        format_args!(
            "two threads took {whole}.{tenth}{hundredth} times as long one after the other, the median of {ROUNDS} rounds"
        ),
    );
}
