//! `endless COUNT`: has actors handle so many messages in memory that does not grow. How many were handled goes to standard output; the
//! seconds and the most memory that it took, in MB, go to standard error.
#![tactic(auto)]

mod peak;
mod relay;
mod ring;

use crate::peak::peak_of_memory;
use crate::ring::run_ring;
use heddleorange::Report;
use std::env;
use std::time::Instant;

/// Why nothing was counted.
#[derive(Debug, Drop, thiserror::Error)]
enum Failure {
    /// The program takes one argument: a number.
    #[error("endless COUNT")]
    Arguments,
    /// The numbers of the report do not add up to the count.
    #[error("{handled} of {count} messages were handled")]
    Missing { handled: u64, count: u64 },
}

/// The number that the program was given.
fn count<R: env::Env + Alloc>(rt: &R) -> anyhow::Result<u64> {
    for word in env::args(rt)?.skip(1) {
        if let Ok(count) = word.as_str().parse::<u64>() {
            return Ok(count);
        }
    }
    Err(Failure::Arguments.into())
}

/// How many messages the report's actors handled.
fn handled(report: &Report) -> u64 {
    let mut handled: u64 = 0;
    for actor in &report.actors {
        handled = handled.saturating_add(actor.journal.envelopes() as u64);
    }
    handled
}

fn main(rt: HostRuntime) -> anyhow::Result<()> {
    let count = count(&rt)?;
    let begin = Instant::now(&rt)?;
    let report = run_ring(&rt, rt.alloc(), count)?;
    let time = begin.elapsed(&rt)?;
    let handled = handled(&report);
    if handled != count {
        return Err(Failure::Missing { handled, count }.into());
    }
    println!(rt; "{handled} messages")?;
    let tenths = time.as_millis() / 100;
    eprintln!(rt;
        "{}.{} s, at most {} MB",
        tenths / 10,
        tenths % 10,
        peak_of_memory(&rt).unwrap_or(0)
    )?;
    Ok(())
}
