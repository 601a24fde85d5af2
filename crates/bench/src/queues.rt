//! Benchmarks of the mailbox queues: a push and its take, beside the plain queues of `crossbeam_queue`, on one thread
//! and on two.
//!
//! The two queues of a comparison are timed alternately, lap by lap, so that other load of the machine falls on both
//! alike. Of a priority queue the takes of a lap are timed apart from its pushes. The figures are medians.

ghost use Rattle.mb_queue.specs.Made.{IsMakeable};

mod ends;
mod lap;
mod mail;
mod plain;
mod sender;

use crossbeam_queue::{ArrayQueue, SegQueue};
use ends::{Ends, Puts, Takes};
use lap::{ALONE, BenchCase, PAIRED, compare, measure, measure_apart, put_some};
use mail::mail;
use mb_msg::{MailboxType, RankRow};
use std::alloc::{AllocError, Global};
use std::io;
use std::sync::Wait;
use std::thread::Threads;
use std::time::Clock;

/// Runs all benchmarks of this kind, one after another.
pub fn run<R: Clock + Threads + Wait + Sync + Print + Eprint>(
    rt: &R,
    alloc: Global,
) -> io::Result<()> {
    unbounded(rt, alloc, ALONE, "unbounded")?;
    bounded(rt, alloc, ALONE, "bounded")?;
    control(rt, alloc)?;
    priority(rt, alloc)?;
    unbounded(rt, alloc, PAIRED, "unbounded, two threads")?;
    bounded(rt, alloc, PAIRED, "bounded, two threads")
}

fn unbounded<R: Clock + Threads + Wait + Sync + Print + Eprint>(
    rt: &R,
    alloc: Global,
    course: BenchCase,
    what: &str,
) -> io::Result<()> {
    let queue = SegQueue::new(alloc)?;
    let mut plain = Ends {
        put: &queue,
        take: &queue,
    };
    beside(rt, alloc, course, what, MailboxType::Unbounded, &mut plain)
}

fn bounded<R: Clock + Threads + Wait + Sync + Print + Eprint>(
    rt: &R,
    alloc: Global,
    course: BenchCase,
    what: &str,
) -> io::Result<()> {
    let queue = ArrayQueue::new(alloc, 1_024)?;
    let mut plain = Ends {
        put: &queue,
        take: &queue,
    };
    beside(
        rt,
        alloc,
        course,
        what,
        MailboxType::Bounded(1_024),
        &mut plain,
    )
}

/// Compares a mailbox queue of this kind with a plain one.
fn beside<R, P: Puts + Send, T: Takes + Send>(
    rt: &R,
    alloc: Global,
    course: BenchCase,
    what: &str,
    kind: MailboxType,
    plain: &mut Ends<P, T>,
) -> io::Result<()>
where
    R: Clock + Threads + Wait + Sync + Print + Eprint,
    requires { IsMakeable kind }
{
    let mut ends = mail(alloc, kind)?;
    compare(rt, course, what, &mut ends, plain)
}

fn control<R: Clock + Threads + Wait + Sync + Print + Eprint>(
    rt: &R,
    alloc: Global,
) -> io::Result<()> {
    measure(
        rt,
        ALONE,
        "control-aware",
        &mut mail(alloc, MailboxType::Control)?,
    )
}

/// The takes are timed apart, since a take chooses. Before and after each lap 1,000 envelopes are held, so from 1,000
/// to 1,024 at each take.
fn priority<R: Clock + Wait + Print + Eprint>(rt: &R, alloc: Global) -> io::Result<()> {
    let rows = ranks(alloc)?;
    let mut ends = mail(alloc, MailboxType::Priority { rows, other: 9 })?;
    put_some(rt, &mut ends.put, 1_000);
    measure_apart(rt, ALONE, "priority, 1000 held", &mut ends)
}

/// A table of ranks: of the four kinds of message that are pushed three have rows, in no order.
fn ranks(alloc: Global) -> Result<Vec<RankRow>, AllocError> {
    let mut rows = Vec::new(alloc);
    for (kind, rank) in [(1, 7), (2, 3), (3, 5)] {
        rows.push(RankRow { kind, rank })?;
    }
    Ok(rows)
}
