//! Timing queues.
use crate::clock::elapsed;
use crate::queues::ends::{Ends, Puts, Takes, alone, paired};
use crate::times::Times;
use crate::told::tell;
use std::io;
use std::sync::Wait;
use std::thread::Threads;
use std::time::{Clock, Instant};

/// How many laps are timed, how many pushes and takes a lap has, and whether the pushes have a thread of their own.
#[derive(Clone, Copy)]
pub struct BenchCase {
    pub laps: u64,
    pub rounds: u64,
    pub is_paired: bool,
}

/// On one thread a lap is so short that it is seldom interrupted.
pub const ALONE: BenchCase = BenchCase {
    laps: 400,
    rounds: 1_000,
    is_paired: false,
};

/// A lap of two threads starts one of them, and is so long that this counts for little.
pub const PAIRED: BenchCase = BenchCase {
    laps: 20,
    rounds: 50_000,
    is_paired: true,
};

/// How many were taken in all, and the nanoseconds of each lap.
#[derive(Drop)]
pub struct Laps {
    pub taken: u64,
    pub times: Times,
}

impl Laps {
    pub fn new() -> Laps {
        Laps {
            taken: 0,
            times: Times::new(),
        }
    }

    pub fn add(&mut self, taken: u64, time: u64) {
        self.taken = self.taken.wrapping_add(taken);
        self.times.put(time);
    }

    /// The median of a lap, divided by `rounds`.
    pub fn each(&self, rounds: u64) -> u64 {
        self.times.median().checked_div(rounds).unwrap_or(0)
    }
}

fn time<R, P: Puts + Send, T: Takes + Send>(
    rt: &R,
    course: BenchCase,
    ends: &mut Ends<P, T>,
    laps: &mut Laps,
)
where
    R: Clock + Threads + Wait + Sync,
{
    let begin = Instant::now(rt).ok();
    let taken = if course.is_paired {
        paired(rt, ends, course.rounds)
    } else {
        alone(rt, ends, course.rounds)
    };
    laps.add(taken, elapsed(rt, begin));
}

/// Times a mailbox queue and a plain one alternately, and prints both.
pub(crate) fn compare<R, P, T, Q, U>(
    rt: &R,
    course: BenchCase,
    what: &str,
    ours: &mut Ends<P, T>,
    plain: &mut Ends<Q, U>,
) -> io::Result<()>
where
    R: Clock + Threads + Wait + Sync + Print + Eprint,
    P: Puts + Send,
    T: Takes + Send,
    Q: Puts + Send,
    U: Takes + Send,
{
    let mut our_laps = Laps::new();
    let mut plain_laps = Laps::new();
    for _ in 0..course.laps {
        time(rt, course, ours, &mut our_laps);
        time(rt, course, plain, &mut plain_laps);
    }
    tell_both(rt, course, what, &our_laps, &plain_laps)
}

fn tell_both<R: Print + Eprint>(
    rt: &R,
    course: BenchCase,
    what: &str,
    ours: &Laps,
    plain: &Laps,
) -> io::Result<()> {
    let (our_each, plain_each) = (ours.each(course.rounds), plain.each(course.rounds));
    tell(
        rt,
        format_args!("{what}: {} taken, plain {} taken", ours.taken, plain.taken),
        format_args!("{what}: {our_each} ns a push with its take, plain {plain_each} ns"),
    )
}

/// Times one queue, and prints it.
pub(crate) fn measure<R, P: Puts + Send, T: Takes + Send>(
    rt: &R,
    course: BenchCase,
    what: &str,
    ends: &mut Ends<P, T>,
) -> io::Result<()>
where
    R: Clock + Threads + Wait + Sync + Print + Eprint,
{
    let mut laps = Laps::new();
    for _ in 0..course.laps {
        time(rt, course, ends, &mut laps);
    }
    let each = laps.each(course.rounds);
    tell(
        rt,
        format_args!("{what}: {} taken", laps.taken),
        format_args!("{what}: {each} ns a push with its take"),
    )
}

/// Times one queue, the pushes of each lap apart from its takes, and prints both.
pub(crate) fn measure_apart<R: Clock + Wait + Print + Eprint, P: Puts, T: Takes>(
    rt: &R,
    course: BenchCase,
    what: &str,
    ends: &mut Ends<P, T>,
) -> io::Result<()> {
    let mut puts = Laps::new();
    let mut takes = Laps::new();
    for _ in 0..course.laps {
        let begin = Instant::now(rt).ok();
        put_some(rt, &mut ends.put, course.rounds);
        puts.add(0, elapsed(rt, begin));
        let begin = Instant::now(rt).ok();
        let taken = take_some(rt, &mut ends.take, course.rounds);
        takes.add(taken, elapsed(rt, begin));
    }
    let (push, take) = (puts.each(course.rounds), takes.each(course.rounds));
    tell(
        rt,
        format_args!("{what}: {} taken", takes.taken),
        format_args!("{what}: {push} ns a push, {take} ns a take"),
    )
}

pub(crate) fn put_some<R: Wait, P: Puts>(rt: &R, end: &mut P, rounds: u64) {
    for number in 0..rounds {
        let _ = end.put(rt, number);
    }
}

/// Takes `rounds` times: how many takes gave something.
fn take_some<R: Wait, T: Takes>(rt: &R, end: &mut T, rounds: u64) -> u64 {
    let mut taken = 0u64;
    for _ in 0..rounds {
        taken = taken.wrapping_add(u64::from(end.take(rt)));
    }
    taken
}
