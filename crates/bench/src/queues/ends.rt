//! The two ends of a queue, as traits, and moving items from one to the other.
use std::sync::Wait;
use std::thread;
use std::thread::Threads;

/// An end to push envelopes to.
pub trait Puts {
    /// Pushes the envelope of this number; whether it was done.
    fn put<R: Wait>(&mut self, rt: &R, number: u64) -> bool;
}

/// An end to take envelopes from.
pub trait Takes {
    /// Takes an envelope; whether there was one.
    fn take<R: Wait>(&mut self, rt: &R) -> bool;
}

/// Both ends of a queue.
#[derive(Drop)]
pub struct Ends<P, T> {
    pub put: P,
    pub take: T,
}

/// Each push with its take, on this thread: how many were taken.
pub(crate) fn alone<R: Wait, P: Puts, T: Takes>(rt: &R, ends: &mut Ends<P, T>, rounds: u64) -> u64 {
    let mut taken = 0u64;
    for number in 0..rounds {
        let _ = ends.put.put(rt, number);
        taken = taken.wrapping_add(u64::from(ends.take.take(rt)));
    }
    taken
}

/// The pushes on a thread of their own, and the takes on this one: how many were taken.
pub(crate) fn paired<R: Threads + Wait + Sync, P: Puts + Send, T: Takes + Send>(
    rt: &R,
    ends: &mut Ends<P, T>,
    rounds: u64,
) -> u64 {
    let put = &mut ends.put;
    let take = &mut ends.take;
    thread::join(
        rt,
        || put_all(rt, put, rounds),
        || take_all(rt, take, rounds),
    )
    .1
}

/// Pushes `rounds` envelopes, each until it succeeds.
fn put_all<R: Wait, P: Puts>(rt: &R, end: &mut P, rounds: u64) {
    for number in 0..rounds {
        put_at_last(rt, end, number);
    }
}

fn put_at_last<R: Wait, P: Puts>(rt: &R, end: &mut P, number: u64) {
    for _ in rt.forever() {
        if end.put(rt, number) {
            return;
        }
        thread::yield_now();
    }
}

/// Takes until there were `rounds`.
fn take_all<R: Wait, T: Takes>(rt: &R, end: &mut T, rounds: u64) -> u64 {
    let mut taken = 0u64;
    for _ in rt.forever() {
        if taken >= rounds {
            break;
        }
        if end.take(rt) {
            taken = taken.wrapping_add(1);
        } else {
            thread::yield_now();
        }
    }
    taken
}
