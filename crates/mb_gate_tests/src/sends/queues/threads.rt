//! Tests with two senders and a taker, each on its own thread, for each kind of queue.
ghost use Rattle.std.specs.Prelude.{◌≡◌};
ghost use Rattle.mb_queue.specs.Fates.{AllJoined, InOrder};
ghost use Rattle.mb_queue.specs.Passes.{first_in_first_out};
ghost use Rattle.mb_queue.specs.Takes.{EachOnce};

use crate::sends::queues::mail::{FAR, NEAR, control, pushed, queue, taken, user};
use crate::sends::queues::queue_kind::QueueKind;
use mb_msg::{Envelope, SenderId};
use mb_queue::{SendPass, TakePass};
use std::alloc::{AllocError, Global};
use std::sync::Wait;
use std::test::Fail;
use std::thread;
use std::thread::Threads;

/// How many envelopes each sending thread pushes.
const EACH: u64 = 1_000;

/// How often a thread tries.
const TURNS: u64 = 100_000_000;

/// What a sending thread pushes: the even numbers are one part and the odd ones another.
#[derive(Clone, Copy)]
struct Parts {
    /// Whether even numbers are control messages; else they are user messages of kind 9.
    has_control: bool,
    /// Whether each part comes in its own order; else all come in one order.
    are_two: bool,
}

const IN_ONE: Parts = Parts {
    has_control: false,
    are_two: false,
};

const BY_RANK: Parts = Parts {
    has_control: false,
    are_two: true,
};

const CONTROL_FIRST: Parts = Parts {
    has_control: true,
    are_two: true,
};

const QUEUES: [(&str, QueueKind, Parts); 4] = [
    ("unbounded", QueueKind::Unbounded, IN_ONE),
    ("bounded", QueueKind::OfSixteen, IN_ONE),
    ("by rank", QueueKind::Ranked, BY_RANK),
    ("control-aware", QueueKind::Control, CONTROL_FIRST),
];

#[test]
fn all_come_among_threads(rt: HostRuntime) -> Result<(), Fail> {
    for (name, sort, parts) in QUEUES {
        assert!(rt; run_three(&rt, rt.alloc(), sort, parts)?, "{name}");
    }
    Ok(())
}

/// Two threads push and a third takes; then the passes are joined, and nothing is left. Whether all envelopes of both
/// senders come once, and nothing else, those of each sender and part in order.
fn run_three<R: Threads + Wait + Sync>(
    rt: &R,
    alloc: Global,
    sort: QueueKind,
    parts: Parts,
) -> Result<bool, AllocError> {
    let (take, near, far) = queue(alloc, sort)?;
    let (near, (far, (mut take, all_come))) = thread::join(
        rt,
        move ||
            requires { (near.by ≡ 1) × (near.queue.to ≡ 2) }
            ensures { (result.queue ≡ near.queue) × (result.by ≡ near.by) }
        { push_all(rt, near, NEAR, parts) },
        move ||
            requires { (far.by ≡ 64) × (far.queue.to ≡ 2) }
            ensures { (result.0.queue ≡ far.queue) × (result.0.by ≡ far.by) × (result.1.0.queue ≡ take.queue) }
        { push_and_take(rt, far, take, parts) },
    );
    take.join(near);
    take.join(far);
    let None = take.take(rt) else {
        return Ok(false);
    };
    expect_all_taken(&take);
    Ok(all_come)
}

/// What the contracts say at the end: each envelope of both senders was taken once, and first in, first out in the
/// sender's order.
fn expect_all_taken(take: &TakePass)
    requires each_once { AllJoined take.now × EachOnce take.now }
    requires in_order { take.now.discipline ≡ first_in_first_out → InOrder take.now }
{
    let _ = take;
}

/// The second sender and the taker, each on its thread.
fn push_and_take<R: Threads + Wait + Sync>(
    rt: &R,
    far: SendPass,
    take: TakePass,
    parts: Parts,
) -> (SendPass, (TakePass, bool))
    requires { (far.by ≡ 64) × (far.queue.to ≡ 2) }
    ensures { (result.0.queue ≡ far.queue) × (result.0.by ≡ far.by) × (result.1.0.queue ≡ take.queue) }
{
    thread::join(
        rt,
        move ||
            requires { (far.by ≡ 64) × (far.queue.to ≡ 2) }
            ensures { (result.queue ≡ far.queue) × (result.by ≡ far.by) }
        { push_all(rt, far, FAR, parts) },
        move ||
            ensures { result.0.queue ≡ take.queue }
        { take_all(rt, take, parts) },
    )
}

/// Pushes all envelopes of one sender, each until it succeeds.
fn push_all<R: Wait>(rt: &R, mut pass: SendPass, by: SenderId, parts: Parts) -> SendPass
    requires { (pass.by ≡ by.0) × (pass.queue.to ≡ 2) }
    ensures { (result.queue ≡ pass.queue) × (result.by ≡ pass.by) }
{
    for number in 0..EACH {
        push_one(rt, &mut pass, nth(by, number, parts));
    }
    pass
}

/// An envelope of a thread's, by the part of its number.
fn nth(by: SenderId, number: u64, parts: Parts) -> Envelope
    ensures { (result.by ≡ by) × (result.to.0 ≡ 2) }
{
    if number % 2 == 1 {
        user(by, number, 1, 0)
    } else if parts.has_control {
        control(by, number, 0)
    } else {
        user(by, number, 9, 0)
    }
}

fn push_one<R: Wait>(rt: &R, pass: &mut SendPass, envelope: Envelope)
    requires { (envelope.by.0 ≡ pass.old.by) × (envelope.to.0 ≡ pass.old.queue.to) }
    ensures { (pass.new.queue ≡ pass.old.queue) × (pass.new.by ≡ pass.old.by) }
{
    for _round in 0..TURNS {
        if pushed(rt, pass, envelope, false) == Some(true) {
            return;
        }
        thread::yield_now();
    }
}

/// Takes as many as both senders push; whether each was due.
fn take_all<R: Wait>(rt: &R, mut take: TakePass, parts: Parts) -> (TakePass, bool)
    ensures { result.0.queue ≡ take.queue }
{
    let mut due = if parts.are_two { [0, 1, 0, 1] } else { [0; 4] };
    let mut count = 0u64;
    let mut are_due = true;
    for _round in 0..TURNS {
        if count >= 2 * EACH {
            break;
        }
        match taken(rt, &mut take) {
            Some(envelope) => {
                are_due &= is_next(&mut due, envelope, parts);
                count = count.wrapping_add(1);
            }
            None => thread::yield_now(),
        }
    }
    (take, are_due && count == 2 * EACH)
}

/// Whether this envelope's number is the one that is due for its sender and part; then the next one is due.
fn is_next(due: &mut [u64; 4], envelope: Envelope, parts: Parts) -> bool {
    let is_odd = parts.are_two && envelope.number % 2 == 1;
    let place = match (envelope.by == FAR, is_odd) {
        (false, false) => 0,
        (false, true) => 1,
        (true, false) => 2,
        (true, true) => 3,
    };
    let Some(next) = due.get_mut(place) else {
        return false;
    };
    let is_next = envelope.number == *next && envelope.number < EACH;
    *next = next.wrapping_add(if parts.are_two { 2 } else { 1 });
    is_next
}
