//! Calls on a queue, as data, and what each has to answer.
ghost use Rattle.std.specs.Prelude.{◌≡◌};

use crate::sends::queues::mail::{NEAR, control, pushed, queue, user, value_taken};
use crate::sends::queues::queue_kind::QueueKind;
use mb_queue::{SendPass, TakePass};
use std::alloc::{AllocError, Global};
use std::sync::Wait;

/// One call or several, with the answers.
#[derive(Clone, Copy)]
pub enum QueueStep {
    /// A user message of this kind and value is queued.
    Queued(u32, i64),
    /// User messages of kind 1 are queued, of each value from 0 up to this one.
    AllQueued(i64),
    /// A control message of this value is queued.
    ControlQueued(i64),
    /// A user message of this kind and value comes back from a full queue.
    Full(u32, i64),
    /// The message of this value is taken.
    Taken(i64),
    /// Those of each value from the first up to the second are taken, in this order.
    AllTaken(i64, i64),
}

/// Whether all steps have their answers, in a new queue, and nothing is left then. Where a push is refused memory it is
/// retried, if `again` is set.
pub fn is_run<R: Wait>(
    rt: &R,
    alloc: Global,
    sort: QueueKind,
    course: &[QueueStep],
    again: bool,
) -> Result<bool, AllocError> {
    let (mut take, mut near, far) = queue(alloc, sort)?;
    let is_so = all_go(rt, &mut take, &mut near, course, again);
    take.join(near);
    take.join(far);
    Ok(is_so && take.take(rt).is_none())
}

fn all_go<R: Wait>(
    rt: &R,
    take: &mut TakePass,
    near: &mut SendPass,
    course: &[QueueStep],
    again: bool,
) -> bool
    requires { (near.old.by ≡ 1) × (near.old.queue.to ≡ 2) }
    ensures taker { take.new.queue ≡ take.old.queue }
    ensures sender { (near.new.queue ≡ near.old.queue) × (near.new.by ≡ near.old.by) }
{
    let mut are_so = true;
    for step in course {
        are_so &= goes(rt, take, near, *step, again);
    }
    are_so
}

fn goes<R: Wait>(
    rt: &R,
    take: &mut TakePass,
    near: &mut SendPass,
    step: QueueStep,
    again: bool,
) -> bool
    requires { (near.old.by ≡ 1) × (near.old.queue.to ≡ 2) }
    ensures taker { take.new.queue ≡ take.old.queue }
    ensures sender { (near.new.queue ≡ near.old.queue) × (near.new.by ≡ near.old.by) }
{
    match step {
        QueueStep::Queued(kind, value) => {
            pushed(rt, near, user(NEAR, 0, kind, value), again) == Some(true)
        }
        QueueStep::AllQueued(handle) => are_queued(rt, near, handle, again),
        QueueStep::ControlQueued(value) => {
            pushed(rt, near, control(NEAR, 0, value), again) == Some(true)
        }
        QueueStep::Full(kind, value) => {
            pushed(rt, near, user(NEAR, 0, kind, value), again) == Some(false)
        }
        QueueStep::Taken(value) => value_taken(rt, take) == Some(value),
        QueueStep::AllTaken(from, handle) => are_taken(rt, take, from, handle),
    }
}

fn are_queued<R: Wait>(rt: &R, near: &mut SendPass, handle: i64, again: bool) -> bool
    requires { (near.old.by ≡ 1) × (near.old.queue.to ≡ 2) }
    ensures sender { (near.new.queue ≡ near.old.queue) × (near.new.by ≡ near.old.by) }
{
    let mut are_so = true;
    for value in 0..handle {
        are_so &= pushed(rt, near, user(NEAR, 0, 1, value), again) == Some(true);
    }
    are_so
}

fn are_taken<R: Wait>(rt: &R, take: &mut TakePass, from: i64, handle: i64) -> bool
    ensures { take.new.queue ≡ take.old.queue }
{
    let mut are_so = true;
    for value in from..handle {
        are_so &= value_taken(rt, take) == Some(value);
    }
    are_so
}
