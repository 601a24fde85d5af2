//! A queue of two senders, with wrappers of the calls that have only as much of the contracts as the tests need.
ghost use Rattle.std.specs.Prelude.{◌≡◌, [], ◌∷◌, IfOk};

use crate::sends::queues::queue_kind::{QueueKind, kind_of};
use mb_msg::{ActorId, Body, Envelope, SenderId};
use mb_queue::{MailQueue, PushError, SendPass, TakePass};
use std::alloc::{AllocError, Global};
use std::sync::Wait;

/// The actor of every queue here.
pub const ME: ActorId = ActorId(2);

/// The two senders of every queue here.
pub const NEAR: SenderId = SenderId(1);

pub const FAR: SenderId = SenderId(64);

pub fn user(by: SenderId, number: u64, kind: u32, value: i64) -> Envelope
    ensures { (result.by ≡ by) × (result.to.0 ≡ 2) }
{
    Envelope {
        by,
        to: ME,
        number,
        body: Body::User { kind, value },
    }
}

pub fn control(by: SenderId, number: u64, value: i64) -> Envelope
    ensures { (result.by ≡ by) × (result.to.0 ≡ 2) }
{
    Envelope {
        by,
        to: ME,
        number,
        body: Body::Control { kind: 1, value },
    }
}

/// A queue and the passes of its two senders.
pub fn queue(alloc: Global, sort: QueueKind) -> Result<(TakePass, SendPass, SendPass), AllocError>
    ensures queue { IfOk result (λ r. (r.1.queue ≡ r.0.queue) × (r.2.queue ≡ r.0.queue)) }
    ensures senders { IfOk result (λ r. (r.1.by ≡ 1) × (r.2.by ≡ 64)) }
    ensures actor { IfOk result (λ r. r.0.queue.to ≡ 2) }
    ensures all { IfOk result (λ r. r.0.queue.senders ≡ 1 ∷ 64 ∷ []) }
{
    let kind = kind_of(alloc, sort)?;
    let (take, mut sends) = MailQueue::new(alloc, kind, ME, &[NEAR, FAR])?;
    let Some(far) = sends.pop() else {
        unreachable!();
    };
    let Some(near) = sends.pop() else {
        unreachable!();
    };
    Ok((take, near, far))
}

/// Whether the push was done; if not, the envelope came back. Where memory was refused, the push is retried if `again`
/// is set.
pub fn pushed<R: Wait>(rt: &R, pass: &mut SendPass, envelope: Envelope, again: bool) -> Option<bool>
    requires { (envelope.by.0 ≡ pass.old.by) × (envelope.to.0 ≡ pass.old.queue.to) }
    ensures { (pass.new.queue ≡ pass.old.queue) × (pass.new.by ≡ pass.old.by) }
{
    match pass.push(rt, envelope) {
        Ok(()) => Some(true),
        Err(PushError::Full(back)) => (back == envelope).then_some(false),
        Err(PushError::NoMemory(back)) => {
            (again && back == envelope && pass.push(rt, envelope).is_ok()).then_some(true)
        }
    }
}

pub fn taken<R: Wait>(rt: &R, take: &mut TakePass) -> Option<Envelope>
    ensures { take.new.queue ≡ take.old.queue }
{
    take.take(rt)
}

/// The value of the message that is taken, if there is one.
pub fn value_taken<R: Wait>(rt: &R, take: &mut TakePass) -> Option<i64>
    ensures { take.new.queue ≡ take.old.queue }
{
    match taken(rt, take)?.body {
        Body::User { value, .. } | Body::Control { value, .. } => Some(value),
        _ => None,
    }
}
