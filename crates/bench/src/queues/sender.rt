//! The sender of the mailbox queues.
ghost use Rattle.std.specs.Prelude.{◌≡◌};

use crate::queues::ends::Puts;
use mb_msg::{ActorId, Body, Envelope, SenderId};
use mb_queue::SendPass;
use std::sync::Wait;

pub const SENDER: SenderId = SenderId(1);

pub const RECEIVER: ActorId = ActorId(2);

/// The `number`th envelope, of four kinds in turn.
pub(crate) fn nth(number: u64) -> Envelope
    ensures { (result.by.0 ≡ 1) × (result.to.0 ≡ 2) }
{
    Envelope {
        by: SENDER,
        to: RECEIVER,
        number,
        body: Body::User {
            kind: (number % 4) as u32,
            value: 1,
        },
    }
}

/// The send pass of that sender, to that receiver.
#[derive(Drop)]
pub struct QueueSender {
    pass: SendPass,
    ghost addressed: { (pass.by ≡ 1) × (pass.queue.to ≡ 2) },
}

impl QueueSender {
    pub(crate) fn new(pass: SendPass) -> QueueSender
        requires { (pass.by ≡ 1) × (pass.queue.to ≡ 2) }
    {
        QueueSender { pass }
    }
}

impl Puts for QueueSender {
    #[inline(always)]
    fn put<R: Wait>(&mut self, rt: &R, number: u64) -> bool {
        self.pass.push(rt, nth(number)).is_ok()
    }
}
