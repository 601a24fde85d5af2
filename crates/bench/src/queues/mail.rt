//! The mailbox queues of the benchmarks.
ghost use Rattle.std.specs.Prelude.{◌≡◌, ◌<◌};
ghost use Rattle.mb_queue.specs.Made.{IsMakeable};

use crate::queues::ends::{Ends, Takes};
use crate::queues::sender::{QueueSender, RECEIVER, SENDER};
use mb_msg::MailboxType;
use mb_queue::{MailQueue, TakePass};
use std::alloc::{AllocError, Global};
use std::sync::Wait;

/// The ends of a new queue of this kind.
pub(crate) fn mail(
    alloc: Global,
    kind: MailboxType,
) -> Result<Ends<QueueSender, TakePass>, AllocError>
    requires { IsMakeable kind }
{
    let (take, mut sends) = MailQueue::new(alloc, kind, RECEIVER, &[SENDER])?;
    let Some(send) = sends.pop() else {
        unreachable!();
    };
    let put = QueueSender::new(send);
    Ok(Ends { put, take })
}

impl Takes for TakePass {
    #[inline(always)]
    fn take<R: Wait>(&mut self, rt: &R) -> bool {
        self.take(rt).is_some()
    }
}
