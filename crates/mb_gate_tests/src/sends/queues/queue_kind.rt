//! The kinds of queues that are tested.
ghost use Rattle.std.specs.Prelude.{IfOk};
ghost use Rattle.mb_queue.specs.Made.{IsMakeable};

use mb_msg::{MailboxType, RankRow};
use std::alloc::{AllocError, Global};

/// A kind of queue, as data.
#[derive(Clone, Copy)]
pub enum QueueKind {
    Unbounded,
    /// Bounded, with this many places.
    OfOne,
    OfTwo,
    OfSixteen,
    Control,
    /// By rank: user messages of kind 9 go before all others.
    Ranked,
}

pub fn kind_of(alloc: Global, sort: QueueKind) -> Result<MailboxType, AllocError>
    ensures { IfOk result IsMakeable }
{
    match sort {
        QueueKind::Unbounded => Ok(MailboxType::Unbounded),
        QueueKind::OfOne => Ok(MailboxType::Bounded(1)),
        QueueKind::OfTwo => Ok(MailboxType::Bounded(2)),
        QueueKind::OfSixteen => Ok(MailboxType::Bounded(16)),
        QueueKind::Control => Ok(MailboxType::Control),
        QueueKind::Ranked => ranked(alloc),
    }
}

fn ranked(alloc: Global) -> Result<MailboxType, AllocError>
    ensures { IfOk result IsMakeable }
{
    let mut rows = Vec::new(alloc);
    rows.push(RankRow { kind: 9, rank: 0 })?;
    Ok(MailboxType::Priority { rows, other: 1 })
}
