//! Which envelope of a queue goes next.
ghost use Rattle.std.specs.Prelude.{◌≡◌, ◌<◌, length};
ghost use Rattle.std.specs.List.{IsFirstBest};
ghost use Rattle.mb_message_queue.specs.MessageQueue.{compared as compared_of, goes_before as is_before, is_control as is_control_body};

use crate::ranks::rank_of;
use mb_msg::{Body, Envelope, MailboxType};

/// How many envelopes of a priority mailbox are compared.
const COMPARED: usize = 1024;

/// The place of the envelope that goes next: the first before which no other goes.
pub(crate) fn next_place(mailbox: &MailboxType, envelopes: &[Envelope]) -> usize
    requires { 0 < length envelopes.now }
    ensures { IsFirstBest (is_before mailbox.now) envelopes.now (compared_of mailbox.now (length envelopes.now)) result }
{
    let mut best = 0;
    for i in 1..compared(mailbox, envelopes.len()) {
        if goes_before(mailbox, &envelopes[i], &envelopes[best]) {
            best = i;
        }
    }
    best
}

/// How many of so many envelopes are compared.
fn compared(mailbox: &MailboxType, envelopes: usize) -> usize
    ensures { result ≡ compared_of mailbox.now envelopes }
{
    match mailbox {
        MailboxType::Priority { .. } => envelopes.min(COMPARED),
        MailboxType::Unbounded | MailboxType::Bounded(_) | MailboxType::Control => envelopes,
    }
}

/// Whether the first envelope goes before the second, whichever came first.
fn goes_before(mailbox: &MailboxType, first: &Envelope, second: &Envelope) -> bool
    ensures { result ≡ is_before mailbox.now first.now second.now }
{
    match mailbox {
        MailboxType::Unbounded | MailboxType::Bounded(_) => false,
        MailboxType::Priority { rows, other } => {
            rank_of(rows, *other, first.body) < rank_of(rows, *other, second.body)
        }
        MailboxType::Control => is_control(first.body) && !is_control(second.body),
    }
}

fn is_control(body: Body) -> bool
    ensures { result ≡ is_control_body body }
{
    match body {
        Body::Control { .. } => true,
        Body::User { .. } | Body::PoisonPill | Body::Kill | Body::Terminated(_) => false,
    }
}
