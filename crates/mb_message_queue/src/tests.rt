//! What comes out of queues of each type, worked out by hand from the rules of Akka's mailboxes.
use crate::{EnqueueError, MessageQueue};
use mb_msg::{ActorId, Body, Envelope, MailboxType, RankRow, SenderId};
use std::process::Abort;

/// An envelope of this number, to actor 1.
fn envelope(number: u64, body: Body) -> Envelope {
    Envelope {
        by: SenderId(64),
        to: ActorId(1),
        number,
        body,
    }
}

fn user(kind: u32) -> Body {
    Body::User { kind, value: 0 }
}

/// Queues these bodies, numbered from 0.
fn fill(rt: &impl Abort, queue: &mut MessageQueue, bodies: &[Body]) {
    for (number, body) in bodies.iter().enumerate() {
        assert!(rt; queue.enqueue(envelope(number as u64, *body)).is_ok());
    }
}

/// Takes all envelopes out; their numbers have to be these.
fn drain(rt: &impl Abort, queue: &mut MessageQueue, numbers: &[u64]) {
    for number in numbers {
        assert!(rt; queue.dequeue().map(|envelope| envelope.number) == Some(*number));
    }
    assert!(rt; queue.is_empty() && queue.dequeue().is_none());
}

#[test]
fn a_bounded_queue_is_first_in_first_out_and_refuses_what_finds_it_full(rt: HostRuntime) {
    let mut queue = MessageQueue::new(rt.alloc(), MailboxType::Bounded(2));
    fill(&rt, &mut queue, &[user(1), user(2)]);
    assert!(rt; queue.enqueue(envelope(2, user(3))) == Err(EnqueueError::Full));
    drain(&rt, &mut queue, &[0, 1]);
}

#[test]
fn a_priority_queue_gives_the_least_rank_first_and_equal_ranks_in_order(rt: HostRuntime) {
    let mut rows = Vec::new(rt.alloc());
    assert!(rt; rows.push(RankRow { kind: 9, rank: 0 }).is_ok());
    let mut queue = MessageQueue::new(rt.alloc(), MailboxType::Priority { rows, other: 1 });
    fill(
        &rt,
        &mut queue,
        &[user(1), Body::Kill, user(9), user(1), user(9)],
    );
    drain(&rt, &mut queue, &[2, 4, 0, 1, 3]);
}

#[test]
fn a_control_aware_queue_gives_control_messages_first(rt: HostRuntime) {
    let control = Body::Control { kind: 1, value: 0 };
    let mut queue = MessageQueue::new(rt.alloc(), MailboxType::Control);
    fill(&rt, &mut queue, &[user(1), control, user(2), control]);
    drain(&rt, &mut queue, &[1, 3, 0, 2]);
}
