//! Looking, putting, telling and stopping.

use crate::sends::desk::{FIRST, GUARDIAN, NOBODY, SECOND, Target};
use crate::sends::outside::{ME, Outside};
use mb_msg::{ActorId, Body, DeadLetter, DeadLetterReason, Envelope, Payload};
use mb_send::{SendError, SendOutcome};
use std::alloc::Global;
use std::process::Abort;
use std::sync::Wait;
use std::test::Fail;

/// A call, and its answer.
#[derive(Clone, Copy)]
pub enum SendStep {
    /// Looks whether the receiver is open: for whom the ticket is, if it is.
    Look(ActorId, Result<Option<ActorId>, SendError>),
    /// Sends an envelope to the receiver.
    Tell(ActorId, Result<SendOutcome, SendError>),
    /// Sends an envelope to the first actor, by the ticket that a look gave.
    PutFirst(Result<SendOutcome, SendError>),
    /// Stops the actor.
    Stop(ActorId, Result<bool, SendError>),
    /// Ends the actor, where it is not held: whether it is.
    Close(Target, bool),
    /// How many envelopes are counted as waiting for the actor.
    Waiting(Target, u64),
    /// Whether there is system work for the actor.
    HasSystem(Target, bool),
    /// Whether a look is owed to the actor.
    Owes(Target, bool),
    /// How many envelopes the sender was answered for.
    Sent(u64),
    /// The dead letter at this place in its log.
    Dead(usize, Option<DeadLetter>),
}

/// What is sent.
pub const HELLO: Payload = Payload::User { kind: 1, value: 7 };

/// The body of its envelopes.
const HELLO_BODY: Body = Body::User { kind: 1, value: 7 };

/// The envelope that found the second actor's queue full.
const FULL: DeadLetter = DeadLetter {
    envelope: Envelope {
        by: ME,
        to: SECOND,
        number: 4,
        body: HELLO_BODY,
    },
    why: DeadLetterReason::Full,
};

const TOLD: [SendStep; 21] = [
    // Nothing goes to the guardian, or to nobody.
    SendStep::Look(GUARDIAN, Err(SendError::NoSuchActor)),
    SendStep::Look(NOBODY, Err(SendError::NoSuchActor)),
    SendStep::Tell(GUARDIAN, Err(SendError::NoSuchActor)),
    SendStep::Tell(NOBODY, Err(SendError::NoSuchActor)),
    SendStep::Stop(NOBODY, Err(SendError::NoSuchActor)),
    SendStep::Sent(0),
    // Envelopes are numbered over all receivers, and counted.
    SendStep::Look(FIRST, Ok(Some(FIRST))),
    SendStep::Tell(FIRST, Ok(SendOutcome::Queued(0))),
    SendStep::Tell(SECOND, Ok(SendOutcome::Queued(1))),
    SendStep::PutFirst(Ok(SendOutcome::Queued(2))),
    SendStep::Sent(3),
    SendStep::Waiting(Target::First, 2),
    SendStep::Waiting(Target::Second, 1),
    // The run queue has one place, and the claim of the first actor is in it.
    SendStep::Owes(Target::First, false),
    SendStep::Owes(Target::Second, true),
    // What finds the queue full is a dead letter.
    SendStep::Tell(SECOND, Ok(SendOutcome::Queued(3))),
    SendStep::Tell(SECOND, Ok(SendOutcome::Dead(4, DeadLetterReason::Full))),
    SendStep::Tell(FIRST, Ok(SendOutcome::Queued(5))),
    SendStep::Dead(0, Some(FULL)),
    SendStep::Dead(1, None),
    SendStep::Waiting(Target::Second, 2),
];

/// The envelope that found the first actor ended.
const CLOSED: DeadLetter = DeadLetter {
    envelope: Envelope {
        by: ME,
        to: FIRST,
        number: 0,
        body: HELLO_BODY,
    },
    why: DeadLetterReason::Closed,
};

const ENDED: [SendStep; 15] = [
    // What is told to an ended actor is a dead letter.
    SendStep::Look(FIRST, Ok(Some(FIRST))),
    SendStep::Close(Target::First, true),
    SendStep::Look(FIRST, Ok(None)),
    SendStep::Tell(FIRST, Ok(SendOutcome::Dead(0, DeadLetterReason::Closed))),
    SendStep::Dead(0, Some(CLOSED)),
    SendStep::Tell(SECOND, Ok(SendOutcome::Queued(1))),
    SendStep::Waiting(Target::First, 0),
    // A ticket from before may be used still.
    SendStep::PutFirst(Ok(SendOutcome::Queued(2))),
    SendStep::Owes(Target::First, false),
    // An actor is told to stop, the guardian too, unless its list is ended.
    SendStep::HasSystem(Target::Guardian, false),
    SendStep::Stop(GUARDIAN, Ok(true)),
    SendStep::HasSystem(Target::Guardian, true),
    SendStep::Owes(Target::Guardian, true),
    SendStep::Stop(FIRST, Ok(false)),
    SendStep::Owes(Target::First, false),
];

/// Tries each step of a story.
fn play<R: Abort + Wait>(rt: &R, outside: &mut Outside, story: &[SendStep]) {
    for &step in story {
        assert!(rt; outside.answers(rt, step));
    }
}

/// The same from three actors with nothing to do.
fn try_each<R: Abort + Wait>(rt: &R, alloc: Global, story: &[SendStep]) -> Result<(), Fail> {
    let mut outside = Outside::new(alloc)?;
    play(rt, &mut outside, story);
    Ok(())
}

#[test]
fn each_sending_answers_as_the_stories_say(rt: HostRuntime) -> Result<(), Fail> {
    try_each(&rt, rt.alloc(), &TOLD)?;
    try_each(&rt, rt.alloc(), &ENDED)
}
