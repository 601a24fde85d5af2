//! Envelopes: what is sent to an actor's mailbox.
use crate::id::{ActorId, SenderId};

/// What an envelope carries (the messages that Akka's `ActorCell.receiveMessage` and `autoReceiveMessage` tell apart).
#[derive(Clone, Copy, Debug, PartialEq, Eq)]
pub enum Body {
    /// A message for the actor itself: a kind, by which the actor tells messages apart, and a value.
    User { kind: u32, value: i64 },
    /// A message that a control-aware mailbox gives before all others (`akka.dispatch.ControlMessage`); elsewhere it
    /// is one like any other.
    Control { kind: u32, value: i64 },
    /// Stops the actor once the messages before it are handled.
    PoisonPill,
    /// Makes the actor fail.
    Kill,
    /// The actor of this number, which the receiver watches, has stopped.
    Terminated(ActorId),
}

/// A message on its way (`akka.dispatch.Envelope`). Its sender and its number name it: of all envelopes of one sender
/// each has a number of its own.
///
/// With its fields in this order an envelope takes 32 bytes. Envelopes compare by them in this order; no rule depends
/// on that.
#[derive(Clone, Copy, Debug, PartialEq, Eq)]
pub struct Envelope {
    /// Who sent it.
    pub by: SenderId,
    /// Who is to handle it.
    pub to: ActorId,
    /// The sender's running number, from 0, over all receivers.
    pub number: u64,
    /// What it carries.
    pub body: Body,
}

const _: () = prove!(size_of::<Envelope>() == 32);
