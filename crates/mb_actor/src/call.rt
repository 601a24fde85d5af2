//! The calls of an actor.
use crate::message::Message;
use mb_msg::Cause;

/// A call of an actor (the hooks of `akka.actor.Actor`).
#[derive(Clone, Copy, Debug, PartialEq, Eq)]
pub enum Call {
    /// `preStart`.
    Start,
    /// `receive`, with this message.
    Receive(Message),
    /// `preRestart` and `postRestart`, after this failure.
    Restart(Cause),
    /// `postStop`.
    Stop,
}
