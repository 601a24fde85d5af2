//! The calls of a typed actor.
use crate::incoming::Incoming;
use mb_msg::Cause;

/// A call of a typed actor: one of an actor, with what it receives unpacked.
#[derive(Drop)]
pub enum TypedCall<C: Drop> {
    /// `preStart`.
    Start,
    /// `receive`, with this.
    Receive(Incoming<C>),
    /// `preRestart` and `postRestart`, after this failure.
    Restart(Cause),
    /// `postStop`.
    Stop,
}
