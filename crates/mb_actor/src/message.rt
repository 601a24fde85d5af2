//! Messages, as an actor receives them.
use mb_msg::ActorId;

/// What an actor is asked to handle.
#[derive(Clone, Copy, Debug, PartialEq, Eq)]
pub enum Message {
    /// A message of some sender: a kind, by which the actor tells messages apart, and a value.
    User { kind: u32, value: i64 },
    /// The same, sent as a control message, which a control-aware mailbox gives first (`akka.dispatch.ControlMessage`).
    Control { kind: u32, value: i64 },
    /// The actor of this number, which this one watches, has stopped (`akka.actor.Terminated`).
    Terminated(ActorId),
}
