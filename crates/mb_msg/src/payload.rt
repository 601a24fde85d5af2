//! What senders outside the actors may send.
ghost use Rattle.std.specs.Prelude.{◌≡◌};
ghost use Rattle.mb_msg.specs.Payload.{body_of};

use crate::envelope::Body;

/// What an envelope carries that a sender outside the actors sends. It can't be a `Terminated`, which an actor's own cell alone
/// puts into its mailbox. (In Akka the constructor of
/// `akka.actor.Terminated` is `private[akka]`.)
#[derive(Clone, Copy, Debug, PartialEq, Eq)]
pub enum Payload {
    /// A message for the actor itself: a kind, by which the actor tells messages apart, and a value.
    User { kind: u32, value: i64 },
    /// A message that a control-aware mailbox gives before all others (`akka.dispatch.ControlMessage`); elsewhere it
    /// is one like any other.
    Control { kind: u32, value: i64 },
    /// Stops the actor once the messages before it are handled (`akka.actor.PoisonPill`).
    PoisonPill,
    /// Makes the actor fail (`akka.actor.Kill`).
    Kill,
}

/// The body of the same name.
impl From<Payload> for Body {
    ghost from_gives = { λ payload body. body ≡ body_of payload };

    fn from(payload: Payload) -> Body {
        match payload {
            Payload::User { kind, value } => Body::User { kind, value },
            Payload::Control { kind, value } => Body::Control { kind, value },
            Payload::PoisonPill => Body::PoisonPill,
            Payload::Kill => Body::Kill,
        }
    }
}
