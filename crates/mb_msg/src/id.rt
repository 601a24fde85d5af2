//! The numbers of actors and of senders.
ghost use Rattle.std.specs.Prelude.{◌≡◌};
ghost use Rattle.mb_msg.specs.Sender.{outside_sender};

use crate::limits::{ACTORS, OUTSIDE_SENDERS};

/// The number of an actor, from 0. Actor 0 is the guardian, the parent of all that have no other
/// (Akka's user guardian).
#[derive(Clone, Copy, Debug, PartialEq, Eq, PartialOrd, Ord, Hash)]
pub struct ActorId(pub u16);

/// The number of a sender: an actor's own number, or 64 and more for a sender outside the actors.
#[derive(Clone, Copy, Debug, PartialEq, Eq, PartialOrd, Ord, Hash)]
pub struct SenderId(pub u32);

impl SenderId {
    /// The number of this sender outside the actors, counted from 0; `None` from the 17th on, which no plan has.
    pub fn outside(sender: u32) -> Option<SenderId>
        ensures { result ≡ outside_sender sender }
    {
        if sender < OUTSIDE_SENDERS {
            Some(SenderId(ACTORS + sender))
        } else {
            None
        }
    }
}
