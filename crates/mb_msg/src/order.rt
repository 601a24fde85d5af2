//! What senders outside the actors are to send.
ghost use Rattle.std.specs.Prelude.{◌≡◌, ℤ};
ghost use Rattle.mb_msg.specs.declared.order.OrderKind.TheVariants.{Stop, Tell};
ghost use Rattle.mb_msg.specs.declared.payload.Payload.TheVariants.{User};

use crate::id::ActorId;
use crate::payload::Payload;

/// What is sent to an actor from outside the system.
#[derive(Clone, Copy, Debug, PartialEq, Eq)]
pub enum OrderKind {
    /// An envelope that carries this (`ActorRef.tell`).
    Tell(Payload),
    /// A Terminate, which is no envelope (`ActorSystem.stop`).
    Stop,
}

/// Something that a sender outside the actors is to send. (This project's own profile: in Akka whoever has a reference sends.)
#[derive(Clone, Copy, Debug, PartialEq, Eq)]
pub struct Order {
    /// To whom: an envelope to an actor from number 1 on, a Terminate also to the guardian.
    pub to: ActorId,
    /// What is sent each time.
    pub what: OrderKind,
    /// How often, one after the other.
    pub times: u32,
}

impl Order {
    /// The order to send this actor a message of this kind and value once (`ActorRef.tell`).
    pub fn tell(to: ActorId, kind: u32, value: i64) -> Order
        ensures { result ≡ record { to = to; what = Tell (User kind value); times = 1 } }
    {
        Order {
            to,
            what: OrderKind::Tell(Payload::User { kind, value }),
            times: 1,
        }
    }

    /// The order to stop this actor (`ActorSystem.stop`).
    pub fn stop(to: ActorId) -> Order
        ensures { result ≡ record { to = to; what = Stop; times = 1 } }
    {
        Order {
            to,
            what: OrderKind::Stop,
            times: 1,
        }
    }
}

/// An order, and the sender that is to carry it out.
#[derive(Clone, Copy, Debug, PartialEq, Eq)]
pub struct SenderOrder {
    /// The sender, the first being 0.
    pub from: u32,
    /// Its order.
    pub order: Order,
}
