//! What a typed actor receives.
ghost use Rattle.std.specs.Prelude.{◌≡◌};
ghost use Rattle.mb_typed.specs.Decoding.{command_or_none, decoded};

use crate::command::Command;
use crate::packed::Packed;
use mb_actor::Message;
use mb_msg::ActorId;

/// What a typed actor is asked to handle.
#[derive(Drop)]
pub enum Incoming<C: Drop> {
    /// A command, whether it was sent as a control message or not.
    Command(C),
    /// The actor of this number, which this one watches, has stopped (`akka.actor.Terminated`).
    Terminated(ActorId),
}

impl<C: Command> Incoming<C> {
    /// What this message is for an actor that is told commands of this type; `None` for one that is no such command.
    pub fn of(message: &Message) -> Option<Self>
        ensures { result ≡ decoded C.unpacked message.now }
    {
        match *message {
            Message::User { kind, value } => Incoming::unpack(Packed { kind, value }),
            Message::Control { kind, value } => Incoming::unpack(Packed { kind, value }),
            Message::Terminated(id) => Some(Incoming::Terminated(id)),
        }
    }

    /// The command that these stand for, if any.
    fn unpack(packed: Packed) -> Option<Self>
        ensures { result ≡ command_or_none (C.unpacked packed) }
    {
        match C::unpack(packed) {
            Some(command) => Some(Incoming::Command(command)),
            None => None,
        }
    }
}
