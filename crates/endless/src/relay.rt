//! An actor that hands on what it is told.
use heddleorange::{Actor, ActorId, Answer, CallPermit, Cause, Message, Outbox};

/// The kind of the messages that go round.
pub(crate) const STEP: u32 = 1;

/// Tells the next actor what it is told, with a value that is one less, until the value is 1.
#[derive(Drop)]
pub(crate) struct Relay {
    /// Whom it tells.
    pub(crate) next: ActorId,
}

impl Actor for Relay {
    ghost use Rattle.std.specs.Prelude.{pos};

    ghost after = { λ _ _. pos 0 };

    ghost content = { λ _. pos 0 };

    ghost gives = { λ _ _ _. Unit {0} };

    fn start(&mut self, _out: &mut Outbox, _: CallPermit) -> Answer {
        Answer::Handled
    }

    fn receive(&mut self, message: &Message, out: &mut Outbox, _: CallPermit) -> Answer {
        match *message {
            Message::User { kind, value } if value > 1 => {
                if out.tell(self.next, kind, value - 1).is_err() {
                    return Answer::Unhandled;
                }
                Answer::Handled
            }
            Message::User { .. } => Answer::Handled,
            _ => Answer::Unhandled,
        }
    }

    fn restart(&mut self, _cause: Cause, _out: &mut Outbox, _: CallPermit) -> Answer {
        Answer::Handled
    }

    fn stop(&mut self, _out: &mut Outbox, _: CallPermit) {}

    fn state(&self) -> i64 {
        0
    }
}
