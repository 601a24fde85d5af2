//! An actor that watches another, and handles nothing but its Terminated.
ghost use Rattle.std.specs.Prelude.{◌≡◌};

use mb_actor::{Actor, Answer, CallPermit, Message, Outbox};
use mb_msg::{ActorId, Cause};

/// An actor that watches another.
#[derive(Drop)]
pub struct Watcher {
    /// The actor that it watches.
    pub of: ActorId,
}

impl Actor for Watcher {
    ghost use Rattle.std.specs.Prelude.{pos};

    ghost after = { λ _ _. pos 0 };

    ghost content = { λ _. pos 0 };

    ghost gives = { λ _ _ _. Unit {0} };

    fn start(&mut self, out: &mut Outbox, _: CallPermit) -> Answer {
        let _refused = out.watch(self.of);
        Answer::Handled
    }

    fn receive(&mut self, message: &Message, _out: &mut Outbox, _: CallPermit) -> Answer {
        match message {
            Message::Terminated(_) => Answer::Handled,
            _ => Answer::Unhandled,
        }
    }

    fn restart(&mut self, _cause: Cause, _out: &mut Outbox, _: CallPermit) -> Answer {
        Answer::Handled
    }

    fn stop(&mut self, _out: &mut Outbox, _: CallPermit) {}

    fn state(&self) -> i64 {
        0
    }
}
