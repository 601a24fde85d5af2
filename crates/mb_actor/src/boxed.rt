//! Boxed actors.
ghost use Rattle.std.specs.Prelude.{◌≡◌};

use crate::actor::Actor;
use crate::answer::Answer;
use crate::history::CallPermit;
use crate::message::Message;
use crate::outbox::Outbox;
use mb_msg::Cause;

/// A box of any actor is an actor: each call is one of the actor in it.
impl Actor for Box<dyn Actor + Send> {
    ghost after = { λ b. (Actor-box b).after b.value };

    ghost content = { λ b. (Actor-box b).content b.value };

    ghost gives = { λ b. (Actor-box b).gives b.value };

    fn start(&mut self, out: &mut Outbox, permit: CallPermit) -> Answer {
        (**self).start(out, permit)
    }

    fn receive(&mut self, message: &Message, out: &mut Outbox, permit: CallPermit) -> Answer {
        (**self).receive(message, out, permit)
    }

    fn restart(&mut self, cause: Cause, out: &mut Outbox, permit: CallPermit) -> Answer {
        (**self).restart(cause, out, permit)
    }

    fn stop(&mut self, out: &mut Outbox, permit: CallPermit) {
        (**self).stop(out, permit);
    }

    fn state(&self) -> i64 {
        (**self).state()
    }
}
