//! Typed actors as actors.
ghost use Rattle.std.specs.Prelude.{◌≡◌};

use crate::command::Command;
use crate::incoming::Incoming;
use crate::typed_actor::TypedActor;
use mb_actor::{Actor, Answer, CallPermit, Message, Outbox};
use mb_msg::Cause;
use std::marker::PhantomData;

/// A typed actor as an actor: each message is unpacked for it. A message that is no command of its type doesn't reach it: that
/// one is answered `Unhandled`, with no effect.
#[derive(Drop)]
pub struct Typed<C: Command, T: TypedActor<C>> {
    /// The typed actor.
    pub inner: T,
    commands: PhantomData<C>,
}

impl<C: Command, T: TypedActor<C>> Typed<C, T> {
    /// An actor that does what this typed actor does.
    pub fn new(inner: T) -> Self
        ensures { result.inner ≡ inner }
    {
        Typed {
            inner,
            commands: PhantomData,
        }
    }
}

impl<C: Command, T: TypedActor<C>> Actor for Typed<C, T> {
    ghost use Rattle.mb_typed.specs.Decoding.{after_decoded, gives_decoded};

    ghost after = { λ typed. after_decoded C.unpacked (T.after typed.inner) };

    ghost content = { λ typed. T.content typed.inner };

    ghost gives = { λ typed. gives_decoded C.unpacked (T.gives typed.inner) };

    fn start(&mut self, out: &mut Outbox, permit: CallPermit) -> Answer {
        self.inner.start(out, permit)
    }

    fn receive(&mut self, message: &Message, out: &mut Outbox, permit: CallPermit) -> Answer {
        match Incoming::of(message) {
            Some(incoming) => self.inner.receive(&incoming, out, permit),
            None => Answer::Unhandled,
        }
    }

    fn restart(&mut self, cause: Cause, out: &mut Outbox, permit: CallPermit) -> Answer {
        self.inner.restart(cause, out, permit)
    }

    fn stop(&mut self, out: &mut Outbox, permit: CallPermit) {
        self.inner.stop(out, permit);
    }

    fn state(&self) -> i64 {
        self.inner.state()
    }
}
