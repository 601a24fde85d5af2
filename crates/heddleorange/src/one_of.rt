//! An actor of one of two types.
use mb_actor::{Actor, Answer, CallPermit, Message, Outbox};
use mb_msg::Cause;

/// An actor of one of two types, so that actors of both stand in one system without boxes: each call is one of the actor in it. For
/// more types, `B` is again such a type. (This project's own profile: in Akka all actors are behind references.)
#[derive(Drop)]
pub enum OneOf<A: Actor, B: Actor> {
    /// An actor of the first type.
    First(A),
    /// An actor of the second type.
    Second(B),
}

impl<A: Actor, B: Actor> Actor for OneOf<A, B> {
    ghost use Rattle.heddleorange.specs.declared.one_of.OneOf.TheVariants.{First, Second};

    ghost after = { elim [ First actor ↦ A.after actor | Second actor ↦ B.after actor ] };

    ghost content = { elim [ First actor ↦ A.content actor | Second actor ↦ B.content actor ] };

    ghost gives = { elim [ First actor ↦ A.gives actor | Second actor ↦ B.gives actor ] };

    fn start(&mut self, out: &mut Outbox, permit: CallPermit) -> Answer {
        match self {
            OneOf::First(actor) => actor.start(out, permit),
            OneOf::Second(actor) => actor.start(out, permit),
        }
    }

    fn receive(&mut self, message: &Message, out: &mut Outbox, permit: CallPermit) -> Answer {
        match self {
            OneOf::First(actor) => actor.receive(message, out, permit),
            OneOf::Second(actor) => actor.receive(message, out, permit),
        }
    }

    fn restart(&mut self, cause: Cause, out: &mut Outbox, permit: CallPermit) -> Answer {
        match self {
            OneOf::First(actor) => actor.restart(cause, out, permit),
            OneOf::Second(actor) => actor.restart(cause, out, permit),
        }
    }

    fn stop(&mut self, out: &mut Outbox, permit: CallPermit) {
        match self {
            OneOf::First(actor) => actor.stop(out, permit),
            OneOf::Second(actor) => actor.stop(out, permit),
        }
    }

    fn state(&self) -> i64 {
        match self {
            OneOf::First(actor) => actor.state(),
            OneOf::Second(actor) => actor.state(),
        }
    }
}
