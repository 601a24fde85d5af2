//! Actors that are new by their type.
ghost use Rattle.std.specs.Prelude.{◌≡◌, []};

use mb_actor::Actor;

/// An actor to which no message has come yet: its content is that of no message. A constructor that answers it has shown so once, and
/// whoever adds the actor to a `NewSystem` has nothing to show. (This project's own profile: in Akka an actor is made by its `Props`
/// inside the system.)
#[derive(Drop)]
pub struct Unused<A: Actor> {
    /// The actor.
    pub actor: A,
    /// No message came to it.
    pub ghost unused: { A.content actor ≡ A.after actor [] },
}

impl<A: Actor> Unused<A> {
    /// The same actor, to which no message has come.
    pub fn new(actor: A) -> Self
        requires unused { A.content actor ≡ A.after actor [] }
        ensures { result.actor ≡ actor }
    {
        Unused { actor }
    }
}
