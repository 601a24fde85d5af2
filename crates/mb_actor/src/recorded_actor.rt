//! An actor with the ghost history of its calls.
ghost use Rattle.std.specs.Prelude.{◌≡◌, List, [], ◌∷◌, ◌++◌, Some, None};
ghost use Rattle.mb_actor.specs.Behaviour.{IsAllowed, Keeps};
ghost use Rattle.mb_actor.specs.declared.message.Message.{Message};

use crate::actor::Actor;
use crate::answer::Answer;
use crate::call::Call;
use crate::history::History;
use crate::message::Message;
use crate::outbox::Outbox;
use mb_msg::Cause;
use std::marker::Model;

/// An actor with the calls that were made of it, for proofs alone. It is called in no other way.
///
/// It is no larger than the actor.
#[derive(Drop)]
pub struct RecordedActor<A: Actor> {
    actor: A,
    history: History,
}

impl<A: Actor> Model for RecordedActor<A> {
    ghost use Rattle.mb_actor.specs.RecordedActor.{RecordedActor as Seen};

    ghost Value = { Seen A };

    ghost view = { λ c. record { actor = c.actor; calls = c.history } };
}

impl<A: Actor> RecordedActor<A> {
    /// The actor, of which no call was made.
    pub fn new(actor: A) -> Self
        ensures { result ≡ record { actor = actor; calls = [] } }
    {
        let (actor, history) = History::of(actor);
        RecordedActor { actor, history }
    }

    /// Calls its `start` once.
    pub fn start(&mut self, out: &mut Outbox) -> Answer
        requires empty { out.old.effects ≡ [] }
        ensures called { self.new.calls ≡ Call.Start ∷ self.old.calls }
        ensures begins { A.content self.new.actor ≡ A.after self.new.actor [] }
        ensures given { IsAllowed (A.content self.old.actor) (A.after self.old.actor) (A.gives self.new.actor)
            Call.Start (Some result) out.old out.new }
        ensures kept { Keeps (A.after self.old.actor) (A.gives self.old.actor) out.old
            (A.after self.new.actor) (A.gives self.new.actor) out.new }
    {
        let permit = self.history.permit(Call::Start);
        self.actor.start(out, permit)
    }

    /// Calls its `receive` once, with this message.
    pub fn receive(&mut self, message: &Message, out: &mut Outbox) -> Answer
        requires empty { out.old.effects ≡ [] }
        ensures called { self.new.calls ≡ Call.Receive message.now ∷ self.old.calls }
        ensures continues { (l : List Message) → A.content self.old.actor ≡ A.after self.old.actor l →
            A.content self.new.actor ≡ A.after self.new.actor (l ++ message.now ∷ []) }
        ensures given { IsAllowed (A.content self.old.actor) (A.after self.old.actor) (A.gives self.new.actor)
            (Call.Receive message.now) (Some result) out.old out.new }
        ensures kept { Keeps (A.after self.old.actor) (A.gives self.old.actor) out.old
            (A.after self.new.actor) (A.gives self.new.actor) out.new }
    {
        let permit = self.history.permit(Call::Receive(*message));
        self.actor.receive(message, out, permit)
    }

    /// Calls its `restart` once, with this cause.
    pub fn restart(&mut self, cause: Cause, out: &mut Outbox) -> Answer
        requires empty { out.old.effects ≡ [] }
        ensures called { self.new.calls ≡ Call.Restart cause ∷ self.old.calls }
        ensures begins { A.content self.new.actor ≡ A.after self.new.actor [] }
        ensures given { IsAllowed (A.content self.old.actor) (A.after self.old.actor) (A.gives self.new.actor)
            (Call.Restart cause) (Some result) out.old out.new }
        ensures kept { Keeps (A.after self.old.actor) (A.gives self.old.actor) out.old
            (A.after self.new.actor) (A.gives self.new.actor) out.new }
    {
        let permit = self.history.permit(Call::Restart(cause));
        self.actor.restart(cause, out, permit)
    }

    /// Calls its `stop` once.
    pub fn stop(&mut self, out: &mut Outbox)
        requires empty { out.old.effects ≡ [] }
        ensures called { self.new.calls ≡ Call.Stop ∷ self.old.calls }
        ensures stays { A.content self.new.actor ≡ A.content self.old.actor }
        ensures given { IsAllowed (A.content self.old.actor) (A.after self.old.actor) (A.gives self.new.actor)
            Call.Stop None out.old out.new }
        ensures kept { Keeps (A.after self.old.actor) (A.gives self.old.actor) out.old
            (A.after self.new.actor) (A.gives self.new.actor) out.new }
    {
        let permit = self.history.permit(Call::Stop);
        self.actor.stop(out, permit);
    }

    /// The actor's content as one number. This is not recorded as a call.
    pub fn state(&self) -> i64
        ensures { result ≡ A.content self.now.actor }
    {
        self.actor.state()
    }
}
