//! An actor that does what its plan says, and whose state is always 0.
ghost use Rattle.std.specs.Prelude.{◌≡◌};

use mb_actor::{Actor, Answer, CallPermit, Message, Outbox};
use mb_msg::{ActorId, Cause};

/// What an actor asks for.
#[derive(Clone, Copy)]
pub(crate) enum Ask {
    /// This actor is watched.
    Watch(u16),
    /// This child is started.
    Spawn(u16),
}

/// An actor that may ask for something at its start, handles messages of kind 1 and each Terminated, and fails at all others.
#[derive(Drop)]
pub(crate) struct PlannedActor {
    pub(crate) at_start: Option<Ask>,
}

impl Actor for PlannedActor {
    ghost use Rattle.std.specs.Prelude.{pos};

    ghost after = { λ _ _. pos 0 };

    ghost content = { λ _. pos 0 };

    ghost gives = { λ _ _ _. Unit {0} };

    fn start(&mut self, out: &mut Outbox, _: CallPermit) -> Answer {
        if let Some(ask) = self.at_start {
            ask_for(ask, out);
        }
        Answer::Handled
    }

    fn receive(&mut self, message: &Message, _out: &mut Outbox, _: CallPermit) -> Answer {
        match message {
            Message::User { kind: 1, .. } | Message::Terminated(_) => Answer::Handled,
            _ => Answer::Failed(1),
        }
    }

    fn restart(&mut self, _cause: Cause, _out: &mut Outbox, _: CallPermit) -> Answer {
        Answer::Handled
    }

    fn stop(&mut self, _out: &mut Outbox, _: CallPermit) {}

    fn state(&self) -> i64 {
        0
    }
}

/// Asks for this.
fn ask_for(ask: Ask, out: &mut Outbox)
    ensures actors { out.new.actors ≡ out.old.actors }
    ensures unspawned { out.new.unspawned ≡ out.old.unspawned }
{
    let _refused = match ask {
        Ask::Watch(id) => out.watch(ActorId(id)),
        Ask::Spawn(id) => out.spawn(ActorId(id)),
    };
}
