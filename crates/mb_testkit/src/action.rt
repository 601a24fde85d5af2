//! What a test actor does when it is called, as data.
ghost use Rattle.std.specs.Prelude.{◌≡◌};

use mb_actor::{Answer, Message, Outbox};
use mb_msg::ActorId;

/// One thing that an actor does, with the number of the actor that it concerns. What the outbox refuses is left out.
#[derive(Clone, Copy)]
pub enum Action {
    Spawn(u16),
    Watch(u16),
    Unwatch(u16),
    Stop(u16),
    /// It tells that actor a message of this kind, with the value of the message that it handles.
    Tell(u16, u32),
    /// It sends that actor such a control message.
    Control(u16, u32),
    /// It fails with this number, and does no more.
    Fail(u32),
}

/// What is done about the messages of each kind; nothing about other kinds.
pub type Handlers = &'static [(u32, &'static [Action])];

/// Does what is listed for this message, and answers.
pub fn hear(habits: Handlers, message: &Message, out: &mut Outbox) -> Answer
    ensures actors { out.new.actors ≡ out.old.actors }
    ensures unspawned { out.new.unspawned ≡ out.old.unspawned }
{
    match *message {
        Message::User { kind, value } => do_all(actions_of(habits, kind), value, out),
        Message::Control { kind, value } => do_all(actions_of(habits, kind), value, out),
        Message::Terminated(_) => Answer::Handled,
    }
}

// What is listed for messages of this kind.
fn actions_of(habits: Handlers, kind: u32) -> &'static [Action] {
    for (of, deeds) in habits {
        if *of == kind {
            return *deeds;
        }
    }
    &[]
}

/// Does these in order, up to the first that fails, and answers.
pub fn do_all(deeds: &[Action], value: i64, out: &mut Outbox) -> Answer
    ensures actors { out.new.actors ≡ out.old.actors }
    ensures unspawned { out.new.unspawned ≡ out.old.unspawned }
{
    for deed in deeds {
        if let Action::Fail(number) = *deed {
            return Answer::Failed(number);
        }
        ask(*deed, value, out);
    }
    Answer::Handled
}

// Asks for the effect of this, if it has one.
fn ask(deed: Action, value: i64, out: &mut Outbox)
    ensures actors { out.new.actors ≡ out.old.actors }
    ensures unspawned { out.new.unspawned ≡ out.old.unspawned }
{
    let _refused = match deed {
        Action::Spawn(id) => out.spawn(ActorId(id)),
        Action::Watch(id) => out.watch(ActorId(id)),
        Action::Unwatch(id) => out.unwatch(ActorId(id)),
        Action::Stop(id) => out.stop(ActorId(id)),
        Action::Tell(to, kind) => out.tell(ActorId(to), kind, value),
        Action::Control(to, kind) => out.control(ActorId(to), kind, value),
        Action::Fail(_) => Ok(()),
    };
}
