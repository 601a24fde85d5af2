//! An actor whose behaviour is data.

ghost use Rattle.std.specs.Prelude.{◌≡◌};

use mb_actor::{Actor, Answer, Behaviours, CallPermit, Message, Outbox};
use mb_msg::{ActorId, Cause};

/// What the actor is asked to do: the kind and the value of a message, where the value is the number of an actor or of
/// an error.
pub(crate) type Asked = (u32, i64);

/// Nothing more than each message does: it is counted.
pub(crate) const ADD: u32 = 1;

/// To fail with this error.
pub(crate) const FAIL: u32 = 2;

/// To tell this actor to add 9.
pub(crate) const TELL: u32 = 3;

pub(crate) const WATCH: u32 = 4;

pub(crate) const UNWATCH: u32 = 5;

pub(crate) const STOP: u32 = 6;

pub(crate) const SPAWN: u32 = 7;

/// To answer that it does not know the message.
pub(crate) const LEAVE: u32 = 8;

/// An actor that counts the messages that it receives. At its start, its restarts, its stop and at each Terminated it
/// does these two things, in order.
#[derive(Drop)]
pub(crate) struct ScriptedActor {
    pub(crate) start: [Asked; 2],
    pub(crate) restart: [Asked; 2],
    pub(crate) stop: [Asked; 2],
    pub(crate) ends: [Asked; 2],
    pub(crate) count: u32,
}

/// The behaviours of actors that count their messages.
#[derive(Drop)]
pub(crate) struct Counting {}

impl Behaviours for Counting {
    ghost use Rattle.std.specs.Prelude.{pos, length, ◌%◌, ◌^◌};

    ghost after = { λ _ messages. pos (length messages % 2 ^ 32) };

    ghost gives = { λ _ _ _. Unit {0} };
}

impl Actor for ScriptedActor {
    ghost use Rattle.std.specs.Prelude.{pos, length, ◌%◌, ◌^◌};

    ghost after = { λ _ messages. pos (length messages % 2 ^ 32) };

    ghost content = { λ player. pos player.count };

    ghost gives = { λ _ _ _. Unit {0} };

    fn start(&mut self, out: &mut Outbox, _: CallPermit) -> Answer {
        self.count = 0;
        perform_both(self.start, out)
    }

    fn receive(&mut self, message: &Message, out: &mut Outbox, _: CallPermit) -> Answer {
        self.count = self.count.wrapping_add(1);
        match message {
            Message::User { kind, value } | Message::Control { kind, value } => {
                perform((*kind, *value), out)
            }
            Message::Terminated(_) => perform_both(self.ends, out),
        }
    }

    fn restart(&mut self, _cause: Cause, out: &mut Outbox, _: CallPermit) -> Answer {
        self.count = 0;
        perform_both(self.restart, out)
    }

    fn stop(&mut self, out: &mut Outbox, _: CallPermit) {
        let _answer = perform_both(self.stop, out);
    }

    fn state(&self) -> i64 {
        i64::from(self.count)
    }
}

/// Does both, the second unless the first ends the call.
fn perform_both(both: [Asked; 2], out: &mut Outbox) -> Answer
    ensures actors { out.new.actors ≡ out.old.actors }
    ensures unspawned { out.new.unspawned ≡ out.old.unspawned }
{
    let first = perform(both[0], out);
    if !matches!(first, Answer::Handled) {
        return first;
    }
    perform(both[1], out)
}

/// Does what is asked; what the outbox refuses is left out.
fn perform(asked: Asked, out: &mut Outbox) -> Answer
    ensures actors { out.new.actors ≡ out.old.actors }
    ensures unspawned { out.new.unspawned ≡ out.old.unspawned }
{
    let (kind, value) = asked;
    let of = u16::try_from(value).unwrap_or(0);
    let _refused = match kind {
        LEAVE => return Answer::Unhandled,
        FAIL => return Answer::Failed(u32::from(of)),
        TELL => out.tell(ActorId(of), ADD, 9),
        WATCH => out.watch(ActorId(of)),
        UNWATCH => out.unwatch(ActorId(of)),
        STOP => out.stop(ActorId(of)),
        SPAWN => out.spawn(ActorId(of)),
        _ => Ok(()),
    };
    Answer::Handled
}
