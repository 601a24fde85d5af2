//! The actors of a chat room. A line travels as a message: its kind is the number of the member that says it, its value what is said.
#![tactic(auto)]

ghost use Rattle.std.specs.Prelude.{◌≡◌, pos};
ghost use Rattle.chat_room_actors.specs.Rooms.{bit_of, opened, told};

use mb_actor::{Actor, Answer, CallPermit, Message, Outbox};
use mb_msg::{ActorId, Cause};

/// The number of the room.
pub const ROOM: ActorId = ActorId(1);

/// The number of the first of its members.
pub const ALICE: ActorId = ActorId(2);

/// The number of the second.
pub const BOB: ActorId = ActorId(3);

/// The number of the third.
pub const CAROL: ActorId = ActorId(4);

/// A member's failure: it was to say 0, which is nothing.
pub const NOTHING_SAID: u32 = 1;

/// A chat room, which spawns and watches its members. What one says, it tells each other one that has not stopped.
#[derive(Drop)]
pub struct Room {
    /// Which members have stopped: the sum of 2 to the power of each one's number.
    pub gone: u32,
}

/// The bit of this actor in `gone`; 0 from number 32 on.
fn bit(id: ActorId) -> u32
    ensures { result ≡ bit_of id }
{
    1u32.checked_shl(u32::from(id.0)).unwrap_or(0)
}

impl Room {
    /// Spawns all members, and watches them.
    fn open(&self, out: &mut Outbox)
        ensures { out.new ≡ opened out.old }
    {
        let _refused = (out.spawn(ALICE), out.spawn(BOB), out.spawn(CAROL));
        let _refused = (out.watch(ALICE), out.watch(BOB), out.watch(CAROL));
    }

    /// Tells this member a line, unless it says that itself or has stopped.
    fn tell(&self, member: ActorId, kind: u32, value: i64, out: &mut Outbox)
        ensures { out.new ≡ told self.now.gone kind value out.old member }
    {
        if kind != u32::from(member.0) && self.gone & bit(member) == 0 {
            let _refused = out.tell(member, kind, value);
        }
    }
}

impl Actor for Room {
    ghost use Rattle.chat_room_actors.specs.Rooms.{gone_after, room_gives};

    ghost after = { λ _ messages. pos (gone_after messages) };

    ghost content = { λ room. pos room.gone };

    ghost gives = { λ _. room_gives };

    fn start(&mut self, out: &mut Outbox, _: CallPermit) -> Answer {
        self.gone = 0;
        self.open(out);
        Answer::Handled
    }

    fn receive(&mut self, message: &Message, out: &mut Outbox, _: CallPermit) -> Answer {
        match *message {
            Message::User { kind, value } => {
                self.tell(ALICE, kind, value, out);
                self.tell(BOB, kind, value, out);
                self.tell(CAROL, kind, value, out);
                Answer::Handled
            }
            Message::Control { .. } => Answer::Unhandled,
            Message::Terminated(member) => {
                self.gone |= bit(member);
                Answer::Handled
            }
        }
    }

    fn restart(&mut self, _cause: Cause, out: &mut Outbox, _: CallPermit) -> Answer {
        self.gone = 0;
        self.open(out);
        Answer::Handled
    }

    fn stop(&mut self, _out: &mut Outbox, _: CallPermit) {}

    fn state(&self) -> i64 {
        i64::from(self.gone)
    }
}

/// A member of a chat room. It tells the room each line of its own, and fails at one that says 0. It hears those of the others.
#[derive(Drop)]
pub struct Member {
    /// Its number.
    pub id: ActorId,
    /// The sum of what it said and heard since its last start, held at the ends of 64 bits.
    pub sum: i64,
}

impl Actor for Member {
    ghost use Rattle.chat_room_actors.specs.Members.{sum_of, member_gives};

    ghost after = { λ _. sum_of };

    ghost content = { λ member. member.sum };

    ghost gives = { λ member. member_gives member.id };

    fn start(&mut self, _out: &mut Outbox, _: CallPermit) -> Answer {
        self.sum = 0;
        Answer::Handled
    }

    fn receive(&mut self, message: &Message, out: &mut Outbox, _: CallPermit) -> Answer {
        let Message::User { kind, value } = *message else {
            return Answer::Unhandled;
        };
        self.sum = self.sum.saturating_add(value);
        if kind == u32::from(self.id.0) {
            if value == 0 {
                return Answer::Failed(NOTHING_SAID);
            }
            let _refused = out.tell(ROOM, kind, value);
        }
        Answer::Handled
    }

    fn restart(&mut self, _cause: Cause, _out: &mut Outbox, _: CallPermit) -> Answer {
        self.sum = 0;
        Answer::Handled
    }

    fn stop(&mut self, _out: &mut Outbox, _: CallPermit) {}

    fn state(&self) -> i64 {
        self.sum
    }
}
