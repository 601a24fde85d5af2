//! The record of the system messages that a run sends. It exists in proofs alone.
ghost use Rattle.std.specs.Prelude.{◌≡◌, [], ◌∷◌, ◌++◌};

use mb_ghost::Log;
use mb_msg::{ActorId, SysMsg};
use std::marker::Model;

/// A system message that was sent. No value of it is kept: it is what a log remembers.
#[derive(Drop)]
pub struct SentMessage {
    /// To which actor.
    pub to: ActorId,
    /// Which message.
    pub message: SysMsg,
    /// Whether the actor's list was ended.
    pub was_ended: bool,
}

/// The system messages that were sent in a claim's run. It is for proofs alone and takes no bytes.
#[derive(Drop)]
pub struct SentSystemLog {
    past: Log<SentMessage>,
}

const _: () = prove!(size_of::<SentSystemLog>() == 0);

impl Model for SentSystemLog {
    ghost use Rattle.std.specs.Prelude.{List, map};
    ghost use Rattle.mb_gate.specs.View.{SentSystem};

    ghost Value = { List SentSystem };

    ghost use Rattle.mb_gate.specs.SentSystemLog.{sent_system_of};

    ghost view = { λ sayings. map sent_system_of sayings.past };
}

impl SentSystemLog {
    /// No message was sent.
    pub fn new() -> Self
        ensures { result ≡ [] }
    {
        SentSystemLog { past: Log::new() }
    }

    /// This message was sent to this actor, whose list took it or was ended.
    pub fn add(&mut self, to: ActorId, message: SysMsg, was_ended: bool)
        ensures { self.new ≡ self.old ++ record { to = to.0; message = message; was_ended = was_ended } ∷ [] }
    {
        self.past.add(SentMessage {
            to,
            message,
            was_ended,
        });
    }
}
