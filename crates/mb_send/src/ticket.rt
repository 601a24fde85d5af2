//! The answer to a look: a ticket for a receiver that is open, or that it is closed.
ghost use Rattle.std.specs.Prelude.{◌≡◌};
ghost use Rattle.mb_send.specs.Answers.{receiver_of};

use mb_msg::ActorId;

/// Says that a receiver was seen open. Only a look makes one. It may be used again, also after the receiver has ended: what is
/// sent by it then stays queued (this project's own profile).
#[derive(Clone, Copy, Debug, PartialEq, Eq)]
pub struct Ticket {
    /// The receiver.
    pub(crate) to: ActorId,
}

impl Ticket {
    /// The receiver that was seen open.
    pub fn receiver(self) -> ActorId
        ensures { result ≡ receiver_of self }
    {
        self.to
    }
}

/// How a receiver was seen.
#[derive(Clone, Copy, Debug, PartialEq, Eq)]
pub enum Look {
    /// Its mailbox was open.
    Open(Ticket),
    /// It was closed, which is for good.
    Closed,
}
