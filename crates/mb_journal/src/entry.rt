//! The entries of a journal.
use mb_actor::{Answer, Effect};
use mb_msg::{Envelope, SysMsg};

/// What came to an actor and what became of it, without the effects. With the fields in this order it takes 56 bytes.
#[derive(Clone, Copy, Debug, PartialEq, Eq)]
pub enum Received {
    /// An envelope that was handled: what the actor answered, if it was called, and the status word that was read
    /// before.
    Handled {
        answer: Option<Answer>,
        envelope: Envelope,
        reading: u64,
    },
    /// A system message that was applied: what the actor answered, if it was called, and the message's number.
    System {
        answer: Option<Answer>,
        number: u64,
        message: SysMsg,
    },
    /// A system message that was set aside, and its number.
    SetAside {
        number: u64,
        message: SysMsg,
    },
    /// An envelope that was dropped.
    Dropped {
        envelope: Envelope,
    },
}

/// An entry of a journal, as it is read.
#[derive(Clone, Copy)]
pub struct EntryRef<'a> {
    /// What came and what became of it.
    pub arrival: Received,
    /// The effects that the actor asked for, in order.
    pub effects: &'a [Effect],
}
