//! What is done to an actor, and what it has to answer, as data.
ghost use Rattle.mb_gate.specs.NamedActors.{NamesBelow};

use crate::order_check::OrderCheck;
use crate::test_home::GUARDIAN;
use mb_msg::{Cause, SysMsg};

/// A call by a pass, and its answer.
#[derive(Clone, Copy)]
pub enum PassStep {
    /// The actor's status word.
    Word(u64),
    /// The same, read by the other pass.
    OtherWord(u64),
    /// How many envelopes are counted as waiting.
    Waiting(u64),
    /// Whether there is system work.
    HasSystem(bool),
    /// One envelope is counted.
    NoteSent,
    /// One envelope is counted, refused and taken back.
    NoteRefused,
    /// A try by the other pass finds that the actor is held.
    IsHeld,
    /// A try by the other pass finds that the actor is closed.
    IsClosed,
    /// A message is put into the list: its number, or `None` where the list is ended.
    Enqueue(SystemMessage, Option<u64>),
}

/// What the holder does, and the answer.
#[derive(Clone, Copy)]
pub enum HeldStep {
    /// A pass does this meanwhile.
    Look(PassStep),
    /// It is the one actor that is held.
    IsOfGuardian,
    /// Suspends the actor: whether that was the first time.
    Suspend(Option<bool>),
    /// Undoes one suspension: whether that was the last one.
    Resume(bool),
    /// Counts one envelope as taken.
    NoteTaken,
    /// Drains the list: what was seen up to then.
    Drain(OrderCheck),
    /// Closes the actor and its list: what was seen up to then.
    Close(OrderCheck),
}

/// A message of the system.
#[derive(Clone, Copy)]
pub enum SystemMessage {
    Create,
    Terminate,
    Recreate,
    Failed,
}

impl SystemMessage {
    /// The message, which names no actor but the one.
    pub fn of_system(self) -> SysMsg
        ensures named { NamesBelow 1 result }
    {
        let cause = Cause::Error(0);
        match self {
            SystemMessage::Create => SysMsg::Create,
            SystemMessage::Terminate => SysMsg::Terminate,
            SystemMessage::Recreate => SysMsg::Recreate(cause),
            SystemMessage::Failed => SysMsg::Failed(GUARDIAN, cause),
        }
    }
}
